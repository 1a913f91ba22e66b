// The last phase of a script.
ghost use Rattle.std.specs.Prelude.{◌≡◌};
ghost use Rattle.vv_core.specs.Vectors.{most};
ghost use Rattle.load_text.specs.LastReads.{last_phase, phases_from};

use script_core::{Script, Section};

/// The number of the last section of a script that is a phase, counted from 1, and 0 where there is none. It takes time
/// in the number of sections.
pub fn last_phase(script: &Script) -> usize
    ensures { result ≡ last_phase script.now }
{
    last_in(script.sections.as_slice())
}

// The number of the last of sections that is a phase, and 0 where there is none.
fn last_in(sections: &[Section]) -> usize
    ensures { result ≡ most (phases_from 1 sections.now) }
{
    let mut last = 0;
    let mut number = 0;
    for section in sections {
        number += 1;
        if section.phase {
            last = number;
        }
    }
    last
}
