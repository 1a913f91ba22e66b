//! How far the play of a script is, for whoever wants to hear of it. No contract speaks of it.
#![tactic(auto)]

use io_edge::FreeGate;
use script_core::Script;

/// How much of a script there is to play.
#[derive(Clone, Copy)]
pub struct Extent {
    /// How many sections it has.
    pub sections: u64,
    /// How many lines its header, its steps and its phases take.
    pub lines: u64,
}

/// The lines of a header, as those of a phase around its steps.
const TWO_LINES: u64 = 2;

impl Extent {
    /// How much there is of a script.
    pub fn of(script: &Script) -> Self {
        let mut extent = Extent {
            sections: 0,
            lines: TWO_LINES,
        };
        for section in script.sections.as_slice() {
            let around = if section.phase { TWO_LINES } else { 0 };
            extent.sections = extent.sections.saturating_add(1);
            extent.lines = extent.lines.saturating_add(around);
            extent.lines = extent.lines.saturating_add(section.steps.len() as u64);
        }
        extent
    }
}

/// What hears how far the play of a script is. It may take its time, and changes nothing that a contract speaks of.
pub trait Progress: Sync {
    /// So many sections are played of a script of this extent: none before the first one, and in the end all.
    fn played(&self, sections: u64, of: Extent);
}

impl Progress for FreeGate {
    fn played(&self, _sections: u64, _of: Extent) {}
}

impl<P: Progress> Progress for &P {
    fn played(&self, sections: u64, of: Extent) {
        (**self).played(sections, of);
    }
}
