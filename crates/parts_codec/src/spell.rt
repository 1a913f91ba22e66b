// What has bytes.
ghost use Rattle.std.specs.Prelude.{◌≡◌, ◌↔◌, ◌++◌, OnOk, Err, IsTrue};
ghost use Rattle.state_codec.specs.declared.writing.NotPut.TheVariants.{Unfit};
ghost use Rattle.state_codec.specs.Reading.{Gives};

use state_codec::{NotPut, Stop};
use std::alloc::Global;

/// Plain data that may have bytes.
pub trait Spell: Drop {
    ghost use Rattle.std.specs.Prelude.{ℕ, List};
    ghost use Rattle.state_codec.specs.Reading.{Reading};

    // It has bytes.
    ghost has_bytes: { Self → Type 0 };

    // Its bytes.
    ghost spelled: { Self → List ℕ };

    // The one with which bytes begin, and what stands behind it.
    ghost reading: { List ℕ → Reading Self };

    /// Whether it has bytes. It takes no memory.
    fn fits(&self) -> bool
        ensures { IsTrue result ↔ has_bytes self.now };

    /// Puts its bytes behind others. After an `Err` some of them may stand there. It is `Unfit` only where it has none.
    fn put(&self, out: &mut Vec<u8>) -> Result<(), NotPut>
        ensures ok { OnOk result (out.new.items ≡ out.old.items ++ spelled self.now) }
        ensures fits { OnOk result (has_bytes self.now) }
        ensures unfit { result ≡ Err Unfit → has_bytes self.now → ⊥ };

    /// The one with which bytes begin, and what stands behind it.
    fn at(alloc: Global, bytes: &[u8]) -> Result<(Self, &[u8]), Stop>
        ensures { Gives (λ x. (x.0, x.1.now)) result (reading bytes.now) };
}
