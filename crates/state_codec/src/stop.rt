// Why reading stopped.
ghost use Rattle.std.specs.Prelude.{◌≡◌};
ghost use Rattle.state_codec.specs.declared.stop.Stop.TheVariants.{Memory};

use std::alloc::AllocFailed;

/// Why reading stopped.
#[derive(Clone, Copy)]
pub enum Stop {
    /// Memory ran out.
    Memory,
    /// The bytes do not begin with what is read.
    Other,
}

impl<T: Drop> From<AllocFailed<T>> for Stop {
    ghost from_gives = { λ _ e. e ≡ Memory };

    fn from(_: AllocFailed<T>) -> Stop {
        Stop::Memory
    }
}
