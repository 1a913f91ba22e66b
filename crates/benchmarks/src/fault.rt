// Why a benchmark gives no number.
ghost use Rattle.std.specs.Prelude.{◌≡◌};
ghost use Rattle.benchmarks.specs.declared.fault.Fault.TheVariants.{NoMemory as no_memory, BadName as bad_name, Refused as refused};

use dc_talk::Refusal;
use ids_core::{BadName, NoMemory};

/// Why there is no number.
#[derive(Clone, Copy)]
pub enum Fault {
    /// A name is none, which those here are not.
    BadName,
    /// The session refused a call, as more than 1,024 commits are pending.
    Refused,
    /// What was read is no sum.
    NoSum,
    /// Memory was refused.
    NoMemory,
}

impl From<NoMemory> for Fault {
    ghost from_gives = { λ _ e. e ≡ no_memory };

    fn from(_: NoMemory) -> Self {
        Fault::NoMemory
    }
}

impl From<BadName> for Fault {
    ghost from_gives = { λ _ e. e ≡ bad_name };

    fn from(_: BadName) -> Self {
        Fault::BadName
    }
}

impl From<Refusal> for Fault {
    ghost from_gives = { λ _ e. e ≡ refused };

    fn from(_: Refusal) -> Self {
        Fault::Refused
    }
}
