// A machine that lets guests in.
ghost use Rattle.std.specs.Prelude.{◌≡◌};

use ids_core::NoMemory;
use machine_trail::Machine;

/// A gate lets the first so many guests in, and says of each whether it let them in.
#[derive(Drop)]
pub struct Gate {
    most: u64,
    inside: u64,
}

impl Gate {
    /// The gate for at most so many guests, none of them inside.
    pub fn new(most: u64) -> Gate
        ensures { result ≡ record { most = most; inside = 0 } }
    {
        Gate { most, inside: 0 }
    }
}

impl Machine for Gate {
    type Ask = u32;

    type Say = bool;

    type Settings = u64;

    ghost use Rattle.std.specs.Prelude.{◌≡◌, length, min, nat_lt};

    ghost settings = { λ gate. gate.most };

    ghost reply = { λ most log guest enters. enters ≡ nat_lt (length log) most };

    ghost stands = { λ gate log. gate.inside ≡ min (length log) gate.most };

    fn step(&mut self, _guest: &u32) -> Result<(bool, bool), NoMemory> {
        let open = self.inside < self.most;
        if open {
            self.inside += 1;
        }
        Ok((open, open))
    }

    fn copy_ask(guest: &u32) -> Result<u32, NoMemory> {
        Ok(*guest)
    }
}
