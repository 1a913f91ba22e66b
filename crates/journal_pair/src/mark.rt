// The number of a generation.
ghost use Rattle.std.specs.Prelude.{◌≡◌, ◌+◌, ◌<◌, ◌^◌, ℕ, IsSome, IfSome};
ghost use Rattle.journal_pair.specs.Numbers.{IsFront};

/// The number of a generation, below 2^64.
#[derive(Clone, Copy)]
pub struct Mark {
    number: u64,
    ghost few: { number < 2 ^ 64 },
}

impl Mark {
    ghost use Rattle.journal_pair.specs.Marks.{number_of, mark_bytes};

    /// The first.
    pub fn first() -> Mark
        ensures { number_of result ≡ 0 }
    {
        Mark { number: 0 }
    }

    /// The next one, if there is one below 2^64.
    pub fn next(self) -> Option<Mark>
        ensures { IfSome result (λ next. number_of next ≡ number_of self + 1) }
    {
        if self.number == u64::MAX {
            return None;
        }
        Some(Mark {
            number: self.number + 1,
        })
    }

    /// The number.
    pub fn number(self) -> u64
        ensures { result ≡ number_of self }
    {
        self.number
    }

    /// Its eight bytes, the highest first.
    pub fn bytes(self) -> [u8; 8]
        ensures { result ≡ mark_bytes self }
    {
        self.number.to_be_bytes()
    }

    /// The number with whose bytes these begin, and how many it has; None where there are too few.
    pub fn read(bytes: &[u8]) -> Option<(Mark, usize)>
        ensures { IsFront mark_bytes bytes.now result }
    {
        if bytes.len() < 8 {
            return None;
        }
        let number = u64::from_be_bytes([
            bytes[0], bytes[1], bytes[2], bytes[3], bytes[4], bytes[5], bytes[6], bytes[7],
        ]);
        Some((Mark { number }, 8))
    }
}
