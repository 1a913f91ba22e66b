// Numbers that look random, the same in each run.
ghost use Rattle.std.specs.Prelude.{◌<◌};

/// Numbers that look random (Knuth's linear congruential generator).
#[derive(Drop)]
pub struct Dice {
    state: u64,
}

impl Dice {
    /// The numbers of a seed.
    pub fn new(seed: u64) -> Dice {
        Dice { state: seed }
    }

    /// A number below the count of sides, and 0 where there is none.
    pub fn roll(&mut self, sides: u64) -> u64
        ensures { 0 < sides → result < sides }
    {
        self.state = self
            .state
            .wrapping_mul(6_364_136_223_846_793_005)
            .wrapping_add(1_442_695_040_888_963_407);
        (self.state >> 33) % sides.max(1)
    }

    /// The same of few sides.
    pub fn pick(&mut self, sides: u32) -> u32 {
        u32::try_from(self.roll(u64::from(sides))).unwrap_or(0)
    }

    /// A number from 0 to `n`.
    pub fn near(&mut self, n: u8) -> u8 {
        u8::try_from(self.roll(u64::from(n).saturating_add(1))).unwrap_or(0)
    }
}
