// Asks of which a crash may leave all or nothing.
use crate::dice::Dice;
use crate::fault::Fault;
use crate::says::same;
use dc_centre::Centre;
use dc_talk::{Ask, Say};
use std::alloc::Global;

// The asks, what both centres with a journal answered to them, and how long the journals were before and behind them.
#[derive(Drop)]
pub struct Cut {
    pub asks: Vec<Ask>,
    pub says: Vec<Say>,
    pub before: u64,
    pub after: u64,
}

impl Cut {
    // No asks, where the journals are so long.
    pub fn none(alloc: Global, size: u64) -> Cut {
        Cut {
            asks: Vec::new(alloc),
            says: Vec::new(alloc),
            before: size,
            after: size,
        }
    }

    // Whether a crash may leave a journal so long.
    pub fn may_leave(&self, size: u64) -> bool {
        size == self.before || size == self.after
    }

    // Asks a centre without a journal the same asks, which has to answer the same.
    pub fn tell(&self, alloc: Global, plain: &mut Centre, dice: &mut Dice) -> Result<(), Fault> {
        for (ask, say) in self.asks.iter().zip(&self.says) {
            same(say, &told(alloc, plain, ask)?)?;
            dice.note(ask, say);
        }
        Ok(())
    }
}

// What a centre without a journal answers.
pub fn told(alloc: Global, plain: &mut Centre, ask: &Ask) -> Result<Say, Fault> {
    match plain.step(alloc, ask) {
        Ok((say, _)) => Ok(say),
        Err(_) => Err(Fault::NoMemory),
    }
}
