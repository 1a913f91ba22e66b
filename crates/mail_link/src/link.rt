// What lies between the two ends.
ghost use Rattle.std.specs.Prelude.{◌≡◌, [], ◌∷◌, ◌++◌, List, length, IfOk, OnOk, IfErr, IfSome, IfNone};
ghost use Rattle.mail_link.specs.Ends.{one_more};

use crate::ends::{Giver, Taker};
use crate::law::{CountLeft, Line, PutItem, TakeItem, TwoEnds};
use ids_core::NoMemory;
use std::alloc::Global;
use std::marker::Model;
use std::sync::Wait;

/// A link: a queue of items between one end that puts and one that takes. Contracts see which link it is. It may be
/// let go; what is left on it goes with it.
pub struct Link<T> {
    line: Line<T>,
}

impl<T> Model for Link<T> {
    ghost use Rattle.atomic_blocks.specs.Laid.{WebId};

    ghost Value = { WebId };

    ghost view = { λ l. l.line.web };
}

impl<T: Drop> Drop for Link<T> {
    fn drop(self) {
        let Link { line } = self;
        line.destroy();
    }
}

impl<T: Drop> Link<T> {
    /// A link that nothing was put on, and its two ends.
    pub fn new(alloc: Global) -> Result<(Link<T>, Giver<T>, Taker<T>), NoMemory>
        ensures giver { IfOk result (λ r. (r.1.link ≡ r.0) × (r.1.put ≡ [])) }
        ensures taker { IfOk result (λ r. (r.2.link ≡ r.0) × (r.2.taken ≡ []) × (r.2.misses ≡ 0)) }
    {
        let (line, mut hold) = match Line::<T>::with_rule(alloc) {
            Ok(made) => made,
            Err(_) => return Err(NoMemory),
        };
        let other = line.another::<TwoEnds>(&mut hold);
        Ok((
            Link { line },
            Giver { hold, puts: 0 },
            Taker {
                hold: other,
                takes: 0,
                misses: 0,
            },
        ))
    }

    /// Puts an item behind those that were put. It comes back, and nothing was put, only for want of memory or where
    /// 2^64 - 1 items were put. It may wait for a take that is under way.
    pub fn put<R: Wait>(&self, rt: &R, giver: &mut Giver<T>, item: T) -> Result<(), T>
        requires { giver.old.link ≡ self.now }
        ensures link { giver.new.link ≡ self.now }
        ensures put { OnOk result (giver.new.put ≡ giver.old.put ++ item ∷ []) }
        ensures none { IfErr result (λ x. (x ≡ item) × (giver.new.put ≡ giver.old.put)) }
    {
        if giver.puts == u64::MAX {
            return Err(item);
        }
        self.line.push_as::<PutItem, R>(rt, &mut giver.hold, item)?;
        giver.puts += 1;
        Ok(())
    }

    /// Takes the next item, in the order in which they were put. `None` is a miss, and is counted; no clause says
    /// when it comes. It may wait for a put that is under way.
    pub fn take<R: Wait>(&self, rt: &R, taker: &mut Taker<T>) -> Option<T>
        requires { taker.old.link ≡ self.now }
        ensures link { taker.new.link ≡ self.now }
        ensures took { IfSome result (λ x. (taker.new.taken ≡ taker.old.taken ++ x ∷ []) × (taker.new.misses ≡ taker.old.misses)) }
        ensures none { IfNone result ((taker.new.taken ≡ taker.old.taken) × (taker.new.misses ≡ one_more taker.old.misses)) }
    {
        if taker.takes < u64::MAX {
            if let Some(item) = self.line.pop_as::<TakeItem, R>(rt, &mut taker.hold) {
                taker.takes += 1;
                return Some(item);
            }
        }
        taker.misses = taker.misses.saturating_add(1);
        None
    }

    /// How many items are left: what was put is what was taken, and then these. They go with the link. It may wait for
    /// a step that is under way.
    pub fn close<R: Wait>(self, rt: &R, giver: Giver<T>, taker: Taker<T>) -> u64
        requires { (giver.link ≡ self) × (taker.link ≡ self) }
        ensures { (left : List T) × (giver.put ≡ taker.taken ++ left) × (length left ≡ result) }
    {
        let Link { line } = self;
        let Giver { mut hold, puts: _ } = giver;
        let Taker {
            hold: other,
            takes: _,
            misses: _,
        } = taker;
        line.absorb::<TwoEnds>(&mut hold, other);
        let left = line.len_as::<CountLeft, R>(rt, &mut hold);
        line.destroy();
        left as u64
    }
}
