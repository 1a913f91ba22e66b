// Plain data whose bytes hang on the range of numbers alone: what its types say is seen of the value in hand.
ghost use Rattle.std.specs.Prelude.{◌≡◌, length, All};
ghost use Rattle.tx_core.specs.Checks.{IsFit};
ghost use Rattle.parts_codec.specs.Spelling.{IsHalf, IsSpelledTx, IsSpelledVector, IsSpelledStamp, IsSpelledNoted, IsSpelledFolded, IsSpelledSent, IsSpelledRest, IsSpelledList};
ghost use Rattle.parts_frames.specs.Ranges.{IsRangedSent, IsRangedRest};

use check_point::Folded;
use dc_talk::Sent;
use dup_guard::Noted;
use link_frames::see_updates;
use list_core::List;
use tx_core::{RestPart, Tx};
use vv_core::{Stamp, Vector};

/// Plain data that has bytes where its numbers are in range.
pub trait See {
    // Its numbers are in range, as far as its type does not say it.
    ghost is_ranged: { Self → Type 0 };

    // It has bytes.
    ghost has_bytes: { Self → Type 0 };

    /// It has bytes if its numbers are in range. The call changes nothing.
    fn see(&self)
        ensures { is_ranged self.now → has_bytes self.now };
}

impl See for u32 {
    ghost is_ranged = { λ _. Unit {0} };

    ghost has_bytes = { IsHalf };

    fn see(&self) {
        let _number = *self;
    }
}

impl See for Vector {
    ghost is_ranged = { λ _. Unit {0} };

    ghost has_bytes = { IsSpelledVector };

    fn see(&self) {
        see_each(self.as_slice());
    }
}

impl See for Stamp {
    ghost is_ranged = { λ _. Unit {0} };

    ghost has_bytes = { IsSpelledStamp };

    fn see(&self) {
        let _centre = self.centre;
        let _seq = self.seq;
    }
}

impl See for Noted {
    ghost is_ranged = { λ _. Unit {0} };

    ghost has_bytes = { IsSpelledNoted };

    fn see(&self) {
        let _client = self.client;
        let _number = self.number;
        self.stamp.see();
    }
}

impl See for Folded {
    ghost is_ranged = { λ _. Unit {0} };

    ghost has_bytes = { IsSpelledFolded };

    fn see(&self) {
        let _client = self.client;
        let _number = self.number;
    }
}

impl<T: See> See for List<T> {
    ghost is_ranged = { λ list. All T.is_ranged list };

    ghost has_bytes = { IsSpelledList T.has_bytes };

    fn see(&self) {
        let items = self.as_slice();
        let _count = items.len();
        see_each(items);
    }
}

// Each of them has bytes if its numbers are in range.
fn see_each<T: See>(items: &[T])
    ensures { All (λ item. T.is_ranged item → T.has_bytes item) items.now }
{
    for item in items {
        item.see();
    }
}

impl See for Sent {
    ghost is_ranged = { IsRangedSent };

    ghost has_bytes = { IsSpelledSent };

    fn see(&self) {
        let _fits = link_frames::fits(self);
    }
}

impl See for RestPart {
    ghost is_ranged = { IsRangedRest };

    ghost has_bytes = { IsSpelledRest };

    fn see(&self) {
        see_tx(&self.tx);
        self.stamps.see();
    }
}

// A transaction that is fit has bytes, since its names are names, and its tags ascend.
fn see_tx(tx: &Tx)
    ensures { IsFit (length tx.now.snap) tx.now → IsSpelledTx tx.now }
{
    let width = tx.snap.width();
    if tx.check(width).is_ok() {
        see_updates(tx.updates.as_slice());
    }
}
