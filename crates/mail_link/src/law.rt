// What the two ends of a link know, and the rule that holds between any two steps on its queue.
ghost use Rattle.std.specs.Prelude.{◌≡◌, [], ◌∷◌, ◌++◌};
ghost use Rattle.mail_link.specs.Law.{role};

use crossbeam_queue::protocol::{Join, Lesson, Outcome, Protocol, Split};
use crossbeam_queue::{RuledSegQueue, SegPass};
use std::collections::LinkedList;
use std::marker::PhantomData;

/// What an end may do, and what it has put or taken. No value of it is made.
pub struct Role<T> {
    pub puts: bool,
    pub takes: bool,
    pub put: LinkedList<T>,
    pub taken: LinkedList<T>,
}

/// The rule of a link: what was put is what was taken, and then what lies in the queue.
pub struct Order<T> {
    item: PhantomData<T>,
}

impl<T> Protocol<T, Role<T>> for Order<T> {
    ghost use Rattle.std.specs.Prelude.{true, []};
    ghost use Rattle.mail_link.specs.Law.{role, Ordered};

    ghost holds = { Ordered };

    ghost first = { role true true [] [] };
}

/// How one end becomes two, and two become one.
pub struct TwoEnds;

impl<T> Split<Role<T>> for TwoEnds {
    ghost use Rattle.std.specs.Prelude.{true, false, []};
    ghost use Rattle.mail_link.specs.Law.{role};

    ghost left = { λ v. role true false v.put [] };

    ghost right = { λ v. role false true [] v.taken };
}

impl<T> Join<Role<T>> for TwoEnds {
    ghost use Rattle.std.specs.Prelude.{true, false, []};
    ghost use Rattle.mail_link.specs.Law.{role};

    ghost both = { λ v w. role true true v.put w.taken };

    ghost spent = { role false false [] [] };
}

/// An item is put behind those that were.
pub struct PutItem;

impl<T> Outcome<T, Role<T>> for PutItem {
    ghost then = { λ v x w. w ≡ role v.puts v.takes (v.put ++ x ∷ []) v.taken };
}

/// An item is taken after those that were.
pub struct TakeItem;

impl<T> Outcome<T, Role<T>> for TakeItem {
    ghost then = { λ v x w. w ≡ role v.puts v.takes v.put (v.taken ++ x ∷ []) };
}

impl<T> Lesson<T, Role<T>> for TakeItem {
    ghost use Rattle.std.specs.Prelude.{⊤};

    ghost fact = { λ v items. ⊤ };
}

/// What both ends together know of what lies in the queue.
pub struct CountLeft;

impl<T> Lesson<T, Role<T>> for CountLeft {
    ghost fact = { λ v items. v.put ≡ v.taken ++ items };
}

/// The queue of a link.
pub type Line<T> = RuledSegQueue<T, Role<T>, Order<T>>;

/// The right to an end of the queue.
pub type Hold<T> = SegPass<T, Role<T>>;
