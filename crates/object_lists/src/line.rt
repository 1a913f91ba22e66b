// The items of one object.
ghost use Rattle.std.specs.Prelude.{◌≡◌, ◌++◌, ◌∷◌, ◌-◌, [], length, drop, take, OnOk, OnErr};
ghost use Rattle.std.specs.Bool.{OnTrue};
ghost use Rattle.std.specs.Fn.{CalledAt};
ghost use Rattle.std.specs.List.Retain.{IsFiltered};

use crate::fronts::drop_front;
use ids_core::NoMemory;
use std::alloc::Global;
use std::marker::Model;

/// Items in their order, seen as their list. Those that were taken at the front stay in their places
/// until they are the most of all, so that each costs a step or two.
#[derive(Drop)]
pub(crate) struct Line<T> {
    items: Vec<T>,
    gone: usize,
}

impl<T> Model for Line<T> {
    ghost use Rattle.std.specs.Prelude.{◌≤◌, List, length, drop};

    ghost Value = { List T };

    ghost view = { λ l. drop l.gone l.items.items };

    ghost invariant = { λ l. l.gone ≤ length l.items.items };
}

impl<T: Drop> Line<T> {
    // No item.
    pub(crate) fn new(alloc: Global) -> Self
        ensures { result ≡ [] }
    {
        Line {
            items: Vec::new(alloc),
            gone: 0,
        }
    }

    // The items in their order.
    pub(crate) fn as_slice(&self) -> &[T]
        ensures { result.now ≡ self.now }
    {
        self.items.as_slice().split_at(self.gone).1
    }

    // Whether there is none.
    pub(crate) fn is_empty(&self) -> bool
        ensures { OnTrue result (self.now ≡ []) }
    {
        self.as_slice().is_empty()
    }

    // Puts an item behind the others. Nothing changes where memory is refused.
    pub(crate) fn push(&mut self, item: T) -> Result<(), NoMemory>
        ensures ok { OnOk result (self.new ≡ self.old ++ item ∷ []) }
        ensures err { OnErr result (self.new ≡ self.old) }
    {
        self.items.push(item)?;
        Ok(())
    }

    // Takes the last item away, where there is one.
    pub(crate) fn drop_last(&mut self)
        ensures { self.new ≡ take (length self.old - 1) self.old }
    {
        if self.gone < self.items.len() {
            self.items.pop();
        }
    }

    // Takes the first item away, where there is one.
    pub(crate) fn drop_first(&mut self)
        ensures { self.new ≡ drop 1 self.old }
    {
        self.pass_first();
        if self.items.len() / 2 < self.gone {
            self.settle();
        }
    }

    // The same, but the item stays in its place.
    fn pass_first(&mut self)
        ensures { self.new ≡ drop 1 self.old }
    {
        if self.gone < self.items.len() {
            self.gone += 1;
        }
    }

    // Gives the places of the items that were taken at the front to others.
    fn settle(&mut self)
        ensures { self.new ≡ self.old }
    {
        drop_front(&mut self.items, self.gone);
        self.gone = 0;
    }

    // Leaves the items that pass.
    pub(crate) fn retain<F: FnMut(&T) -> bool>(&mut self, keeps: F)
        requires { F.IsAlwaysCallable keeps }
        ensures { IsFiltered (CalledAt F.FnMut) keeps self.old self.new }
    {
        drop_front(&mut self.items, self.gone);
        self.gone = 0;
        self.items.retain(keeps);
    }
}
