// The two ends of a link.
ghost use Rattle.std.specs.Prelude.{◌≡◌, length};

use crate::law::Hold;
use std::marker::Model;

/// The end that puts. Contracts see its link, and what was put, in order.
#[derive(Drop)]
pub struct Giver<T> {
    pub(crate) hold: Hold<T>,
    pub(crate) puts: u64,
}

impl<T> Model for Giver<T> {
    ghost use Rattle.std.specs.Prelude.{◌≡◌, true, None, length};
    ghost use Rattle.mail_link.specs.Ends.{GiverView};

    ghost Value = { GiverView T };

    ghost view = { λ g. record { link = g.hold.web; put = g.hold.me.view.client.put } };

    ghost invariant = { λ g. (g.hold.me.hand ≡ None) × (g.hold.me.spare ≡ None) × (g.hold.me.view.client.puts ≡ true) × (g.puts ≡ length g.hold.me.view.client.put) };
}

/// The end that takes. Contracts see its link, what was taken, in order, and how often nothing was found.
#[derive(Drop)]
pub struct Taker<T> {
    pub(crate) hold: Hold<T>,
    pub(crate) takes: u64,
    pub(crate) misses: u64,
}

impl<T> Model for Taker<T> {
    ghost use Rattle.std.specs.Prelude.{◌≡◌, true, None, length};
    ghost use Rattle.mail_link.specs.Ends.{TakerView};

    ghost Value = { TakerView T };

    ghost view = { λ t. record { link = t.hold.web; taken = t.hold.me.view.client.taken; misses = t.misses } };

    ghost invariant = { λ t. (t.hold.me.hand ≡ None) × (t.hold.me.spare ≡ None) × (t.hold.me.view.client.takes ≡ true) × (t.takes ≡ length t.hold.me.view.client.taken) };
}

impl<T: Drop> Giver<T> {
    /// How many items were put.
    pub fn puts(&self) -> u64
        ensures { result ≡ length self.now.put }
    {
        self.puts
    }
}

impl<T: Drop> Taker<T> {
    /// How many items were taken.
    pub fn takes(&self) -> u64
        ensures { result ≡ length self.now.taken }
    {
        self.takes
    }

    /// How often a take found nothing, counted up to 2^64 - 1.
    pub fn misses(&self) -> u64
        ensures { result ≡ self.now.misses }
    {
        self.misses
    }
}
