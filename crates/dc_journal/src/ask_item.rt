// What stands in a journal for an ask.
ghost use Rattle.std.specs.Prelude.{◌≡◌};

use journal_asks::KeptAsk;
use journal_file::Item;
use journal_pair::Entry;

/// An item of a journal that may stand for an ask.
pub trait AskItem: Item {
    ghost use Rattle.journal_asks.specs.declared.kept_ask.KeptAsk.{KeptAsk};

    // What stands for the ask.
    ghost of_ask: { KeptAsk → Self };

    /// What stands for the ask.
    fn from_ask(ask: KeptAsk) -> Self
        ensures { result ≡ of_ask ask };
}

impl AskItem for KeptAsk {
    ghost of_ask = { λ ask. ask };

    fn from_ask(ask: KeptAsk) -> Self {
        ask
    }
}

// Behind a checkpoint the item stands as one that is behind it.
impl<T: AskItem> AskItem for Entry<T> {
    ghost use Rattle.journal_pair.specs.declared.entry.Entry.TheVariants.{Behind};

    ghost of_ask = { λ ask. Behind (T.of_ask ask) };

    fn from_ask(ask: KeptAsk) -> Self {
        Entry::Behind(T::from_ask(ask))
    }
}
