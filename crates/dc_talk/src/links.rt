// What goes wrong on the way from one centre to another.

/// What a link makes of the items that are taken from it: one thing of each so-many-th, which is 1 or more, counted from
/// the moment at which the fault was set, and nothing of the others.
#[derive(Clone, Copy)]
pub enum LinkFault {
    /// Every item is delivered.
    Clean,
    /// Each such item is not delivered at all.
    Drop { every: u64 },
    /// Each such item is delivered two times in a row.
    Twice { every: u64 },
    /// Each such item is held, and delivered directly behind the next item of the link; where that is to be held too, as
    /// soon as that is taken. Where no item comes any more, it is delivered at the end.
    Hold { every: u64 },
    /// The last byte of each such item is missing, so it is no record: it is not delivered.
    Cut { every: u64 },
    /// The second byte of each such item is 0, so it is no record: it is not delivered.
    Bend { every: u64 },
}

/// Why the bytes of an item are not the frame of one record.
#[derive(Clone, Copy)]
pub enum FrameFault {
    /// They end before the frame does, and each whole field is allowed.
    Short,
    /// The first field that is not allowed begins at this place, counted from 0.
    Bad { place: u64 },
    /// They begin with a whole frame, which has so many bytes, and more stand behind it.
    Rest { used: u64 },
    /// They are the frame of one report.
    Report,
}

/// What comes of an item as it is taken from a link.
#[derive(Drop)]
pub enum Arrival<T> {
    /// What its bytes spell.
    Whole(T),
    /// Nothing, since its bytes spell no record. It was the item of this number, counted from 1, since the fault of the
    /// link was set.
    Spoilt { item: u64, why: FrameFault },
}
