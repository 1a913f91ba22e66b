// The conditions on the parts of a centre, by name.

/// A condition on the parts of a centre. They are what the safety of a centre that goes on from them needs; that
/// they are those of any trail is no condition.
#[derive(Clone, Copy, PartialEq, Eq)]
pub enum Condition {
    /// The centre is one of its centres, which are at most `MOST_CENTRES`.
    Centre,
    /// K is a number of centres.
    Known,
    /// It stamps at most `MOST_RECORDS` transactions.
    Limit,
    /// Vector, base, mark and trimmed have an entry for each centre.
    Widths,
    /// There is one told row for each centre, with an entry for each.
    Rows,
    /// The outbox has a row for each of `MOST_CENTRES`.
    Outbox,
    /// It has stamped no more transactions than it may.
    Room,
    /// The mark covers the base.
    MarkOverBase,
    /// What is stable covers the mark.
    StableOverMark,
    /// What all centres are known to have covers trimmed.
    KnownOverTrimmed,
    /// The noted clients strictly ascend, each one of 1 to `MOST_CLIENTS` with a number of 1 or more.
    Notes,
    /// Each noted stamp is of a centre.
    NoteStamps,
    /// The clients of the point strictly ascend.
    PointClients,
    /// The objects of the point strictly ascend.
    PointObjects,
    /// Each transaction of the rest has at most `MOST_UPDATES` updates.
    RestUpdates,
    /// The transactions of the rest have different dots.
    RestDots,
    /// Each transaction of the rest has a number of at most its client's that is noted.
    RestNumbers,
}

/// All conditions, in the order in which they are tested.
pub const CONDITIONS: [Condition; 17] = [
    Condition::Centre,
    Condition::Known,
    Condition::Limit,
    Condition::Widths,
    Condition::Rows,
    Condition::Outbox,
    Condition::Room,
    Condition::MarkOverBase,
    Condition::StableOverMark,
    Condition::KnownOverTrimmed,
    Condition::Notes,
    Condition::NoteStamps,
    Condition::PointClients,
    Condition::PointObjects,
    Condition::RestUpdates,
    Condition::RestDots,
    Condition::RestNumbers,
];
