// The conditions on the parts of a bundle, by name.

/// The greatest depth of a bundle: a chain of centres that each adopted from the one before has no more.
pub const MOST_DEPTH: u8 = 8;

/// A condition on the parts of a bundle. They are what the safety of a centre that goes on from them needs; that
/// the numbers are those of any transactions is no condition.
#[derive(Clone, Copy, Debug, PartialEq, Eq)]
pub enum Condition {
    /// The base has the vector's width.
    BaseWidth,
    /// The mark has the vector's width.
    MarkWidth,
    /// There is one row for each centre.
    RowCount,
    /// Each row has the vector's width.
    RowWidths,
    /// The donor is a centre.
    Donor,
    /// The depth is at most `MOST_DEPTH`.
    Depth,
    /// The mark covers the base.
    MarkOverBase,
    /// The vector covers the mark.
    VectorOverMark,
    /// The clients strictly ascend.
    ClientOrder,
    /// Each client is one of 1 to `MOST_CLIENTS`.
    ClientRange,
    /// Each client's number is 1 or more.
    ClientNumbers,
    /// Each client's stamp is of a centre.
    ClientStamps,
    /// The objects strictly ascend.
    ObjectOrder,
    /// Each state is of its object's kind.
    StateSorts,
    /// Each transaction of the rest is fit for the centres.
    RestFit,
    /// Each transaction of the rest has a number of at most its client's.
    RestNumbers,
    /// The transactions of the rest have different dots.
    RestDots,
    /// Each transaction of the rest has a stamp.
    RestStamps,
}

/// All conditions, in the order in which they are tested.
pub const CONDITIONS: [Condition; 18] = [
    Condition::BaseWidth,
    Condition::MarkWidth,
    Condition::RowCount,
    Condition::RowWidths,
    Condition::Donor,
    Condition::Depth,
    Condition::MarkOverBase,
    Condition::VectorOverMark,
    Condition::ClientOrder,
    Condition::ClientRange,
    Condition::ClientNumbers,
    Condition::ClientStamps,
    Condition::ObjectOrder,
    Condition::StateSorts,
    Condition::RestFit,
    Condition::RestNumbers,
    Condition::RestDots,
    Condition::RestStamps,
];
