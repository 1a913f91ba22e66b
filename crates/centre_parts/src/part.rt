// What a centre is taken apart into.

use check_point::PointParts;
use dc_talk::{Sent, Settings};
use dup_guard::Noted;
use join_bundle::Rows;
use list_core::List;
use tx_core::RestParts;
use vv_core::Vector;

/// What is noted of clients, in their order.
pub type Notes = List<Noted>;

/// Records of one origin, in their order.
pub type Sents = List<Sent>;

/// Records of each origin, in the order of the origins.
pub type Outbox = List<Sents>;

/// What a centre keeps of the records that it applied.
#[derive(Drop)]
pub struct AppliedParts {
    /// How many there are of each centre.
    pub vector: Vector,
    /// The greatest number of each client, with its first stamp.
    pub notes: Notes,
    /// The greatest rank, 0 for none.
    pub top: u64,
    /// What is folded.
    pub point: PointParts,
    /// The transactions that are not folded, in the order of the log.
    pub rest: RestParts,
}

/// What a centre keeps.
#[derive(Drop)]
pub struct CentreParts {
    pub settings: Settings,
    pub applied: AppliedParts,
    /// What each centre has told that it has.
    pub rows: Rows,
    /// The vector up to which the next prune folds.
    pub mark: Vector,
    /// The vector up to which records were let go.
    pub trimmed: Vector,
    /// The records of each origin that were not let go.
    pub outbox: Outbox,
    /// Whether the centre is stopped.
    pub stopped: bool,
}
