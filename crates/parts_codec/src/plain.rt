// A centre as plain data.

use centre_parts::{Notes, Outbox};
use check_point::Numbers;
use dc_talk::Settings;
use join_bundle::Rows;
use list_core::List;
use state_codec::PlainPart;
use tx_core::RestParts;
use vv_core::Vector;

/// Objects with a plain state each, in their order.
pub type PlainStates = List<PlainPart>;

/// What a centre folded: `PointParts`, with plain states.
#[derive(Drop)]
pub struct PlainPoint {
    /// The vector within which all is folded.
    pub vector: Vector,
    /// How many transactions were folded.
    pub folded: u64,
    /// The greatest number of each client that has one.
    pub numbers: Numbers,
    pub states: PlainStates,
}

/// What a centre keeps of the records that it applied: `AppliedParts`, with plain states.
#[derive(Drop)]
pub struct PlainApplied {
    /// How many there are of each centre.
    pub vector: Vector,
    /// The greatest number of each client, with its first stamp.
    pub notes: Notes,
    /// The greatest rank, 0 for none.
    pub top: u64,
    /// What is folded.
    pub point: PlainPoint,
    /// The transactions that are not folded, in the order of the log.
    pub rest: RestParts,
}

/// What a centre keeps: `CentreParts`, with plain states.
#[derive(Drop)]
pub struct PlainCentre {
    pub settings: Settings,
    pub applied: PlainApplied,
    /// What each centre has told that it has.
    pub rows: Rows,
    /// The vector up to which the next prune folds.
    pub mark: Vector,
    /// The vector up to which records were let go.
    pub trimmed: Vector,
    /// The records of each origin that were not let go.
    pub outbox: Outbox,
    /// Whether the centre is stopped.
    pub stopped: bool,
}
