//! What clients ask of a data centre, what it answers, and the logs in which both are kept. The
//! definitions of a centre's answer and of a session's conduct stand in this crate's `specs/`.
#![tactic(auto)]

mod ask;
mod calls;
mod commit_places;
mod door;
mod entry;
mod fold;
mod laws;
mod line;
mod links;
mod list_door;
mod log;
mod noted;
mod replies;
mod say;
mod seen;
mod sent;
mod settings;

pub use ask::{Ask, MOST_CHANGES, MOST_HOPS, MOST_SENT};
pub use calls::{Cached, Call, Change, Connection, Outcome, Refusal};
pub use door::Door;
pub use entry::Entry;
pub use fold::fold_updates;
pub use laws::{law_delta, law_history};
pub use line::{Line, Miss, PushEnd, ShipEnd, StepWord};
pub use links::{Arrival, FrameFault, LinkFault};
pub use list_door::ListDoor;
pub use log::{Deed, Fate, Log, Note};
pub use noted::{Ended, NotedOutcome};
pub use replies::belongs;
pub use say::{Records, Say};
pub use seen::{Fed, NotedSeen, Seen};
pub use sent::{Sent, SharedRecord, SharedState, SharedTx};
pub use settings::Settings;
