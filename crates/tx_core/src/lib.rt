//! Transactions, their checks, and the states of objects.
#![tactic(auto)]

mod check;
mod laws;
mod names;
mod op;
mod part;
mod state;
mod tx;
mod updates;

pub use check::{TxFault, is_small_delta};
pub use laws::{law_state_order, law_state_tags, law_state_value};
pub use names::{NamePairs, Names, SharedList, Tail};
pub use op::Op;
pub use part::{RestPart, RestParts, Stamps, StatePart, StateParts};
pub use state::{State, Value};
pub use tx::{Record, Tx, Update};
pub use updates::Updates;
