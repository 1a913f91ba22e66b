//! What a run leaves: the trails of the centres and the logs of the actors, and what makes them fit
//! one another and a script. These definitions stand in this crate's `specs/`. By them a book can be
//! asked for the basis of a read, for its graph of transactions, and for values of objects.
#![tactic(auto)]

mod bare_nodes;
mod basis;
mod book;
mod edits;
mod laws;
mod object_acts;
mod read_bases;
mod read_values;
mod replay;

pub use bare_nodes::BareNode;
pub use book::{Book, Logs, Trails};
pub use edits::{Edit, Edits};
pub use laws::{
    law_agree, law_causal, law_closed, law_hops, law_known, law_numbers, law_one_list, law_pruned,
    law_read_stands, law_refusals, law_session, law_sound, law_together, law_value,
};
pub use read_bases::Dots;
