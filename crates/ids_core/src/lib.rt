//! Names, identifiers of operations, objects, the limits of the system, and what a kind of replicated
//! objects is.
#![tactic(auto)]

mod ids;
mod kind;
mod limits;
mod memory;
mod name;
mod object;
mod tags;

pub use ids::{Dot, Mark, OpId, id_order, law_id_order, law_mark_order, mark_order};
pub use kind::{Kind, fold_all, law_order};
pub use limits::{
    MOST_CACHED, MOST_CENTRES, MOST_CLIENTS, MOST_DELTA, MOST_NUMBER, MOST_PENDING, MOST_RECORDS,
    MOST_TAGS, MOST_UPDATES,
};
pub use memory::NoMemory;
pub use name::{BadName, Name, law_name_order};
pub use object::{ObjectId, Sort, law_object_order};
pub use tags::Tags;
