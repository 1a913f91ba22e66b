//! Graphs of transactions with written-out dependency sets, and the values of objects over sets of
//! their transactions, by which act sees which. These definitions stand in this crate's `specs/`; the
//! code computes the value of the acts on an object as it is defined, and looks at no tags.
#![tactic(auto)]

mod acts;
mod dot_set;
mod last;
mod unseen;
mod values;

pub use acts::{BareAct, change_of};
pub use dot_set::{DotSet, is_in};
pub use values::value_by_sees;
