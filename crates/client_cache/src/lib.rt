//! The cache of a client: states of objects at vectors, the most recently used first.
#![tactic(auto)]

mod cache;
mod held;

pub use cache::Cache;
