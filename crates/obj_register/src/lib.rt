//! The register: the word of the write with the greatest mark.
#![tactic(auto)]

mod register;

pub use register::{RegisterOp, RegisterState, law_register};
