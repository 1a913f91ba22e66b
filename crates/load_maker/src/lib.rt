//! Made scripts: the load that a number stands for.
#![tactic(auto)]

mod draws;
mod laws;
mod line;
mod maker;
mod script;

pub use laws::law_made_script;
pub use script::script_of;
