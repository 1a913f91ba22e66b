//! Reads scripts: which bytes are a script, of which settings and steps, and of all others the first line at fault and
//! why.
#![tactic(auto)]

mod fault;
mod fit;
mod form;
mod laws;
mod leads;
mod lines;
mod names;
mod numbers;
mod reading;
mod row;
mod said;
mod scripts;
mod shares;
mod steps;
mod taps;
mod words;

pub use fault::{Cause, ScriptFault};
pub use fit::{form_of, may_be};
pub use form::{FORMS, Form, Part, Word, parts, spelled};
pub use laws::law_script_in_range;
pub use lines::first_line;
pub use names::object_named;
pub use numbers::{are_digits, u8_in};
pub use reading::{Group, LineFault, Reading};
pub use said::{Said, said_word};
pub use scripts::parse;
pub use shares::holders_of;
pub use taps::{has_tap, shows};
pub use words::{is_blank, is_plain, without_return};
