//! What a run of a script leaves where the actors of a section act at once, section by section: definitions alone. By
//! them a book fits that has such steps.
#![tactic(auto)]
