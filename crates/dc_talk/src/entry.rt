// What a centre was asked and what it answered.
use crate::ask::Ask;
use crate::say::Say;

/// One ask of a caller, with its answer.
pub type Entry = machine_trail::Entry<Ask, Say>;
