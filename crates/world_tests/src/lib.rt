//! Tests of the system on one thread, as only a caller of `World` sees it: events in odd orders, rounds that are not there, and
//! a world that was refused memory.
#![tactic(auto)]

#[cfg(test)]
mod dice;
#[cfg(test)]
mod events;
#[cfg(test)]
mod rounds;
#[cfg(test)]
mod scripts;
#[cfg(test)]
mod spent;
