// What an actor has in a phase.
use dc_centre::Centre;
use dc_talk::Log;
use host_lock::Pass;

/// A caller of the hosts: its pass of each, in order, and its log.
#[derive(Drop)]
pub struct Caller {
    pub row: Vec<Pass<Centre>>,
    pub log: Log,
}
