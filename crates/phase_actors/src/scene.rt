// What the actors of a phase share.
use dc_host::Hosts;
use dc_links::Links;
use run_table::Dealt;
use script_core::{Script, Section, TapState};

/// A phase of a script as the section of a number, with its steps dealt to their actors, the hosts of the centres, the
/// links between them, and what their taps show before it.
#[derive(Clone, Copy)]
pub struct Scene<'a> {
    pub script: &'a Script,
    pub section: &'a Section,
    /// The number of the section, counted from 1.
    pub number: u32,
    pub dealt: &'a Dealt,
    pub hosts: &'a Hosts,
    pub links: &'a Links,
    pub taps: &'a [TapState],
}
