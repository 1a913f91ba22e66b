// The centres of a system, each under a lock of its own.
ghost use Rattle.std.specs.Prelude.{◌≡◌, ◌≤◌, length, IfOk, OnOk, All};
ghost use Rattle.std.specs.List.{AllZip};
ghost use Rattle.host_lock.specs.Hosts.{fresh_passes};
ghost use Rattle.dc_door.specs.Centres.{all_seen, seen_of, IsKeptCentre};
ghost use Rattle.dc_host.specs.Hosts.{AreFor, rows_of, bare_rows, new_rows, IsHostOf, AreOpened, HasHost, MayClose, AreClosed};

use crate::columns::{Column, add_column, cut, empty_rows};
use dc_centre::Centre;
use host_lock::{Host, Pass};
use ids_core::NoMemory;
use machine_trail::Kept;
use std::alloc::Global;
use std::marker::Model;

/// The hosts of the centres, in order, all for the same callers. Contracts see the hosts and the number of callers.
#[derive(Drop)]
pub struct Hosts {
    hosts: Vec<Host<Centre>>,
    callers: u32,
}

impl Model for Hosts {
    ghost use Rattle.dc_host.specs.Hosts.{HostsView, AreFor};
    ghost use Rattle.tx_core.specs.States.{state_codes};

    ghost Value = { HostsView };

    ghost coded = { Prim.hlevel state_codes };

    ghost view = { λ h. record { hosts = h.hosts.items; callers = h.callers } };

    ghost invariant = { λ h. AreFor h.callers h.hosts.items };
}

/// The hosts in order, and of each caller its passes of them.
#[derive(Drop)]
pub struct Opened {
    pub hosts: Vec<Host<Centre>>,
    pub rows: Vec<Vec<Pass<Centre>>>,
}

impl Hosts {
    /// Puts each centre with its trail under a lock, for 1 to 4,096 callers. It gives for each caller in order its
    /// passes: one for each host, in order, each with the caller's number, counted from 1. Each trail is the opening
    /// list of its host. A trail of 2^62 or more entries is answered as want of memory.
    pub fn new(
        alloc: Global,
        kept: Vec<Kept<Centre>>,
        callers: u32,
    ) -> Result<(Hosts, Vec<Vec<Pass<Centre>>>), NoMemory>
        requires kept { All IsKeptCentre kept.items }
        requires callers { (1 ≤ callers) × (callers ≤ 4096) }
        ensures hosts { IfOk result (λ r. AllZip IsHostOf (all_seen kept.items) r.0.hosts) }
        ensures callers { IfOk result (λ r. r.0.callers ≡ callers) }
        ensures each { IfOk result (λ r. AreFor callers r.0.hosts) }
        ensures passes { IfOk result (λ r. rows_of r.1.items ≡ new_rows r.0.hosts 1 callers) }
    {
        let Opened { hosts, rows } = open_all(alloc, kept, callers)?;
        Ok((Hosts { hosts, callers }, rows))
    }

    /// The hosts in order.
    pub fn as_slice(&self) -> &[Host<Centre>]
        ensures { result.now ≡ self.now.hosts }
    {
        self.hosts.as_slice()
    }

    /// The hosts in order, as they are. It takes no memory.
    pub fn into_hosts(self) -> Vec<Host<Centre>>
        ensures { result.items ≡ self.hosts }
    {
        self.hosts
    }

    /// Gives the centres back in order, each with its trail, where the passes of all callers are given, a row for
    /// each caller. Each trail is its host's whole history. After an `Err`, which is want of memory for sorting the
    /// passes, centres and passes are gone.
    pub fn close(
        self,
        alloc: Global,
        rows: Vec<Vec<Pass<Centre>>>,
    ) -> Result<Vec<Kept<Centre>>, NoMemory>
        requires { bare_rows (rows_of rows.items) ≡ new_rows self.hosts 1 self.callers }
        ensures { IfOk result (λ kept. AreClosed self.hosts (rows_of rows.items) kept.items) }
    {
        close_all(alloc, self.hosts, rows)
    }
}

// One host more, of which each caller gets its pass.
fn add_host(
    opened: &mut Opened,
    host: Host<Centre>,
    passes: Vec<Pass<Centre>>,
) -> Result<(), NoMemory>
    requires { length passes.items ≡ length opened.old.rows.items }
    ensures { OnOk result (HasHost opened.old host passes.items opened.new) }
{
    opened.hosts.push(host)?;
    add_column(&mut opened.rows, passes)
}

// A host over one centre.
fn open_one(
    alloc: Global,
    kept: Kept<Centre>,
    callers: u32,
) -> Result<(Host<Centre>, Vec<Pass<Centre>>), NoMemory>
    requires kept { IsKeptCentre kept }
    requires callers { (1 ≤ callers) × (callers ≤ 4096) }
    ensures host { IfOk result (λ r. IsHostOf (seen_of kept) r.0) }
    ensures callers { IfOk result (λ r. r.0.callers ≡ callers) }
    ensures passes { IfOk result (λ r. r.1.items ≡ fresh_passes r.0 callers) }
{
    Host::new(alloc, kept, callers)
}

// A host over each centre.
fn open_all(alloc: Global, kept: Vec<Kept<Centre>>, callers: u32) -> Result<Opened, NoMemory>
    requires kept { All IsKeptCentre kept.items }
    requires callers { (1 ≤ callers) × (callers ≤ 4096) }
    ensures { IfOk result (λ o. AreOpened callers (all_seen kept.items) o) }
{
    let mut opened = Opened {
        hosts: Vec::new(alloc),
        rows: empty_rows(alloc, callers, kept.len())?,
    };
    'kept: for one in kept {
        let (host, passes) = open_one(alloc, one, callers)?;
        add_host(&mut opened, host, passes)?;
    }
    Ok(opened)
}

// The centres of these hosts, with their trails.
fn close_all(
    alloc: Global,
    mut hosts: Vec<Host<Centre>>,
    rows: Vec<Vec<Pass<Centre>>>,
) -> Result<Vec<Kept<Centre>>, NoMemory>
    requires { MayClose hosts.items (rows_of rows.items) }
    ensures { IfOk result (λ kept. AreClosed hosts.items (rows_of rows.items) kept.items) }
{
    if hosts.is_empty() {
        return Ok(Vec::new(alloc));
    }
    let host = hosts.remove(0);
    let Column { first, rest } = cut(alloc, rows)?;
    let one = host.close(first);
    let mut kept = close_all(alloc, hosts, rest)?;
    kept.insert(0, one)?;
    Ok(kept)
}
