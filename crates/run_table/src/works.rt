// What a worker does in its turn.
ghost use Rattle.std.specs.Prelude.{◌≡◌, ◌≤◌, length, IfOk, OnOk, OnErr};
ghost use Rattle.ids_core.specs.declared.limits.TheConstants.{MOST_CENTRES, MOST_CLIENTS};
ghost use Rattle.dc_talk.specs.Acting.{acting, IsCutShort};
ghost use Rattle.dc_talk.specs.Doors.{IsBehind};
ghost use Rattle.run_book.specs.Moves.{actor_of};
ghost use Rattle.script_core.specs.Rounds.{role_number, PrunerDeeds};
ghost use Rattle.dc_worker.specs.Work.{AddsSuch};
ghost use Rattle.run_table.specs.Works.{work_of, HasWorkedPart};
ghost use Rattle.run_table.specs.Tables.{HasWorked};

use dc_mail::{Posts, close_all, receive_all, report_all, send_all};
use dc_talk::{Door, Log};
use dc_worker::prune_round;
use ids_core::NoMemory;
use script_core::{ROUNDS_BETWEEN_PRUNES, Role};
use std::alloc::Global;

/// What a worker does: a round in its role, or the closing round of a receiver.
#[derive(Clone, Copy)]
pub enum Work {
    /// A round of the worker with this role.
    Round(Role),
    /// The closing round of the receiver.
    Close,
}

// The number of a role among the workers of a centre.
fn role_number(role: Role) -> u32
    ensures { result ≡ role_number role }
{
    match role {
        Role::Sender => 1,
        Role::Receiver => 2,
        Role::Reporter => 3,
        Role::Pruner => 4,
    }
}

impl Work {
    /// The actor that does it at a centre, where there are so many clients.
    pub fn actor(self, clients: u32, centre: u8) -> u32
        requires clients { clients ≤ MOST_CLIENTS }
        requires centre { (1 ≤ centre) × (centre ≤ MOST_CENTRES) }
        ensures { result ≡ actor_of clients (work_of centre self) }
    {
        let number = match self {
            Work::Round(role) => role_number(role),
            Work::Close => 2,
        };
        clients + 1 + 4 * u32::from(centre - 1) + number
    }
}

/// The round of a number of the pruner of a centre: it prunes in each round whose number is a multiple of 8, and else it
/// does nothing. An `Err` is want of memory: the centre may have been asked without a note.
pub fn prune<D: Door>(door: &mut D, number: u32, centre: u8, log: &mut Log) -> Result<(), NoMemory>
    requires { IsBehind (D.shown door.old) centre }
    ensures place { D.place door.new ≡ D.place door.old }
    ensures prunes { OnOk result (AddsSuch (PrunerDeeds centre number) (acting (D.shown door.old) log.old) (acting (D.shown door.new) log.new)) }
    ensures short { OnErr result (IsCutShort (acting (D.shown door.old) log.old) (acting (D.shown door.new) log.new)) }
{
    if number % ROUNDS_BETWEEN_PRUNES == 0 {
        prune_round(door, centre, log)?;
    }
    Ok(())
}

/// Does the work of a centre among the `n` behind the door in a round of a number, over the links. An `Err` is want of
/// memory: it was done over the links of some first centres, and over that of the next one in part.
pub(crate) fn make_round<D: Door>(
    alloc: Global,
    posts: &mut Posts,
    door: &mut D,
    n: u8,
    number: u32,
    centre: u8,
    does: Work,
    log: &mut Log,
) -> Result<(), NoMemory>
    requires centres { (D.shown door.old).centres ≡ n }
    requires few { n ≤ MOST_CENTRES }
    requires centre { IsBehind (D.shown door.old) centre }
    ensures place { D.place door.new ≡ D.place door.old }
    ensures works { OnOk result (HasWorked n number (work_of centre does) posts.old posts.new (acting (D.shown door.old) log.old) (acting (D.shown door.new) log.new)) }
    ensures short { OnErr result (IsCutShort (acting (D.shown door.old) log.old) (acting (D.shown door.new) log.new)) }
    ensures part { OnErr result (HasWorkedPart n centre does posts.old posts.new (acting (D.shown door.old) log.old) (acting (D.shown door.new) log.new)) }
{
    match does {
        Work::Round(Role::Sender) => send_all(alloc, posts, door, n, centre, log),
        Work::Round(Role::Receiver) => receive_all(alloc, posts, door, n, centre, log),
        Work::Round(Role::Reporter) => report_all(door, n, centre, log),
        Work::Round(Role::Pruner) => prune(door, number, centre, log),
        Work::Close => close_all(alloc, posts, door, n, centre, log),
    }
}
