// A round of a receiver.
ghost use Rattle.std.specs.Prelude.{◌≡◌, ◌≤◌, OnOk, OnErr};
ghost use Rattle.ids_core.specs.declared.limits.TheConstants.{MOST_CENTRES};
ghost use Rattle.dc_talk.specs.Acting.{acting, IsCutShort};
ghost use Rattle.dc_talk.specs.Doors.{IsBehind};
ghost use Rattle.script_core.specs.Mail.{due_in_round, post_after_round};
ghost use Rattle.dc_mail.specs.Rounds.{HasReceived, ReceivedPart};

use crate::posts::Posts;
use dc_talk::{Door, Log};
use ids_core::NoMemory;
use std::alloc::Global;

/// Takes from the link from each other centre of the `n` behind the door at most 64 records, and delivers to this one
/// what comes of them. An `Err` is want of memory: the round was made over the links from some first centres, and over
/// the next one in part.
pub fn receive_all<D: Door>(
    alloc: Global,
    posts: &mut Posts,
    door: &mut D,
    n: u8,
    to: u8,
    log: &mut Log,
) -> Result<(), NoMemory>
    requires centres { (D.shown door.old).centres ≡ n }
    requires few { n ≤ MOST_CENTRES }
    requires to { IsBehind (D.shown door.old) to }
    ensures place { D.place door.new ≡ D.place door.old }
    ensures receives { OnOk result (HasReceived due_in_round post_after_round n to posts.old posts.new (acting (D.shown door.old) log.old) (acting (D.shown door.new) log.new)) }
    ensures short { OnErr result (IsCutShort (acting (D.shown door.old) log.old) (acting (D.shown door.new) log.new)) }
    ensures part { OnErr result (ReceivedPart due_in_round post_after_round n to posts.old posts.new (acting (D.shown door.old) log.old) (acting (D.shown door.new) log.new)) }
{
    'others: for before in 0..n {
        let from = before + 1;
        if from == to {
            continue 'others;
        }
        posts.bring_round(alloc, door, from, to, log)?;
    }
    Ok(())
}
