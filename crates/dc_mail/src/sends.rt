// A round of a sender.
ghost use Rattle.std.specs.Prelude.{◌≡◌, ◌≤◌, OnOk, OnErr};
ghost use Rattle.ids_core.specs.declared.limits.TheConstants.{MOST_CENTRES};
ghost use Rattle.dc_talk.specs.Acting.{acting, IsCutShort};
ghost use Rattle.dc_talk.specs.Doors.{IsBehind};
ghost use Rattle.dc_mail.specs.Rounds.{HasSent, SentPart};

use crate::posts::Posts;
use dc_talk::{Door, Log};
use dc_worker::mail_for;
use ids_core::NoMemory;
use std::alloc::Global;

/// Puts on the link from a centre to each other one of the `n` behind the door the frames of what that one lacks of this
/// centre's records, at most 64 each. An `Err` is want of memory: the round was made over the links to some first centres, and
/// nothing was put on the others.
pub fn send_all<D: Door>(
    alloc: Global,
    posts: &mut Posts,
    door: &mut D,
    n: u8,
    from: u8,
    log: &mut Log,
) -> Result<(), NoMemory>
    requires centres { (D.shown door.old).centres ≡ n }
    requires few { n ≤ MOST_CENTRES }
    requires from { IsBehind (D.shown door.old) from }
    ensures place { D.place door.new ≡ D.place door.old }
    ensures sends { OnOk result (HasSent n from posts.old posts.new (acting (D.shown door.old) log.old) (acting (D.shown door.new) log.new)) }
    ensures short { OnErr result (IsCutShort (acting (D.shown door.old) log.old) (acting (D.shown door.new) log.new)) }
    ensures part { OnErr result (SentPart n from posts.old posts.new (acting (D.shown door.old) log.old) (acting (D.shown door.new) log.new)) }
{
    'others: for before in 0..n {
        let to = before + 1;
        if to == from {
            continue 'others;
        }
        let items = mail_for(alloc, door, from, to, log)?;
        posts.put(alloc, from, to, &items)?;
    }
    Ok(())
}
