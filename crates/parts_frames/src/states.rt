// The states of objects.
ghost use Rattle.std.specs.Prelude.{◌≡◌, true, All, IfSome};
ghost use Rattle.ids_core.specs.Name.{IsName};
ghost use Rattle.tally_core.specs.Listing.{is_stored, AreStored};
ghost use Rattle.state_codec.specs.Plain.{HasState};
ghost use Rattle.state_codec.specs.Spelling.{IsSpelled, IsSpelledLast, IsSpelledMember, IsSpelledEntry, IsSpelledPart, AreTallies};
ghost use Rattle.parts_codec.specs.Plain.{HasPart};
ghost use Rattle.parts_frames.specs.Ranges.{IsRangedLast, IsRangedMember, IsRangedEntry, IsRangedState, IsRangedPart};

use crate::see::See;
use ids_core::{Mark, Name};
use list_core::List;
use obj_map::Put;
use obj_register::RegisterOp;
use state_codec::{PlainPart, PlainState};
use tally_core::{Cell, Place};

impl See for PlainPart {
    ghost is_ranged = { λ part. HasPart part × IsRangedPart part };

    ghost has_bytes = { IsSpelledPart };

    fn see(&self) {
        see_name(&self.name);
        see_state(&self.state);
    }
}

// A state has bytes if it is one, and its numbers are in range.
fn see_state(state: &PlainState)
    ensures { HasState state.now → IsRangedState state.now → IsSpelled state.now }
{
    match state {
        PlainState::Counter(sum) => {
            let _sum = *sum;
        }
        PlainState::Register(last) => see_last(last),
        PlainState::Set(tallies) => see_members(tallies),
        PlainState::Map(tallies) => see_entries(tallies),
    }
}

fn see_last(last: &Option<(Mark, RegisterOp)>)
    ensures { IsRangedLast last.now → IsSpelledLast last.now }
{
    match last {
        None => {}
        Some((_mark, op)) => see_name(&op.word),
    }
}

fn see_members(tallies: &List<(Place, Cell<()>)>)
    ensures { AreStored tallies.now → All IsRangedMember tallies.now → AreTallies IsSpelledMember tallies.now }
{
    tallies.see();
}

impl See for (Place, Cell<()>) {
    ghost is_ranged = { λ e. (is_stored e.1 ≡ true) × IsRangedMember e };

    ghost has_bytes = { IsSpelledMember };

    fn see(&self) {
        see_name(&self.0.name);
        let _count = self.1.count;
    }
}

fn see_entries(tallies: &List<(Place, Cell<Put>)>)
    ensures { AreStored tallies.now → All IsRangedEntry tallies.now → AreTallies IsSpelledEntry tallies.now }
{
    tallies.see();
}

impl See for (Place, Cell<Put>) {
    ghost is_ranged = { λ e. (is_stored e.1 ≡ true) × IsRangedEntry e };

    ghost has_bytes = { IsSpelledEntry };

    fn see(&self) {
        see_name(&self.0.name);
        let _count = self.1.count;
        see_kept(&self.1.kept);
    }
}

// The word of a put is a name.
fn see_kept(kept: &Option<Put>)
    ensures { IfSome kept.now (λ put. IsName put.word) }
{
    match kept {
        None => {}
        Some(put) => see_name(&put.word),
    }
}

// What each name is.
fn see_name(name: &Name)
    ensures { IsName name.now }
{
    let _bytes = name.as_slice();
}
