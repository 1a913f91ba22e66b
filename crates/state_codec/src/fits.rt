// Which states have bytes.
ghost use Rattle.std.specs.Prelude.{◌≡◌, ◌↔◌, All, IsTrue};
ghost use Rattle.ids_core.specs.Name.{IsName};
ghost use Rattle.tx_core.specs.Checks.{is_within, IsTag};
ghost use Rattle.state_codec.specs.Spelling.{IsSpelled, IsSpelledLast, IsSpelledPlace, IsTally, IsSpelledMember, IsSpelledKept, IsSpelledEntry, AreTallies, IsRank, IsSpelledPart};

use crate::numbers::is_within;
use crate::state::{PlainPart, PlainState};
use ids_core::{MOST_CLIENTS, MOST_NUMBER, MOST_UPDATES, Mark, Name, OpId};
use obj_map::Put;
use obj_register::RegisterOp;
use tally_core::{Cell, Place, ascend};

impl PlainState {
    /// Whether the state has bytes. It takes no memory.
    pub fn fits(&self) -> bool
        ensures { IsTrue result ↔ IsSpelled self.now }
    {
        match self {
            PlainState::Counter(sum) => {
                let _sum = *sum;
                true
            }
            PlainState::Register(last) => fits_last(last),
            PlainState::Set(tallies) => fit_members(tallies.as_slice()),
            PlainState::Map(tallies) => fit_entries(tallies.as_slice()),
        }
    }
}

impl PlainPart {
    /// Whether the state has bytes, and so both have. It takes no memory.
    pub fn fits(&self) -> bool
        ensures { IsTrue result ↔ IsSpelledPart self.now }
    {
        see(&self.name);
        self.state.fits()
    }
}

fn fits_last(last: &Option<(Mark, RegisterOp)>) -> bool
    ensures { IsTrue result ↔ IsSpelledLast last.now }
{
    match last {
        None => true,
        Some((mark, op)) => {
            see(&op.word);
            is_rank(mark.rank) && is_tag(&mark.id)
        }
    }
}

fn fit_members(list: &[(Place, Cell<()>)]) -> bool
    ensures { IsTrue result ↔ AreTallies IsSpelledMember list.now }
{
    let _size = list.len();
    ascend(list) && each_member(list)
}

fn each_member(list: &[(Place, Cell<()>)]) -> bool
    ensures { IsTrue result ↔ All IsSpelledMember list.now }
{
    list.iter().all(|member| fits_member(member))
}

fn fits_member(member: &(Place, Cell<()>)) -> bool
    ensures { IsTrue result ↔ IsSpelledMember member.now }
{
    let count = member.1.count;
    fits_place(&member.0) && is_tally(count) && member.1.kept.is_some() == (0 < count)
}

fn fit_entries(list: &[(Place, Cell<Put>)]) -> bool
    ensures { IsTrue result ↔ AreTallies IsSpelledEntry list.now }
{
    let _size = list.len();
    ascend(list) && each_entry(list)
}

fn each_entry(list: &[(Place, Cell<Put>)]) -> bool
    ensures { IsTrue result ↔ All IsSpelledEntry list.now }
{
    list.iter().all(|entry| fits_entry(entry))
}

fn fits_entry(entry: &(Place, Cell<Put>)) -> bool
    ensures { IsTrue result ↔ IsSpelledEntry entry.now }
{
    let count = entry.1.count;
    fits_place(&entry.0) && is_tally(count) && fits_kept(0 < count, &entry.1.kept)
}

fn fits_kept(live: bool, kept: &Option<Put>) -> bool
    ensures { IsTrue result ↔ IsSpelledKept live kept.now }
{
    match kept {
        None => !live,
        Some(put) => {
            see(&put.word);
            live && is_rank(put.rank)
        }
    }
}

fn fits_place(place: &Place) -> bool
    ensures { IsTrue result ↔ IsSpelledPlace place.now }
{
    see(&place.name);
    is_tag(&place.id)
}

fn is_tally(count: i64) -> bool
    ensures { IsTrue result ↔ IsTally count }
{
    count != 0
}

fn is_rank(rank: u64) -> bool
    ensures { IsTrue result ↔ IsRank rank }
{
    is_within(1, MOST_NUMBER, rank)
}

fn is_tag(id: &OpId) -> bool
    ensures { IsTrue result ↔ IsTag id.now }
{
    is_within(1, u64::from(MOST_CLIENTS), u64::from(id.dot.client))
        && is_within(1, MOST_NUMBER, id.dot.number)
        && is_within(0, MOST_UPDATES - 1, u64::from(id.place))
}

// What each name is.
fn see(name: &Name)
    ensures { IsName name.now }
{
    let _bytes = name.as_slice();
}
