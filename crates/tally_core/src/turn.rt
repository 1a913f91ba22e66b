// Tallies changed in place.
ghost use Rattle.std.specs.Prelude.{◌≡◌, Some, None, fold, true, false, is_some, OnOk, OnErr};
ghost use Rattle.std.specs.Option.{unwrap_or};
ghost use Rattle.std.specs.Ordering.{eq_by_cmp};
ghost use Rattle.std.specs.BTreeMap.{get};
ghost use Rattle.ids_core.specs.Ascending.{IsAscending};
ghost use Rattle.tally_core.specs.declared.place.Place as the_place;
ghost use Rattle.tally_core.specs.Places.{place_cmp, place};
ghost use Rattle.tally_core.specs.Cells.{turn, turned, changed, lowers, cell, nothing};
ghost use Rattle.tally_core.specs.Parted.{IsParted, seen_of};
ghost use Rattle.tally_core.specs.Room.{CanFall, CanLower, can_fall, is_within};
ghost use Rattle.tally_core.specs.Turn.{Puts, lowered, owes, repaid};

use crate::parted::Parted;
use crate::place::{Cell, Place};
use crate::room::{clear, is_nothing, is_within};
use ids_core::{Name, NoMemory, OpId};
use std::collections::BTreeMap;
use std::collections::btree_map::Entry;

// The changes of one operation. An `Err` leaves all as it was.
pub(crate) fn turn_all<P: Copy>(
    cells: &mut Parted<P>,
    name: &Name,
    id: &OpId,
    add: Option<P>,
    over: &[OpId],
) -> Result<(), NoMemory>
    requires parted { IsParted cells.old }
    requires ascending { IsAscending over.now }
    requires lowers { CanLower cells.old name.now over.now }
    ensures parted { IsParted cells.new }
    ensures ok { OnOk result (seen_of cells.new ≡ changed (seen_of cells.old) name.now id.now add over.now) }
    ensures err { OnErr result (seen_of cells.new ≡ seen_of cells.old) }
{
    let owed = match add {
        Some(kept) => raise(cells, name, id, kept)?,
        None => false,
    };
    lower_all(cells, name, over);
    if owed {
        clear(cells, name, id);
    }
    Ok(())
}

// One more for an identifier, of an add that keeps something; whether it was owed, so that a cell of 0 may
// be left. An `Err` leaves all as it was.
fn raise<P: Copy>(cells: &mut Parted<P>, name: &Name, id: &OpId, kept: P) -> Result<bool, NoMemory>
    requires { IsParted cells.old }
    ensures parted { IsParted cells.new }
    ensures ok { OnOk result (seen_of cells.new ≡ turn (seen_of cells.old) (place name.now id.now, Some kept)) }
    ensures err { OnErr result (seen_of cells.new ≡ seen_of cells.old) }
    ensures stays { OnOk result ((p : the_place.Place) → CanFall cells.old p → CanFall cells.new p) }
{
    if raise_owed(&mut cells.owed, name, id, kept) {
        return Ok(true);
    }
    raise_live(&mut cells.live, name, id, kept)?;
    Ok(false)
}

// One more for an identifier with a tally below 0, and whether it has one. A cell of 0 is taken out.
fn raise_owed<P: Copy>(owed: &mut BTreeMap<Place, Cell<P>>, name: &Name, id: &OpId, kept: P) -> bool
    ensures owes { result ≡ owes (get place_cmp owed.old (place name.now id.now)) }
    ensures puts { Puts owed.old owed.new (place name.now id.now) (repaid kept (get place_cmp owed.old (place name.now id.now))) }
{
    let place = Place {
        name: *name,
        id: *id,
    };
    let count = match owed.get(&place) {
        Some(cell) => cell.count,
        None => return false,
    };
    if count >= 0 {
        owed.remove(&place);
        return false;
    }
    match owed.get_mut(&place) {
        Some(cell) => *cell = turned(*cell, Some(kept)),
        None => unreachable!(),
    }
    true
}

// One more for an identifier that is owed none. An `Err` leaves all as it was.
fn raise_live<P: Copy>(
    live: &mut BTreeMap<Place, Cell<P>>,
    name: &Name,
    id: &OpId,
    kept: P,
) -> Result<(), NoMemory>
    ensures ok { OnOk result (Puts live.old live.new (place name.now id.now) (Some (turned (Some kept) (unwrap_or (get place_cmp live.old (place name.now id.now)) nothing)))) }
    ensures err { OnErr result (live.new.entries ≡ live.old.entries) }
{
    let place = Place {
        name: *name,
        id: *id,
    };
    match live.entry(place)? {
        Entry::Vacant(entry) => {
            entry.insert(make_cell(1, Some(kept)));
            Ok(())
        }
        Entry::Occupied(mut entry) => {
            let cell = *entry.get();
            if !is_within(true, cell.count) {
                return Err(NoMemory);
            }
            entry.insert(turned(cell, Some(kept)));
            Ok(())
        }
    }
}

// One less for each identifier.
fn lower_all<P: Copy>(cells: &mut Parted<P>, name: &Name, over: &[OpId])
    requires parted { IsParted cells.old }
    requires ascending { IsAscending over.now }
    requires room { CanLower cells.old name.now over.now }
    ensures parted { IsParted cells.new }
    ensures view { seen_of cells.new ≡ fold turn (seen_of cells.old) (lowers name.now over.now) }
{
    for id in over {
        lower(cells, name, id);
    }
}

// One less for an identifier: of its live cell, or else of its owed one.
fn lower<P: Copy>(cells: &mut Parted<P>, name: &Name, id: &OpId)
    requires parted { IsParted cells.old }
    requires falls { CanFall cells.old (place name.now id.now) }
    ensures parted { IsParted cells.new }
    ensures view { seen_of cells.new ≡ turn (seen_of cells.old) (place name.now id.now, None) }
    ensures stays { (p : the_place.Place) → eq_by_cmp place_cmp (place name.now id.now) p ≡ false → CanFall cells.old p → CanFall cells.new p }
{
    let place = Place {
        name: *name,
        id: *id,
    };
    if cells.live.contains_key(&place) {
        lower_in(&mut cells.live, name, id);
    } else {
        lower_in(&mut cells.owed, name, id);
    }
}

// One less for an identifier, whose cell goes where nothing is left in it.
fn lower_in<P: Copy>(cells: &mut BTreeMap<Place, Cell<P>>, name: &Name, id: &OpId)
    requires { can_fall None (get place_cmp cells.old (place name.now id.now)) ≡ true }
    ensures { Puts cells.old cells.new (place name.now id.now) (lowered (get place_cmp cells.old (place name.now id.now))) }
{
    let place = Place {
        name: *name,
        id: *id,
    };
    match cells.entry(place) {
        Ok(Entry::Occupied(mut entry)) => {
            let cell = turned(*entry.get(), None);
            if is_nothing(&cell) {
                entry.remove();
            } else {
                entry.insert(cell);
            }
        }
        _ => unreachable!(),
    }
}

fn turned<P: Copy>(cell: Cell<P>, add: Option<P>) -> Cell<P>
    requires { is_within (is_some add) cell.count ≡ true }
    ensures { result ≡ turned add cell }
{
    match add {
        Some(kept) => make_cell(cell.count + 1, Some(kept)),
        None => make_cell(cell.count - 1, cell.kept),
    }
}

fn make_cell<P: Copy>(count: i64, kept: Option<P>) -> Cell<P>
    ensures { result ≡ cell count kept }
{
    Cell {
        count,
        kept: if count > 0 { kept } else { None },
    }
}
