// Room for the identifiers that an operation lowers, taken before any change.
ghost use Rattle.std.specs.Prelude.{◌≡◌, OnOk};
ghost use Rattle.std.specs.BTreeMap.{get};
ghost use Rattle.tally_core.specs.declared.place.Place as the_place;
ghost use Rattle.tally_core.specs.Places.{place, place_cmp};
ghost use Rattle.tally_core.specs.Cells.{is_nothing, nothing};
ghost use Rattle.tally_core.specs.Parted.{IsParted, seen_of};
ghost use Rattle.tally_core.specs.Room.{CanFall, CanLower, is_empty, is_within};

use crate::parted::Parted;
use crate::place::{Cell, Place};
use ids_core::{Name, NoMemory, OpId};
use std::collections::BTreeMap;
use std::collections::btree_map::Entry;

// Sees to it that a cell stands for each identifier, and that no tally will pass an end of `i64`.
pub(crate) fn make_room<P: Copy>(
    cells: &mut Parted<P>,
    name: &Name,
    over: &[OpId],
) -> Result<(), NoMemory>
    requires { IsParted cells.old }
    ensures parted { IsParted cells.new }
    ensures view { seen_of cells.new ≡ seen_of cells.old }
    ensures lowers { OnOk result (CanLower cells.new name.now over.now) }
{
    for id in over {
        stand(cells, name, id)?;
    }
    Ok(())
}

// The same of one identifier. Where none stands, a cell of 0 is put among the owed ones.
fn stand<P: Copy>(cells: &mut Parted<P>, name: &Name, id: &OpId) -> Result<(), NoMemory>
    requires { IsParted cells.old }
    ensures parted { IsParted cells.new }
    ensures view { seen_of cells.new ≡ seen_of cells.old }
    ensures stays { (p : the_place.Place) → CanFall cells.old p → CanFall cells.new p }
    ensures falls { OnOk result (CanFall cells.new (place name.now id.now)) }
{
    let place = Place {
        name: *name,
        id: *id,
    };
    if cells.live.contains_key(&place) {
        return Ok(());
    }
    match cells.owed.entry(place)? {
        Entry::Occupied(entry) => {
            if is_within(false, entry.get().count) {
                Ok(())
            } else {
                Err(NoMemory)
            }
        }
        Entry::Vacant(entry) => {
            entry.insert(nothing());
            Ok(())
        }
    }
}

// Takes out the cells of 0 that stand for the identifiers.
pub(crate) fn clear_room<P: Copy>(cells: &mut Parted<P>, name: &Name, over: &[OpId])
    requires { IsParted cells.old }
    ensures parted { IsParted cells.new }
    ensures view { seen_of cells.new ≡ seen_of cells.old }
{
    for id in over {
        clear(cells, name, id);
    }
}

// Takes the owed cell of an identifier out, where it is one of 0.
pub(crate) fn clear<P: Copy>(cells: &mut Parted<P>, name: &Name, id: &OpId)
    requires { IsParted cells.old }
    ensures parted { IsParted cells.new }
    ensures view { seen_of cells.new ≡ seen_of cells.old }
{
    let place = Place {
        name: *name,
        id: *id,
    };
    if is_empty_at(&cells.owed, &place) {
        cells.owed.remove(&place);
    }
}

// Whether a cell of 0 stands at the place.
fn is_empty_at<P: Copy>(cells: &BTreeMap<Place, Cell<P>>, place: &Place) -> bool
    ensures { result ≡ is_empty (get place_cmp cells.now place.now) }
{
    match cells.get(place) {
        Some(cell) => is_nothing(cell),
        None => false,
    }
}

fn nothing<P: Copy>() -> Cell<P>
    ensures { result ≡ nothing }
{
    Cell {
        count: 0,
        kept: None,
    }
}

pub(crate) fn is_nothing<P: Copy>(cell: &Cell<P>) -> bool
    ensures { result ≡ is_nothing cell.now }
{
    cell.count == 0 && cell.kept.is_none()
}

// Whether a tally can rise, or fall, within `i64`.
pub(crate) fn is_within(rises: bool, count: i64) -> bool
    ensures { result ≡ is_within rises count }
{
    if rises {
        count < i64::MAX
    } else {
        i64::MIN < count
    }
}
