// Tallies as the list of their entries, and made again of it.
ghost use Rattle.std.specs.Prelude.{◌≡◌, ◌↔◌, ◌++◌, All, Some, IfOk, OnOk, IsTrue};
ghost use Rattle.std.specs.List.{list_all};
ghost use Rattle.std.specs.Map.{keys_of, lookup};
ghost use Rattle.std.specs.BTreeMap.{get, is_at, IsOrdered};
ghost use Rattle.std.specs.FinMap.{entries};
ghost use Rattle.std.specs.List.Sorted.{IsStrictlySortedBy};
ghost use Rattle.std.proofs.lemmas.Map.Entries.{option_filter};
ghost use Rattle.tally_core.specs.declared.place.Place as the_place;
ghost use Rattle.tally_core.specs.Places.{place_cmp};
ghost use Rattle.tally_core.specs.Cells.{seen};
ghost use Rattle.tally_core.specs.Changes.{or_else};
ghost use Rattle.tally_core.specs.Parted.{AreApart, IsParted, seen_of};
ghost use Rattle.tally_core.specs.Turn.{Puts};
ghost use Rattle.tally_core.specs.Listing.{AreStored, ascend, ascend_from, is_of, is_stored, is_there};

use crate::live::is_live;
use crate::parted::Parted;
use crate::place::{Cell, Place};
use crate::room::is_nothing;
use ids_core::NoMemory;
use std::alloc::Global;
use std::collections::BTreeMap;

/// Whether the list is one that tallies may have: the places ascend, no tally is 0, and something is kept
/// exactly where the tally is 1 or more. It takes no memory.
pub fn are_stored<P: Copy>(list: &[(Place, Cell<P>)]) -> bool
    ensures { IsTrue result ↔ AreStored list.now }
{
    ascend(list) && each_stored(list)
}

// Whether each cell is one that tallies may have.
fn each_stored<P: Copy>(list: &[(Place, Cell<P>)]) -> bool
    ensures { result ≡ list_all (λ e. is_stored e.1) list.now }
{
    list.iter().all(|entry| is_stored(&entry.1))
}

// The same of one cell.
fn is_stored<P: Copy>(cell: &Cell<P>) -> bool
    ensures { result ≡ is_stored cell.now }
{
    if is_live(cell) {
        cell.kept.is_some()
    } else {
        cell.count < 0 && cell.kept.is_none()
    }
}

/// Whether each place is below the next.
pub fn ascend<P: Copy>(list: &[(Place, Cell<P>)]) -> bool
    ensures { result ≡ ascend list.now }
{
    match list {
        [] => true,
        [first, rest @ ..] => ascend_from(&first.0, rest),
    }
}

// Whether the places ascend, from above one.
fn ascend_from<P: Copy>(low: &Place, list: &[(Place, Cell<P>)]) -> bool
    ensures { result ≡ ascend_from low.now list.now }
{
    let mut last = *low;
    for (place, _) in list {
        if last >= *place {
            return false;
        }
        last = *place;
    }
    true
}

// The entries of both parts.
pub(crate) fn entries_in<P: Copy>(
    alloc: Global,
    live: &BTreeMap<Place, Cell<P>>,
    owed: &BTreeMap<Place, Cell<P>>,
) -> Result<Vec<(Place, Cell<P>)>, NoMemory>
    requires { AreApart live.now.entries owed.now.entries }
    ensures list { IfOk result (λ list. list.items ≡ entries (seen (live.now.entries ++ owed.now.entries))) }
    ensures stored { IfOk result (λ list. AreStored list.items) }
{
    if owed.is_empty() {
        return list_of(alloc, live);
    }
    list_of(alloc, &tree_of(live, owed)?)
}

// The cells of a tree, in the order of their places.
fn list_of<P: Copy>(
    alloc: Global,
    cells: &BTreeMap<Place, Cell<P>>,
) -> Result<Vec<(Place, Cell<P>)>, NoMemory>
    ensures list { IfOk result (λ list. list.items ≡ cells.now.entries) }
    ensures ordered { IsOrdered place_cmp cells.now }
    ensures found { All (λ e. get place_cmp cells.now e.0 ≡ Some e.1) cells.now.entries }
{
    let mut list = Vec::new(alloc);
    for (place, cell) in cells.iter() {
        list.push((*place, *cell))?;
    }
    Ok(list)
}

// One tree of the cells of both parts, without those of 0.
fn tree_of<P: Copy>(
    live: &BTreeMap<Place, Cell<P>>,
    owed: &BTreeMap<Place, Cell<P>>,
) -> Result<BTreeMap<Place, Cell<P>>, NoMemory>
    ensures { IfOk result (λ all. (q : the_place.Place) → get place_cmp all q ≡ or_else (option_filter is_there (get place_cmp owed.now q)) (get place_cmp live.now q)) }
{
    let mut all = copy_of(live)?;
    for (place, cell) in owed.iter() {
        if !is_nothing(cell) {
            put(&mut all, *place, *cell)?;
        }
    }
    Ok(all)
}

// The same tree again.
fn copy_of<P: Copy>(cells: &BTreeMap<Place, Cell<P>>) -> Result<BTreeMap<Place, Cell<P>>, NoMemory>
    ensures { IfOk result (λ copy. copy.entries ≡ cells.now.entries) }
{
    Ok(cells.clone()?)
}

// The cells of a list of stored ones, in their parts.
pub(crate) fn parted_of<P: Copy>(
    alloc: Global,
    list: &[(Place, Cell<P>)],
) -> Result<Parted<P>, NoMemory>
    requires { AreStored list.now }
    ensures parted { IfOk result (λ cells. IsParted cells) }
    ensures view { IfOk result (λ cells. entries (seen_of cells) ≡ list.now) }
{
    Ok(Parted {
        live: part_of(alloc, list, true)?,
        owed: part_of(alloc, list, false)?,
    })
}

// A tree of the live cells of a list, or else of the others.
fn part_of<P: Copy>(
    alloc: Global,
    list: &[(Place, Cell<P>)],
    live: bool,
) -> Result<BTreeMap<Place, Cell<P>>, NoMemory>
    requires { IsStrictlySortedBy place_cmp (keys_of list.now) }
    ensures { IfOk result (λ cells. (q : the_place.Place) → get place_cmp cells q ≡ option_filter (is_of live) (lookup (is_at (place_cmp q)) list.now)) }
{
    let mut cells = BTreeMap::new(alloc);
    for (place, cell) in list {
        if is_of(live, cell) {
            put(&mut cells, *place, *cell)?;
        }
    }
    Ok(cells)
}

// Whether a cell is a live one, or else whether it is none.
fn is_of<P: Copy>(live: bool, cell: &Cell<P>) -> bool
    ensures { result ≡ is_of live cell.now }
{
    if live { is_live(cell) } else { !is_live(cell) }
}

// Puts a cell at a place.
fn put<P: Copy>(
    cells: &mut BTreeMap<Place, Cell<P>>,
    place: Place,
    cell: Cell<P>,
) -> Result<(), NoMemory>
    ensures { OnOk result (Puts cells.old cells.new place (Some cell)) }
{
    cells.insert(place, cell)?;
    Ok(())
}
