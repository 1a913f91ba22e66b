// Live identifiers, read off the cells in their order.
ghost use Rattle.std.specs.Prelude.{◌≡◌, IfOk, IsTrue};
ghost use Rattle.std.specs.BTreeMap.{IsOrdered};
ghost use Rattle.tally_core.specs.Places.{place, place_cmp, least_id};
ghost use Rattle.tally_core.specs.Live.{under, live_in, kept_in, names_after, is_live, is_name};

use crate::place::{Cell, Place};
use ids_core::{Dot, Name, NoMemory, OpId};
use std::alloc::Global;
use std::collections::BTreeMap;

// The live identifiers of a name.
pub(crate) fn live_from<P: Copy>(
    alloc: Global,
    cells: &BTreeMap<Place, Cell<P>>,
    name: &Name,
) -> Result<Vec<OpId>, NoMemory>
    ensures list { IfOk result (λ list. list.items ≡ live_in (under name.now cells.now.entries)) }
    ensures ordered { IsOrdered place_cmp cells.now }
{
    let mut list = Vec::new(alloc);
    for (place, cell) in cells.range(first_place(name)..) {
        if !place.name.cmp(name).is_eq() {
            break;
        }
        if is_live(cell) {
            list.push(place.id)?;
        }
    }
    Ok(list)
}

// What the adds of a name keep.
pub(crate) fn kept_from<P: Copy>(
    alloc: Global,
    cells: &BTreeMap<Place, Cell<P>>,
    name: &Name,
) -> Result<Vec<(OpId, P)>, NoMemory>
    ensures list { IfOk result (λ list. list.items ≡ kept_in (under name.now cells.now.entries)) }
    ensures ordered { IsOrdered place_cmp cells.now }
{
    let mut list = Vec::new(alloc);
    for (place, cell) in cells.range(first_place(name)..) {
        if !place.name.cmp(name).is_eq() {
            break;
        }
        if let Some(kept) = cell.kept {
            list.push((place.id, kept))?;
        }
    }
    Ok(list)
}

// The names with a live identifier.
pub(crate) fn names_in<P: Copy>(
    alloc: Global,
    cells: &BTreeMap<Place, Cell<P>>,
) -> Result<Vec<Name>, NoMemory>
    ensures list { IfOk result (λ list. list.items ≡ names_after None cells.now.entries) }
    ensures ordered { IsOrdered place_cmp cells.now }
{
    let mut list = Vec::new(alloc);
    let mut last: Option<Name> = None;
    let _size = cells.len();
    for (place, cell) in cells.iter() {
        if is_live(cell) && !is_name(&last, &place.name) {
            list.push(place.name)?;
            last = Some(place.name);
        }
    }
    Ok(list)
}

// Whether it is the name.
fn is_name(last: &Option<Name>, name: &Name) -> bool
    ensures { result ≡ is_name last.now name.now }
{
    match last {
        Some(last) => last.cmp(name).is_eq(),
        None => false,
    }
}

pub(crate) fn is_live<P: Copy>(cell: &Cell<P>) -> bool
    ensures { result ≡ is_live cell.now }
{
    cell.count > 0
}

// The least place of a name.
fn first_place(name: &Name) -> Place
    ensures { result ≡ place name.now least_id }
{
    Place {
        name: *name,
        id: OpId {
            dot: Dot {
                client: 0,
                number: 0,
            },
            place: 0,
        },
    }
}
