// Cells that copies share until one of them is changed.
ghost use Rattle.std.specs.Prelude.{◌≡◌, [], option_map, IfOk, OnOk, OnErr};
ghost use Rattle.std.specs.Arc.{arc_value};
ghost use Rattle.std.specs.FinMap.{empty};
ghost use Rattle.ids_core.specs.Ascending.{IsAscending};
ghost use Rattle.tally_core.specs.Cells.{changed};
ghost use Rattle.tally_core.specs.Parted.{IsParted, seen_of};
ghost use Rattle.tally_core.specs.Shared.{live_of};

use crate::parted::Parted;
use crate::place::{Cell, Place};
use crate::room::{clear_room, make_room};
use crate::turn::turn_all;
use ids_core::{Name, NoMemory, OpId};
use std::alloc::Global;
use std::collections::BTreeMap;
use std::sync::Arc;

// The live cells, or the empty ones where there are none.
pub(crate) fn live_or<'a, P: Copy>(
    shared: &'a Option<Arc<Parted<P>>>,
    empty: &'a BTreeMap<Place, Cell<P>>,
) -> &'a BTreeMap<Place, Cell<P>>
    requires { empty.now.entries ≡ [] }
    ensures { result.now.entries ≡ live_of (option_map arc_value shared.now) }
{
    match shared {
        Some(cells) => &cells.live,
        None => empty,
    }
}

// The cells of the first operation.
pub(crate) fn begin<P: Copy>(
    alloc: Global,
    name: &Name,
    id: &OpId,
    add: Option<P>,
    over: &[OpId],
) -> Result<Arc<Parted<P>>, NoMemory>
    requires { IsAscending over.now }
    ensures parted { IfOk result (λ shared. IsParted (arc_value shared)) }
    ensures ok { IfOk result (λ shared. seen_of (arc_value shared) ≡ changed empty name.now id.now add over.now) }
{
    let mut cells = Parted::new(alloc);
    change_cells(&mut cells, name, id, add, over)?;
    Ok(Arc::new(alloc, cells)?)
}

// The changes of one operation, in these cells if they have no other owner, and else in a copy that takes
// their place. An `Err` leaves all as it was.
pub(crate) fn change_shared<P: Copy>(
    shared: &mut Arc<Parted<P>>,
    name: &Name,
    id: &OpId,
    add: Option<P>,
    over: &[OpId],
) -> Result<(), NoMemory>
    requires parted { IsParted (arc_value shared.old) }
    requires ascending { IsAscending over.now }
    ensures parted { IsParted (arc_value shared.new) }
    ensures ok { OnOk result (seen_of (arc_value shared.new) ≡ changed (seen_of (arc_value shared.old)) name.now id.now add over.now) }
    ensures err { OnErr result (seen_of (arc_value shared.new) ≡ seen_of (arc_value shared.old)) }
{
    let cells = Arc::make_mut(shared)?;
    change_cells(cells, name, id, add, over)
}

// The changes of one operation. An `Err` leaves all as it was.
fn change_cells<P: Copy>(
    cells: &mut Parted<P>,
    name: &Name,
    id: &OpId,
    add: Option<P>,
    over: &[OpId],
) -> Result<(), NoMemory>
    requires parted { IsParted cells.old }
    requires ascending { IsAscending over.now }
    ensures parted { IsParted cells.new }
    ensures ok { OnOk result (seen_of cells.new ≡ changed (seen_of cells.old) name.now id.now add over.now) }
    ensures err { OnErr result (seen_of cells.new ≡ seen_of cells.old) }
{
    let done = make_and_turn(cells, name, id, add, over);
    if done.is_err() {
        clear_room(cells, name, over);
    }
    done
}

// The same, but that cells of 0 may be left where there is an `Err`.
fn make_and_turn<P: Copy>(
    cells: &mut Parted<P>,
    name: &Name,
    id: &OpId,
    add: Option<P>,
    over: &[OpId],
) -> Result<(), NoMemory>
    requires parted { IsParted cells.old }
    requires ascending { IsAscending over.now }
    ensures parted { IsParted cells.new }
    ensures ok { OnOk result (seen_of cells.new ≡ changed (seen_of cells.old) name.now id.now add over.now) }
    ensures err { OnErr result (seen_of cells.new ≡ seen_of cells.old) }
{
    make_room(cells, name, over)?;
    turn_all(cells, name, id, add, over)
}
