// The tallies of all names.
ghost use Rattle.std.specs.Prelude.{◌≡◌, ◌↔◌, ℕ, List, IfOk, OnOk, OnErr};
ghost use Rattle.std.specs.FinMap as map;
ghost use Rattle.std.specs.List.Sorted.{IsStrictlySortedBy};
ghost use Rattle.list_core.specs.Members.{In};
ghost use Rattle.ids_core.specs.Orders.{name_cmp};
ghost use Rattle.tally_core.specs.Cells.{changed};
ghost use Rattle.tally_core.specs.Live.{live_ids, live_names, kept_at, IsLiveName};
ghost use Rattle.tally_core.specs.Listing.{AreStored};

use crate::listing::{entries_in, parted_of};
use crate::live::{kept_from, live_from, names_in};
use crate::parted::Parted;
use crate::place::{Cell, Place};
use crate::shared::{begin, change_shared, live_or};
use ids_core::{Name, NoMemory, OpId, Tags};
use std::alloc::Global;
use std::collections::BTreeMap;
use std::marker::Model;
use std::sync::Arc;

/// For each name and identifier a tally: plus one for the add of the identifier, minus one for each
/// list of seen identifiers that holds it (the observed-remove set of Shapiro and others, INRIA
/// RR-7506, 2011, with tallies, so that a remove may come before the add that it saw). A tally of 0
/// is not there. Where a tally is 1 or more, the identifier is live, and what its add keeps is there.
/// Tallies below 0 stand apart from these, so that what is live is told without a walk over them.
/// Copies share their cells until one of them is changed, which takes cells of its own first.
#[derive(Drop)]
pub struct Tallies<P: Copy> {
    alloc: Global,
    cells: Option<Arc<Parted<P>>>,
}

impl<P: Copy> Model for Tallies<P> {
    ghost use Rattle.std.specs.Prelude.{◌++◌, option_map};
    ghost use Rattle.std.specs.FinMap as map;
    ghost use Rattle.std.specs.Arc.{arc_value};
    ghost use Rattle.tally_core.specs.Places.{place_cmp, place_code};
    ghost use Rattle.tally_core.specs.declared.place.Cell.{Cell};
    ghost use Rattle.tally_core.specs.Cells.{cell_code, seen};
    ghost use Rattle.tally_core.specs.Parted.{AreApart};
    ghost use Rattle.tally_core.specs.Shared.{live_of, owed_of};

    ghost Value = { map.FinMap place_cmp (Cell P) };

    ghost coded = { map.code place_code (cell_code P.code) };

    ghost view = { λ t. seen (live_of (option_map arc_value t.cells) ++ owed_of (option_map arc_value t.cells)) };

    ghost invariant = { λ t. AreApart (live_of (option_map arc_value t.cells)) (owed_of (option_map arc_value t.cells)) };
}

impl<P: Copy> Tallies<P> {
    /// No tally.
    pub fn new(alloc: Global) -> Self
        ensures { result ≡ map.empty }
    {
        Tallies { alloc, cells: None }
    }

    /// The same tallies again. It takes no memory: the cells are shared until a change.
    pub fn copy(&self) -> Result<Self, NoMemory>
        ensures { IfOk result (λ copy. copy ≡ self.now) }
    {
        Ok(Tallies {
            alloc: self.alloc,
            cells: self.cells.clone()?,
        })
    }

    /// Under the name, one more for the identifier if something is added, which then keeps what is
    /// given, and one less for each identifier of `over`. A tally that would pass an end of `i64`
    /// is want of memory too. An `Err` leaves the tallies as they were. Time: logarithmic in the
    /// number of tallies for each identifier that is named, plus what insertions move, and a walk over
    /// all of them where a copy shares them.
    pub fn change(
        &mut self,
        name: &Name,
        id: &OpId,
        add: Option<P>,
        over: &Tags,
    ) -> Result<(), NoMemory>
        ensures ok { OnOk result (self.new ≡ changed self.old name.now id.now add over.now) }
        ensures err { OnErr result (self.new ≡ self.old) }
    {
        let over = over.as_slice();
        if add.is_none() && over.is_empty() {
            return Ok(());
        }
        match &mut self.cells {
            Some(shared) => change_shared(shared, name, id, add, over),
            None => {
                self.cells = Some(begin(self.alloc, name, id, add, over)?);
                Ok(())
            }
        }
    }
}

impl<P: Copy> Tallies<P> {
    /// The live identifiers of a name, which copies share. Time: a look-up among the live tallies, and a step for each
    /// of the name.
    pub fn live(&self, alloc: Global, name: &Name) -> Result<Tags, NoMemory>
        ensures { IfOk result (λ tags. tags ≡ live_ids self.now name.now) }
    {
        self.own_live(alloc, name)?.share()
    }

    // The same in a list of their own.
    fn own_live(&self, alloc: Global, name: &Name) -> Result<Tags, NoMemory>
        ensures { IfOk result (λ tags. tags ≡ live_ids self.now name.now) }
    {
        let empty = BTreeMap::new(alloc);
        match Tags::of(live_from(alloc, live_or(&self.cells, &empty), name)?) {
            Ok(tags) => Ok(tags),
            Err(_) => unreachable!(),
        }
    }

    /// The live identifiers of a name in their order, each with what its add keeps. Time: as for `live`.
    pub fn kept(&self, alloc: Global, name: &Name) -> Result<Vec<(OpId, P)>, NoMemory>
        ensures { IfOk result (λ list. list.items ≡ kept_at self.now name.now) }
    {
        let empty = BTreeMap::new(alloc);
        kept_from(alloc, live_or(&self.cells, &empty), name)
    }

    /// The names with a live identifier, ascending. Time: a step for each live tally.
    pub fn names(&self, alloc: Global) -> Result<Vec<Name>, NoMemory>
        ensures names { IfOk result (λ list. list.items ≡ live_names self.now) }
        ensures ascending { IfOk result (λ list. IsStrictlySortedBy name_cmp list.items) }
        ensures exact { IfOk result (λ list. (name : List ℕ) → In name list.items ↔ IsLiveName self.now name) }
    {
        let empty = BTreeMap::new(alloc);
        let list = names_in(alloc, live_or(&self.cells, &empty))?;
        Ok(list)
    }
}

impl<P: Copy> Tallies<P> {
    /// The places with a tally, ascending, each with the tally and what its add keeps. No tally is 0, and
    /// something is kept exactly where the tally is 1 or more. Time: a step for each tally, and logarithmic
    /// in their number for each tally below 0.
    pub fn entries(&self, alloc: Global) -> Result<Vec<(Place, Cell<P>)>, NoMemory>
        ensures list { IfOk result (λ list. list.items ≡ map.entries self.now) }
        ensures stored { IfOk result (λ list. AreStored list.items) }
    {
        match &self.cells {
            Some(cells) => entries_in(alloc, &cells.live, &cells.owed),
            None => Ok(Vec::new(alloc)),
        }
    }

    /// The tallies that have these entries. `are_stored` tells which lists are those of some tallies. Time:
    /// logarithmic in their number for each.
    pub fn of_entries(alloc: Global, list: &[(Place, Cell<P>)]) -> Result<Tallies<P>, NoMemory>
        requires { AreStored list.now }
        ensures { IfOk result (λ tallies. map.entries tallies ≡ list.now) }
    {
        let cells = parted_of(alloc, list)?;
        Ok(Tallies {
            alloc,
            cells: Some(Arc::new(alloc, cells)?),
        })
    }
}
