// Objects.
ghost use Rattle.std.specs.Cmp.{IsTotalOrder};
ghost use Rattle.std.specs.FinMap.{IsAntisymmetric};
ghost use Rattle.ids_core.specs.Orders.{object_cmp};

use crate::name::Name;
use std::cmp::Ordering;

/// The kind of an object. Kinds are ordered as they stand here.
#[derive(Clone, Copy, Debug, PartialEq, Eq, PartialOrd, Ord, Hash)]
pub enum Sort {
    /// A sum of deltas.
    Counter,
    /// The word that was written last.
    Register,
    /// Words, of which an add wins over a remove that has not seen it.
    Set,
    /// Keys with a word each, of which a put wins over an erase that has not seen it.
    Map,
}

/// An object: its kind and its name. Objects are ordered by kind, then name.
#[derive(Clone, Copy, Debug, Hash)]
pub struct ObjectId {
    pub sort: Sort,
    pub name: Name,
}

impl PartialEq for ObjectId {
    ghost use Rattle.std.specs.Cmp.{partial_equiv_from_equiv};
    ghost use Rattle.ids_core.specs.Ids.{same_object};
    ghost use Rattle.ids_core.specs.Same.{same_object_equivalence};

    ghost eq = { same_object };

    ghost laws = { partial_equiv_from_equiv same_object_equivalence };

    fn eq(&self, other: &ObjectId) -> bool {
        self.sort == other.sort && self.name == other.name
    }
}

impl Eq for ObjectId {
    ghost use Rattle.ids_core.specs.Same.{same_object_equivalence};

    ghost laws = { same_object_equivalence };
}

impl Ord for ObjectId {
    ghost use Rattle.std.specs.Prelude.{refl};
    ghost use Rattle.ids_core.specs.Orders.{object_cmp, object_cmp_total, same_object-by_cmp};

    ghost cmp = { object_cmp };

    ghost total = { object_cmp_total };

    ghost matches_partial_cmp = { λ a b. refl };

    ghost matches_eq = { same_object-by_cmp };

    fn cmp(&self, other: &ObjectId) -> Ordering {
        self.sort.cmp(&other.sort).then(self.name.cmp(&other.name))
    }
}

impl PartialOrd for ObjectId {
    ghost use Rattle.std.specs.Cmp.{po};
    ghost use Rattle.std.specs.Ordering.{as_partial_cmp};
    ghost use Rattle.ids_core.specs.Orders.{object_cmp, object_cmp_total, same_object-by_cmp};

    ghost partial_cmp = { as_partial_cmp object_cmp };

    ghost laws = { po object_cmp_total same_object-by_cmp };

    fn partial_cmp(&self, other: &ObjectId) -> Option<Ordering> {
        Some(self.cmp(other))
    }
}

/// The order of objects is total, and what is equal in it is the same.
pub fn law_object_order()
    ensures total { IsTotalOrder object_cmp }
    ensures same { IsAntisymmetric object_cmp }
{}
