// The stamps of a transaction.
ghost use Rattle.std.specs.Prelude.{◌≡◌, ◌∷◌, ◌++◌, [], IfOk, OnOk, OnErr};

use ids_core::NoMemory;
use list_core::List;
use std::alloc::Global;
use std::marker::Model;
use vv_core::Stamp;

/// Stamps in the order in which they came, seen as their list. One stamp takes no memory of its own, and most
/// transactions have one.
#[derive(Drop)]
pub struct StampList {
    kept: Kept,
}

// One stamp, or a list.
#[derive(Drop)]
enum Kept {
    One(Stamp),
    Many(List<Stamp>),
}

impl Model for StampList {
    ghost use Rattle.std.specs.Prelude.{List};
    ghost use Rattle.vv_core.specs.declared.stamp.Stamp.{Stamp};
    ghost use Rattle.op_log.specs.StampLists.{stamps_kept};

    ghost Value = { List Stamp };

    ghost view = { λ s. stamps_kept s.kept };
}

impl StampList {
    /// One stamp. It takes no memory.
    pub fn one(stamp: Stamp) -> StampList
        ensures { result ≡ stamp ∷ [] }
    {
        StampList {
            kept: Kept::One(stamp),
        }
    }

    /// The stamps of a list. It takes no memory.
    pub fn from_list(stamps: List<Stamp>) -> StampList
        ensures { result ≡ stamps }
    {
        let kept = match stamps.as_slice() {
            [stamp] => Kept::One(*stamp),
            _ => Kept::Many(stamps),
        };
        StampList { kept }
    }

    /// The stamps in their order.
    pub fn as_slice(&self) -> &[Stamp]
        ensures { result.now ≡ self.now }
    {
        match &self.kept {
            Kept::One(stamp) => std::slice::from_ref(stamp),
            Kept::Many(stamps) => stamps.as_slice(),
        }
    }

    /// One stamp more, behind the others. An `Err` leaves all as it was.
    pub fn push(&mut self, alloc: Global, stamp: Stamp) -> Result<(), NoMemory>
        ensures ok { OnOk result (self.new ≡ self.old ++ stamp ∷ []) }
        ensures err { OnErr result (self.new ≡ self.old) }
    {
        match &mut self.kept {
            Kept::One(first) => {
                let both = vec![in alloc; *first, stamp]?;
                self.kept = Kept::Many(List::from_vec(both));
            }
            Kept::Many(stamps) => stamps.push(stamp)?,
        }
        Ok(())
    }

    /// The same stamps as a list.
    pub fn to_list(&self, alloc: Global) -> Result<List<Stamp>, NoMemory>
        ensures { IfOk result (λ list. list ≡ self.now) }
    {
        Ok(List::from_vec(self.as_slice().to_vec(alloc)?))
    }
}
