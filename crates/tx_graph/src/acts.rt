// Acts, as values by dependency sets need them.
ghost use Rattle.std.specs.Prelude.{◌≡◌, IfOk};
ghost use Rattle.tx_graph.specs.Values.{change_of, sees};
ghost use Rattle.tx_graph.specs.Acts.{act_of};

use crate::dot_set::{DotSet, is_in};
use dc_talk::Change;
use ids_core::{Mark, NoMemory};
use tx_core::Op;

/// A change of an object, with its mark and the dots of all that its transaction may have seen. Which
/// identifiers the operation is over is left out: a value by dependency sets has no use for them.
#[derive(Clone, Drop)]
pub struct BareAct {
    pub mark: Mark,
    pub deps: DotSet,
    pub change: Change,
}

impl BareAct {
    /// The act of an operation, without the identifiers that it is over.
    pub fn of_op(mark: Mark, deps: DotSet, op: &Op) -> Self
        ensures { result ≡ record { mark = mark; deps = deps; change = change_of op.now } }
    {
        BareAct {
            mark,
            deps,
            change: change_of(op),
        }
    }

    /// Whether it sees another act: the transaction of the other is in its dependency set, or both
    /// stand in one transaction and the other stands earlier there.
    pub fn sees(&self, other: &BareAct) -> bool
        ensures { result ≡ sees (act_of self.now) (act_of other.now) }
    {
        let (seer, seen) = (&self.mark.id, &other.mark.id);
        is_in(&seen.dot, self.deps.as_slice()) || (seen.dot == seer.dot && seen.place < seer.place)
    }

    /// The same act again.
    pub fn copy(&self) -> Result<BareAct, NoMemory>
        ensures { IfOk result (λ copy. copy ≡ self.now) }
    {
        Ok(BareAct {
            mark: self.mark,
            deps: self.deps.copy()?,
            change: self.change,
        })
    }
}

/// The change that an operation is, whatever it is over.
pub fn change_of(op: &Op) -> Change
    ensures { result ≡ change_of op.now }
{
    match op {
        Op::Inc { delta } => Change::Inc { delta: *delta },
        Op::Write { word } => Change::Write { word: *word },
        Op::Add { word, .. } => Change::Add { word: *word },
        Op::Remove { word, .. } => Change::Remove { word: *word },
        Op::Put { key, word, .. } => Change::Put {
            key: *key,
            word: *word,
        },
        Op::Erase { key, .. } => Change::Erase { key: *key },
    }
}
