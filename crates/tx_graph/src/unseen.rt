// Adds and puts that nothing takes out which sees them.
ghost use Rattle.std.specs.Prelude.{◌≡◌, [], IfOk, map};
ghost use Rattle.std.specs.List.{filter_map};
ghost use Rattle.dc_talk.specs.Calls.{op_of};
ghost use Rattle.tx_graph.specs.Values.{change_of};
ghost use Rattle.tx_graph.specs.Acts.{act_of};
ghost use Rattle.tx_graph.specs.Unseen.{removed, erased, is_name, is_taken, unseen_add, unseen_put};

use crate::acts::BareAct;
use dc_talk::Change;
use ids_core::{Mark, Name, NoMemory};
use std::alloc::Global;

/// A put that no erase of its key sees.
#[derive(Clone, Copy)]
pub struct UnseenPut {
    pub mark: Mark,
    pub key: Name,
    pub word: Name,
}

// The words of the adds that no remove of the word sees, in the order of the acts.
pub(crate) fn unseen_adds(alloc: Global, acts: &[BareAct]) -> Result<Vec<Name>, NoMemory>
    ensures { IfOk result (λ list. list.items ≡ filter_map (unseen_add (map act_of acts.now)) (map act_of acts.now)) }
{
    let mut list = Vec::new(alloc);
    for act in acts {
        if let Change::Add { word } = &act.change {
            if !is_removed(act, word, acts) {
                list.push(*word)?;
            }
        }
    }
    Ok(list)
}

// The puts that no erase of the key sees, in the order of the acts.
pub(crate) fn unseen_puts(alloc: Global, acts: &[BareAct]) -> Result<Vec<UnseenPut>, NoMemory>
    ensures { IfOk result (λ list. list.items ≡ filter_map (unseen_put (map act_of acts.now)) (map act_of acts.now)) }
{
    let mut list = Vec::new(alloc);
    for act in acts {
        if let Change::Put { key, word } = &act.change {
            if !is_erased(act, key, acts) {
                list.push(UnseenPut {
                    mark: act.mark,
                    key: *key,
                    word: *word,
                })?;
            }
        }
    }
    Ok(list)
}

// Whether a remove of the word sees the act.
fn is_removed(act: &BareAct, word: &Name, acts: &[BareAct]) -> bool
    ensures { result ≡ is_taken removed (map act_of acts.now) word.now (act_of act.now) }
{
    for other in acts {
        if removes(&other.change, word) && other.sees(act) {
            return true;
        }
    }
    false
}

// Whether an erase of the key sees the act.
fn is_erased(act: &BareAct, key: &Name, acts: &[BareAct]) -> bool
    ensures { result ≡ is_taken erased (map act_of acts.now) key.now (act_of act.now) }
{
    for other in acts {
        if erases(&other.change, key) && other.sees(act) {
            return true;
        }
    }
    false
}

// Whether a change removes the word.
fn removes(change: &Change, word: &Name) -> bool
    ensures { result ≡ is_name (removed (change_of (op_of change.now []))) word.now }
{
    match change {
        Change::Remove { word: other } => *other == *word,
        _ => false,
    }
}

// Whether a change erases the key.
fn erases(change: &Change, key: &Name) -> bool
    ensures { result ≡ is_name (erased (change_of (op_of change.now []))) key.now }
{
    match change {
        Change::Erase { key: other } => *other == *key,
        _ => false,
    }
}
