// The acts on an object in nodes.
ghost use Rattle.std.specs.Prelude.{◌≡◌, ◌<◌, ◌≤◌, ◌++◌, ◌∷◌, [], List, All, cond, flat_map, length, map, OnOk, IfOk};
ghost use Rattle.ids_core.specs.declared.limits.TheConstants.{MOST_UPDATES};
ghost use Rattle.ids_core.specs.Ids.{same_object};
ghost use Rattle.tx_core.specs.Operations.{mark};
ghost use Rattle.tx_graph.specs.Nodes.{Node};
ghost use Rattle.tx_graph.specs.Values.{acts_of, nodes_in};
ghost use Rattle.tx_graph.specs.Acts.{bare_of};
ghost use Rattle.run_book.specs.BareNodes.{bare_node};

use crate::bare_nodes::BareNode;
use crate::edits::Edit;
use ids_core::{Dot, Mark, NoMemory, ObjectId, OpId};
use std::alloc::Global;
use tx_graph::{BareAct, is_in};

/// The acts on an object in the nodes of a set of dots.
pub fn acts_over(
    alloc: Global,
    nodes: &[BareNode],
    dots: &[Dot],
    object: &ObjectId,
) -> Result<Vec<BareAct>, NoMemory>
    ensures { IfOk result (λ acts. (whole : List Node) → nodes.now ≡ map bare_node whole → All (λ t. length t.updates ≤ MOST_UPDATES) whole →
        acts.items ≡ map bare_of (flat_map (acts_of object.now) (nodes_in whole dots.now))) }
{
    let mut acts = Vec::new(alloc);
    for node in nodes {
        push_acts_in(node, dots, object, &mut acts)?;
    }
    Ok(acts)
}

// Puts the acts on an object in a node at the end, where the node is of a set of dots.
fn push_acts_in(
    node: &BareNode,
    dots: &[Dot],
    object: &ObjectId,
    acts: &mut Vec<BareAct>,
) -> Result<(), NoMemory>
    ensures { OnOk result ((t : Node) → node.now ≡ bare_node t → length t.updates ≤ MOST_UPDATES →
        acts.new.items ≡ acts.old.items ++ map bare_of (flat_map (acts_of object.now) (nodes_in (t ∷ []) dots.now))) }
{
    if is_in(&node.dot, dots) {
        push_acts(node, object, acts)
    } else {
        Ok(())
    }
}

/// Puts the acts on an object in a node at the end.
pub fn push_acts(
    node: &BareNode,
    object: &ObjectId,
    acts: &mut Vec<BareAct>,
) -> Result<(), NoMemory>
    ensures { OnOk result ((t : Node) → node.now ≡ bare_node t → length t.updates ≤ MOST_UPDATES →
        acts.new.items ≡ acts.old.items ++ map bare_of (acts_of object.now t)) }
{
    let edits = node.edits.as_slice();
    for (place, edit) in edits.iter().enumerate() {
        push_act(node, object, place, edit, acts)?;
    }
    Ok(())
}

// Puts the act of a change at the end, where it is of the object. A transaction has at most 256 changes.
fn push_act(
    node: &BareNode,
    object: &ObjectId,
    place: usize,
    edit: &Edit,
    acts: &mut Vec<BareAct>,
) -> Result<(), NoMemory>
    ensures { OnOk result (place < MOST_UPDATES →
        acts.new.items ≡ acts.old.items ++ cond (same_object edit.now.object object.now) (record { mark = mark node.now.rank node.now.dot place; deps = node.now.deps; change = edit.now.change } ∷ []) []) }
{
    if edit.object != *object {
        return Ok(());
    }
    let id = OpId {
        dot: node.dot,
        place: u16::try_from(place).unwrap_or(u16::MAX),
    };
    let mark = Mark {
        rank: node.rank,
        id,
    };
    acts.push(BareAct {
        mark,
        deps: node.deps.copy()?,
        change: edit.change,
    })?;
    Ok(())
}
