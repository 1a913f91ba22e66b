// Which records have a frame.
ghost use Rattle.std.specs.Prelude.{◌≡◌, ◌≤◌, ◌↔◌, true, length, All, IsTrue};
ghost use Rattle.ids_core.specs.declared.limits.TheConstants.{MOST_TAGS};
ghost use Rattle.ids_core.specs.Name.{IsName};
ghost use Rattle.ids_core.specs.Ascending.{IsAscending};
ghost use Rattle.tx_core.specs.Ops.{over_of};
ghost use Rattle.tx_core.specs.Checks.{is_small, IsTag, IsFitUpdate};
ghost use Rattle.dc_talk.specs.Answers.{are_modest, is_fit_item};
ghost use Rattle.wire_codec.specs.Spelling.{IsSpelledUpdate, IsSpelledOp};
ghost use Rattle.link_frames.specs.Frames.{HasFrame, is_deliverable};

use dc_talk::{MOST_HOPS, Sent};
use ids_core::{MOST_RECORDS, Name, Tags};
use tx_core::{Op, Record, Update};
use vv_core::Vector;

/// Whether a record with its hops has a frame: whether it can be delivered among as many centres as its dependencies
/// have entries. It takes no memory.
pub fn fits(sent: &Sent) -> bool
    ensures exact { IsTrue result ↔ HasFrame sent.now }
    ensures delivered { result ≡ is_deliverable sent.now }
{
    if !is_deliverable(sent) {
        return false;
    }
    see_frame(sent);
    true
}

// Whether it can be delivered among as many centres as its dependencies have entries.
fn is_deliverable(sent: &Sent) -> bool
    ensures { result ≡ is_deliverable sent.now }
{
    let item = sent.item.as_record();
    is_fit_item(item, item.deps.width()) && sent.hops <= MOST_HOPS
}

// Whether a record can be delivered among so many centres.
fn is_fit_item(item: &Record, n: u8) -> bool
    ensures { result ≡ is_fit_item n item.now }
{
    (1..=n).contains(&item.stamp.centre)
        && (1..=MOST_RECORDS).contains(&item.stamp.seq)
        && item.deps.width() == n
        && are_modest(&item.deps)
        && item.tx.check(n).is_ok()
}

// Whether no entry is above the most records of a centre.
fn are_modest(vector: &Vector) -> bool
    ensures { result ≡ are_modest vector.now }
{
    vector.as_slice().iter().all(|entry| *entry <= MOST_RECORDS)
}

// A record that can be delivered has a frame, since its names are names, and its tags ascend. This function and those
// below have nothing to do.
fn see_frame(sent: &Sent)
    requires { is_deliverable sent.now ≡ true }
    ensures { HasFrame sent.now }
{
    let item = sent.item.as_record();
    let _width = item.deps.width();
    see_updates(item.tx.updates.as_slice());
}

/// Updates that are fit have a spelling. The call has nothing to do.
pub fn see_updates(updates: &[Update])
    requires { All IsFitUpdate updates.now }
    ensures { All IsSpelledUpdate updates.now }
{
    for update in updates {
        see_update(update);
    }
}

// So does one of them.
fn see_update(update: &Update)
    requires { IsFitUpdate update.now }
    ensures { IsSpelledUpdate update.now }
{
    see_name(&update.object.name);
    see_op(&update.op);
}

// So does an operation with few tags that are in range, and a small delta.
fn see_op(op: &Op)
    requires delta { IsTrue (is_small op.now) }
    requires few { length (over_of op.now) ≤ MOST_TAGS }
    requires over { All IsTag (over_of op.now) }
    ensures { IsSpelledOp op.now }
{
    match op {
        Op::Inc { delta: _ } => {}
        Op::Write { word } => see_name(word),
        Op::Add { word, over } | Op::Remove { word, over } => {
            see_name(word);
            see_tags(over);
        }
        Op::Put { key, word, over } => {
            see_name(key);
            see_name(word);
            see_tags(over);
        }
        Op::Erase { key, over } => {
            see_name(key);
            see_tags(over);
        }
    }
}

// What each name is.
fn see_name(name: &Name)
    ensures { IsName name.now }
{
    let _bytes = name.as_slice();
}

// What all tags are.
fn see_tags(tags: &Tags)
    ensures { IsAscending tags.now }
{
    let _ids = tags.as_slice();
}
