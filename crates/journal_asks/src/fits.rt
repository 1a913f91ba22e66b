// What an ask that fits has beside its numbers: names are names, and tags ascend. Each function here has nothing to do.
ghost use Rattle.std.specs.Prelude.{◌≡◌, ◌≤◌, true, length, All, IsTrue};
ghost use Rattle.ids_core.specs.declared.limits.TheConstants.{MOST_CENTRES, MOST_TAGS};
ghost use Rattle.ids_core.specs.Name.{IsName};
ghost use Rattle.ids_core.specs.Ascending.{IsAscending};
ghost use Rattle.tx_core.specs.Ops.{over_of};
ghost use Rattle.tx_core.specs.Checks.{is_small, IsTag, IsFitUpdate};
ghost use Rattle.dc_talk.specs.Answers.{fits};
ghost use Rattle.wire_codec.specs.Spelling.{IsSpelledUpdate, IsSpelledOp};
ghost use Rattle.journal_asks.specs.Spellings.{is_kind, by_of, IsSpelledAsk};

use dc_talk::Ask;
use ids_core::{Name, Tags};
use tx_core::{Op, Update};

/// An ask of centre `me` among `n` that fits and is of a kind that a journal keeps has bytes there.
pub fn see_ask(me: u8, n: u8, ask: &Ask)
    requires centre { (1 ≤ me) × (me ≤ n) }
    requires width { n ≤ MOST_CENTRES }
    requires kind { is_kind ask.now ≡ true }
    requires fits { fits n ask.now ≡ true }
    ensures { IsSpelledAsk (by_of me ask.now) ask.now }
{
    match ask {
        Ask::Commit { tx } => see_updates(tx.as_tx().updates.as_slice()),
        Ask::Deliver { item, hops: _ } => see_updates(item.as_record().tx.updates.as_slice()),
        _ => {}
    }
}

// Updates that are fit have bytes in a frame.
fn see_updates(updates: &[Update])
    requires { All IsFitUpdate updates.now }
    ensures { All IsSpelledUpdate updates.now }
{
    for update in updates {
        see_update(update);
    }
}

fn see_update(update: &Update)
    requires { IsFitUpdate update.now }
    ensures { IsSpelledUpdate update.now }
{
    see_name(&update.object.name);
    see_op(&update.op);
}

// So does an operation with few tags that are in range, and a small delta.
fn see_op(op: &Op)
    requires delta { IsTrue (is_small op.now) }
    requires few { length (over_of op.now) ≤ MOST_TAGS }
    requires over { All IsTag (over_of op.now) }
    ensures { IsSpelledOp op.now }
{
    match op {
        Op::Inc { delta: _ } => {}
        Op::Write { word } => see_name(word),
        Op::Add { word, over } | Op::Remove { word, over } => {
            see_name(word);
            see_tags(over);
        }
        Op::Put { key, word, over } => {
            see_name(key);
            see_name(word);
            see_tags(over);
        }
        Op::Erase { key, over } => {
            see_name(key);
            see_tags(over);
        }
    }
}

fn see_name(name: &Name)
    ensures { IsName name.now }
{
    let _bytes = name.as_slice();
}

fn see_tags(tags: &Tags)
    ensures { IsAscending tags.now }
{
    let _ids = tags.as_slice();
}
