// A centre answers asks that its journal has not got yet.
ghost use Rattle.std.specs.Prelude.{◌≡◌, ◌≤◌, ◌<◌, ◌&&◌, length, IfOk, OnOk, OnErr};
ghost use Rattle.ids_core.specs.declared.limits.TheConstants.{MOST_CENTRES};
ghost use Rattle.dc_talk.specs.Answers.{fits};
ghost use Rattle.journal_asks.specs.Spellings.{is_kind as of_kind};
ghost use Rattle.dc_journal.specs.Steps.{TakesOne, TakesSome};

use crate::ask_item::AskItem;
use crate::batch::{Batch, entry_of};
use crate::opening::is_kept;
use crate::steps::step;
use dc_centre::Centre;
use dc_talk::Ask;
use journal_asks::{KeptAsk, is_kind};
use std::alloc::{AllocError, Global};

/// Centre `me` among `n` answers asks in order, and stops before one for which it finds no memory. All memory for the
/// items that stand for those that are kept is there before it takes them. After an `Err` it has taken none.
pub fn answer_all<T: AskItem>(
    alloc: Global,
    me: u8,
    n: u8,
    centre: &mut Centre,
    asks: &[Ask],
) -> Result<Batch<T>, AllocError>
    requires there { (1 ≤ me) × (me ≤ n) }
    requires few { n ≤ MOST_CENTRES }
    requires own { centre.old.settings.me ≡ me }
    requires among { centre.old.settings.n ≡ n }
    ensures takes { IfOk result (λ batch. TakesSome T.of_ask centre.old.settings centre.old centre.new asks.now batch.says.items batch.kept.items) }
    ensures some { IfOk result (λ batch. 0 < length asks.now → 0 < length batch.says.items) }
    ensures settings { centre.new.settings ≡ centre.old.settings }
    ensures same { OnErr result (centre.new ≡ centre.old) }
{
    let mut batch = Batch::new(alloc)?;
    for ask in asks {
        if let Err(fault) = answer_into(alloc, me, n, centre, ask, &mut batch) {
            if batch.says.is_empty() {
                return Err(fault);
            }
            return Ok(batch);
        }
    }
    Ok(batch)
}

// Answers an ask and puts it into a batch. All memory is there before the centre takes it.
fn answer_into<T: AskItem>(
    alloc: Global,
    me: u8,
    n: u8,
    centre: &mut Centre,
    ask: &Ask,
    batch: &mut Batch<T>,
) -> Result<(), AllocError>
    requires there { (1 ≤ me) × (me ≤ n) }
    requires few { n ≤ MOST_CENTRES }
    requires own { centre.old.settings.me ≡ me }
    requires among { centre.old.settings.n ≡ n }
    ensures takes { OnOk result (TakesOne T.of_ask centre.old.settings centre.old centre.new ask.now batch.old.says.items batch.old.kept.items batch.new.says.items batch.new.kept.items) }
    ensures settings { centre.new.settings ≡ centre.old.settings }
    ensures same { OnErr result ((centre.new ≡ centre.old) × (batch.new.says.items ≡ batch.old.says.items) × (batch.new.kept.items ≡ batch.old.kept.items)) }
{
    if !may_keep(n, ask) {
        batch.reserve(&[])?;
        let say = step(alloc, centre, ask)?;
        batch.push(say);
        return Ok(());
    }
    let kept = KeptAsk::of(me, n, ask)?;
    let item = T::from_ask(kept);
    let bytes = entry_of(alloc, &item)?;
    batch.reserve(&bytes)?;
    let say = step(alloc, centre, ask)?;
    if !is_kept(&say) {
        batch.push(say);
        return Ok(());
    }
    batch.push_kept(say, item, &bytes);
    Ok(())
}

/// Whether an ask of a centre among `n` may have a reply that is kept.
pub fn may_keep(n: u8, ask: &Ask) -> bool
    requires { (1 ≤ n) × (n ≤ MOST_CENTRES) }
    ensures { result ≡ (of_kind ask.now && fits n ask.now) }
{
    is_kind(ask) && ask.fits(n)
}
