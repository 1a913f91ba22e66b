// Records delivered to a centre.
ghost use Rattle.std.specs.Prelude.{◌≡◌, [], ◌∷◌, IfOk, OnErr};
ghost use Rattle.dc_talk.specs.declared.ask.Ask.TheVariants.{Deliver};
ghost use Rattle.dc_talk.specs.declared.log.Fate.TheVariants.{Unheard};
ghost use Rattle.dc_talk.specs.declared.log.Deed.TheVariants.{Asked};
ghost use Rattle.dc_talk.specs.Acting.{acting, IsCutShort};
ghost use Rattle.dc_talk.specs.Doors.{IsBehind};
ghost use Rattle.script_core.specs.Carrying.{Delivers};
ghost use Rattle.dc_worker.specs.Work.{Adds, AddsSuch, HasDelivered};

use crate::asks::ask_unheard;
use crate::ends::{delivery_end, is_there};
use dc_talk::{Ask, Door, Log, Records, Say, Sent, ShipEnd};
use ids_core::NoMemory;

/// Delivers a record to a centre behind the door, and notes the answer. Answers what the centre said. An `Err` is
/// want of memory: the record may have been delivered.
pub fn deliver<D: Door>(door: &mut D, to: u8, item: Sent, log: &mut Log) -> Result<Say, NoMemory>
    requires { IsBehind (D.shown door.old) to }
    ensures place { D.place door.new ≡ D.place door.old }
    ensures asks { IfOk result (λ say. Adds (acting (D.shown door.old) log.old) (acting (D.shown door.new) log.new) (Asked to (Deliver item.item item.hops) (Unheard say) ∷ [])) }
    ensures short { OnErr result (IsCutShort (acting (D.shown door.old) log.old) (acting (D.shown door.new) log.new)) }
{
    let Sent { item, hops } = item;
    ask_unheard(door, to, Ask::Deliver { item, hops }, log)
}

/// Delivers records to a centre behind the door, in order, until one is not there: until a delivery is answered
/// neither `Applied` nor `Old`. Answers how the last one ended, and `last` where there is none. An `Err` is want
/// of memory: some records may have been delivered.
pub fn deliver_all<D: Door>(
    door: &mut D,
    to: u8,
    items: Records,
    last: Option<ShipEnd>,
    log: &mut Log,
) -> Result<Option<ShipEnd>, NoMemory>
    requires { IsBehind (D.shown door.old) to }
    ensures place { D.place door.new ≡ D.place door.old }
    ensures delivers { IfOk result (λ end. AddsSuch (λ deeds. Delivers to items last deeds end) (acting (D.shown door.old) log.old) (acting (D.shown door.new) log.new)) }
    ensures short { OnErr result (IsCutShort (acting (D.shown door.old) log.old) (acting (D.shown door.new) log.new)) }
{
    let mut end = last;
    'items: for item in items.into_vec() {
        let (ended, there) = deliver_next(door, to, item, log)?;
        if !there {
            return Ok(ended);
        }
        end = ended;
    }
    Ok(end)
}

// Delivers one of several records. Answers how that ended, and whether the record is there.
fn deliver_next<D: Door>(
    door: &mut D,
    to: u8,
    item: Sent,
    log: &mut Log,
) -> Result<(Option<ShipEnd>, bool), NoMemory>
    requires { IsBehind (D.shown door.old) to }
    ensures place { D.place door.new ≡ D.place door.old }
    ensures delivers { IfOk result (λ it. HasDelivered to item it (acting (D.shown door.old) log.old) (acting (D.shown door.new) log.new)) }
    ensures short { OnErr result (IsCutShort (acting (D.shown door.old) log.old) (acting (D.shown door.new) log.new)) }
{
    let seq = u64::from(item.item.as_record().stamp.seq);
    let say = deliver(door, to, item, log)?;
    Ok((delivery_end(to, seq, &say), is_there(&say)))
}
