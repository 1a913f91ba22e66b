// What stands in the journal of a centre.
ghost use Rattle.std.specs.Prelude.{◌≡◌, ◌++◌, ◌∷◌, ℕ, List, length, drop, Some, IfOk, IfSome, OnOk};
ghost use Rattle.journal_pair.specs.Numbers.{IsFront};
ghost use Rattle.pair_centre.specs.Items.{item_bytes};

use dc_journal::AskItem;
use journal_asks::KeptAsk;
use journal_file::Item;
use parts_codec::PartsItem;
use std::alloc::{AllocError, Global};

/// An item of the journal of a centre: the parts of the centre, as its checkpoint, or an ask that was answered behind that.
#[derive(Drop)]
pub enum PairItem {
    Parts(PartsItem),
    Asked(KeptAsk),
}

// The item with this tag and with whose bytes these begin behind it, and how many it has.
fn read_tagged(
    alloc: Global,
    tag: u8,
    bytes: &[u8],
) -> Result<Option<(PairItem, usize)>, AllocError>
    ensures { IfOk result (IsFront item_bytes (tag ∷ bytes.now)) }
{
    match tag {
        0 => match PartsItem::read(alloc, bytes) {
            Ok(Some((item, count))) => Ok(Some((PairItem::Parts(item), 1 + count))),
            Ok(None) => Ok(None),
            Err(stop) => Err(stop),
        },
        1 => match KeptAsk::read(alloc, bytes) {
            Ok(Some((item, count))) => Ok(Some((PairItem::Asked(item), 1 + count))),
            Ok(None) => Ok(None),
            Err(stop) => Err(stop),
        },
        _ => Ok(None),
    }
}

impl Item for PairItem {
    ghost use Rattle.pair_centre.specs.Items.{item_bytes};

    ghost spelled = { item_bytes };

    fn spell(&self, out: &mut Vec<u8>) -> Result<(), AllocError> {
        match self {
            PairItem::Parts(item) => {
                out.push(0)?;
                item.spell(out)
            }
            PairItem::Asked(item) => {
                out.push(1)?;
                item.spell(out)
            }
        }
    }

    fn read(alloc: Global, bytes: &[u8]) -> Result<Option<(Self, usize)>, AllocError> {
        if bytes.is_empty() {
            return Ok(None);
        }
        read_tagged(alloc, bytes[0], &bytes[1..])
    }
}

impl AskItem for PairItem {
    ghost use Rattle.pair_centre.specs.declared.item.PairItem.TheVariants.{Asked};

    ghost of_ask = { Asked };

    fn from_ask(ask: KeptAsk) -> Self {
        PairItem::Asked(ask)
    }
}
