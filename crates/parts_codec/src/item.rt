// A centre that has bytes is put behind other bytes, and read from the front of bytes.

use crate::centre::centre_at;
use crate::parts_item::PartsItem;
use crate::spell::Spell;
use journal_file::Item;
use std::alloc::{AllocError, Global};

impl Item for PartsItem {
    ghost use Rattle.parts_codec.specs.Items.{item_bytes};

    ghost spelled = { item_bytes };

    fn spell(&self, out: &mut Vec<u8>) -> Result<(), AllocError> {
        match self.centre.put(out) {
            Ok(()) => Ok(()),
            Err(_) => Err(AllocError),
        }
    }

    fn read(alloc: Global, bytes: &[u8]) -> Result<Option<(Self, usize)>, AllocError> {
        match centre_at(alloc, bytes) {
            Ok(Some((centre, count))) => Ok(Some((PartsItem { centre }, count))),
            Ok(None) => Ok(None),
            Err(_) => Err(AllocError),
        }
    }
}
