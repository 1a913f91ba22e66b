// Frames of the written version.
ghost use Rattle.std.specs.Prelude.{◌≡◌, ◌++◌, OnOk, IfOk, Err};
ghost use Rattle.state_codec.specs.declared.writing.NotPut.TheVariants.{Unfit};
ghost use Rattle.state_codec.specs.Reading.{Gives};
ghost use Rattle.state_codec.specs.Fronts.{IsFront};
ghost use Rattle.parts_codec.specs.Spelling.{frame_bytes, IsFrame};
ghost use Rattle.parts_codec.specs.Reading.{framed_at};

use crate::spell::Spell;
use ids_core::NoMemory;
use state_codec::{NotPut, Stop};
use std::alloc::Global;
use wire_codec::{Decoded, Item, VERSION, decode, encode};

impl Spell for Item {
    ghost has_bytes = { IsFrame };

    ghost spelled = { frame_bytes };

    ghost reading = { framed_at };

    fn fits(&self) -> bool {
        Item::fits(self)
    }

    fn put(&self, out: &mut Vec<u8>) -> Result<(), NotPut> {
        if !self.fits() {
            return Err(NotPut::Unfit);
        }
        let bytes = taken!(encode(*out.allocator(), self));
        taken!(out.extend_from_slice(&bytes));
        Ok(())
    }

    fn at(alloc: Global, bytes: &[u8]) -> Result<(Self, &[u8]), Stop> {
        match frame_front(alloc, bytes) {
            Ok(Some((frame, count))) => Ok((frame, &bytes[count..])),
            Ok(None) => Err(Stop::Other),
            Err(_) => Err(Stop::Memory),
        }
    }
}

// The frame with which bytes begin, and how many of them it has.
fn frame_front(alloc: Global, bytes: &[u8]) -> Result<Option<(Item, usize)>, NoMemory>
    ensures { IfOk result (IsFront IsFrame frame_bytes bytes.now) }
{
    if bytes.len() < 2 || bytes[1] != VERSION {
        return Ok(None);
    }
    match decode(alloc, bytes)? {
        Decoded::Whole { item, used } => Ok(Some((item, used as usize))),
        Decoded::Short => Ok(None),
        Decoded::Bad { place: _ } => Ok(None),
    }
}
