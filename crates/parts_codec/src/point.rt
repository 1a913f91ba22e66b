// What a centre folded, and what it applied.
ghost use Rattle.std.specs.Prelude.{◌≡◌, ◌++◌, OnOk, Err};
ghost use Rattle.state_codec.specs.declared.writing.NotPut.TheVariants.{Unfit};
ghost use Rattle.state_codec.specs.Spelling.{part_bytes, IsSpelledPart};
ghost use Rattle.state_codec.specs.Reading.{Gives, named_at};
ghost use Rattle.parts_codec.specs.Spelling.{point_bytes, applied_bytes, IsSpelledPoint, IsSpelledApplied};
ghost use Rattle.parts_codec.specs.Reading.{point_at, applied_at};

use crate::plain::{PlainApplied, PlainPoint, PlainStates};
use crate::spell::Spell;
use centre_parts::Notes;
use check_point::Numbers;
use state_codec::{NotPut, PlainPart, Stop, part_at, put_part};
use std::alloc::Global;
use tx_core::RestParts;
use vv_core::Vector;

impl Spell for PlainPart {
    ghost has_bytes = { IsSpelledPart };

    ghost spelled = { part_bytes };

    ghost reading = { named_at };

    fn fits(&self) -> bool {
        PlainPart::fits(self)
    }

    fn put(&self, out: &mut Vec<u8>) -> Result<(), NotPut> {
        if !self.fits() {
            return Err(NotPut::Unfit);
        }
        // It has bytes, so only memory can be wanting.
        taken!(put_part(out, self));
        Ok(())
    }

    fn at(alloc: Global, bytes: &[u8]) -> Result<(Self, &[u8]), Stop> {
        match part_at(alloc, bytes) {
            Ok(Some((part, count))) => Ok((part, &bytes[count..])),
            Ok(None) => Err(Stop::Other),
            Err(_) => Err(Stop::Memory),
        }
    }
}

impl Spell for PlainPoint {
    ghost has_bytes = { IsSpelledPoint };

    ghost spelled = { point_bytes };

    ghost reading = { point_at };

    fn fits(&self) -> bool {
        self.vector.fits() && self.folded.fits() && self.numbers.fits() && self.states.fits()
    }

    fn put(&self, out: &mut Vec<u8>) -> Result<(), NotPut> {
        self.vector.put(out)?;
        self.folded.put(out)?;
        self.numbers.put(out)?;
        self.states.put(out)
    }

    #[tactic(auto, unfolding(crate::specs::Reading::point_at))]
    fn at(alloc: Global, bytes: &[u8]) -> Result<(Self, &[u8]), Stop> {
        let (vector, rest) = found!(Vector::at(alloc, bytes));
        let (folded, rest) = u64::at(alloc, rest)?;
        let (numbers, rest) = found!(Numbers::at(alloc, rest));
        let (states, rest) = found!(PlainStates::at(alloc, rest));
        Ok((
            PlainPoint {
                vector,
                folded,
                numbers,
                states,
            },
            rest,
        ))
    }
}

impl Spell for PlainApplied {
    ghost has_bytes = { IsSpelledApplied };

    ghost spelled = { applied_bytes };

    ghost reading = { applied_at };

    fn fits(&self) -> bool {
        self.vector.fits()
            && self.top.fits()
            && self.notes.fits()
            && self.point.fits()
            && self.rest.fits()
    }

    fn put(&self, out: &mut Vec<u8>) -> Result<(), NotPut> {
        self.vector.put(out)?;
        self.top.put(out)?;
        self.notes.put(out)?;
        self.point.put(out)?;
        self.rest.put(out)
    }

    #[tactic(auto, unfolding(crate::specs::Reading::applied_at))]
    fn at(alloc: Global, bytes: &[u8]) -> Result<(Self, &[u8]), Stop> {
        let (vector, behind) = found!(Vector::at(alloc, bytes));
        let (top, behind) = u64::at(alloc, behind)?;
        let (notes, behind) = found!(Notes::at(alloc, behind));
        let (point, behind) = found!(PlainPoint::at(alloc, behind));
        let (rest, behind) = found!(RestParts::at(alloc, behind));
        Ok((
            PlainApplied {
                vector,
                notes,
                top,
                point,
                rest,
            },
            behind,
        ))
    }
}
