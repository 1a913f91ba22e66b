// Stamps, and what is noted and folded of clients.
ghost use Rattle.std.specs.Prelude.{◌≡◌, ◌++◌, OnOk, Err};
ghost use Rattle.state_codec.specs.declared.writing.NotPut.TheVariants.{Unfit};
ghost use Rattle.state_codec.specs.Reading.{Gives};
ghost use Rattle.parts_codec.specs.Spelling.{stamp_bytes, noted_bytes, folded_bytes, IsSpelledStamp, IsSpelledNoted, IsSpelledFolded};
ghost use Rattle.parts_codec.specs.Reading.{stamp_at, noted_at, folded_at};

use crate::spell::Spell;
use check_point::Folded;
use dup_guard::Noted;
use state_codec::{NotPut, Stop};
use std::alloc::Global;
use vv_core::Stamp;

impl Spell for Stamp {
    ghost has_bytes = { IsSpelledStamp };

    ghost spelled = { stamp_bytes };

    ghost reading = { stamp_at };

    fn fits(&self) -> bool {
        self.centre.fits() && self.seq.fits()
    }

    fn put(&self, out: &mut Vec<u8>) -> Result<(), NotPut> {
        self.centre.put(out)?;
        self.seq.put(out)
    }

    #[tactic(auto, unfolding(crate::specs::Reading::stamp_at))]
    fn at(alloc: Global, bytes: &[u8]) -> Result<(Self, &[u8]), Stop> {
        let (centre, rest) = u8::at(alloc, bytes)?;
        let (seq, rest) = u32::at(alloc, rest)?;
        Ok((Stamp { centre, seq }, rest))
    }
}

impl Spell for Noted {
    ghost has_bytes = { IsSpelledNoted };

    ghost spelled = { noted_bytes };

    ghost reading = { noted_at };

    fn fits(&self) -> bool {
        self.client.fits() && self.number.fits() && self.stamp.fits()
    }

    fn put(&self, out: &mut Vec<u8>) -> Result<(), NotPut> {
        self.client.put(out)?;
        self.number.put(out)?;
        self.stamp.put(out)
    }

    #[tactic(auto, unfolding(crate::specs::Reading::noted_at))]
    fn at(alloc: Global, bytes: &[u8]) -> Result<(Self, &[u8]), Stop> {
        let (client, rest) = u32::at(alloc, bytes)?;
        let (number, rest) = u64::at(alloc, rest)?;
        let (stamp, rest) = Stamp::at(alloc, rest)?;
        Ok((
            Noted {
                client,
                number,
                stamp,
            },
            rest,
        ))
    }
}

impl Spell for Folded {
    ghost has_bytes = { IsSpelledFolded };

    ghost spelled = { folded_bytes };

    ghost reading = { folded_at };

    fn fits(&self) -> bool {
        self.client.fits() && self.number.fits()
    }

    fn put(&self, out: &mut Vec<u8>) -> Result<(), NotPut> {
        self.client.put(out)?;
        self.number.put(out)
    }

    #[tactic(auto, unfolding(crate::specs::Reading::folded_at))]
    fn at(alloc: Global, bytes: &[u8]) -> Result<(Self, &[u8]), Stop> {
        let (client, rest) = u32::at(alloc, bytes)?;
        let (number, rest) = u64::at(alloc, rest)?;
        Ok((Folded { client, number }, rest))
    }
}
