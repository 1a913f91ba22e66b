// Numbers, and what is true or false.
ghost use Rattle.std.specs.Prelude.{◌≡◌, ◌++◌, OnOk, Err};
ghost use Rattle.wire_codec.specs.Spelling.{u32_bytes, u64_bytes};
ghost use Rattle.state_codec.specs.declared.writing.NotPut.TheVariants.{Unfit};
ghost use Rattle.state_codec.specs.Reading.{Gives};
ghost use Rattle.parts_codec.specs.Spelling.{u8_bytes, flag_bytes, IsByte, IsHalf, IsNumber, IsFlag};
ghost use Rattle.parts_codec.specs.Reading.{byte_at, half_at, number_at, flag_at};

use crate::spell::Spell;
use state_codec::{NotPut, Stop, put_u32, put_u64, u8_at, u32_at, u64_at};
use std::alloc::Global;

impl Spell for u8 {
    ghost has_bytes = { IsByte };

    ghost spelled = { u8_bytes };

    ghost reading = { byte_at };

    fn fits(&self) -> bool {
        let _number = *self;
        true
    }

    fn put(&self, out: &mut Vec<u8>) -> Result<(), NotPut> {
        taken!(out.push(*self));
        Ok(())
    }

    fn at(_: Global, bytes: &[u8]) -> Result<(Self, &[u8]), Stop> {
        u8_at(0, u8::MAX, bytes)
    }
}

impl Spell for u32 {
    ghost has_bytes = { IsHalf };

    ghost spelled = { u32_bytes };

    ghost reading = { half_at };

    fn fits(&self) -> bool {
        let _number = *self;
        true
    }

    fn put(&self, out: &mut Vec<u8>) -> Result<(), NotPut> {
        taken!(put_u32(out, *self));
        Ok(())
    }

    fn at(_: Global, bytes: &[u8]) -> Result<(Self, &[u8]), Stop> {
        u32_at(0, u32::MAX, bytes)
    }
}

impl Spell for u64 {
    ghost has_bytes = { IsNumber };

    ghost spelled = { u64_bytes };

    ghost reading = { number_at };

    fn fits(&self) -> bool {
        let _number = *self;
        true
    }

    fn put(&self, out: &mut Vec<u8>) -> Result<(), NotPut> {
        taken!(put_u64(out, *self));
        Ok(())
    }

    fn at(_: Global, bytes: &[u8]) -> Result<(Self, &[u8]), Stop> {
        u64_at(0, u64::MAX, bytes)
    }
}

impl Spell for bool {
    ghost has_bytes = { IsFlag };

    ghost spelled = { flag_bytes };

    ghost reading = { flag_at };

    fn fits(&self) -> bool {
        true
    }

    fn put(&self, out: &mut Vec<u8>) -> Result<(), NotPut> {
        u8::from(*self).put(out)
    }

    #[tactic(auto, unfolding(crate::specs::Reading::flag_at))]
    fn at(_: Global, bytes: &[u8]) -> Result<(Self, &[u8]), Stop> {
        let (flag, rest) = u8_at(0, 1, bytes)?;
        Ok((flag == 1, rest))
    }
}
