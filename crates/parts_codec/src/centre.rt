// A centre is put behind other bytes, and read from the front of bytes.
ghost use Rattle.std.specs.Prelude.{◌≡◌, ◌↔◌, ◌++◌, OnOk, OnErr, IfOk, Err};
ghost use Rattle.state_codec.specs.declared.writing.NotPut.TheVariants.{Unfit};
ghost use Rattle.state_codec.specs.Reading.{Gives};
ghost use Rattle.state_codec.specs.Fronts.{IsFront};
ghost use Rattle.parts_codec.specs.Spelling.{settings_bytes, centre_bytes, IsSpelledSettings, IsSpelledCentre};
ghost use Rattle.parts_codec.specs.Reading.{settings_at, centre_at};

use crate::plain::{PlainApplied, PlainCentre};
use crate::spell::Spell;
use centre_parts::Outbox;
use dc_talk::Settings;
use ids_core::NoMemory;
use join_bundle::Rows;
use state_codec::{NotPut, Stop};
use std::alloc::Global;
use vv_core::Vector;

/// Puts the bytes of a centre behind others. An `Err` leaves those as they were. It is `Unfit` exactly where the centre has no
/// bytes: a state, a record of the outbox or a transaction that is not folded has none.
pub fn put_centre(out: &mut Vec<u8>, centre: &PlainCentre) -> Result<(), NotPut>
    ensures ok { OnOk result (out.new.items ≡ out.old.items ++ centre_bytes centre.now) }
    ensures err { OnErr result (out.new.items ≡ out.old.items) }
    ensures fits { OnOk result (IsSpelledCentre centre.now) }
    ensures unfit { result ≡ Err Unfit ↔ (IsSpelledCentre centre.now → ⊥) }
{
    if !centre.fits() {
        return Err(NotPut::Unfit);
    }
    // It has bytes, so only memory can be wanting.
    let mut bytes = Vec::new(*out.allocator());
    taken!(centre.put(&mut bytes));
    taken!(out.extend_from_slice(&bytes));
    Ok(())
}

/// The centre with which the bytes begin, and how many of them it has. There is none exactly where they begin with the bytes
/// of no centre. What stands behind them is not looked at.
pub fn centre_at(alloc: Global, bytes: &[u8]) -> Result<Option<(PlainCentre, usize)>, NoMemory>
    ensures { IfOk result (IsFront IsSpelledCentre centre_bytes bytes.now) }
{
    match PlainCentre::at(alloc, bytes) {
        Ok((centre, rest)) => {
            let count = bytes.len() - rest.len();
            Ok(Some((centre, count)))
        }
        Err(Stop::Memory) => Err(NoMemory),
        Err(Stop::Other) => Ok(None),
    }
}

impl Spell for Settings {
    ghost has_bytes = { IsSpelledSettings };

    ghost spelled = { settings_bytes };

    ghost reading = { settings_at };

    fn fits(&self) -> bool {
        self.me.fits() && self.n.fits() && self.k.fits() && self.limit.fits()
    }

    fn put(&self, out: &mut Vec<u8>) -> Result<(), NotPut> {
        self.me.put(out)?;
        self.n.put(out)?;
        self.k.put(out)?;
        self.limit.put(out)
    }

    #[tactic(auto, unfolding(crate::specs::Reading::settings_at))]
    fn at(alloc: Global, bytes: &[u8]) -> Result<(Self, &[u8]), Stop> {
        let (me, rest) = u8::at(alloc, bytes)?;
        let (n, rest) = u8::at(alloc, rest)?;
        let (k, rest) = u8::at(alloc, rest)?;
        let (limit, rest) = u64::at(alloc, rest)?;
        Ok((Settings { me, n, k, limit }, rest))
    }
}

impl Spell for PlainCentre {
    ghost has_bytes = { IsSpelledCentre };

    ghost spelled = { centre_bytes };

    ghost reading = { centre_at };

    fn fits(&self) -> bool {
        self.settings.fits()
            && self.stopped.fits()
            && self.mark.fits()
            && self.trimmed.fits()
            && self.applied.fits()
            && self.rows.fits()
            && self.outbox.fits()
    }

    fn put(&self, out: &mut Vec<u8>) -> Result<(), NotPut> {
        self.settings.put(out)?;
        self.stopped.put(out)?;
        self.mark.put(out)?;
        self.trimmed.put(out)?;
        self.applied.put(out)?;
        self.rows.put(out)?;
        self.outbox.put(out)
    }

    #[tactic(auto, unfolding(crate::specs::Reading::centre_at))]
    fn at(alloc: Global, bytes: &[u8]) -> Result<(Self, &[u8]), Stop> {
        let (settings, rest) = Settings::at(alloc, bytes)?;
        let (stopped, rest) = bool::at(alloc, rest)?;
        let (mark, rest) = found!(Vector::at(alloc, rest));
        let (trimmed, rest) = found!(Vector::at(alloc, rest));
        let (applied, rest) = found!(PlainApplied::at(alloc, rest));
        let (rows, rest) = found!(Rows::at(alloc, rest));
        let (outbox, rest) = found!(Outbox::at(alloc, rest));
        Ok((
            PlainCentre {
                settings,
                applied,
                rows,
                mark,
                trimmed,
                outbox,
                stopped,
            },
            rest,
        ))
    }
}
