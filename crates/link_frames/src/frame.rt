// A record as it lies on a link.
ghost use Rattle.std.specs.Prelude.{◌≡◌, Err, IfOk};
ghost use Rattle.dc_talk.specs.declared.links.FrameFault.TheVariants.{Short, Bad};
ghost use Rattle.link_frames.specs.Spelling.{spelling};
ghost use Rattle.link_frames.specs.Frames.{HasFrame};

use crate::reading::read_item;
use crate::spelling::spell_item;
use crate::spoiling::{bend, cut};
use dc_talk::{FrameFault, Sent};
use ids_core::NoMemory;
use std::alloc::Global;
use std::marker::Model;

/// A record with its hops as it lies on a link: the bytes of its frame, and nothing else. Contracts see the record.
#[derive(Drop)]
pub struct Frame {
    bytes: Vec<u8>,
}

impl Model for Frame {
    ghost use Rattle.dc_talk.specs.declared.sent.Sent.{Sent};
    ghost use Rattle.link_frames.specs.Frame.{sent_in, IsFrame};

    ghost Value = { Sent };

    ghost view = { λ f. sent_in f.bytes.items };

    ghost invariant = { λ f. IsFrame f.bytes.items };
}

impl Frame {
    /// The frame of a record with its hops that has one. It fails for want of memory alone.
    pub fn of(alloc: Global, sent: &Sent) -> Result<Frame, NoMemory>
        requires { HasFrame sent.now }
        ensures { IfOk result (λ frame. frame ≡ sent.now) }
    {
        Ok(Frame {
            bytes: spell_item(alloc, sent)?,
        })
    }

    /// Its bytes, in the version that is written.
    pub fn as_bytes(&self) -> &[u8]
        ensures { result.now ≡ spelling self.now }
    {
        &self.bytes
    }

    /// The record with its hops that the bytes spell. It fails for want of memory alone.
    #[tactic(auto, using(crate::proofs::Whole::read_of))]
    pub fn read(&self, alloc: Global) -> Result<Sent, NoMemory>
        ensures { IfOk result (λ sent. sent ≡ self.now) }
    {
        match read_item(alloc, &self.bytes)? {
            Ok(sent) => Ok(sent),
            Err(_) => unreachable!(),
        }
    }

    /// What its bytes are without the last one: they end too early. It fails for want of memory alone.
    #[tactic(auto, using(crate::proofs::Whole::cut_read))]
    pub fn read_cut(self, alloc: Global) -> Result<Result<Sent, FrameFault>, NoMemory>
        ensures { IfOk result (λ read. read ≡ Err Short) }
    {
        let Frame { mut bytes } = self;
        cut(&mut bytes);
        read_item(alloc, &bytes)
    }

    /// What its bytes are with 0 as the second one: they are at fault there. It fails for want of memory alone.
    #[tactic(auto, using(crate::proofs::Whole::bent_read))]
    pub fn read_bent(self, alloc: Global) -> Result<Result<Sent, FrameFault>, NoMemory>
        ensures { IfOk result (λ read. read ≡ Err (Bad 1)) }
    {
        let Frame { mut bytes } = self;
        bend(&mut bytes);
        read_item(alloc, &bytes)
    }
}
