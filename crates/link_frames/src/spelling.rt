// The bytes of a record with its hops.
ghost use Rattle.std.specs.Prelude.{◌≡◌, IfOk};
ghost use Rattle.link_frames.specs.Spelling.{spelling};
ghost use Rattle.link_frames.specs.Frames.{HasFrame};

use dc_talk::Sent;
use ids_core::NoMemory;
use std::alloc::Global;
use wire_codec::encode_record;

/// The bytes of the frame of a record with its hops that has one, in the version that is written. It fails for want of
/// memory alone.
#[tactic(auto, unfolding(crate::specs::Spelling::spelling))]
pub fn spell_item(alloc: Global, sent: &Sent) -> Result<Vec<u8>, NoMemory>
    requires { HasFrame sent.now }
    ensures { IfOk result (λ bytes. bytes.items ≡ spelling sent.now) }
{
    encode_record(alloc, sent.item.as_record(), sent.hops)
}
