// What bytes are.
ghost use Rattle.std.specs.Prelude.{◌≡◌, length, IfOk};
ghost use Rattle.wire_codec.specs.declared.item.Decoded.{Decoded};
ghost use Rattle.wire_codec.specs.Answers.{IsAnswer, told};
ghost use Rattle.wire_codec.specs.Reading.{frame_at};

use crate::fault::{Fault, Stop};
use crate::item::Decoded;
use crate::records::frame_at;
use ids_core::NoMemory;
use std::alloc::Global;

/// What bytes are. Bytes behind a frame are not looked at.
pub fn decode(alloc: Global, bytes: &[u8]) -> Result<Decoded, NoMemory>
    ensures answer { IfOk result (λ decoded. IsAnswer bytes.now decoded) }
    ensures only { (other : Decoded) → IsAnswer bytes.now other → IfOk result (λ decoded. decoded ≡ other) }
{
    told(alloc, bytes)
}

// What reading the fields tells of bytes.
fn told(alloc: Global, bytes: &[u8]) -> Result<Decoded, NoMemory>
    ensures { IfOk result (λ decoded. decoded ≡ told (length bytes.now) (frame_at bytes.now)) }
{
    match frame_at(alloc, bytes) {
        Ok((frame, rest)) => {
            let used = (bytes.len() - rest.len()) as u64;
            let (_, item) = frame;
            Ok(Decoded::Whole { item, used })
        }
        Err(Stop::Memory) => Err(NoMemory),
        Err(Stop::Fault(Fault::Short)) => Ok(Decoded::Short),
        Err(Stop::Fault(Fault::Bad(left))) => {
            let place = (bytes.len() - left) as u64;
            Ok(Decoded::Bad { place })
        }
    }
}
