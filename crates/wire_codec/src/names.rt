// Fields that are names.
ghost use Rattle.std.specs.Prelude.{◌≡◌, ◌≤◌, Some, None, length, if◌then◌else◌};
ghost use Rattle.wire_codec.specs.Grammar.{are_name_bytes};
ghost use Rattle.wire_codec.specs.Reading.{Gives, name_at};

use crate::fault::{Fault, Stop};
use crate::numbers::u8_at;
use ids_core::Name;

/// A name.
#[tactic(auto, unfolding(crate::specs::Reading::name_at))]
pub fn name_at(bytes: &[u8]) -> Result<(Name, &[u8]), Stop>
    ensures { Gives (λ x. (x.0, x.1.now)) result (name_at bytes.now) }
{
    let (len, rest) = u8_at(1, 32, bytes)?;
    let len = usize::from(len);
    if rest.len() < len {
        return Err(Stop::Fault(Fault::Short));
    }
    let (front, behind) = rest.split_at(len);
    match name_of(front) {
        Some(name) => Ok((name, behind)),
        None => Err(Stop::Fault(Fault::Bad(rest.len()))),
    }
}

// The name that 1 to 32 bytes are, if they are one.
fn name_of(bytes: &[u8]) -> Option<Name>
    requires { (1 ≤ length bytes.now) × (length bytes.now ≤ 32) }
    ensures { result ≡ (if are_name_bytes bytes.now then Some bytes.now else None) }
{
    Name::read(bytes).ok()
}
