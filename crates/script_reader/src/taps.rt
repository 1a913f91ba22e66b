// Which objects taps show, as far as lines said it.
ghost use Rattle.std.specs.Prelude.{◌≡◌};
ghost use Rattle.script_reader.specs.Taps.{feeds_tap, has_tap, is_on_tap, looks_on_tap, shows};

use ids_core::ObjectId;
use script_core::{ClientStep, OperatorStep, Step, Tapped};

/// Whether the tap of a centre shows an object.
pub fn shows(taps: &[Tapped], centre: u8, object: &ObjectId) -> bool
    ensures { result ≡ shows taps.now centre object.now }
{
    taps.iter().any(|tapped| tapped.centre == centre && tapped.object == *object)
}

/// Whether a centre has a tap.
pub fn has_tap(taps: &[Tapped], centre: u8) -> bool
    ensures { result ≡ has_tap taps.now centre }
{
    taps.iter().any(|tapped| tapped.centre == centre)
}

// Whether the tap is there through which a client's step looks, where it does.
fn looks_on_tap(taps: &[Tapped], step: &ClientStep) -> bool
    ensures { result ≡ looks_on_tap taps.now step.now }
{
    match step {
        ClientStep::Look { centre, object } => shows(taps, *centre, object),
        _ => true,
    }
}

// Whether the tap is there that the operator's step feeds, where it does.
fn feeds_tap(taps: &[Tapped], step: &OperatorStep) -> bool
    ensures { result ≡ feeds_tap taps.now step.now }
{
    match step {
        OperatorStep::Feed { centre } => has_tap(taps, *centre),
        _ => true,
    }
}

/// Whether the tap is there that a step feeds or looks through, where it does.
pub fn is_on_tap(taps: &[Tapped], step: &Step) -> bool
    ensures { result ≡ is_on_tap taps.now step.now }
{
    match step {
        Step::Client { step, .. } => looks_on_tap(taps, step),
        Step::Operator { step } => feeds_tap(taps, step),
    }
}
