// Sets of dots.
ghost use Rattle.std.specs.Prelude.{◌≡◌};
ghost use Rattle.dc_talk.specs.Records.{has};

use ids_core::Dot;
use list_core::List;

/// A set of dots, as those of all that a transaction may have seen.
pub type DotSet = List<Dot>;

/// Whether the dot is among the dots.
pub fn is_in(dot: &Dot, dots: &[Dot]) -> bool
    ensures { result ≡ has dot.now dots.now }
{
    for other in dots {
        if *dot == *other {
            return true;
        }
    }
    false
}
