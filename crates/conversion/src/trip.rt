ghost use Rattle.std.specs.Prelude.{◌≡◌};
ghost use Rattle.conversion.specs.Refusals.{answered};
ghost use Rattle.conversion.specs.Conversions.{round_trip, Gives};

use crate::conversion::Conversion;
use crate::refusal::Refusal;

// A figure put on and taken back. Whatever the conversion, back never refuses what on gave: only a
// figure that is no number is refused, and by on.
pub fn round_trip<C: Conversion>(c: &C, x: C::Figure) -> Result<C::Figure, Refusal>
    ensures answer { answered result ≡ round_trip C.Figure.Kind.means (C.Conversion.rule c.now) x }
    ensures within { Gives C.Figure.Kind.means.number result }
{
    c.back(c.on(x)?)
}
