ghost use Rattle.std.specs.Prelude.{◌≡◌};
ghost use Rattle.conversion.specs.Conversions.{Rule, Sound, AllNumbers, Mirrored};

use conversion::conversion::{Conversion, Full, Odd, as_number};
use conversion::refusal::Refusal;
use kinds::kind::Kind;

// A pair of functions over one kind, the second the inverse of the first, with the two ends between
// which the first one's values lie.
pub trait Pair {
    type Figure: Kind;

    ghost rule: { Self → Rule Self.Figure };

    fn low(&self) -> Self::Figure
        ensures { result ≡ (rule self.now).low };

    fn high(&self) -> Self::Figure
        ensures { result ≡ (rule self.now).high };

    fn forward(&self, x: Self::Figure) -> Self::Figure
        ensures { result ≡ (rule self.now).on x };

    fn backward(&self, x: Self::Figure) -> Self::Figure
        ensures { result ≡ (rule self.now).back x };

    ghost sound: { (p : Self) → Sound Self.Figure.Kind.means (rule p) };
}

// A pair whose second function takes every number.
pub trait FullPair: Pair {
    ghost all: { (p : Self) → AllNumbers Self.Figure.Kind.means (Self.Pair.rule p) };
}

// A pair of odd functions.
pub trait OddPair: Pair {
    ghost mirrored: { (p : Self) → Mirrored Self.Figure.Kind.means (Self.Pair.rule p) };
}

// The conversion by a pair: on is the first function, of every number, and back the second, of every
// number between the ends.
#[derive(Clone, Copy)]
pub struct By<P> {
    pub pair: P,
}

impl<P: Pair> Conversion for By<P> {
    type Figure = P::Figure;

    ghost rule = { λ c. P.Pair.rule c.pair };

    ghost sound = { λ c. P.Pair.sound c.pair };

    fn low(&self) -> P::Figure {
        self.pair.low()
    }

    fn high(&self) -> P::Figure {
        self.pair.high()
    }

    fn on(&self, x: P::Figure) -> Result<P::Figure, Refusal> {
        Ok(self.pair.forward(as_number(x)?))
    }

    fn back(&self, x: P::Figure) -> Result<P::Figure, Refusal> {
        Ok(self.pair.backward(self.in_back_range(x)?))
    }
}

impl<P: FullPair> Full for By<P> {
    ghost all = { λ c. P.FullPair.all c.pair };
}

impl<P: OddPair> Odd for By<P> {
    ghost mirrored = { λ c. P.OddPair.mirrored c.pair };
}
