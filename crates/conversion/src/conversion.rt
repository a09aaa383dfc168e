ghost use Rattle.std.specs.Prelude.{◌≡◌};
ghost use Rattle.conversion.specs.Refusals.{answered};
ghost use Rattle.conversion.specs.Conversions.{Rule, Sound, AllNumbers, Mirrored, on_answer, back_answer, back_number_answer, in_range, numbered, number_answer, ranged, range_answer, Gives};

use crate::refusal::Refusal;
use kinds::kind::Kind;

// The figure, if it is a number: what every on takes.
pub fn as_number<K: Kind>(x: K) -> Result<K, Refusal>
    ensures answer { answered result ≡ number_answer K.Kind.means x }
    ensures refusal { result ≡ numbered K.Kind.means x }
{
    x.is_number().then_some(x).ok_or(Refusal::NotANumber)
}

// A conversion of figures of one kind. `on` takes exactly the numbers, and `back` exactly the back
// range, which is the numbers from `low` to `high`, both included.
pub trait Conversion {
    type Figure: Kind;

    ghost rule: { Self → Rule Self.Figure };

    fn low(&self) -> Self::Figure
        ensures { result ≡ (rule self.now).low };

    fn high(&self) -> Self::Figure
        ensures { result ≡ (rule self.now).high };

    fn on(&self, x: Self::Figure) -> Result<Self::Figure, Refusal>
        ensures answer { answered result ≡ on_answer Self.Figure.Kind.means (rule self.now) x }
        ensures within { Gives (in_range Self.Figure.Kind.means (rule self.now)) result };

    fn back(&self, x: Self::Figure) -> Result<Self::Figure, Refusal>
        ensures answer { answered result ≡ back_answer Self.Figure.Kind.means (rule self.now) x }
        ensures within { Gives Self.Figure.Kind.means.number result };

    // Whether a figure lies in the back range.
    fn takes_back(&self, x: Self::Figure) -> bool
        ensures { result ≡ in_range Self.Figure.Kind.means (rule self.now) x }
    {
        x.is_number() && self.low().at_most(x) && x.at_most(self.high())
    }

    // The figure, if it lies in the back range: what its back takes.
    fn in_back_range(&self, x: Self::Figure) -> Result<Self::Figure, Refusal>
        ensures answer { answered result ≡ range_answer Self.Figure.Kind.means (rule self.now) x }
        ensures refusal { result ≡ ranged Self.Figure.Kind.means (rule self.now) x }
    {
        self.takes_back(x)
            .then_some(x)
            .ok_or(Refusal::OutsideBackRange)
    }

    ghost sound: { (c : Self) → Sound Self.Figure.Kind.means (rule c) };
}

// A conversion whose back range is all numbers of the kind.
pub trait Full: Conversion {
    // The back of every number; what is no number is refused.
    fn back_number(&self, x: Self::Figure) -> Result<Self::Figure, Refusal>
        ensures answer { answered result ≡ back_number_answer Self.Figure.Kind.means (Self.Conversion.rule self.now) x }
        ensures within { Gives (in_range Self.Figure.Kind.means (Self.Conversion.rule self.now)) result }
    {
        self.back(x)
    }

    ghost all: { (c : Self) → AllNumbers Self.Figure.Kind.means (Self.Conversion.rule c) };
}

// A conversion that answers a sign-turned figure with the sign-turned answer.
pub trait Odd: Conversion {
    ghost mirrored: { (c : Self) → Mirrored Self.Figure.Kind.means (Self.Conversion.rule c) };
}
