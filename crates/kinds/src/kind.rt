ghost use Rattle.std.specs.Prelude.{◌≡◌};
ghost use Rattle.kinds.specs.Kinds.{Meaning, Lawful};

use crate::count::Count;

// A kind of figure. Its values and these functions are its meaning, and the laws are all that it
// owes. Every method takes every value.
pub trait Kind: Copy {
    ghost means: { Meaning Self };

    // Whether a figure may have this value.
    fn is_number(self) -> bool
        ensures { result ≡ means.number self };

    fn is_infinite(self) -> bool
        ensures { result ≡ means.infinite self };

    fn zero() -> Self
        ensures { result ≡ means.nought };

    // The value with its sign turned.
    fn turned(self) -> Self
        ensures { result ≡ means.turned self };

    fn at_most(self, other: Self) -> bool
        ensures { result ≡ means.at_most self other };

    fn greater(self, other: Self) -> bool
        ensures { result ≡ means.greater self other };

    fn plus(self, other: Self) -> Self
        ensures { result ≡ means.plus self other };

    fn over(self, count: Count) -> Self
        ensures { result ≡ means.over self count.value };

    ghost lawful: { Lawful means };
}
