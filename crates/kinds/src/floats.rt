ghost use Rattle.std.specs.Prelude.{◌≡◌, ℕ, pos};
ghost use Rattle.std.specs.Float.{binary32, binary64};
ghost use Rattle.std.specs.Float.Ieee.{of_int};
ghost use Rattle.kinds.specs.Kinds.{Lawful};
ghost use Rattle.kinds.specs.Floats.{floats, floats_as};
ghost use Rattle.kinds.specs.FloatLaws.{floats_lawful};

use crate::count::Count;
use crate::kind::Kind;
use num_traits::{Float, Zero};

// The floats that figures are made of: f64 and f32.
pub trait FloatKind: Float + From<u16> {
    // Whether the value is a number of its format. Stays with each type: that every value fits its
    // format is known of f64 and of f32, and not of every type with the laws of a float.
    fn is_not_nan(self) -> bool
        ensures { result ≡ (floats Self.format).number (Self.float self) };

    ghost counted: { (n : ℕ) (r : Self) → Self.from_gives n r → Self.float r ≡ of_int Self.format (pos n) };

    ghost lawful: { Lawful (floats_as Self.format Self.float Self.of_float) };
}

impl FloatKind for f64 {
    fn is_not_nan(self) -> bool {
        !f64::is_nan(self)
    }

    ghost counted = { λ n r e. e };

    ghost lawful = { floats_lawful binary64 };
}

impl FloatKind for f32 {
    fn is_not_nan(self) -> bool {
        !f32::is_nan(self)
    }

    ghost counted = { λ n r e. e };

    ghost lawful = { floats_lawful binary32 };
}

// Every float but NaN is a number.
impl<F: FloatKind> Kind for F {
    ghost means = { floats_as F.format F.float F.of_float };

    ghost lawful = { F.FloatKind.lawful };

    fn is_number(self) -> bool {
        self.is_not_nan()
    }

    fn is_infinite(self) -> bool {
        Float::is_infinite(self)
    }

    fn zero() -> F {
        <F as Zero>::zero()
    }

    fn turned(self) -> F {
        -self
    }

    fn at_most(self, other: F) -> bool {
        self <= other
    }

    fn greater(self, other: F) -> bool {
        self > other
    }

    fn plus(self, other: F) -> F {
        self + other
    }

    fn over(self, count: Count) -> F {
        self / <F as From<u16>>::from(count.get())
    }
}
