ghost use Rattle.std.specs.Prelude.{◌≡◌};
ghost use Rattle.scaling.specs.Scalbn.{scalbn_of};

use crate::scalbn::scalbn;
use crate::scalbnf::scalbnf;
use float::width::Width;

// A width whose values can be scaled by a power of two.
pub trait Scaling: Width {
    // The value times 2^n for every n, rounded once.
    fn scalbn(self, n: i32) -> Self
        ensures { Self.float result ≡ scalbn_of Self.format (Self.float self) n };
}

// Stays two impls: that a value fits its format, which the steps ask for, is known of f64 and of f32 only.
impl Scaling for f64 {
    fn scalbn(self, n: i32) -> f64 {
        scalbn(self, n)
    }
}

impl Scaling for f32 {
    fn scalbn(self, n: i32) -> f32 {
        scalbnf(self, n)
    }
}
