ghost use Rattle.std.specs.Float.{binary64};
ghost use Rattle.hyperbolic.specs.Sinh.{sinh_of};
ghost use Rattle.inverse.specs.Asinh.{asinh_of};
ghost use Rattle.conversion.specs.FloatRules.{everywhere};
ghost use Rattle.function_conversions.specs.Laws.{sinh_sound, sinh_all, sinh_mirrored};

use crate::pair::{FullPair, OddPair, Pair};
use hyperbolic::sinh::sinh;
use inverse::asinh::asinh;

// sinh, and asinh back: of all numbers. It is full and odd.
#[derive(Clone, Copy)]
pub struct Sinh;

impl Pair for Sinh {
    type Figure = f64;

    ghost rule = { λ _. everywhere binary64 sinh_of asinh_of };

    ghost sound = { λ p. sinh_sound };

    fn low(&self) -> f64 {
        f64::NEG_INFINITY
    }

    fn high(&self) -> f64 {
        f64::INFINITY
    }

    fn forward(&self, x: f64) -> f64 {
        sinh(x)
    }

    fn backward(&self, x: f64) -> f64 {
        asinh(x)
    }
}

impl FullPair for Sinh {
    ghost all = { λ p. sinh_all };
}

impl OddPair for Sinh {
    ghost mirrored = { λ p. sinh_mirrored };
}
