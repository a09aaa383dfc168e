ghost use Rattle.std.specs.Float.{binary64};
ghost use Rattle.float.specs.Constants.{minus_one, one};
ghost use Rattle.hyperbolic.specs.Tanh.{tanh_of};
ghost use Rattle.inverse.specs.Atanh.{atanh_of};
ghost use Rattle.conversion.specs.FloatRules.{between};
ghost use Rattle.function_conversions.specs.Laws.{tanh_sound, tanh_mirrored};

use crate::ends::MINUS_ONE;
use crate::pair::{OddPair, Pair};
use hyperbolic::tanh::tanh;
use inverse::atanh::atanh;

// tanh, and atanh back from -1 to 1. It is odd.
#[derive(Clone, Copy)]
pub struct Tanh;

impl Pair for Tanh {
    type Figure = f64;

    ghost rule = { λ _. between tanh_of atanh_of (minus_one binary64) (one binary64) };

    ghost sound = { λ p. tanh_sound };

    fn low(&self) -> f64 {
        MINUS_ONE
    }

    fn high(&self) -> f64 {
        1.0
    }

    fn forward(&self, x: f64) -> f64 {
        tanh(x)
    }

    fn backward(&self, x: f64) -> f64 {
        atanh(x)
    }
}

impl OddPair for Tanh {
    ghost mirrored = { λ p. tanh_mirrored };
}
