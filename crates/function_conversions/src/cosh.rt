ghost use Rattle.std.specs.Float.{binary64};
ghost use Rattle.float.specs.Constants.{one};
ghost use Rattle.hyperbolic.specs.Cosh.{cosh_of};
ghost use Rattle.inverse.specs.Acosh.{acosh_of};
ghost use Rattle.conversion.specs.FloatRules.{upward};
ghost use Rattle.function_conversions.specs.Laws.{cosh_sound};

use crate::pair::Pair;
use hyperbolic::cosh::cosh;
use inverse::acosh::acosh;

// cosh, and acosh back from 1 on.
#[derive(Clone, Copy)]
pub struct Cosh;

impl Pair for Cosh {
    type Figure = f64;

    ghost rule = { λ _. upward binary64 cosh_of acosh_of (one binary64) };

    ghost sound = { λ p. cosh_sound };

    fn low(&self) -> f64 {
        1.0
    }

    fn high(&self) -> f64 {
        f64::INFINITY
    }

    fn forward(&self, x: f64) -> f64 {
        cosh(x)
    }

    fn backward(&self, x: f64) -> f64 {
        acosh(x)
    }
}
