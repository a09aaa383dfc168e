ghost use Rattle.std.specs.Float.{binary64};
ghost use Rattle.float.specs.Constants.{minus_one};
ghost use Rattle.exponential.specs.Expm1.{expm1_of};
ghost use Rattle.logarithm.specs.Log1p.{log1p_of};
ghost use Rattle.conversion.specs.FloatRules.{upward};
ghost use Rattle.function_conversions.specs.Laws.{expm1_sound};

use crate::ends::MINUS_ONE;
use crate::pair::Pair;
use exponential::expm1::expm1;
use logarithm::log1p::log1p;

// expm1, and log1p back from -1 on.
#[derive(Clone, Copy)]
pub struct Expm1;

impl Pair for Expm1 {
    type Figure = f64;

    ghost rule = { λ _. upward binary64 expm1_of log1p_of (minus_one binary64) };

    ghost sound = { λ p. expm1_sound };

    fn low(&self) -> f64 {
        MINUS_ONE
    }

    fn high(&self) -> f64 {
        f64::INFINITY
    }

    fn forward(&self, x: f64) -> f64 {
        expm1(x)
    }

    fn backward(&self, x: f64) -> f64 {
        log1p(x)
    }
}
