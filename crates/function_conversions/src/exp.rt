ghost use Rattle.std.specs.Float.{binary64};
ghost use Rattle.float.specs.Constants.{plus_zero};
ghost use Rattle.exponential.specs.Exp.{exp_of};
ghost use Rattle.logarithm.specs.Log.{log_of};
ghost use Rattle.conversion.specs.FloatRules.{upward};
ghost use Rattle.function_conversions.specs.Laws.{exp_sound};

use crate::pair::Pair;
use exponential::exp::exp;
use logarithm::log::log;

// exp, and log back from 0 on, either zero included.
#[derive(Clone, Copy)]
pub struct Exp;

impl Pair for Exp {
    type Figure = f64;

    ghost rule = { λ _. upward binary64 exp_of log_of (plus_zero binary64) };

    ghost sound = { λ p. exp_sound };

    fn low(&self) -> f64 {
        0.0
    }

    fn high(&self) -> f64 {
        f64::INFINITY
    }

    fn forward(&self, x: f64) -> f64 {
        exp(x)
    }

    fn backward(&self, x: f64) -> f64 {
        log(x)
    }
}
