ghost use Rattle.std.specs.Float.{binary32};
ghost use Rattle.float.specs.Constants.{minus_one};
ghost use Rattle.single.specs.Expm1f.{expm1f_of};
ghost use Rattle.single.specs.Log1pf.{log1pf_of};
ghost use Rattle.conversion.specs.FloatRules.{upward};
ghost use Rattle.function_conversions.specs.Laws.{expm1f_sound};

use crate::ends::MINUS_ONE_F;
use crate::pair::Pair;
use single::expm1f::expm1f;
use single::log1pf::log1pf;

// expm1f, and log1pf back from -1 on, over f32. Stays beside Expm1: of each of its lines the other has
// another function or type, and one text would have to be given all of them.
#[derive(Clone, Copy)]
pub struct Expm1f;

impl Pair for Expm1f {
    type Figure = f32;

    ghost rule = { λ _. upward binary32 expm1f_of log1pf_of (minus_one binary32) };

    ghost sound = { λ p. expm1f_sound };

    fn low(&self) -> f32 {
        MINUS_ONE_F
    }

    fn high(&self) -> f32 {
        f32::INFINITY
    }

    fn forward(&self, x: f32) -> f32 {
        expm1f(x)
    }

    fn backward(&self, x: f32) -> f32 {
        log1pf(x)
    }
}
