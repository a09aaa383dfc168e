//! The conversion of f64 by a power of two.
#![tactic(auto)]

ghost use Rattle.std.specs.Prelude.{◌≡◌, true};
ghost use Rattle.std.specs.Float.{binary64};
ghost use Rattle.std.specs.Result.{result_map_both};
ghost use Rattle.conversion.specs.Refusals.{told};
ghost use Rattle.scale.specs.Scales.{allowed, made, scaling};
ghost use Rattle.scale.specs.Laws.{scaling_sound, scaling_all, scaling_mirrored};

use conversion::conversion::{Conversion, Full, Odd, as_number};
use conversion::refusal::Refusal;
use scaling::scalbn::scalbn;

// The exponents of scales go from -BOUND to BOUND.
pub const BOUND: i32 = 64;

// A scale: on is times 2^exponent, and back times 2^-exponent, each rounded once.
#[derive(Clone, Copy)]
pub struct Scale {
    exponent: i32,
    ghost within: { allowed exponent ≡ true },
}

impl Scale {
    // Any exponent out of bounds is refused.
    pub fn new(exponent: i32) -> Result<Scale, Refusal>
        ensures { result_map_both (λ (c : Scale). c.exponent) told result ≡ made exponent }
    {
        if (-BOUND..=BOUND).contains(&exponent) {
            Ok(Scale { exponent })
        } else {
            Err(Refusal::ScaleOutOfBounds(exponent))
        }
    }
}

impl Conversion for Scale {
    type Figure = f64;

    ghost rule = { λ c. scaling binary64 c.exponent };

    ghost sound = { λ c. scaling_sound binary64 c.exponent };

    fn low(&self) -> f64 {
        f64::NEG_INFINITY
    }

    fn high(&self) -> f64 {
        f64::INFINITY
    }

    fn on(&self, x: f64) -> Result<f64, Refusal> {
        Ok(scalbn(as_number(x)?, self.exponent))
    }

    fn back(&self, x: f64) -> Result<f64, Refusal> {
        Ok(scalbn(self.in_back_range(x)?, -self.exponent))
    }
}

impl Full for Scale {
    ghost all = { λ c. scaling_all binary64 c.exponent };
}

impl Odd for Scale {
    ghost mirrored = { λ c. scaling_mirrored binary64 c.exponent };
}
