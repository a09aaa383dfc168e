ghost use Rattle.std.specs.Prelude.{pos, neg_ℤ};
ghost use Rattle.kinds.specs.Cents.{cents, limit};
ghost use Rattle.conversion.specs.Conversions.{reversed};
ghost use Rattle.std.proofs.Common.{rules};

use crate::conversion::{Conversion, Full, Odd, as_number};
use crate::refusal::Refusal;
use kinds::kind::Kind;

// The reversal of whole cents: on and back both turn the sign.
#[derive(Clone, Copy)]
pub struct Reversal;

impl Conversion for Reversal {
    type Figure = i64;

    ghost rule = { λ _. reversed cents (neg_ℤ (pos limit)) (pos limit) };

    ghost sound = { Prim.search rules };

    fn low(&self) -> i64 {
        -self.high()
    }

    fn high(&self) -> i64 {
        kinds::cents::LIMIT
    }

    fn on(&self, x: i64) -> Result<i64, Refusal> {
        Ok(as_number(x)?.turned())
    }

    fn back(&self, x: i64) -> Result<i64, Refusal> {
        Ok(self.in_back_range(x)?.turned())
    }
}

impl Full for Reversal {
    ghost all = { Prim.search rules };
}

impl Odd for Reversal {
    ghost mirrored = { Prim.search rules };
}
