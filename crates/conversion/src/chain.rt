ghost use Rattle.conversion.specs.Conversions.{chained};
ghost use Rattle.conversion.specs.Layers.{chain_sound, chain_mirrored};
ghost use Rattle.std.proofs.Common.{rules};

use crate::conversion::{Conversion, Full, Odd};
use crate::refusal::Refusal;

// A chain: the second conversion after the first, which is full and of the same kind. Its back range
// is the second's. It is full if the second is, and odd if both are.
#[derive(Clone, Copy)]
pub struct Chain<A, B> {
    pub first: A,
    pub second: B,
}

impl<A: Full, B: Conversion<Figure = A::Figure>> Conversion for Chain<A, B> {
    type Figure = A::Figure;

    ghost rule = { λ f. chained (A.Conversion.rule f.first) (B.Conversion.rule f.second) };

    ghost sound = { λ f. chain_sound _ _ _ (A.Conversion.sound f.first) (B.Conversion.sound f.second) (A.Full.all f.first) };

    fn low(&self) -> A::Figure {
        self.second.low()
    }

    fn high(&self) -> A::Figure {
        self.second.high()
    }

    fn on(&self, x: A::Figure) -> Result<A::Figure, Refusal> {
        self.second.on(self.first.on(x)?)
    }

    fn back(&self, x: A::Figure) -> Result<A::Figure, Refusal> {
        self.first.back_number(self.second.back(x)?)
    }
}

impl<A: Full, B: Full + Conversion<Figure = A::Figure>> Full for Chain<A, B> {
    ghost all = { Prim.search rules };
}

impl<A: Full + Odd, B: Odd + Conversion<Figure = A::Figure>> Odd for Chain<A, B> {
    ghost mirrored = { λ f.
        chain_mirrored _ _ _ (A.Conversion.sound f.first) (B.Conversion.sound f.second) (A.Full.all f.first)
        (A.Odd.mirrored f.first) (B.Odd.mirrored f.second) };
}
