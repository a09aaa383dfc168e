ghost use Rattle.conversion.specs.Conversions.{flipped};
ghost use Rattle.conversion.specs.Layers.{flip_sound, flip_mirrored};
ghost use Rattle.std.proofs.Common.{rules};

use crate::conversion::{Conversion, Full, Odd};
use crate::refusal::{Refusal, refused_as};

// A flip: on and back of a full conversion, exchanged. It is full, and odd if the one below is.
#[derive(Clone, Copy)]
pub struct Flip<C> {
    pub inner: C,
}

impl<C: Full> Conversion for Flip<C> {
    type Figure = C::Figure;

    ghost rule = { λ f. flipped (C.Conversion.rule f.inner) };

    ghost sound = { λ f. flip_sound _ _ (C.Conversion.sound f.inner) (C.Full.all f.inner) };

    fn low(&self) -> C::Figure {
        self.inner.low()
    }

    fn high(&self) -> C::Figure {
        self.inner.high()
    }

    fn on(&self, x: C::Figure) -> Result<C::Figure, Refusal> {
        refused_as(self.inner.back_number(x), Refusal::NotANumber)
    }

    fn back(&self, x: C::Figure) -> Result<C::Figure, Refusal> {
        refused_as(self.inner.on(x), Refusal::OutsideBackRange)
    }
}

impl<C: Full> Full for Flip<C> {
    ghost all = { Prim.search rules };
}

impl<C: Full + Odd> Odd for Flip<C> {
    ghost mirrored = { λ f. flip_mirrored _ _ (C.Full.all f.inner) (C.Odd.mirrored f.inner) };
}
