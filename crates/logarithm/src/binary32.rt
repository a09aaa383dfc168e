// The constants of an f32.
ghost use Rattle.logarithm.specs.Kernel as Kernel;
ghost use Rattle.logarithm.specs.Kernel.{moved_of};
ghost use Rattle.logarithm.specs.Log1p.{single};
ghost use Rattle.std.specs.Prelude.{◌≡◌, refl};

use crate::table::Table;
use float::band::below;
use std::num::{f32_from_bits_with_nan, f32_to_bits_with_nan};

const LN2_HI: f32 = f32::from_bits(0x3f31_7180);

const LN2_LO: f32 = f32::from_bits(0x3717_f7d1);

// LG1 to LG4.
const LG: [f32; 4] = [
    f32::from_bits(0x3f2a_aaaa),
    f32::from_bits(0x3ecc_ce13),
    f32::from_bits(0x3e91_e9ee),
    f32::from_bits(0x3e78_9e26),
];

// Stays with its width, as the exponent and the significand do: the patterns are of two types, and one text
// for both would have to cast them in every line.
// The pattern without the sign, moved so that the exponent steps near √½ and no longer at 1.
fn moved(b: u32) -> u32
    ensures { result ≡ moved_of Kernel.single b }
{
    b % 0x8000_0000 + 0x004a_fb0d
}

// Stays apart from the other width's: these are the numbers of its source, and the polynomials are written out
// as they are there, so that the order of the steps can be held against it.
impl Table for f32 {
    ghost table = { single };

    ghost same_format = { refl };

    fn ln2_hi() -> f32 {
        LN2_HI
    }

    fn ln2_lo() -> f32 {
        LN2_LO
    }

    fn exponent(self) -> i16 {
        (moved(f32_to_bits_with_nan(self)) >> 23) as i16 - 0x7f
    }

    fn significand(self) -> f32 {
        let digits = moved(f32_to_bits_with_nan(self)) % 0x0080_0000;
        f32_from_bits_with_nan(digits + 0x3f35_04f3)
    }

    fn odd(w: f32) -> f32 {
        LG[0] + w * LG[2]
    }

    fn even(w: f32) -> f32 {
        LG[1] + w * LG[3]
    }

    fn is_tiny(self) -> bool {
        below(self, 0x3380_0000)
    }

    fn is_near_below(self) -> bool {
        below(self, 0x3e95_f61a)
    }

    fn is_near_above(self) -> bool {
        below(self, 0x3ed4_13d0)
    }

    fn is_corrected(k: i16) -> bool {
        k < 25
    }
}
