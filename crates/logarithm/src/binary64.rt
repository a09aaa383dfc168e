// The constants of an f64.
ghost use Rattle.logarithm.specs.Kernel as Kernel;
ghost use Rattle.logarithm.specs.Kernel.{moved_of};
ghost use Rattle.logarithm.specs.Log1p.{double};
ghost use Rattle.std.specs.Prelude.{◌≡◌, refl};

use crate::table::Table;
use float::band::below;
use std::num::{f64_from_bits_with_nan, f64_to_bits_with_nan};

const LN2_HI: f64 = f64::from_bits(0x3fe6_2e42_fee0_0000);

const LN2_LO: f64 = f64::from_bits(0x3dea_39ef_3579_3c76);

// LG1 to LG7.
const LG: [f64; 7] = [
    f64::from_bits(0x3FE5_5555_5555_5593),
    f64::from_bits(0x3FD9_9999_9997_FA04),
    f64::from_bits(0x3FD2_4924_9422_9359),
    f64::from_bits(0x3FCC_71C5_1D8E_78AF),
    f64::from_bits(0x3FC7_4664_96CB_03DE),
    f64::from_bits(0x3FC3_9A09_D078_C69F),
    f64::from_bits(0x3FC2_F112_DF3E_5244),
];

// Stays with its width, as the exponent and the significand do: the patterns are of two types, and one text
// for both would have to cast them in every line.
// The pattern without the sign, moved so that the exponent steps near √½ and no longer at 1.
fn moved(b: u64) -> u64
    ensures { result ≡ moved_of Kernel.double b }
{
    b % 0x8000_0000_0000_0000 + 0x0009_5f62_0000_0000
}

// Stays apart from the other width's: these are the numbers of its source, and the polynomials are written out
// as they are there, so that the order of the steps can be held against it.
impl Table for f64 {
    ghost table = { double };

    ghost same_format = { refl };

    fn ln2_hi() -> f64 {
        LN2_HI
    }

    fn ln2_lo() -> f64 {
        LN2_LO
    }

    fn exponent(self) -> i16 {
        (moved(f64_to_bits_with_nan(self)) >> 52) as i16 - 0x3ff
    }

    fn significand(self) -> f64 {
        let digits = moved(f64_to_bits_with_nan(self)) % 0x0010_0000_0000_0000;
        f64_from_bits_with_nan(digits + 0x3fe6_a09e_0000_0000)
    }

    fn odd(w: f64) -> f64 {
        LG[0] + w * (LG[2] + w * (LG[4] + w * LG[6]))
    }

    fn even(w: f64) -> f64 {
        LG[1] + w * (LG[3] + w * LG[5])
    }

    fn is_tiny(self) -> bool {
        below(self, 0x3ca0_0000)
    }

    fn is_near_below(self) -> bool {
        below(self, 0x3fd2_bec5)
    }

    fn is_near_above(self) -> bool {
        below(self, 0x3fda_827a)
    }

    fn is_corrected(k: i16) -> bool {
        k < 54
    }
}
