// The tables of an f32.
ghost use Rattle.exponential.specs.Counts.{single_counts, single_reduces};
ghost use Rattle.exponential.specs.Expm1.{single};
ghost use Rattle.std.specs.Prelude.{refl};

use crate::table::Table;
use float::band::{below, negative};

const LN2_HI: f32 = f32::from_bits(0x3f31_7180);

const LN2_LO: f32 = f32::from_bits(0x3717_f7d1);

const INV_LN2: f32 = f32::from_bits(0x3fb8_aa3b);

// 88.72..: above it the result overflows.
const OVERFLOW: f32 = f32::from_bits(0x42b1_7217);

// Stays a table of two that the sign indexes, as the source's macro for it is.
const HALF: [f32; 2] = [0.5, -0.5];

// Scaled coefficients, for z = r * r / 2.
const Q: [f32; 2] = [f32::from_bits(0xbd08_8868), f32::from_bits(0x3acf_3010)];

// Stays apart from the other width's: these are the numbers of its source, and the polynomial is written out
// as it is there, so that the order of the steps can be held against it.
impl Table for f32 {
    ghost table = { single };

    ghost same_format = { refl };

    ghost counts = { single_counts };

    ghost reduces = { single_reduces };

    fn inv_ln2() -> f32 {
        INV_LN2
    }

    fn half_like(self) -> f32 {
        HALF[negative(self) as usize]
    }

    fn ln2_hi() -> f32 {
        LN2_HI
    }

    fn ln2_lo() -> f32 {
        LN2_LO
    }

    fn is_below_once(self) -> bool {
        below(self, 0x3eb1_7219)
    }

    fn is_below_more(self) -> bool {
        below(self, 0x3f85_1592)
    }

    fn kernel(z: f32) -> f32 {
        1.0 + z * (Q[0] + z * Q[1])
    }

    fn is_tiny(self) -> bool {
        below(self, 0x3300_0000)
    }

    fn is_below_far(self) -> bool {
        below(self, 0x4195_b844)
    }

    fn overflow() -> f32 {
        OVERFLOW
    }

    fn is_narrow(k: i16) -> bool {
        k < 23
    }
}
