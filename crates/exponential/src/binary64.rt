// The tables of an f64.
ghost use Rattle.exponential.specs.Counts.{double_counts, double_reduces};
ghost use Rattle.exponential.specs.Expm1.{double};
ghost use Rattle.std.specs.Prelude.{refl};

use crate::table::Table;
use float::band::{below, negative};

const LN2_HI: f64 = f64::from_bits(0x3fe6_2e42_fee0_0000);

const LN2_LO: f64 = f64::from_bits(0x3dea_39ef_3579_3c76);

const INVLN2: f64 = f64::from_bits(0x3ff7_1547_652b_82fe);

const O_THRESHOLD: f64 = f64::from_bits(0x4086_2e42_fefa_39ef);

// Stays a table of two that the sign indexes, as the source's macro for it is.
const HALF: [f64; 2] = [0.5, -0.5];

// Scaled coefficients, for z = r * r / 2.
const Q: [f64; 5] = [
    f64::from_bits(0xBFA1_1111_1111_10F4),
    f64::from_bits(0x3F5A_01A0_19FE_5585),
    f64::from_bits(0xBF14_CE19_9EAA_DBB7),
    f64::from_bits(0x3ED0_CFCA_86E6_5239),
    f64::from_bits(0xBE8A_FDB7_6E09_C32D),
];

// Stays apart from the other width's: these are the numbers of its source, and the polynomial is written out
// as it is there, so that the order of the steps can be held against it.
impl Table for f64 {
    ghost table = { double };

    ghost same_format = { refl };

    ghost counts = { double_counts };

    ghost reduces = { double_reduces };

    fn inv_ln2() -> f64 {
        INVLN2
    }

    fn half_like(self) -> f64 {
        HALF[negative(self) as usize]
    }

    fn ln2_hi() -> f64 {
        LN2_HI
    }

    fn ln2_lo() -> f64 {
        LN2_LO
    }

    // The four tests on size are hinted to be inlined first, as are the tests of expm1 that call them: then one
    // size word serves them all. Without the hints expm1 takes up to a quarter longer far from zero.
    #[inline(always)]
    fn is_below_once(self) -> bool {
        below(self, 0x3fd6_2e43)
    }

    #[inline(always)]
    fn is_below_more(self) -> bool {
        below(self, 0x3ff0_a2b2)
    }

    fn kernel(z: f64) -> f64 {
        1.0 + z * (Q[0] + z * (Q[1] + z * (Q[2] + z * (Q[3] + z * Q[4]))))
    }

    #[inline(always)]
    fn is_tiny(self) -> bool {
        below(self, 0x3c90_0000)
    }

    #[inline(always)]
    fn is_below_far(self) -> bool {
        below(self, 0x4043_687a)
    }

    fn overflow() -> f64 {
        O_THRESHOLD
    }

    fn is_narrow(k: i16) -> bool {
        k < 20
    }
}
