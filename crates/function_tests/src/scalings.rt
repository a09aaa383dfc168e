use crate::bits::{Bits, INFINITY, MINUS_INFINITY, MINUS_ZERO, NAN, ONE, ZERO, gives, scales};
use root::sqrt::sqrt;
use scaling::scalbn::scalbn;

#[test]
fn scalbn_keeps(rt: HostRuntime) {
    scales(
        &rt,
        scalbn,
        &[
            (NAN, 7, NAN),
            (INFINITY, -2147483648, INFINITY),
            (MINUS_INFINITY, 2147483647, MINUS_INFINITY),
            (MINUS_ZERO, 2147483647, MINUS_ZERO),
            (ZERO, 2147483647, ZERO),
        ],
    );
}

// From exact arithmetic: a power of two, both ends, and one rounding of a subnormal result. 3 * 2^-1075 lies
// halfway between two values, and goes to the even one.
#[test]
fn scalbn_rounds_once(rt: HostRuntime) {
    scales(
        &rt,
        scalbn,
        &[
            (ONE, 1023, 0x7fe0_0000_0000_0000),
            (ONE, 1024, INFINITY),
            (ONE, -1074, 1),
            (ONE, -1075, ZERO),
            (3.0f64.bits(), -1075, 2),
            (5.0f64.bits(), -1075, 2),
            (7.0f64.bits(), -1075, 4),
            (1, 2097, 0x7fe0_0000_0000_0000),
            (0x7fef_ffff_ffff_ffff, -2147483648, ZERO),
        ],
    );
}

#[test]
fn sqrt_special(rt: HostRuntime) {
    gives(
        &rt,
        sqrt,
        &[
            (NAN, NAN),
            (INFINITY, INFINITY),
            (MINUS_INFINITY, NAN),
            ((-1.0f64).bits(), NAN),
            (ZERO, ZERO),
            (MINUS_ZERO, MINUS_ZERO),
        ],
    );
}

// From exact arithmetic, by comparing squares.
#[test]
fn sqrt_nearest(rt: HostRuntime) {
    gives(
        &rt,
        sqrt,
        &[
            (2.0f64.bits(), 0x3ff6_a09e_667f_3bcd),
            (3.0f64.bits(), 0x3ffb_b67a_e858_4caa),
            (0x3fb9_9999_9999_999a, 0x3fd4_3d13_6248_490f),
            (0x3ff0_0000_0000_0001, ONE),
            (0x3ff0_0000_0000_0002, 0x3ff0_0000_0000_0001),
            (1, 0x1e60_0000_0000_0000),
            (0x000f_ffff_ffff_ffff, 0x1fff_ffff_ffff_ffff),
            (0x7fef_ffff_ffff_ffff, 0x5fef_ffff_ffff_ffff),
        ],
    );
}
