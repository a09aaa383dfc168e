use crate::bits::{INFINITY, MINUS_INFINITY, MINUS_ONE, MINUS_ZERO, NAN, ONE, ZERO, gives};
use hyperbolic::cosh::cosh;
use hyperbolic::sinh::sinh;
use hyperbolic::tanh::tanh;

#[test]
fn sinh_special(rt: HostRuntime) {
    gives(
        &rt,
        sinh,
        &[
            (NAN, NAN),
            (INFINITY, INFINITY),
            (MINUS_INFINITY, MINUS_INFINITY),
            (ZERO, ZERO),
            (MINUS_ZERO, MINUS_ZERO),
            (0xbe10_0000_0000_0000, 0xbe10_0000_0000_0000),
        ],
    );
}

#[test]
fn sinh_as_libm(rt: HostRuntime) {
    gives(
        &rt,
        sinh,
        &[
            (0x3ff0_0000_0000_0000, 0x3ff2_cd9f_c44e_b982),
            (0xc000_0000_0000_0000, 0xc00d_03cf_63b6_e1a0),
            (0x4089_0000_0000_0000, INFINITY),
            (0x4086_3000_0000_0000, 0x7fe3_e21a_4645_07f9),
        ],
    );
}

#[test]
fn cosh_special(rt: HostRuntime) {
    gives(
        &rt,
        cosh,
        &[
            (NAN, NAN),
            (INFINITY, INFINITY),
            (MINUS_INFINITY, INFINITY),
            (ZERO, ONE),
            (MINUS_ZERO, ONE),
        ],
    );
}

#[test]
fn cosh_as_libm(rt: HostRuntime) {
    gives(
        &rt,
        cosh,
        &[
            (0x3ff0_0000_0000_0000, 0x3ff8_b075_51d9_f551),
            (0x4000_0000_0000_0000, 0x400e_18fa_0df2_d9bc),
            (0x4086_3000_0000_0000, 0x7fe3_e21a_4645_07f9),
        ],
    );
}

#[test]
fn tanh_special(rt: HostRuntime) {
    gives(
        &rt,
        tanh,
        &[
            (NAN, NAN),
            (INFINITY, ONE),
            (MINUS_INFINITY, MINUS_ONE),
            (ZERO, ZERO),
            (MINUS_ZERO, MINUS_ZERO),
            (0xc089_0000_0000_0000, MINUS_ONE),
        ],
    );
}

#[test]
fn tanh_as_libm(rt: HostRuntime) {
    gives(
        &rt,
        tanh,
        &[
            (0x3fe0_0000_0000_0000, 0x3fdd_9353_d756_8af3),
            (0xbfd0_0000_0000_0000, 0xbfcf_597e_a69a_1c86),
            (0x3fb9_9999_9999_999a, 0x3fb9_83d7_795f_413a),
            (0x4000_0000_0000_0000, 0x3fee_d950_5e1b_c3d4),
        ],
    );
}
