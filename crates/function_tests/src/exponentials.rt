use crate::bits::{INFINITY, MINUS_INFINITY, MINUS_ONE, MINUS_ZERO, NAN, ONE, ZERO, gives};
use exponential::exp::exp;
use exponential::expm1::expm1;

#[test]
fn expm1_special(rt: HostRuntime) {
    gives(
        &rt,
        expm1,
        &[
            (NAN, NAN),
            (0x7ff0_0000_0000_0001, NAN),
            (0xfff8_0000_0000_0000, NAN),
            (INFINITY, INFINITY),
            (MINUS_INFINITY, MINUS_ONE),
            (ZERO, ZERO),
            (MINUS_ZERO, MINUS_ZERO),
        ],
    );
}

#[test]
fn expm1_as_libm(rt: HostRuntime) {
    gives(
        &rt,
        expm1,
        &[
            (0x3ff0_0000_0000_0000, 0x3ffb_7e15_1628_aed2),
            (0xbff0_0000_0000_0000, 0xbfe4_3a54_e4e9_8864),
            (0x4024_0000_0000_0000, 0x40d5_825d_cf95_0560),
            (0x3fd0_0000_0000_0000, 0x3fd2_2d78_f0fa_061a),
            (0x4085_e000_0000_0000, 0x7f0d_945d_f4f8_ec8e),
        ],
    );
}

#[test]
fn exp_special(rt: HostRuntime) {
    gives(
        &rt,
        exp,
        &[
            (NAN, NAN),
            (INFINITY, INFINITY),
            (MINUS_INFINITY, ZERO),
            (ZERO, ONE),
            (MINUS_ZERO, ONE),
        ],
    );
}

#[test]
fn exp_as_libm(rt: HostRuntime) {
    gives(
        &rt,
        exp,
        &[
            (0x3ff0_0000_0000_0000, 0x4005_bf0a_8b14_576a),
            (0xc024_0000_0000_0000, 0x3f07_cd79_b564_7c9a),
            (0xc086_8000_0000_0000, 0x0000_0009_93b4_dc95),
            (0x3fd0_0000_0000_0000, 0x3ff4_8b5e_3c3e_8186),
        ],
    );
}
