use crate::bits::{INFINITY, MINUS_INFINITY, MINUS_ONE, MINUS_ZERO, NAN, ONE, ZERO, gives};
use inverse::acosh::acosh;
use inverse::asinh::asinh;
use inverse::atanh::atanh;

#[test]
fn asinh_special(rt: HostRuntime) {
    gives(
        &rt,
        asinh,
        &[
            (NAN, NAN),
            (INFINITY, INFINITY),
            (MINUS_INFINITY, MINUS_INFINITY),
            (ZERO, ZERO),
            (MINUS_ZERO, MINUS_ZERO),
        ],
    );
}

#[test]
fn asinh_as_libm(rt: HostRuntime) {
    gives(
        &rt,
        asinh,
        &[
            (0x3ff0_0000_0000_0000, 0x3fec_3436_6179_d427),
            (0xc024_0000_0000_0000, 0xc007_fc5c_506d_2bdb),
            (0x41a0_0000_0000_0000, 0x4033_687a_9f1a_f2b1),
        ],
    );
}

#[test]
fn acosh_special(rt: HostRuntime) {
    gives(
        &rt,
        acosh,
        &[
            (NAN, NAN),
            (INFINITY, INFINITY),
            (MINUS_INFINITY, NAN),
            (ONE, ZERO),
            (ZERO, NAN),
            (0x3fef_ffff_ffff_ffff, NAN),
            (0xc180_0000_0000_0000, NAN),
            (0xc0b9_8c00_0000_0000, NAN),
        ],
    );
}

#[test]
fn acosh_as_libm(rt: HostRuntime) {
    gives(
        &rt,
        acosh,
        &[
            (0x3ff8_0000_0000_0000, 0x3fee_cc2c_aec5_160a),
            (0x4024_0000_0000_0000, 0x4007_f21e_d1ce_05d4),
            (0x41a0_0000_0000_0000, 0x4033_687a_9f1a_f2b1),
        ],
    );
}

#[test]
fn atanh_special(rt: HostRuntime) {
    gives(
        &rt,
        atanh,
        &[
            (NAN, NAN),
            (INFINITY, NAN),
            (ONE, INFINITY),
            (MINUS_ONE, MINUS_INFINITY),
            (0x4000_0000_0000_0000, NAN),
            (ZERO, ZERO),
            (MINUS_ZERO, MINUS_ZERO),
        ],
    );
}

#[test]
fn atanh_as_libm(rt: HostRuntime) {
    gives(
        &rt,
        atanh,
        &[
            (0x3fe8_0000_0000_0000, 0x3fef_2272_ae32_5a57),
            (0xbfd0_0000_0000_0000, 0xbfd0_58ae_fa81_1452),
        ],
    );
}
