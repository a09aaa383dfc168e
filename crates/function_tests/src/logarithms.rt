use crate::bits::{INFINITY, MINUS_INFINITY, MINUS_ONE, MINUS_ZERO, NAN, ONE, ZERO, gives};
use logarithm::log::log;
use logarithm::log1p::log1p;

#[test]
fn log1p_special(rt: HostRuntime) {
    gives(
        &rt,
        log1p,
        &[
            (NAN, NAN),
            (INFINITY, INFINITY),
            (MINUS_INFINITY, NAN),
            (MINUS_ONE, MINUS_INFINITY),
            (0xc000_0000_0000_0000, NAN),
            (ZERO, ZERO),
            (MINUS_ZERO, MINUS_ZERO),
        ],
    );
}

#[test]
fn log1p_as_libm(rt: HostRuntime) {
    gives(
        &rt,
        log1p,
        &[
            (0x3ff0_0000_0000_0000, 0x3fe6_2e42_fefa_39ef),
            (0xbfe0_0000_0000_0000, 0xbfe6_2e42_fefa_39ef),
            (0x4059_0000_0000_0000, 0x4012_75e2_271b_ba31),
            (0x3fd0_0000_0000_0000, 0x3fcc_8ff7_c79a_9a22),
        ],
    );
}

#[test]
fn log_special(rt: HostRuntime) {
    gives(
        &rt,
        log,
        &[
            (NAN, NAN),
            (INFINITY, INFINITY),
            (MINUS_INFINITY, NAN),
            (ZERO, MINUS_INFINITY),
            (MINUS_ZERO, MINUS_INFINITY),
            (MINUS_ONE, NAN),
            (ONE, ZERO),
        ],
    );
}

#[test]
fn log_as_libm(rt: HostRuntime) {
    gives(
        &rt,
        log,
        &[
            (0x4000_0000_0000_0000, 0x3fe6_2e42_fefa_39ef),
            (0x3fe0_0000_0000_0000, 0xbfe6_2e42_fefa_39ef),
            (0x0000_0000_0000_0001, 0xc087_4385_446d_71c3),
            (0x4059_0000_0000_0000, 0x4012_6bb1_bbb5_5516),
        ],
    );
}
