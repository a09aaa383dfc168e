use crate::bits::{Bits, gives, scales};
use float::band::{below, belowf, negative, negativef};
use scaling::scalbnf::scalbnf;
use single::expm1f::expm1f;
use single::log1pf::log1pf;

#[test]
fn expm1f_special(rt: HostRuntime) {
    gives(
        &rt,
        expm1f,
        &[
            (0x7fc0_0000, 0x7fc0_0000),
            (0xffc0_0001, 0x7fc0_0000),
            (0x7f80_0000, 0x7f80_0000),
            (0x0000_0000, 0x0000_0000),
            (0xff80_0000, 0xbf80_0000),
        ],
    );
}

#[test]
fn expm1f_as_libm(rt: HostRuntime) {
    gives(
        &rt,
        expm1f,
        &[
            (0x8000_0000, 0x8000_0000),
            (0x32ff_ffff, 0x32ff_ffff),
            (0x3eb1_7218, 0x3ed4_13cd),
            (0x3eb1_7219, 0x3ed4_13ce),
            (0x3f85_1592, 0x3fea_09e6),
            (0xbf85_1592, 0xbf25_7d86),
            (0xc1a0_0000, 0xbf80_0000),
            (0x4180_0000, 0x4b07_975e),
            (0x42b1_7217, 0x7f7f_ff84),
            (0x42b1_7218, 0x7f80_0000),
        ],
    );
}

#[test]
fn log1pf_special(rt: HostRuntime) {
    gives(
        &rt,
        log1pf,
        &[
            (0x7fc0_0000, 0x7fc0_0000),
            (0xffc0_0001, 0x7fc0_0000),
            (0x7f80_0000, 0x7f80_0000),
            (0x0000_0000, 0x0000_0000),
            (0xff80_0000, 0x7fc0_0000),
        ],
    );
}

#[test]
fn log1pf_as_libm(rt: HostRuntime) {
    gives(
        &rt,
        log1pf,
        &[
            (0x8000_0000, 0x8000_0000),
            (0xbf80_0000, 0xff80_0000),
            (0xbf80_0001, 0x7fc0_0000),
            (0xbf7f_ffff, 0xc185_1592),
            (0x337f_ffff, 0x337f_ffff),
            (0x3ed4_13d0, 0x3eb1_721a),
            (0xbe95_f619, 0xbeb1_7217),
            (0xbe95_f61a, 0xbeb1_7219),
            (0x3f80_0000, 0x3f31_7218),
            (0x7f7f_ffff, 0x42b1_7218),
        ],
    );
}

// From exact arithmetic: both ends, and one rounding of a subnormal result.
#[test]
fn scalbnf_rounds_once(rt: HostRuntime) {
    scales(
        &rt,
        scalbnf,
        &[
            (1.0f32.bits(), 127, 0x7f00_0000),
            (1.0f32.bits(), 128, 0x7f80_0000),
            (1.0f32.bits(), -149, 1),
            (1.0f32.bits(), -150, 0),
            (3.0f32.bits(), -150, 2),
            (5.0f32.bits(), -150, 2),
            (0x8000_0000, 2147483647, 0x8000_0000),
            (0x7f7f_ffff, -2147483648, 0),
        ],
    );
}

#[test]
fn bands_of_f32(rt: HostRuntime) {
    for (x, pattern, expected) in [
        (f32::of_bits(0xbeb1_7218), 0x3eb1_7219, true),
        (f32::of_bits(0x3eb1_7219), 0x3eb1_7219, false),
        (f32::of_bits(0x7fc0_0000), 0x7f7f_ffff, false),
        (1.0, 0x7f80_0000, false),
    ] {
        assert_eq!(rt; below(x, pattern), expected);
        assert_eq!(rt; belowf(x, pattern), expected);
    }
    for (x, expected) in [
        (f32::of_bits(0x8000_0000), true),
        (f32::of_bits(0xffc0_0000), false),
    ] {
        assert_eq!(rt; negative(x), expected);
        assert_eq!(rt; negativef(x), expected);
    }
}
