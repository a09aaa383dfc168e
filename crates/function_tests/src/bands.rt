use crate::bits::{Bits, INFINITY, MINUS_ZERO, NAN};
use float::band::{below, half_like, negative, signed_like};

#[test]
fn below_by_high_word(rt: HostRuntime) {
    for (x, word, expected) in [
        (f64::of_bits(0x3fd6_2e42_ffff_ffff), 0x3fd6_2e43, true),
        (f64::of_bits(0xbfd6_2e42_ffff_ffff), 0x3fd6_2e43, true),
        (f64::of_bits(0x3fd6_2e43_0000_0000), 0x3fd6_2e43, false),
        (f64::of_bits(INFINITY), 0x7fef_ffff, false),
        (f64::of_bits(NAN), 0x7fef_ffff, false),
        (1.0, 0x7ff0_0000, false),
    ] {
        assert_eq!(rt; below(x, word), expected);
    }
}

#[test]
fn negative_by_sign(rt: HostRuntime) {
    for (x, expected) in [
        (f64::of_bits(MINUS_ZERO), true),
        (0.0, false),
        (f64::of_bits(0xfff8_0000_0000_0000), false),
        (-1.5, true),
    ] {
        assert_eq!(rt; negative(x), expected);
    }
}

// Either zero has a sign.
#[test]
fn signs_of_values(rt: HostRuntime) {
    for (x, half, signed) in [
        (1.5f64, 0.5, 3.0),
        (-1.5, -0.5, -3.0),
        (0.0, 0.5, 3.0),
        (-0.0, -0.5, -3.0),
    ] {
        assert_eq!(rt; half_like(x), half);
        assert_eq!(rt; signed_like(x, 3.0), signed);
    }
}
