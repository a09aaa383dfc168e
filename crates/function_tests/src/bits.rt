use std::fmt::Debug;
use std::num::{
    f32_from_bits_with_nan, f32_to_bits_with_nan, f64_from_bits_with_nan, f64_to_bits_with_nan,
};
use std::process::Abort;

// Every NaN has the bits 0x7ff8000000000000 here.
pub(crate) const NAN: u64 = 0x7ff8_0000_0000_0000;

pub(crate) const INFINITY: u64 = 0x7ff0_0000_0000_0000;

pub(crate) const MINUS_INFINITY: u64 = 0xfff0_0000_0000_0000;

pub(crate) const ONE: u64 = 0x3ff0_0000_0000_0000;

pub(crate) const MINUS_ONE: u64 = 0xbff0_0000_0000_0000;

pub(crate) const ZERO: u64 = 0;

pub(crate) const MINUS_ZERO: u64 = 0x8000_0000_0000_0000;

// Stays here and in the conversions' tests: neither crate of tests is a library of the other.
// A float and its bits. Every NaN of an f32 has the bits 0x7fc00000.
pub(crate) trait Bits {
    type Pattern: Copy + PartialEq + Debug;

    fn of_bits(bits: Self::Pattern) -> Self;

    fn bits(self) -> Self::Pattern;
}

impl Bits for f64 {
    type Pattern = u64;

    fn of_bits(bits: u64) -> f64 {
        f64_from_bits_with_nan(bits)
    }

    fn bits(self) -> u64 {
        f64_to_bits_with_nan(self)
    }
}

impl Bits for f32 {
    type Pattern = u32;

    fn of_bits(bits: u32) -> f32 {
        f32_from_bits_with_nan(bits)
    }

    fn bits(self) -> u32 {
        f32_to_bits_with_nan(self)
    }
}

// Whether a function gives these results: each row has the bits of an argument and of its result.
pub(crate) fn gives<X: Bits, F: Fn(X) -> X>(
    rt: &impl Abort,
    f: F,
    rows: &[(X::Pattern, X::Pattern)],
)
    requires { F.IsAlwaysCallable f }
{
    for (argument, expected) in rows {
        let res = f(X::of_bits(*argument));
        assert_eq!(rt; res.bits(), *expected, "for {argument:?}");
    }
}

// The same for a scaling by a power of two: each row has the exponent too, in the middle.
pub(crate) fn scales<X: Bits, F: Fn(X, i32) -> X>(
    rt: &impl Abort,
    f: F,
    rows: &[(X::Pattern, i32, X::Pattern)],
)
    requires { F.IsAlwaysCallable f }
{
    for (argument, exponent, expected) in rows {
        let res = f(X::of_bits(*argument), *exponent);
        assert_eq!(rt; res.bits(), *expected, "for {argument:?} and {exponent}");
    }
}
