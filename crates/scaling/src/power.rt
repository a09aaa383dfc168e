ghost use Rattle.std.specs.Prelude.{◌≡◌, false, pos, negsuc, ◌-◌, ◌≤ℤ◌};
ghost use Rattle.std.specs.Float.{fin};
ghost use Rattle.std.specs.Float.Ieee.{emax, prec};

use float::width::Width;
use std::num::{f32_from_bits_with_nan, f64_from_bits_with_nan};

// The powers of two of a width.
pub trait Power: Width {
    // The exponent of the largest values.
    fn most() -> i32
        ensures { result ≡ pos (emax Self.format) };

    // The exponent of the smallest normal values.
    fn least() -> i32
        ensures { result ≡ negsuc (emax Self.format - 2) };

    // The same, and as many steps up as a value has digits.
    fn least_of_digits() -> i32
        ensures { result ≡ negsuc (emax Self.format - 2 - prec Self.format) };

    // 2^n, for an n at which it is a normal value; of any other n nothing is said.
    fn power(n: i32) -> Self
        ensures { negsuc (emax Self.format - 2) ≤ℤ n → n ≤ℤ pos (emax Self.format) → Self.float result ≡ fin false 1 n };
}

// The two stay apart: each has its numbers, and its own type of patterns.
impl Power for f64 {
    fn most() -> i32 {
        1023
    }

    fn least() -> i32 {
        -1022
    }

    fn least_of_digits() -> i32 {
        -969
    }

    fn power(n: i32) -> f64 {
        let exponent = n.wrapping_add(0x3ff).cast_unsigned();
        f64_from_bits_with_nan((exponent as u64) << 52)
    }
}

impl Power for f32 {
    fn most() -> i32 {
        127
    }

    fn least() -> i32 {
        -126
    }

    fn least_of_digits() -> i32 {
        -102
    }

    fn power(n: i32) -> f32 {
        let exponent = n.wrapping_add(0x7f).cast_unsigned();
        f32_from_bits_with_nan(exponent << 23)
    }
}
