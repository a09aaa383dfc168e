ghost use Rattle.std.specs.Prelude.{◌≡◌, ℕ, ◌<◌, nat_lt};
ghost use Rattle.std.specs.Float.Ieee.{of_int};
ghost use Rattle.std.specs.Float.{float_to_signed, binary32, binary64};
ghost use Rattle.std.specs.Int.{w64};
ghost use Rattle.float.specs.Band.{word_of, infinite_word, pattern_of, below_bits};
ghost use Rattle.float.specs.Literals.{Literals, literals};

use num_traits::Float;
use std::num::{
    f32_to_bits_with_nan, f32_to_f64_with_nan, f64_to_bits_with_nan, saturating_f32_to_i64,
    saturating_f64_to_i64,
};

// A width that the functions compute in: f64 or f32. What the width alone decides is here; the
// arithmetic and its laws are those of `Float`.
pub trait Width: Float {
    // The value of an f32, which both widths have.
    fn of(x: f32) -> Self
        ensures { Self.float result ≡ x };

    // The value of an i16, which both widths have exactly.
    fn of_count(k: i16) -> Self
        ensures { Self.float result ≡ of_int Self.format k };

    // The value with its fraction dropped. A NaN gives 0, and what no i64 holds the nearest end.
    fn truncated(self) -> i64
        ensures { result ≡ float_to_signed w64 (Self.float self) };

    // The size word: the high word of an f64, the whole pattern of an f32, with the sign bit cleared. It
    // goes up with the size.
    fn size_word(self) -> u32
        ensures word { result ≡ word_of Self.format (Self.float self) }
        ensures order { (w : ℕ) → w < infinite_word Self.format → nat_lt result w ≡ below_bits Self.format (Self.float self) (pattern_of Self.format w) };

    // The size word of an infinity: every finite value's lies below.
    fn infinite_word() -> u32
        ensures { result ≡ infinite_word Self.format };

    ghost literals: { Literals Self.format };
}

// The two stay apart: each is made of the library's functions for its own type and for its patterns.
impl Width for f64 {
    ghost literals = { literals binary64 };

    fn of(x: f32) -> f64 {
        f32_to_f64_with_nan(x)
    }

    fn of_count(k: i16) -> f64 {
        k as f64
    }

    fn truncated(self) -> i64 {
        saturating_f64_to_i64(self)
    }

    fn size_word(self) -> u32 {
        let bits = f64_to_bits_with_nan(self);
        (bits % 0x8000_0000_0000_0000 >> 32) as u32
    }

    fn infinite_word() -> u32 {
        0x7ff0_0000
    }
}

impl Width for f32 {
    ghost literals = { literals binary32 };

    fn of(x: f32) -> f32 {
        x
    }

    fn of_count(k: i16) -> f32 {
        k as f32
    }

    fn truncated(self) -> i64 {
        saturating_f32_to_i64(self)
    }

    fn size_word(self) -> u32 {
        f32_to_bits_with_nan(self) % 0x8000_0000
    }

    fn infinite_word() -> u32 {
        0x7f80_0000
    }
}
