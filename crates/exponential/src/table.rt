ghost use Rattle.std.specs.Prelude.{◌≡◌, from_bits, int_lt};
ghost use Rattle.float.specs.Band.{below_bits};
ghost use Rattle.exponential.specs.Counts.{CountsFit, Reduces};
ghost use Rattle.exponential.specs.Expm1.{Expm1, kernel_of};
ghost use Rattle.exponential.specs.Ln2.{half_like};

use scaling::scaling::Scaling;

// A width with its constants for expm1 and for the reduction by multiples of ln 2.
pub trait Table: Scaling {
    ghost table: { Expm1 };

    // 1 / ln 2.
    fn inv_ln2() -> Self
        ensures { Self.float result ≡ from_bits table.ln2.format table.ln2.inverse };

    // A half with the value's sign.
    fn half_like(self) -> Self
        ensures { Self.float result ≡ half_like table.ln2 (Self.float self) };

    // ln 2 in two parts.
    fn ln2_hi() -> Self
        ensures { Self.float result ≡ from_bits table.ln2.format table.ln2.high };

    fn ln2_lo() -> Self
        ensures { Self.float result ≡ from_bits table.ln2.format table.ln2.low };

    // Whether the size is below about ln 2 / 2, where the count is 0.
    fn is_below_once(self) -> bool
        ensures { result ≡ below_bits table.ln2.format (Self.float self) table.ln2.once };

    // Whether the size is below about 3 ln 2 / 2, where the count is at most 1 in size.
    fn is_below_more(self) -> bool
        ensures { result ≡ below_bits table.ln2.format (Self.float self) table.ln2.more };

    // 1 + z Q(z), at z = r * r / 2.
    fn kernel(z: Self) -> Self
        ensures { Self.float result ≡ kernel_of table (Self.float z) };

    // Whether expm1 is x itself, by size.
    fn is_tiny(self) -> bool
        ensures { result ≡ below_bits table.ln2.format (Self.float self) table.tiny };

    // Whether the size is below that from which expm1 is -1 for a negative x.
    fn is_below_far(self) -> bool
        ensures { result ≡ below_bits table.ln2.format (Self.float self) table.far };

    // Above it expm1 is infinite.
    fn overflow() -> Self
        ensures { Self.float result ≡ from_bits table.ln2.format table.overflow };

    // Whether 2^-k is taken from 1, and not yet added to the error term.
    fn is_narrow(k: i16) -> bool
        ensures { result ≡ int_lt k table.wide };

    ghost same_format: { Self.format ≡ table.ln2.format };

    ghost counts: { CountsFit table.ln2 };

    ghost reduces: { Reduces table };
}
