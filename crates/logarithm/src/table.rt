ghost use Rattle.std.specs.Prelude.{◌≡◌, from_bits, int_lt, to_bits};
ghost use Rattle.float.specs.Band.{below_bits};
ghost use Rattle.float.specs.Polynomial.{horner};
ghost use Rattle.logarithm.specs.Kernel.{exponent_of, significand_of};
ghost use Rattle.logarithm.specs.Log1p.{Log1p};

use float::width::Width;

// A width with its constants for the logarithms.
pub trait Table: Width {
    ghost table: { Log1p };

    // ln 2 in two parts.
    fn ln2_hi() -> Self
        ensures { Self.float result ≡ from_bits table.log.format table.log.ln2_hi };

    fn ln2_lo() -> Self
        ensures { Self.float result ≡ from_bits table.log.format table.log.ln2_lo };

    // The value is 2^exponent times its significand, which lies between about √½ and √2.
    fn exponent(self) -> i16
        ensures { result ≡ exponent_of table.log (to_bits table.log.format (Self.float self)) };

    fn significand(self) -> Self
        ensures { Self.float result ≡ significand_of table.log (to_bits table.log.format (Self.float self)) };

    // The coefficients of the odd places LG1, LG3 .., and of the even ones, as polynomials.
    fn odd(w: Self) -> Self
        ensures { Self.float result ≡ horner table.log.format table.log.odd (Self.float w) };

    fn even(w: Self) -> Self
        ensures { Self.float result ≡ horner table.log.format table.log.even (Self.float w) };

    // Whether log1p is x itself, by size.
    fn is_tiny(self) -> bool
        ensures { result ≡ below_bits table.log.format (Self.float self) table.tiny };

    // Whether 1 + x lies between about √½ and √2: by size, for a negative x and for any other.
    fn is_near_below(self) -> bool
        ensures { result ≡ below_bits table.log.format (Self.float self) table.near };

    fn is_near_above(self) -> bool
        ensures { result ≡ below_bits table.log.format (Self.float self) table.near_up };

    // Whether the correction term counts at this exponent.
    fn is_corrected(k: i16) -> bool
        ensures { result ≡ int_lt k table.exact };

    ghost same_format: { Self.format ≡ table.log.format };
}
