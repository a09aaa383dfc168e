// Hexadecimal digits, and the numbers that they spell.
ghost use Rattle.std.specs.Prelude.{◌≡◌, ◌+◌, ◌*◌, ◌/◌, ◌%◌, ◌^◌, ◌<◌, ◌≤◌, true, false, length, if◌then◌else◌, Some, None, IfSome, MatchOption};
ghost use Rattle.lines.specs.Held.{held};
ghost use Rattle.lines.specs.Digits.{is_digit, digit_of, all_digits, spelled, byte_of, written};

use crate::short::{Reply, ShortBytes};

// The value of a digit 0-9 or a-f.
// Stays a match of bytes: `char::to_digit` takes capital letters too.
fn digit(byte: u8) -> Option<u8>
    ensures { MatchOption result (is_digit byte ≡ false) (λ d. (is_digit byte ≡ true) × (d ≡ digit_of byte) × (d < 16)) }
{
    match byte {
        b'0'..=b'9' => Some(byte - b'0'),
        b'a'..=b'f' => Some(byte - b'a' + 10),
        _ => None,
    }
}

// The number whose digits are those of n and one more.
fn with_digit(n: u64, d: u8) -> u64
    requires { n * 16 + d < 2 ^ 64 }
    ensures { result ≡ n * 16 + d }
{
    n * 16 + d as u64
}

// The number that at most 16 digits spell.
// Stays a loop: `u64::from_str_radix` takes capital letters and a sign too.
pub(crate) fn number(digits: &[u8]) -> Option<u64>
    requires { length digits.now ≤ 16 }
    ensures value { result ≡ (if all_digits digits.now then Some (spelled digits.now) else None) }
    ensures bound { IfSome result (λ n. n < 16 ^ length digits.now) }
{
    let mut n = 0;
    for byte in digits {
        n = with_digit(n, digit(*byte)?);
    }
    Some(n)
}

// The digit of a value below 16, in lower case.
// Stays two sums: of `char::from_digit` an Option and a char would have to be taken apart.
fn byte_of(d: u8) -> u8
    requires { d < 16 }
    ensures { result ≡ byte_of d }
{
    if d <= 9 { d + b'0' } else { d - 10 + b'a' }
}

// The digit at a place, the lowest at 0.
fn digit_at(n: u64, place: usize) -> u8
    requires { place < 16 }
    ensures { result ≡ byte_of (n / 16 ^ place % 16) }
{
    byte_of(((n >> (4 * place)) % 16) as u8)
}

// The lowest digits of n, at most 16, the highest first.
// Stays a loop: of a `write!` nothing is known where it fails, and these digits have to come.
pub(crate) fn digits_of(n: u64, places: usize) -> Reply
    requires { places ≤ 16 }
    ensures { held result ≡ written places n }
{
    let mut digits = ShortBytes::empty();
    for place in (0..places).rev() {
        digits.push(digit_at(n, place));
    }
    digits
}
