ghost use Rattle.std.specs.Prelude.{◌≡◌};
ghost use Rattle.float.specs.Odd.{Odd};
ghost use Rattle.inverse.specs.Atanh.{small_of, large_of, size_of, bands_of, atanh_of};

use float::band::{below, signed_like};
use logarithm::log1p::log1p;

fn small(y: f64) -> f64
    ensures { result ≡ small_of y }
{
    0.5 * log1p(2.0 * y + 2.0 * y * y / (1.0 - y))
}

fn large(y: f64) -> f64
    ensures { result ≡ large_of y }
{
    0.5 * log1p(2.0 * (y / (1.0 - y)))
}

// atanh of y = |x|.
fn size(y: f64) -> f64
    ensures { result ≡ size_of y }
{
    if y > 1.0 {
        f64::NAN
    } else if y == 1.0 {
        f64::INFINITY
    } else if below(y, 0x3df0_0000) {
        // less than 2^-32
        y
    } else if below(y, 0x3fe0_0000) {
        // less than a half
        small(y)
    } else {
        large(y)
    }
}

fn banded(x: f64) -> f64
    ensures { result ≡ bands_of x }
{
    signed_like(x, size(x.abs()))
}

// The inverse hyperbolic tangent of x.
pub fn atanh(x: f64) -> f64
    ensures value { result ≡ atanh_of x }
    ensures odd { Odd atanh_of }
{
    if x.is_nan() { x } else { banded(x) }
}
