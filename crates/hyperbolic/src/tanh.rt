ghost use Rattle.std.specs.Prelude.{◌≡◌};
ghost use Rattle.float.specs.Odd.{Odd};
ghost use Rattle.hyperbolic.specs.Tanh.{small_of, mid_of, large_of, size_of, bands_of, tanh_of};

use exponential::expm1::expm1;
use float::band::{below, signed_like};

const MINUS_TWO: f64 = -2.0;

// tanh of y from t = expm1(-2 y).
fn small(t: f64) -> f64
    ensures { result ≡ small_of t }
{
    -t / (t + 2.0)
}

// From t = expm1(2 y).
fn mid(t: f64) -> f64
    ensures { result ≡ mid_of t }
{
    t / (t + 2.0)
}

// The same for a larger y.
fn large(t: f64) -> f64
    ensures { result ≡ large_of t }
{
    1.0 - 2.0 / (t + 2.0)
}

// tanh of y = |x|.
fn size(y: f64) -> f64
    ensures { result ≡ size_of y }
{
    if below(y, 0x0010_0000) {
        // subnormal
        y
    } else if below(y, 0x3fd0_58af) {
        // up to log(5/3)/2
        small(expm1(MINUS_TWO * y))
    } else if below(y, 0x3fe1_93eb) {
        // up to log(3)/2
        mid(expm1(2.0 * y))
    } else if below(y, 0x4034_0001) {
        // up to 20
        large(expm1(2.0 * y))
    } else {
        1.0 - 0.0 / y
    }
}

fn banded(x: f64) -> f64
    ensures { result ≡ bands_of x }
{
    signed_like(x, size(x.abs()))
}

// The hyperbolic tangent of x.
pub fn tanh(x: f64) -> f64
    ensures value { result ≡ tanh_of x }
    ensures odd { Odd tanh_of }
{
    if x.is_nan() { x } else { banded(x) }
}
