ghost use Rattle.std.specs.Prelude.{◌≡◌};
ghost use Rattle.float.specs.Odd.{Odd};
ghost use Rattle.inverse.specs.Asinh.{root_of, small_of, mid_of, large_of, size_of, bands_of, asinh_of};

use float::band::{below, signed_like};
use logarithm::log::log;
use logarithm::log1p::log1p;
use root::sqrt::sqrt;

const LN2: f64 = f64::from_bits(0x3fe6_2e42_fefa_39ef);

fn root(y: f64) -> f64
    ensures { result ≡ root_of y }
{
    sqrt(y * y + 1.0)
}

fn small(y: f64) -> f64
    ensures { result ≡ small_of y }
{
    log1p(y + y * y / (root(y) + 1.0))
}

fn mid(y: f64) -> f64
    ensures { result ≡ mid_of y }
{
    log(2.0 * y + 1.0 / (root(y) + y))
}

// asinh of y = |x|.
fn size(y: f64) -> f64
    ensures { result ≡ size_of y }
{
    if below(y, 0x3e50_0000) {
        // less than 2^-26
        y
    } else if below(y, 0x4000_0000) {
        // less than 2
        small(y)
    } else if below(y, 0x4190_0000) {
        // less than 2^26
        mid(y)
    } else {
        log(y) + LN2
    }
}

fn banded(x: f64) -> f64
    ensures { result ≡ bands_of x }
{
    signed_like(x, size(x.abs()))
}

// The inverse hyperbolic sine of x.
pub fn asinh(x: f64) -> f64
    ensures value { result ≡ asinh_of x }
    ensures odd { Odd asinh_of }
{
    if x.is_nan() { x } else { banded(x) }
}
