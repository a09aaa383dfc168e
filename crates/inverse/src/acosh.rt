ghost use Rattle.std.specs.Prelude.{◌≡◌};
ghost use Rattle.inverse.specs.Acosh.{near_of, mid_of, large_of, bands_of, tests_of, acosh_of};

use float::band::below;
use logarithm::log::log;
use logarithm::log1p::log1p;
use root::sqrt::sqrt;

const LN2: f64 = f64::from_bits(0x3fe6_2e42_fefa_39ef);

// acosh(1 + d), for d below 1.
fn near(d: f64) -> f64
    ensures { result ≡ near_of d }
{
    log1p(d + sqrt(d * d + 2.0 * d))
}

fn mid(x: f64) -> f64
    ensures { result ≡ mid_of x }
{
    log(2.0 * x - 1.0 / (x + sqrt(x * x - 1.0)))
}

// For an x above 1.
fn banded(x: f64) -> f64
    ensures { result ≡ bands_of x }
{
    if below(x, 0x4000_0000) {
        // less than 2
        near(x - 1.0)
    } else if below(x, 0x4190_0000) {
        // less than 2^26
        mid(x)
    } else {
        log(x) + LN2
    }
}

fn tested(x: f64) -> f64
    ensures { result ≡ tests_of x }
{
    if x < 1.0 {
        f64::NAN
    } else if x == 1.0 {
        0.0
    } else {
        banded(x)
    }
}

// The inverse hyperbolic cosine of x. Below 1 there is none, and the answer is NaN.
pub fn acosh(x: f64) -> f64
    ensures { result ≡ acosh_of x }
{
    if x.is_nan() { x } else { tested(x) }
}
