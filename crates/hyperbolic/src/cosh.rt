ghost use Rattle.std.specs.Prelude.{◌≡◌};
ghost use Rattle.hyperbolic.specs.Cosh.{near_of, mid_of, bands_of, cosh_of};

use self::super::k_expo2::k_expo2;
use exponential::exp::exp;
use exponential::expm1::expm1;
use float::band::below;

// cosh of a size below ln 2, from its expm1.
fn near(t: f64) -> f64
    ensures { result ≡ near_of t }
{
    1.0 + t * t / (2.0 * (1.0 + t))
}

// And of a larger one, from its exp.
fn mid(t: f64) -> f64
    ensures { result ≡ mid_of t }
{
    0.5 * (t + 1.0 / t)
}

fn banded(x: f64) -> f64
    ensures { result ≡ bands_of x }
{
    if below(x, 0x3e50_0000) {
        1.0
    } else if below(x, 0x3fe6_2e42) {
        near(expm1(x.abs()))
    } else if below(x, 0x4086_2e42) {
        mid(exp(x.abs()))
    } else {
        k_expo2(x.abs())
    }
}

// The hyperbolic cosine of x.
pub fn cosh(x: f64) -> f64
    ensures { result ≡ cosh_of x }
{
    if x.is_nan() { x } else { banded(x) }
}
