ghost use Rattle.std.specs.Prelude.{◌≡◌};
ghost use Rattle.float.specs.Odd.{Odd};
ghost use Rattle.hyperbolic.specs.Sinh.{near_of, mid_of, bands_of, sinh_of};

use self::super::expo2::expo2;
use exponential::expm1::expm1;
use float::band::{below, half_like};

// 2 sinh of a size below 1, from its expm1.
fn near(t: f64) -> f64
    ensures { result ≡ near_of t }
{
    2.0 * t - t * t / (t + 1.0)
}

// And of a size from 1 on.
fn mid(t: f64) -> f64
    ensures { result ≡ mid_of t }
{
    t + t / (t + 1.0)
}

fn banded(x: f64) -> f64
    ensures { result ≡ bands_of x }
{
    if below(x, 0x3e50_0000) {
        x
    } else if below(x, 0x3ff0_0000) {
        half_like(x) * near(expm1(x.abs()))
    } else if below(x, 0x4086_2e42) {
        half_like(x) * mid(expm1(x.abs()))
    } else {
        2.0 * half_like(x) * expo2(x.abs())
    }
}

// The hyperbolic sine of x.
pub fn sinh(x: f64) -> f64
    ensures value { result ≡ sinh_of x }
    ensures odd { Odd sinh_of }
{
    if x.is_nan() { x } else { banded(x) }
}
