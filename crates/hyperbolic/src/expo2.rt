ghost use Rattle.std.specs.Prelude.{◌≡◌};
ghost use Rattle.hyperbolic.specs.Expo2.{expo2_of};

use exponential::exp::exp;

// 2043 ln 2.
const KLN2: f64 = f64::from_bits(0x4096_2066_151a_dd8b);

// 2^1021. Its square would overflow.
const SCALE: f64 = f64::from_bits(0x7fc0_0000_0000_0000);

// exp(x) / 2, for an x above log of the largest f64.
pub(crate) fn expo2(x: f64) -> f64
    ensures { result ≡ expo2_of x }
{
    exp(x - KLN2) * SCALE * SCALE
}
