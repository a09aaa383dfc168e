ghost use Rattle.std.specs.Prelude.{◌≡◌};
ghost use Rattle.hyperbolic.specs.Expo2.{expo2_of};

use self::super::expo2::expo2;

// exp(x) / 2 again. It stays a function: the source has both names, and a port keeps its source's names.
pub(crate) fn k_expo2(x: f64) -> f64
    ensures { result ≡ expo2_of x }
{
    expo2(x)
}
