ghost use Rattle.std.specs.Prelude.{◌≡◌};
ghost use Rattle.std.specs.Float.{binary64};
ghost use Rattle.scaling.specs.Scalbn.{scalbn_of};

use crate::stepwise::in_steps;

// x times 2^n for every n, rounded once.
pub fn scalbn(x: f64, n: i32) -> f64
    ensures { result ≡ scalbn_of binary64 x n }
{
    in_steps(x, n)
}
