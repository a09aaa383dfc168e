ghost use Rattle.std.specs.Prelude.{◌≡◌};
ghost use Rattle.std.specs.Float.{binary32};
ghost use Rattle.scaling.specs.Scalbn.{scalbn_of};

use crate::stepwise::in_steps;

// The same of an f32.
pub fn scalbnf(x: f32, n: i32) -> f32
    ensures { result ≡ scalbn_of binary32 x n }
{
    in_steps(x, n)
}
