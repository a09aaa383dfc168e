// The square root of an f64, rounded once.
ghost use Rattle.std.specs.Prelude.{◌≡◌, T};
ghost use Rattle.std.specs.Float.{binary64};
ghost use Rattle.std.specs.Float.Ieee.Positive.{positive};
ghost use Rattle.std.specs.Float as Floats;
ghost use Rattle.root.specs.Sqrt.{sqrt_of, NearestRoot};

// The standard library's root, in whole-number code. A faster one can take its place.
fn rounded_root(x: f64) -> f64
    ensures { result ≡ Floats.sqrt binary64 x }
{
    x.sqrt()
}

// The f64 nearest to the exact root. NaN, +infinity and either zero come back as they are; below zero it is NaN.
pub fn sqrt(x: f64) -> f64
    ensures value { result ≡ sqrt_of binary64 x }
    ensures nearest { T (positive x) → NearestRoot binary64 x result }
{
    rounded_root(x)
}
