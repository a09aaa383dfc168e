ghost use Rattle.std.specs.Prelude.{◌≡◌, T, pos, negsuc, ◌-◌, ◌≤ℤ◌};
ghost use Rattle.std.specs.Float.Ieee.{emax, prec, fits};
ghost use Rattle.scaling.specs.Scalbn.{scalbn_of};

use crate::power::Power;

// x times 2^n, where 2^n is a normal value: one product.
fn scale<F: Power>(x: F, n: i32) -> F
    requires { (negsuc (emax F.format - 2) ≤ℤ n) × (n ≤ℤ pos (emax F.format)) }
    ensures { F.float result ≡ scalbn_of F.format (F.float x) n }
{
    x * F::power(n)
}

// x times 2^n for every n, rounded once. That x fits its format is known of f64 and f32, and asked here.
// Stays a clause of three functions: a type of values that fit would be made and taken apart in every line.
pub(crate) fn in_steps<F: Power>(x: F, n: i32) -> F
    requires { T (fits F.format (F.float x)) }
    ensures { F.float result ≡ scalbn_of F.format (F.float x) n }
{
    if n > F::most() {
        raise(x, n, F::most())
    } else if n < F::least() {
        lower(x, n, F::least_of_digits())
    } else {
        scale(x, n)
    }
}

// By steps of 2^up, each exact or an overflow for good. From three of them on every x but a zero has
// overflowed.
fn raise<F: Power>(x: F, n: i32, up: i32) -> F
    requires fits { T (fits F.format (F.float x)) }
    requires step { up ≡ pos (emax F.format) }
    requires far { up ≤ℤ n }
    ensures { F.float result ≡ scalbn_of F.format (F.float x) n }
{
    let y = scale(x, up);
    if n - up <= up {
        return scale(y, n - up);
    }
    let z = scale(y, up);
    if n - up - up <= up {
        return scale(z, n - up - up);
    }
    scale(z, up)
}

// By steps of 2^down, so that the last step alone rounds: what it takes off is more than the digits, and a
// value that an earlier step rounded vanishes in it.
fn lower<F: Power>(x: F, n: i32, down: i32) -> F
    requires fits { T (fits F.format (F.float x)) }
    requires step { down ≡ negsuc (emax F.format - 2 - prec F.format) }
    requires far { n ≤ℤ negsuc (emax F.format - 1) }
    ensures { F.float result ≡ scalbn_of F.format (F.float x) n }
{
    let y = scale(x, down);
    if n - down >= F::least() {
        return scale(y, n - down);
    }
    let z = scale(y, down);
    if n - down - down >= F::least() {
        return scale(z, n - down - down);
    }
    scale(z, F::least())
}
