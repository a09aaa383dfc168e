// Reduction by multiples of ln 2, for exp and expm1.
ghost use Rattle.std.specs.Prelude.{◌≡◌};
ghost use Rattle.exponential.specs.Ln2.{whole_of, count_of, high_rest, low_rest, Reducible};

use crate::table::Table;
use float::band::negative;

// x / ln 2 and a half more, away from zero: the fraction is dropped, and the rest fits.
fn whole<F: Table>(x: F) -> i16
    requires { Reducible F.table.ln2 (F.float x) }
    ensures { result ≡ whole_of F.table.ln2 (F.float x) }
{
    (F::inv_ln2() * x + x.half_like()).truncated() as i16
}

// How often ln 2 goes into x, to the nearest. Both widths have every i16 exactly.
pub(crate) fn count<F: Table>(x: F) -> i16
    requires { Reducible F.table.ln2 (F.float x) }
    ensures { result ≡ count_of F.table.ln2 (F.float x) }
{
    if x.is_below_once() {
        0
    } else if x.is_below_more() {
        if negative(x) { -1 } else { 1 }
    } else {
        whole(x)
    }
}

// x less k times the high part of ln 2.
pub(crate) fn high_rest<F: Table>(k: i16, x: F) -> F
    ensures { F.float result ≡ high_rest F.table.ln2 k (F.float x) }
{
    x - F::of_count(k) * F::ln2_hi()
}

// k times the low part.
pub(crate) fn low_rest<F: Table>(k: i16) -> F
    ensures { F.float result ≡ low_rest F.table.ln2 k }
{
    F::of_count(k) * F::ln2_lo()
}
