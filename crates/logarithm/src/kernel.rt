// The logarithm of 2^k (1 + f), for log and log1p.
ghost use Rattle.std.specs.Prelude.{◌≡◌};
ghost use Rattle.logarithm.specs.Kernel.{slope_of, series_at, series_of, square_of, join_of, high_part, low_part};

use crate::table::Table;

fn series_at<F: Table>(z: F, w: F) -> F
    ensures { F.float result ≡ series_at F.table.log (F.float z) (F.float w) }
{
    let t1 = w * F::even(w);
    let t2 = z * F::odd(w);
    t2 + t1
}

fn series<F: Table>(z: F) -> F
    ensures { F.float result ≡ series_of F.table.log (F.float z) }
{
    series_at(z, z * z)
}

fn square<F: Table>(f: F) -> F
    ensures { F.float result ≡ square_of F.table.log (F.float f) }
{
    F::of(0.5) * f * f
}

fn join<F: Table>(f: F, s: F, low: F, high: F) -> F
    ensures { F.float result ≡ join_of F.table.log (F.float f) (F.float s) (F.float low) (F.float high) }
{
    let hfsq = square(f);
    let r = series(s * s);
    s * (hfsq + r) + low - hfsq + f + high
}

// log of 2^k (1 + f), where low and high are the parts of k ln 2.
pub(crate) fn sum<F: Table>(f: F, low: F, high: F) -> F
    ensures { F.float result ≡ join_of F.table.log (F.float f) (slope_of F.table.log (F.float f)) (F.float low) (F.float high) }
{
    join(f, f / (F::of(2.0) + f), low, high)
}

// The two stay here and beside the reduction of exp: each takes its half of ln 2 from the table of its own crate.
pub(crate) fn high_part<F: Table>(k: i16) -> F
    ensures { F.float result ≡ high_part F.table.log k }
{
    F::of_count(k) * F::ln2_hi()
}

pub(crate) fn low_part<F: Table>(k: i16) -> F
    ensures { F.float result ≡ low_part F.table.log k }
{
    F::of_count(k) * F::ln2_lo()
}
