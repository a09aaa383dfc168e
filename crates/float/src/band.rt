ghost use Rattle.std.specs.Prelude.{◌≡◌};
ghost use Rattle.std.specs.Float as Floats;
ghost use Rattle.float.specs.Band.{below_edge, below_word};
ghost use Rattle.float.specs.Signs.{half_like, signed_like};

use crate::width::Width;
use num_traits::Float;

// Whether |x| lies below the first value with the size word w: an f64's high word, an f32's pattern.
// It is false for a NaN, and for a w that no finite value has.
pub fn below<F: Width>(x: F, w: u32) -> bool
    ensures { result ≡ below_edge F.format (F.float x) w }
{
    w < F::infinite_word() && x.size_word() < w
}

// The same of an f32, by its pattern.
pub fn belowf(x: f32, b: u32) -> bool
    ensures { result ≡ below_word x b }
{
    below(x, b)
}

// The sign: true for -0, false for a NaN.
pub fn negative<F: Float>(x: F) -> bool
    ensures { result ≡ Floats.is_sign_negative (F.float x) }
{
    !x.is_nan() && x.is_sign_negative()
}

// The same of an f32.
pub fn negativef(x: f32) -> bool
    ensures { result ≡ Floats.is_sign_negative x }
{
    negative(x)
}

// Stays a table of two that the sign indexes, as the source's macro for it is.
const HALF: [f32; 2] = [0.5, -0.5];

// A half with x's sign.
pub fn half_like<F: Width>(x: F) -> F
    ensures { F.float result ≡ half_like F.format (F.float x) }
{
    F::of(HALF[negative(x) as usize])
}

// The value t, with its sign turned where x is negative.
pub fn signed_like<F: Float>(x: F, t: F) -> F
    ensures { F.float result ≡ signed_like (F.float x) (F.float t) }
{
    if negative(x) { -t } else { t }
}
