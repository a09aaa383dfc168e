/* origin: FreeBSD /usr/src/lib/msun/src/s_expm1f.c */
/*
 * Conversion to float by Ian Lance Taylor, Cygnus Support, ian@cygnus.com.
 */
/*
 * ====================================================
 * Copyright (C) 1993 by Sun Microsystems, Inc. All rights reserved.
 *
 * Developed at SunPro, a Sun Microsystems, Inc. business.
 * Permission to use, copy, modify, and distribute this
 * software is freely granted, provided that this notice
 * is preserved.
 * ====================================================
 */
ghost use Rattle.std.specs.Prelude.{◌≡◌};
ghost use Rattle.single.specs.Expm1f.{expm1f_of};

use exponential::expm1::in_bands;

// exp(x) - 1, accurate for small x too.
pub fn expm1f(x: f32) -> f32
    ensures { result ≡ expm1f_of x }
{
    in_bands(x)
}
