/* origin: FreeBSD /usr/src/lib/msun/src/s_log1pf.c */
/*
 * ====================================================
 * Copyright (C) 1993 by Sun Microsystems, Inc. All rights reserved.
 *
 * Developed at SunPro, a Sun Microsystems, Inc. business.
 * Permission to use, copy, modify, and distribute this
 * software is freely granted, provided that this notice
 * is preserved.
 * ====================================================
 */
ghost use Rattle.std.specs.Prelude.{◌≡◌};
ghost use Rattle.single.specs.Log1pf.{log1pf_of};

use logarithm::log1p::in_bands;

// The natural logarithm of 1 + x, accurate for small x too.
pub fn log1pf(x: f32) -> f32
    ensures { result ≡ log1pf_of x }
{
    in_bands(x)
}
