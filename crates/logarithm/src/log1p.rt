/* origin: FreeBSD /usr/src/lib/msun/src/s_log1p.c */
/*
 * ====================================================
 * Copyright (C) 1993 by Sun Microsystems, Inc. All rights reserved.
 *
 * Developed at SunPro, a Sun Microsystems, Inc. business.
 * Permission to use, copy, modify, and distribute this
 * software is freely granted, provided that this notice
 * is preserved.
 * ====================================================
 */
ghost use Rattle.std.specs.Prelude.{◌≡◌, to_bits};
ghost use Rattle.logarithm.specs.Log1p.{lost_of, correction_of, sum_of, cut_of, near_of, bands_of, tests_of, number_tests_of, log1p_of};

use crate::kernel::{high_part, low_part, sum};
use crate::table::Table;
use float::band::negative;

const MINUS_ONE: f32 = -1.0;

// What 1 + x lost when it was rounded to u.
fn lost<F: Table>(k: i16, x: F, u: F) -> F
    ensures { F.float result ≡ lost_of F.table k (F.float x) (F.float u) }
{
    if k >= 2 {
        F::of(1.0) - (u - x)
    } else {
        x - (u - F::of(1.0))
    }
}

// log(1 + x) - log(u), about; c / u is not to underflow.
fn correction<F: Table>(k: i16, x: F, u: F) -> F
    ensures { F.float result ≡ correction_of F.table k (F.float x) (F.float u) }
{
    if F::is_corrected(k) {
        lost(k, x, u) / u
    } else {
        F::of(0.0)
    }
}

// log of 2^k (1 + f), with the correction c.
fn corrected_sum<F: Table>(k: i16, f: F, c: F) -> F
    ensures { F.float result ≡ sum_of F.table k (F.float f) (F.float c) }
{
    sum(f, low_part::<F>(k) + c, high_part(k))
}

// log(1 + x), where u is 1 + x.
fn cut<F: Table>(x: F, u: F) -> F
    ensures { F.float result ≡ cut_of F.table (F.float x) (F.float u) (to_bits F.table.log.format (F.float u)) }
{
    let k = u.exponent();
    corrected_sum(k, u.significand() - F::of(1.0), correction(k, x, u))
}

// Whether 1 + x lies between about √½ and √2.
fn near<F: Table>(x: F) -> bool
    ensures { result ≡ near_of F.table (F.float x) }
{
    if negative(x) {
        x.is_near_below()
    } else {
        x.is_near_above()
    }
}

// For a finite x; the tiny ones end at 2^-53, or 2^-24 of an f32.
fn banded<F: Table>(x: F) -> F
    ensures { F.float result ≡ bands_of F.table (F.float x) }
{
    if x < F::of(MINUS_ONE) {
        F::of(f32::NAN)
    } else if x == F::of(MINUS_ONE) {
        F::of(f32::NEG_INFINITY)
    } else if x.is_tiny() {
        x
    } else if near(x) {
        corrected_sum(0, x, F::of(0.0))
    } else {
        cut(x, F::of(1.0) + x)
    }
}

fn tested<F: Table>(x: F) -> F
    ensures { F.float result ≡ tests_of F.table (F.float x) }
{
    if x == F::of(f32::INFINITY) {
        x
    } else {
        banded(x)
    }
}

// The natural logarithm of 1 + x, accurate for small x too, of either width. A NaN stays.
pub fn in_bands<F: Table>(x: F) -> F
    ensures { F.float result ≡ number_tests_of F.table (F.float x) }
{
    if x.is_nan() { x } else { tested(x) }
}

// The natural logarithm of 1 + x, accurate for small x too.
pub fn log1p(x: f64) -> f64
    ensures { result ≡ log1p_of x }
{
    in_bands(x)
}
