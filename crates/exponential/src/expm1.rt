/* origin: FreeBSD /usr/src/lib/msun/src/s_expm1.c */
/*
 * ====================================================
 * Copyright (C) 1993 by Sun Microsystems, Inc. All rights reserved.
 *
 * Developed at SunPro, a Sun Microsystems, Inc. business.
 * Permission to use, copy, modify, and distribute this
 * software is freely granted, provided that this notice
 * is preserved.
 * ====================================================
 */
ghost use Rattle.std.specs.Prelude.{◌≡◌, not, T, pos, ◌≤ℤ◌, is_nan};
ghost use Rattle.scaling.specs.Scalbn.{scalbn_of};
ghost use Rattle.exponential.specs.Expm1.{square_of, error_of, corrected_of, halved, doubled, outer, unit, summed, scaled_of, unscaled, lost_of, rebuilt, reduced_of, sunk, over, bands_of, tests_of, expm1_of};

use crate::ln2::{count, high_rest, low_rest};
use crate::table::Table;
use float::band::negative;

const MINUS_ONE: f32 = -1.0;

const MINUS_TWO: f32 = -2.0;

const MINUS_QUARTER: f32 = -0.25;

fn square<F: Table>(r: F) -> F
    ensures { F.float result ≡ square_of F.table (F.float r) }
{
    r * (F::of(0.5) * r)
}

fn error<F: Table>(r: F) -> F
    ensures { F.float result ≡ error_of F.table (F.float r) }
{
    let hfx = F::of(0.5) * r;
    let hxs = r * hfx;
    let r1 = F::kernel(hxs);
    let t = F::of(3.0) - r1 * hfx;
    hxs * ((r1 - t) / (F::of(6.0) - r * t))
}

fn corrected<F: Table>(r: F, c: F) -> F
    ensures { F.float result ≡ corrected_of F.table (F.float r) (F.float c) }
{
    r * (error(r) - c) - c - square(r)
}

// k = 0.
fn unscaled<F: Table>(r: F) -> F
    ensures { F.float result ≡ unscaled F.table (F.float r) }
{
    r - (r * error(r) - square(r))
}

// k = -1.
fn halved<F: Table>(r: F, e: F) -> F
    ensures { F.float result ≡ halved F.table (F.float r) (F.float e) }
{
    F::of(0.5) * (r - e) - F::of(0.5)
}

// k = 1.
fn doubled<F: Table>(r: F, e: F) -> F
    ensures { F.float result ≡ doubled F.table (F.float r) (F.float e) }
{
    if r < F::of(MINUS_QUARTER) {
        F::of(MINUS_TWO) * (e - (r + F::of(0.5)))
    } else {
        F::of(1.0) + F::of(2.0) * (r - e)
    }
}

// 2^k times x, rounded once.
fn raised<F: Table>(x: F, k: i16) -> F
    ensures { F.float result ≡ scalbn_of F.table.ln2.format (F.float x) k }
{
    x.scalbn(k as i32)
}

// k below 0 or above 56.
fn outer<F: Table>(k: i16, r: F, e: F) -> F
    ensures { F.float result ≡ outer F.table k (F.float r) (F.float e) }
{
    raised(r - e + F::of(1.0), k) - F::of(1.0)
}

// 2^-k.
fn unit<F: Table>(k: i16) -> F
    requires { pos 0 ≤ℤ k }
    ensures { F.float result ≡ unit F.table k }
{
    raised(F::of(1.0), 0 - k)
}

// What is scaled for a k from 2 to 56: 1 + r - e less 2^-k, in the order that keeps the digits.
fn summed<F: Table>(k: i16, r: F, e: F) -> F
    requires { pos 0 ≤ℤ k }
    ensures { F.float result ≡ summed F.table k (F.float r) (F.float e) }
{
    if F::is_narrow(k) {
        r - e + (F::of(1.0) - unit(k))
    } else {
        r - (e + unit(k)) + F::of(1.0)
    }
}

fn scaled<F: Table>(k: i16, r: F, e: F) -> F
    ensures { F.float result ≡ scaled_of F.table k (F.float r) (F.float e) }
{
    match k {
        -1 => halved(r, e),
        1 => doubled(r, e),
        0..=56 => raised(summed(k, r, e), k),
        _ => outer(k, r, e),
    }
}

// What r = hi - lo lost as it was rounded.
fn lost<F: Table>(hi: F, lo: F, r: F) -> F
    ensures { F.float result ≡ lost_of F.table (F.float hi) (F.float lo) (F.float r) }
{
    (hi - r) - lo
}

fn join<F: Table>(k: i16, r: F, c: F) -> F
    ensures { F.float result ≡ scaled_of F.table k (F.float r) (corrected_of F.table (F.float r) (F.float c)) }
{
    scaled(k, r, corrected(r, c))
}

fn rebuild<F: Table>(k: i16, hi: F, lo: F) -> F
    ensures { F.float result ≡ rebuilt F.table k (F.float hi) (F.float lo) }
{
    let r = hi - lo;
    join(k, r, lost(hi, lo, r))
}

fn reduced<F: Table>(k: i16, x: F) -> F
    ensures { F.float result ≡ reduced_of F.table k (F.float x) }
{
    if k == 0 {
        unscaled(x)
    } else {
        rebuild(k, high_rest(k, x), low_rest(k))
    }
}

// Whether x is negative and of a size from 56 ln 2 on, or 27 ln 2 of an f32.
#[inline(always)]
fn is_sunk<F: Table>(x: F) -> bool
    ensures { result ≡ sunk F.table (F.float x) }
{
    !x.is_below_far() && negative(x)
}

// Whether x is above the threshold of overflow.
#[inline(always)]
fn is_over<F: Table>(x: F) -> bool
    ensures { result ≡ over F.table (F.float x) }
{
    !x.is_below_far() && x > F::overflow()
}

// By bands of |x|, the far ones first; the last but one ends at 2^-54, or 2^-25 of an f32.
fn banded<F: Table>(x: F) -> F
    requires { T (not (is_nan (F.float x))) }
    ensures { F.float result ≡ bands_of F.table (F.float x) }
{
    if is_sunk(x) {
        F::of(MINUS_ONE)
    } else if is_over(x) {
        F::of(f32::INFINITY)
    } else if x.is_tiny() {
        x
    } else {
        reduced(count(x), x)
    }
}

// exp(x) - 1, accurate for small x too, of either width. A NaN stays.
pub fn in_bands<F: Table>(x: F) -> F
    ensures { F.float result ≡ tests_of F.table (F.float x) }
{
    if x.is_nan() { x } else { banded(x) }
}

// exp(x) - 1, accurate for small x too.
pub fn expm1(x: f64) -> f64
    ensures { result ≡ expm1_of x }
{
    in_bands(x)
}
