/* origin: FreeBSD /usr/src/lib/msun/src/e_log.c */
/*
 * ====================================================
 * Copyright (C) 1993 by Sun Microsystems, Inc. All rights reserved.
 *
 * Developed at SunSoft, a Sun Microsystems, Inc. business.
 * Permission to use, copy, modify, and distribute this
 * software is freely granted, provided that this notice
 * is preserved.
 * ====================================================
 */
ghost use Rattle.std.specs.Prelude.{◌≡◌, pos, negsuc, ◌≤ℤ◌, to_bits};
ghost use Rattle.std.specs.Float.{binary64};
ghost use Rattle.logarithm.specs.Log.{sum_of, cut_of, bands_of, tests_of, log_of};

use crate::kernel::{high_part, low_part, sum};
use crate::table::Table;
use float::band::{below, negative};

const TWO_54: f64 = f64::from_bits(0x4350_0000_0000_0000);

const MINUS_INFINITY: f64 = f64::from_bits(0xfff0_0000_0000_0000);

fn at_exponent(k: i16, f: f64) -> f64
    ensures { result ≡ sum_of k f }
{
    sum(f, low_part(k), high_part(k))
}

// The logarithm of 2^k times x.
fn cut(k: i16, x: f64) -> f64
    requires { (negsuc 53 ≤ℤ k) × (k ≤ℤ pos 0) }
    ensures { result ≡ cut_of k (to_bits binary64 x) }
{
    at_exponent(k + x.exponent(), x.significand() - 1.0)
}

// For a finite x above zero.
fn banded(x: f64) -> f64
    ensures { result ≡ bands_of x }
{
    if x == 1.0 {
        0.0
    } else if below(x, 0x0010_0000) {
        // a subnormal number, scaled up
        cut(-54, x * TWO_54)
    } else {
        cut(0, x)
    }
}

fn tested(x: f64) -> f64
    ensures { result ≡ tests_of x }
{
    if x == 0.0 {
        MINUS_INFINITY
    } else if negative(x) {
        f64::NAN
    } else if x == f64::INFINITY {
        x
    } else {
        banded(x)
    }
}

// The natural logarithm of x.
pub fn log(x: f64) -> f64
    ensures { result ≡ log_of x }
{
    if x.is_nan() { x } else { tested(x) }
}
