/* origin: FreeBSD /usr/src/lib/msun/src/e_exp.c */
/*
 * ====================================================
 * Copyright (C) 2004 by Sun Microsystems, Inc. All rights reserved.
 *
 * Permission to use, copy, modify, and distribute this
 * software is freely granted, provided that this notice
 * is preserved.
 * ====================================================
 */
ghost use Rattle.std.specs.Prelude.{◌≡◌, not, T, is_nan};
ghost use Rattle.exponential.specs.Exp.{kernel_of, join_of, scaled_of, reduced_of, bands_of, exp_of};

use crate::ln2::{count, high_rest, low_rest};
use float::band::below;
use scaling::scalbn::scalbn;

// 709.782712893383973096: above it the result overflows.
const OVERFLOW: f64 = f64::from_bits(0x4086_2e42_fefa_39ef);

// -745.13321910194110842: below it the result is nearer to 0 than to any other value.
const UNDERFLOW: f64 = f64::from_bits(0xc087_4910_d52d_3051);

const P: [f64; 5] = [
    f64::from_bits(0x3FC5_5555_5555_553E),
    f64::from_bits(0xBF66_C16C_16BE_BD93),
    f64::from_bits(0x3F11_566A_AF25_DE2C),
    f64::from_bits(0xBEBB_BD41_C5D2_6BF1),
    f64::from_bits(0x3E66_3769_72BE_A4D0),
];

fn kernel(x: f64) -> f64
    ensures { result ≡ kernel_of x }
{
    let xx = x * x;
    x - xx * (P[0] + xx * (P[1] + xx * (P[2] + xx * (P[3] + xx * P[4]))))
}

// exp(x), where x is about hi - lo and small.
fn join(x: f64, hi: f64, lo: f64) -> f64
    ensures { result ≡ join_of x hi lo }
{
    let c = kernel(x);
    1.0 + (x * c / (2.0 - c) - lo + hi)
}

fn scaled(k: i16, hi: f64, lo: f64) -> f64
    ensures { result ≡ scaled_of k hi lo }
{
    scalbn(join(hi - lo, hi, lo), k as i32)
}

fn reduced(k: i16, x: f64) -> f64
    ensures { result ≡ reduced_of k x }
{
    if k == 0 {
        join(x, x, 0.0)
    } else {
        scaled(k, high_rest(k, x), low_rest(k))
    }
}

// By bands of x, the outer ones first.
fn banded(x: f64) -> f64
    requires { T (not (is_nan x)) }
    ensures { result ≡ bands_of x }
{
    if x > OVERFLOW {
        return f64::INFINITY;
    }
    if x < UNDERFLOW {
        return 0.0;
    }
    if below(x, 0x3e30_0001) {
        return 1.0 + x;
    }
    reduced(count(x), x)
}

// e to the power x.
pub fn exp(x: f64) -> f64
    ensures { result ≡ exp_of x }
{
    if x.is_nan() { x } else { banded(x) }
}
