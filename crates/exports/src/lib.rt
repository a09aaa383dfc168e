//! The twelve functions for programs in C and Rust, which link them as a static library.
//!
//! Each symbol is the function's name behind `wumelisorn_`, so that none is a name of the C library. They stay
//! twelve functions: C calls each by its name.
#![tactic(auto)]

ghost use Rattle.std.specs.Prelude.{◌≡◌};
ghost use Rattle.exponential.specs.Exp.{exp_of};
ghost use Rattle.exponential.specs.Expm1.{expm1_of};
ghost use Rattle.hyperbolic.specs.Cosh.{cosh_of};
ghost use Rattle.hyperbolic.specs.Sinh.{sinh_of};
ghost use Rattle.hyperbolic.specs.Tanh.{tanh_of};
ghost use Rattle.inverse.specs.Acosh.{acosh_of};
ghost use Rattle.inverse.specs.Asinh.{asinh_of};
ghost use Rattle.inverse.specs.Atanh.{atanh_of};
ghost use Rattle.logarithm.specs.Log.{log_of};
ghost use Rattle.logarithm.specs.Log1p.{log1p_of};
ghost use Rattle.single.specs.Expm1f.{expm1f_of};
ghost use Rattle.single.specs.Log1pf.{log1pf_of};

use exponential::exp::exp;
use exponential::expm1::expm1;
use hyperbolic::cosh::cosh;
use hyperbolic::sinh::sinh;
use hyperbolic::tanh::tanh;
use inverse::acosh::acosh;
use inverse::asinh::asinh;
use inverse::atanh::atanh;
use logarithm::log::log;
use logarithm::log1p::log1p;
use single::expm1f::expm1f;
use single::log1pf::log1pf;

// exp(x) - 1, accurate for small x too.
#[unsafe(no_mangle)]
pub extern "C" fn wumelisorn_expm1(x: f64) -> f64
    ensures { result ≡ expm1_of x }
{
    expm1(x)
}

// The natural logarithm of 1 + x, accurate for small x too.
#[unsafe(no_mangle)]
pub extern "C" fn wumelisorn_log1p(x: f64) -> f64
    ensures { result ≡ log1p_of x }
{
    log1p(x)
}

// e to the power x.
#[unsafe(no_mangle)]
pub extern "C" fn wumelisorn_exp(x: f64) -> f64
    ensures { result ≡ exp_of x }
{
    exp(x)
}

// The natural logarithm.
#[unsafe(no_mangle)]
pub extern "C" fn wumelisorn_log(x: f64) -> f64
    ensures { result ≡ log_of x }
{
    log(x)
}

// The hyperbolic sine.
#[unsafe(no_mangle)]
pub extern "C" fn wumelisorn_sinh(x: f64) -> f64
    ensures { result ≡ sinh_of x }
{
    sinh(x)
}

// The hyperbolic cosine.
#[unsafe(no_mangle)]
pub extern "C" fn wumelisorn_cosh(x: f64) -> f64
    ensures { result ≡ cosh_of x }
{
    cosh(x)
}

// The hyperbolic tangent.
#[unsafe(no_mangle)]
pub extern "C" fn wumelisorn_tanh(x: f64) -> f64
    ensures { result ≡ tanh_of x }
{
    tanh(x)
}

// The inverse of the hyperbolic sine.
#[unsafe(no_mangle)]
pub extern "C" fn wumelisorn_asinh(x: f64) -> f64
    ensures { result ≡ asinh_of x }
{
    asinh(x)
}

// The inverse of the hyperbolic cosine; NaN below 1.
#[unsafe(no_mangle)]
pub extern "C" fn wumelisorn_acosh(x: f64) -> f64
    ensures { result ≡ acosh_of x }
{
    acosh(x)
}

// The inverse of the hyperbolic tangent; NaN beyond -1 and 1.
#[unsafe(no_mangle)]
pub extern "C" fn wumelisorn_atanh(x: f64) -> f64
    ensures { result ≡ atanh_of x }
{
    atanh(x)
}

// exp(x) - 1 of an f32, accurate for small x too.
#[unsafe(no_mangle)]
pub extern "C" fn wumelisorn_expm1f(x: f32) -> f32
    ensures { result ≡ expm1f_of x }
{
    expm1f(x)
}

// The natural logarithm of 1 + x, of an f32, accurate for small x too.
#[unsafe(no_mangle)]
pub extern "C" fn wumelisorn_log1pf(x: f32) -> f32
    ensures { result ≡ log1pf_of x }
{
    log1pf(x)
}
