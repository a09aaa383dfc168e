use crate::same::{float, refused, same};
use conversion::chain::Chain;
use conversion::conversion::Conversion;
use conversion::flip::Flip;
use conversion::trip::round_trip;
use function_conversions::cosh::Cosh;
use function_conversions::exp::Exp;
use function_conversions::expm1::Expm1;
use function_conversions::expm1f::Expm1f;
use function_conversions::pair::{By, Pair};
use function_conversions::sinh::Sinh;
use function_conversions::tanh::Tanh;
use scale::Scale;
use std::test::Fail;

// From the special values of the C standard, and the ends.
#[test]
fn tanh_between(rt: HostRuntime) -> Result<(), Fail> {
    let tanh = By { pair: Tanh };
    same(&rt, tanh.on(800.0)?, 1.0);
    same(&rt, tanh.on(f64::NEG_INFINITY)?, -1.0);
    same(&rt, tanh.back(-1.0)?, f64::NEG_INFINITY);
    refused(&rt, tanh.on(f64::NAN), 4)?;
    refused(&rt, tanh.back(1.0000000000000002), 7)?;
    refused(&rt, tanh.back(f64::NAN), 7)?;
    same(&rt, round_trip(&tanh, 0.0)?, 0.0);
    Ok(())
}

// By the C standard sinh and asinh leave the zeros and the infinities as they are. At -2^-30 sinh is off its
// argument by x^3 / 6, below 2^-92, so that the nearest f64 is the argument.
#[test]
fn sinh_everywhere(rt: HostRuntime) -> Result<(), Fail> {
    let sinh = By { pair: Sinh };
    same(&rt, sinh.on(0.0)?, 0.0);
    same(&rt, sinh.on(-0.0)?, -0.0);
    same(&rt, sinh.on(f64::INFINITY)?, f64::INFINITY);
    same(&rt, sinh.on(f64::NEG_INFINITY)?, f64::NEG_INFINITY);
    let tiny = float(0xbe10000000000000);
    same(&rt, sinh.on(tiny)?, tiny);
    same(&rt, sinh.back(0.0)?, 0.0);
    same(&rt, sinh.back(-0.0)?, -0.0);
    same(&rt, sinh.back(f64::INFINITY)?, f64::INFINITY);
    same(&rt, sinh.back(f64::NEG_INFINITY)?, f64::NEG_INFINITY);
    refused(&rt, sinh.on(f64::NAN), 4)?;
    refused(&rt, sinh.back(f64::NAN), 7)?;
    same(&rt, sinh.low(), f64::NEG_INFINITY);
    same(&rt, sinh.high(), f64::INFINITY);
    Ok(())
}

#[test]
fn upward_ends(rt: HostRuntime) -> Result<(), Fail> {
    let cosh = By { pair: Cosh };
    same(&rt, cosh.on(0.0)?, 1.0);
    same(&rt, cosh.back(1.0)?, 0.0);
    refused(&rt, cosh.back(0.9999999999999999), 7)?;
    let exp = By { pair: Exp };
    same(&rt, exp.on(f64::NEG_INFINITY)?, 0.0);
    same(&rt, exp.back(-0.0)?, f64::NEG_INFINITY);
    refused(&rt, exp.back(-0.5), 7)?;
    let expm1 = By { pair: Expm1 };
    same(&rt, expm1.on(-40.0)?, -1.0);
    same(&rt, expm1.back(-1.0)?, f64::NEG_INFINITY);
    refused(&rt, expm1.back(-1.0000000000000002), 7)
}

#[test]
fn single_precision(rt: HostRuntime) -> Result<(), Fail> {
    let expm1f = By { pair: Expm1f };
    assert_eq!(rt; expm1f.on(-20.0)?, -1.0f32);
    assert_eq!(rt; expm1f.back(-1.0)?, f32::NEG_INFINITY);
    refused(&rt, expm1f.on(f32::NAN), 4)?;
    refused(&rt, expm1f.back(-1.5), 7)
}

// asinh as the flip of sinh, and a scale before tanh.
#[test]
fn layers(rt: HostRuntime) -> Result<(), Fail> {
    let asinh = Flip {
        inner: By { pair: Sinh },
    };
    same(&rt, asinh.on(f64::INFINITY)?, f64::INFINITY);
    same(&rt, asinh.on(-0.0)?, -0.0);
    refused(&rt, asinh.on(f64::NAN), 4)?;
    refused(&rt, asinh.back(f64::NAN), 7)?;
    let scaled = Chain {
        first: Scale::new(4)?,
        second: By { pair: Tanh },
    };
    same(&rt, scaled.on(50.0)?, 1.0);
    same(&rt, scaled.back(1.0)?, f64::INFINITY);
    refused(&rt, scaled.back(-1.5), 7)
}
