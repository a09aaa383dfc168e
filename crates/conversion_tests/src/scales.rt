use crate::same::{float, refused, same};
use conversion::chain::Chain;
use conversion::conversion::Conversion;
use conversion::flip::Flip;
use conversion::trip::round_trip;
use scale::Scale;
use std::process::Abort;
use std::test::Fail;

// Whether on of x is y and back of y is x, and a NaN is refused.
fn converts<C: Conversion<Figure = f64>>(
    rt: &impl Abort,
    c: &C,
    x: f64,
    y: f64,
) -> Result<(), Fail> {
    same(rt, c.on(x)?, y);
    same(rt, c.back(y)?, x);
    refused(rt, c.on(f64::NAN), 4)?;
    refused(rt, c.back(f64::NAN), 7)?;
    refused(rt, round_trip(c, f64::NAN), 4)
}

#[test]
fn makes_scales(rt: HostRuntime) -> Result<(), Fail> {
    for exponent in [65, -65, i32::MIN, i32::MAX] {
        refused(&rt, Scale::new(exponent), 13)?;
    }
    converts(&rt, &Scale::new(64)?, 1.0, 18446744073709551616.0)?;
    converts(&rt, &Scale::new(-64)?, 18446744073709551616.0, 1.0)
}

#[test]
fn takes_every_number(rt: HostRuntime) -> Result<(), Fail> {
    let scale = Scale::new(3)?;
    for (x, y) in [
        (-0.0, -0.0),
        (-1.5, -12.0),
        (f64::NEG_INFINITY, f64::NEG_INFINITY),
    ] {
        converts(&rt, &scale, x, y)?;
    }
    same(&rt, scale.low(), f64::NEG_INFINITY);
    same(&rt, scale.high(), f64::INFINITY);
    Ok(())
}

#[test]
fn layers(rt: HostRuntime) -> Result<(), Fail> {
    let chain = Chain {
        first: Scale::new(10)?,
        second: Flip {
            inner: Scale::new(7)?,
        },
    };
    converts(&rt, &chain, 3.0, 24.0)?;
    converts(&rt, &Flip { inner: chain }, 24.0, 3.0)?;
    converts(
        &rt,
        &Flip {
            inner: Flip { inner: chain },
        },
        -0.0,
        -0.0,
    )
}

// A value too small or too large is lost on the way, and back answers all the same.
#[test]
fn a_trip_may_round(rt: HostRuntime) -> Result<(), Fail> {
    same(&rt, round_trip(&Scale::new(-1)?, float(1))?, 0.0);
    same(&rt, round_trip(&Scale::new(1)?, f64::MAX)?, f64::INFINITY);
    Ok(())
}
