// The reversal of cents, and layers over it.
use crate::same::refused;
use conversion::chain::Chain;
use conversion::conversion::{Conversion, Full, as_number};
use conversion::flip::Flip;
use conversion::refusal::{Refusal, as_back, as_on, refused_as};
use conversion::reversal::Reversal;
use conversion::trip::round_trip;
use kinds::cents::LIMIT;
use std::process::Abort;
use std::test::Fail;

// Whether on and back of x are y, and what lies beyond the ends is refused.
fn converts<C: Conversion<Figure = i64>>(
    rt: &impl Abort,
    c: &C,
    x: i64,
    y: i64,
) -> Result<(), Fail> {
    assert_eq!(rt; c.on(x)?, y);
    assert_eq!(rt; c.back(y)?, x);
    assert_eq!(rt; round_trip(c, x)?, x);
    assert_eq!(rt; c.low(), -LIMIT);
    assert_eq!(rt; c.high(), LIMIT);
    for outside in [LIMIT + 1, -LIMIT - 1, i64::MIN] {
        refused(rt, c.on(outside), 4)?;
        refused(rt, c.back(outside), 7)?;
        refused(rt, round_trip(c, outside), 4)?;
    }
    Ok(())
}

#[test]
fn reversal(rt: HostRuntime) -> Result<(), Fail> {
    converts(&rt, &Reversal, 5, -5)?;
    converts(&rt, &Reversal, -LIMIT, LIMIT)?;
    assert_eq!(rt; Reversal.back_number(LIMIT)?, -LIMIT);
    refused(&rt, Reversal.back_number(i64::MIN), 7)
}

#[test]
fn flips(rt: HostRuntime) -> Result<(), Fail> {
    let flip = Flip { inner: Reversal };
    converts(&rt, &flip, LIMIT, -LIMIT)?;
    converts(&rt, &Flip { inner: flip }, 8, -8)
}

#[test]
fn chains(rt: HostRuntime) -> Result<(), Fail> {
    let chain = Chain {
        first: Reversal,
        second: Flip { inner: Reversal },
    };
    converts(&rt, &chain, 5, 5)?;
    converts(
        &rt,
        &Chain {
            first: Reversal,
            second: chain,
        },
        LIMIT,
        -LIMIT,
    )
}

#[test]
fn refused_otherwise(rt: HostRuntime) -> Result<(), Fail> {
    let answer: Result<i64, Refusal> = Err(Refusal::ScaleOutOfBounds(65));
    refused(&rt, answer, 13)?;
    refused(&rt, refused_as(answer, Refusal::NotANumber), 4)?;
    refused(&rt, refused_as(answer, Refusal::OutsideBackRange), 7)?;
    assert_eq!(rt; refused_as::<i64>(Ok(3), Refusal::NotANumber)?, 3);
    refused(&rt, as_on(answer), 4)?;
    refused(&rt, as_back(answer), 7)?;
    assert_eq!(rt; as_on::<i64>(Ok(3))?, 3);
    Ok(())
}

// What every on takes, and what the back of a conversion takes.
#[test]
fn taken(rt: HostRuntime) -> Result<(), Fail> {
    assert_eq!(rt; as_number(-LIMIT)?, -LIMIT);
    refused(&rt, as_number(LIMIT + 1), 4)?;
    refused(&rt, as_number(f64::NAN), 4)?;
    assert_eq!(rt; Reversal.in_back_range(LIMIT)?, LIMIT);
    refused(&rt, Reversal.in_back_range(i64::MIN), 7)
}
