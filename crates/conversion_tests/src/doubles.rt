use crate::same::{count, float, same};
use kinds::kind::Kind;
use std::test::Fail;

fn infinite<K: Kind>(x: K) -> bool {
    x.is_infinite()
}

#[test]
fn numbers(rt: HostRuntime) {
    for x in [0.0, -0.0, f64::MAX] {
        assert!(rt; x.is_number());
        assert!(rt; !infinite(x));
    }
    for x in [f64::INFINITY, f64::NEG_INFINITY] {
        assert!(rt; x.is_number());
        assert!(rt; infinite(x));
    }
    assert!(rt; !f64::NAN.is_number());
    assert!(rt; !infinite(f64::NAN));
}

#[test]
fn sign_turns(rt: HostRuntime) {
    for (x, turned) in [
        (0.0, -0.0),
        (-0.0, 0.0),
        (f64::INFINITY, f64::NEG_INFINITY),
        (f64::NAN, f64::NAN),
    ] {
        same(&rt, x.turned(), turned);
    }
}

// A sum of zero is +0 either way round.
#[test]
fn sums(rt: HostRuntime) {
    for (x, y, sum) in [
        (1.0, -1.0, 0.0),
        (-1.0, 1.0, 0.0),
        (f64::MAX, f64::MAX, f64::INFINITY),
        (f64::INFINITY, f64::NEG_INFINITY, f64::NAN),
    ] {
        same(&rt, x.plus(y), sum);
    }
}

#[test]
fn quotients(rt: HostRuntime) -> Result<(), Fail> {
    for (x, n, quotient) in [
        (1.0, 3, float(0x3fd5_5555_5555_5555)),
        (-0.0, 4096, -0.0),
        (f64::MAX, 1, f64::MAX),
        (float(1), 2, 0.0),
    ] {
        same(&rt, x.over(count(n)?), quotient);
    }
    Ok(())
}

// Both zeros are one number, and a NaN compares with nothing.
#[test]
fn comparisons(rt: HostRuntime) {
    for (x, y, at_most, greater) in [
        (0.0, -0.0, true, false),
        (-0.0, 0.0, true, false),
        (f64::INFINITY, f64::MAX, false, true),
        (f64::NAN, f64::NAN, false, false),
    ] {
        assert_eq!(rt; x.at_most(y), at_most);
        assert_eq!(rt; x.greater(y), greater);
    }
}
