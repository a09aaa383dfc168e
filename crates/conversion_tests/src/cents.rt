use crate::same::count;
use kinds::cents::LIMIT;
use kinds::count::Count;
use kinds::kind::Kind;
use std::test::Fail;

// 4,096 times the greatest number: as far as a sum of 4,096 numbers goes.
const FARTHEST: i64 = 4_096_000_000_000_000_000;

#[test]
fn numbers(rt: HostRuntime) {
    for x in [LIMIT, -LIMIT, 0] {
        assert!(rt; x.is_number());
    }
    for x in [LIMIT + 1, -LIMIT - 1, FARTHEST, -FARTHEST, i64::MIN] {
        assert!(rt; !x.is_number());
        assert!(rt; !x.is_infinite());
    }
}

#[test]
fn sign_turns(rt: HostRuntime) {
    for (x, turned) in [
        (0, 0),
        (LIMIT, -LIMIT),
        (-FARTHEST, FARTHEST),
        (i64::MIN, i64::MIN),
    ] {
        assert_eq!(rt; x.turned(), turned);
    }
}

// The last sum of 4,096 greatest numbers, on either side, and sums that would leave the i64.
#[test]
fn sums(rt: HostRuntime) {
    for (x, y, sum) in [
        (FARTHEST - LIMIT, LIMIT, FARTHEST),
        (LIMIT - FARTHEST, -LIMIT, -FARTHEST),
        (5, -8, -3),
        (i64::MAX, 1, i64::MAX),
        (i64::MIN, -1, i64::MIN),
    ] {
        assert_eq!(rt; x.plus(y), sum);
    }
}

#[test]
fn quotients_drop_the_fraction(rt: HostRuntime) -> Result<(), Fail> {
    for (x, n, quotient) in [
        (7, 2, 3),
        (-7, 2, -3),
        (FARTHEST, 4096, LIMIT),
        (-FARTHEST, 4096, -LIMIT),
        (FARTHEST - 1, 4096, LIMIT - 1),
        (i64::MIN, 1, i64::MIN),
    ] {
        assert_eq!(rt; x.over(count(n)?), quotient);
    }
    Ok(())
}

#[test]
fn comparisons(rt: HostRuntime) {
    for (x, y) in [(-LIMIT, LIMIT), (LIMIT, LIMIT), (i64::MIN, 0)] {
        assert!(rt; x.at_most(y));
        assert!(rt; !x.greater(y));
    }
}

#[test]
fn counts(rt: HostRuntime) -> Result<(), Fail> {
    assert!(rt; Count::new(0).is_none());
    assert!(rt; Count::new(4097).is_none());
    assert_eq!(rt; count(1)?.get(), 1);
    assert_eq!(rt; count(4096)?.get(), 4096);
    Ok(())
}
