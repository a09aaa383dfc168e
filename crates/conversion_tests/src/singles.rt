use crate::same::{count, same, single};
use kinds::kind::Kind;
use std::test::Fail;

#[test]
fn numbers(rt: HostRuntime) {
    for x in [0.0f32, -0.0, f32::INFINITY, f32::NEG_INFINITY] {
        assert!(rt; x.is_number());
    }
    assert!(rt; !f32::NAN.is_number());
}

#[test]
fn sums_and_quotients(rt: HostRuntime) -> Result<(), Fail> {
    same(&rt, 0.0f32.turned(), single(0x8000_0000));
    same(&rt, 1.0f32.plus(-1.0), single(0));
    same(&rt, f32::MAX.plus(f32::MAX), single(0x7f80_0000));
    same(&rt, (-1.0f32).over(count(3)?), single(0xbeaa_aaab));
    Ok(())
}

#[test]
fn comparisons(rt: HostRuntime) {
    assert!(rt; 0.0f32.at_most(-0.0));
    assert!(rt; 1.0f32.greater(0.0));
    assert!(rt; !f32::NAN.at_most(0.0));
}
