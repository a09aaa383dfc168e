use conversion::refusal::Refusal;
use kinds::count::Count;
use refusals::Numbered;
use std::num::{
    f32_from_bits_with_nan, f32_to_bits_with_nan, f64_from_bits_with_nan, f64_to_bits_with_nan,
};
use std::process::Abort;
use std::test::Fail;

pub(crate) fn float(bits: u64) -> f64 {
    f64_from_bits_with_nan(bits)
}

pub(crate) fn single(bits: u32) -> f32 {
    f32_from_bits_with_nan(bits)
}

// A float, seen as its bits.
pub(crate) trait Bits {
    fn bits(self) -> u64;
}

impl Bits for f64 {
    fn bits(self) -> u64 {
        f64_to_bits_with_nan(self)
    }
}

impl Bits for f32 {
    fn bits(self) -> u64 {
        u64::from(f32_to_bits_with_nan(self))
    }
}

// Whether a result has the bits of a value, so that -0 is not 0.
pub(crate) fn same<F: Bits>(rt: &impl Abort, res: F, expected: F) {
    assert_eq!(rt; res.bits(), expected.bits());
}

// Whether the answer is a refusal with this number.
pub(crate) fn refused<T: Drop>(
    rt: &impl Abort,
    answer: Result<T, Refusal>,
    number: u8,
) -> Result<(), Fail> {
    let refusal = answer.err().ok_or_else(|| Fail::new("not refused"))?;
    assert_eq!(rt; refusal.number(), number);
    Ok(())
}

pub(crate) fn count(n: usize) -> Result<Count, Fail> {
    Count::new(n).ok_or_else(|| Fail::new("no count"))
}
