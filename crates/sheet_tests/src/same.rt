use refusals::Numbered;
use sheet::refusal::Refusal;
use std::num::f64_to_bits_with_nan;
use std::process::Abort;
use std::test::Fail;

// Whether a result has the bits of a value, so that -0 is not 0.
pub(crate) fn same(rt: &impl Abort, res: f64, expected: f64) {
    assert_eq!(rt; f64_to_bits_with_nan(res), f64_to_bits_with_nan(expected));
}

fn is(rt: &impl Abort, refusal: Refusal, number: u8, row: Option<usize>) -> Result<(), Fail> {
    assert_eq!(rt; refusal.number(), number);
    assert_eq!(rt; refusal.row(), row);
    Ok(())
}

// Whether an answer is the refusal with this number, which names no row.
pub(crate) fn refused<T: Drop>(
    rt: &impl Abort,
    answer: Result<T, Refusal>,
    number: u8,
) -> Result<(), Fail> {
    let refusal = answer.err().ok_or("not refused")?;
    is(rt, refusal, number, None)
}

// Whether an answer is the refusal with this number at this row.
pub(crate) fn refused_at<T: Drop>(
    rt: &impl Abort,
    answer: Result<T, Refusal>,
    number: u8,
    row: usize,
) -> Result<(), Fail> {
    let refusal = answer.err().ok_or("not refused")?;
    is(rt, refusal, number, Some(row))
}

// The head that a close or a reopen gave.
pub(crate) fn passed<A: Drop, B: Drop>(answer: Result<A, (B, Refusal)>) -> Result<A, Fail> {
    let head = answer.ok().ok_or("refused")?;
    Ok(head)
}

// The head that a refused close or reopen gave back.
pub(crate) fn kept<A: Drop, B: Drop>(
    rt: &impl Abort,
    answer: Result<A, (B, Refusal)>,
    number: u8,
    row: Option<usize>,
) -> Result<B, Fail> {
    let (head, refusal) = answer.err().ok_or("not refused")?;
    is(rt, refusal, number, row)?;
    Ok(head)
}
