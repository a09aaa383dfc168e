//! Sheets of whole cents.
use crate::same::{kept, passed, refused, refused_at};
use conversion::chain::Chain;
use conversion::conversion::Conversion;
use conversion::flip::Flip;
use conversion::reversal::Reversal;
use sheet::heads::OpenSheet;
use sheet::open::open;
use sheet::refusal::Refusal;
use std::test::Fail;

const LIMIT: i64 = 1_000_000_000_000_000;

// 5 and -8, reversed: the total is 3 and the mean 1, the fraction being dropped.
#[test]
fn reversed(rt: HostRuntime) -> Result<(), Fail> {
    let mut marks = [0u8; 3];
    let mut figures = [0i64; 3];
    let mut sheet = open(&mut marks, &mut figures)?;
    sheet.enter(&mut marks, &mut figures, 0, 5)?;
    sheet.enter(&mut marks, &mut figures, 2, -8)?;
    sheet.on_all(&mut marks, &mut figures, &Reversal)?;
    let settled = passed(sheet.close(&marks, &figures))?;
    assert_eq!(rt; settled.total(&marks, &figures)?, 3);
    assert_eq!(rt; settled.mean(&marks, &figures)?, 1);
    assert_eq!(rt; settled.exceeds(&marks, &figures, 2)?, true);
    assert_eq!(rt; settled.exceeds(&marks, &figures, 3)?, false);
    assert_eq!(rt; settled.exceeds(&marks, &figures, -3)?, true);
    Ok(())
}

// The same through a flip and a chain: three reversals are one.
#[test]
fn through_layers(rt: HostRuntime) -> Result<(), Fail> {
    let layers = Chain {
        first: Flip { inner: Reversal },
        second: Chain {
            first: Reversal,
            second: Reversal,
        },
    };
    let mut marks = [0u8; 2];
    let mut figures = [0i64; 2];
    let mut sheet = open(&mut marks, &mut figures)?;
    sheet.enter(&mut marks, &mut figures, 0, 5)?;
    sheet.enter(&mut marks, &mut figures, 1, -8)?;
    sheet.on(&mut marks, &mut figures, &layers, 1)?;
    sheet.on_all(&mut marks, &mut figures, &layers)?;
    assert_eq!(rt; figures[0], -5);
    assert_eq!(rt; figures[1], 8);
    sheet.back(&mut marks, &mut figures, &layers, 0)?;
    assert_eq!(rt; figures[0], 5);
    Ok(())
}

// What is no number of cents is neither entered nor held against.
#[test]
fn numbers(rt: HostRuntime) -> Result<(), Fail> {
    let mut marks = [0u8; 2];
    let mut figures = [0i64; 2];
    let mut sheet = open(&mut marks, &mut figures)?;
    refused_at(
        &rt,
        sheet.enter(&mut marks, &mut figures, 0, LIMIT + 1),
        4,
        0,
    )?;
    refused_at(
        &rt,
        sheet.enter(&mut marks, &mut figures, 1, i64::MIN),
        4,
        1,
    )?;
    sheet.enter(&mut marks, &mut figures, 0, -LIMIT)?;
    sheet.on(&mut marks, &mut figures, &Reversal, 0)?;
    assert_eq!(rt; figures[0], LIMIT);
    let settled = passed(sheet.close(&marks, &figures))?;
    refused(&rt, settled.exceeds(&marks, &figures, LIMIT + 1), 12)?;
    assert_eq!(rt; settled.exceeds(&marks, &figures, LIMIT)?, false);
    assert_eq!(rt; settled.exceeds(&marks, &figures, LIMIT - 1)?, true);
    Ok(())
}

// 4,096 rows of the greatest number: the total is exact, and larger than any limit.
#[test]
fn full_sheet(rt: HostRuntime) -> Result<(), Fail> {
    let mut marks = [0u8; 4096];
    let mut figures = [0i64; 4096];
    let mut sheet = open(&mut marks, &mut figures)?;
    enter_all(&mut sheet, &mut marks, &mut figures)?;
    sheet.on_all(&mut marks, &mut figures, &Reversal)?;
    let settled = passed(sheet.close(&marks, &figures))?;
    assert_eq!(rt; settled.total(&marks, &figures)?, 4_096_000_000_000_000_000);
    assert_eq!(rt; settled.mean(&marks, &figures)?, LIMIT);
    assert_eq!(rt; settled.exceeds(&marks, &figures, LIMIT)?, true);
    Ok(())
}

fn enter_all(sheet: &mut OpenSheet, marks: &mut [u8], figures: &mut [i64]) -> Result<(), Refusal> {
    for row in 0..4096 {
        sheet.enter(marks, figures, row, -LIMIT)?;
    }
    Ok(())
}

// A close is refused at the first plain row, and the sheet goes on; a closed one is reopened.
#[test]
fn closing(rt: HostRuntime) -> Result<(), Fail> {
    let mut marks = [0u8; 4];
    let mut figures = [0i64; 4];
    let mut sheet = open(&mut marks, &mut figures)?;
    sheet.enter(&mut marks, &mut figures, 1, 7)?;
    sheet.enter(&mut marks, &mut figures, 3, 9)?;
    let mut sheet = kept(&rt, sheet.close(&marks, &figures), 8, Some(1))?;
    sheet.on(&mut marks, &mut figures, &Reversal, 1)?;
    let mut sheet = kept(&rt, sheet.close(&marks, &figures), 8, Some(3))?;
    sheet.on(&mut marks, &mut figures, &Reversal, 3)?;
    let sheet = kept(&rt, sheet.close(&marks[0..3], &figures), 1, None)?;
    let settled = passed(sheet.close(&marks, &figures))?;
    refused(&rt, settled.total(&marks, &figures[0..2]), 1)?;
    refused(&rt, settled.mean(&marks[0..2], &figures), 1)?;
    refused(&rt, settled.exceeds(&marks[0..2], &figures[0..2], 0), 1)?;
    refused(&rt, settled.read(&marks[0..2], &figures, 0), 1)?;
    refused_at(&rt, settled.read(&marks, &figures, 4), 2, 4)?;
    let settled = kept(&rt, settled.reopen(&marks, &figures[0..1]), 1, None)?;
    assert_eq!(rt; settled.total(&marks, &figures)?, -16);
    let mut sheet = passed(settled.reopen(&marks, &figures))?;
    sheet.clear(&mut marks, &mut figures, 3)?;
    let settled = passed(sheet.close(&marks, &figures))?;
    assert_eq!(rt; settled.total(&marks, &figures)?, -7);
    Ok(())
}
