//! Sheets of f64.
use crate::same::{kept, passed, refused, refused_at, same};
use function_conversions::pair::By;
use function_conversions::sinh::Sinh;
use function_conversions::tanh::Tanh;
use scale::Scale;
use sheet::open::open;
use std::process::Abort;
use std::test::Fail;

// 0, 800 and -800 through tanh: total and mean are +0, also sign-turned.
#[test]
fn tanh_week(rt: HostRuntime) -> Result<(), Fail> {
    tanh_of(&rt, [0.0, 800.0, -800.0])?;
    tanh_of(&rt, [-0.0, -800.0, 800.0])
}

fn tanh_of(rt: &impl Abort, entered: [f64; 3]) -> Result<(), Fail> {
    let tanh = By { pair: Tanh };
    let mut marks = [0u8; 3];
    let mut figures = [0.0f64; 3];
    let mut sheet = open(&mut marks, &mut figures)?;
    sheet.enter(&mut marks, &mut figures, 0, entered[0])?;
    sheet.enter(&mut marks, &mut figures, 1, entered[1])?;
    sheet.enter(&mut marks, &mut figures, 2, entered[2])?;
    sheet.on_all(&mut marks, &mut figures, &tanh)?;
    let settled = passed(sheet.close(&marks, &figures))?;
    same(rt, settled.total(&marks, &figures)?, 0.0);
    same(rt, settled.mean(&marks, &figures)?, 0.0);
    Ok(())
}

// sinh of 800 is infinite: the row is held, and only the totals refuse it.
#[test]
fn infinite_score(rt: HostRuntime) -> Result<(), Fail> {
    let sinh = By { pair: Sinh };
    let mut marks = [0u8; 2];
    let mut figures = [0.0f64; 2];
    let mut sheet = open(&mut marks, &mut figures)?;
    sheet.enter(&mut marks, &mut figures, 0, 800.0)?;
    let mut sheet = kept(&rt, sheet.close(&marks, &figures), 8, Some(0))?;
    sheet.on_all(&mut marks, &mut figures, &sinh)?;
    same(&rt, figures[0], f64::INFINITY);
    let settled = passed(sheet.close(&marks, &figures))?;
    refused_at(&rt, settled.total(&marks, &figures), 9, 0)?;
    refused_at(&rt, settled.mean(&marks, &figures), 9, 0)?;
    refused_at(&rt, settled.exceeds(&marks, &figures, 1.0), 9, 0)?;
    refused(&rt, settled.exceeds(&marks, &figures, f64::NAN), 12)
}

// An empty sheet closes with total +0, and has no mean.
#[test]
fn empty(rt: HostRuntime) -> Result<(), Fail> {
    let mut marks = [0u8; 1];
    let mut figures = [0.0f64; 1];
    let sheet = open(&mut marks, &mut figures)?;
    let settled = passed(sheet.close(&marks, &figures))?;
    same(&rt, settled.total(&marks, &figures)?, 0.0);
    refused(&rt, settled.mean(&marks, &figures), 11)?;
    assert_eq!(rt; settled.exceeds(&marks, &figures, -0.0)?, false);
    assert_eq!(rt; settled.exceeds(&marks, &figures, -0.5)?, true);
    Ok(())
}

// A sum that becomes infinite is refused at that row, and a row that is infinite before that.
#[test]
fn infinite_sum(rt: HostRuntime) -> Result<(), Fail> {
    let one = Scale::new(0)?;
    let mut marks = [0u8; 3];
    let mut figures = [0.0f64; 3];
    let mut sheet = open(&mut marks, &mut figures)?;
    sheet.enter(&mut marks, &mut figures, 0, f64::MAX)?;
    sheet.enter(&mut marks, &mut figures, 1, f64::MAX)?;
    sheet.enter(&mut marks, &mut figures, 2, f64::INFINITY)?;
    sheet.on_all(&mut marks, &mut figures, &one)?;
    let settled = passed(sheet.close(&marks, &figures))?;
    refused_at(&rt, settled.total(&marks, &figures), 10, 1)?;
    refused_at(&rt, settled.mean(&marks, &figures), 10, 1)?;
    refused_at(&rt, settled.exceeds(&marks, &figures, 0.0), 10, 1)
}

// Added in row order: (2^53 + 1) + 1 rounds to 2^53 twice, and 1 + 1 before it does not.
#[test]
fn row_order(rt: HostRuntime) -> Result<(), Fail> {
    same(
        &rt,
        total_of([9007199254740992.0, 1.0, 1.0])?,
        9007199254740992.0,
    );
    same(
        &rt,
        total_of([1.0, 1.0, 9007199254740992.0])?,
        9007199254740994.0,
    );
    Ok(())
}

fn total_of(entered: [f64; 3]) -> Result<f64, Fail> {
    let one = Scale::new(0)?;
    let mut marks = [0u8; 3];
    let mut figures = [0.0f64; 3];
    let mut sheet = open(&mut marks, &mut figures)?;
    sheet.enter(&mut marks, &mut figures, 0, entered[0])?;
    sheet.enter(&mut marks, &mut figures, 1, entered[1])?;
    sheet.enter(&mut marks, &mut figures, 2, entered[2])?;
    sheet.on_all(&mut marks, &mut figures, &one)?;
    let settled = passed(sheet.close(&marks, &figures))?;
    Ok(settled.total(&marks, &figures)?)
}
