//! Sheets of f32.
use crate::same::{kept, passed, refused, refused_at};
use conversion::conversion::Conversion;
use function_conversions::expm1f::Expm1f;
use function_conversions::pair::By;
use sheet::open::open;
use std::test::Fail;

// expm1f of -20 is -1, of 0 is 0, and of 100 infinite.
#[test]
fn singles(rt: HostRuntime) -> Result<(), Fail> {
    let expm1f = By { pair: Expm1f };
    let mut marks = [0u8; 4];
    let mut figures = [0.0f32; 4];
    let mut sheet = open(&mut marks, &mut figures)?;
    refused_at(
        &rt,
        sheet.enter(&mut marks, &mut figures, 3, f32::NAN),
        4,
        3,
    )?;
    sheet.enter(&mut marks, &mut figures, 0, -20.0)?;
    sheet.enter(&mut marks, &mut figures, 1, 0.0)?;
    sheet.on_all(&mut marks, &mut figures, &expm1f)?;
    sheet.enter(&mut marks, &mut figures, 3, 100.0)?;
    sheet.on(&mut marks, &mut figures, &expm1f, 3)?;
    let settled = passed(sheet.close(&marks, &figures))?;
    refused_at(&rt, settled.total(&marks, &figures), 9, 3)?;
    marks[3] = 0;
    assert_eq!(rt; settled.total(&marks, &figures)?, -1.0f32);
    assert_eq!(rt; settled.mean(&marks, &figures)?, -0.5f32);
    assert_eq!(rt; settled.exceeds(&marks, &figures, -1.0)?, false);
    assert_eq!(rt; settled.exceeds(&marks, &figures, -1.5)?, true);
    Ok(())
}

// Every refusal that f32 can meet by the calls alone; the sum of two numbers beyond half the greatest is infinite.
#[test]
fn by_the_calls(rt: HostRuntime) -> Result<(), Fail> {
    let expm1f = By { pair: Expm1f };
    let mut marks = [0u8; 2];
    let mut figures = [0.0f32; 2];
    let mut sheet = open(&mut marks, &mut figures)?;
    refused(&rt, sheet.enter(&mut marks[0..1], &mut figures, 0, 1.0), 1)?;
    refused_at(&rt, sheet.enter(&mut marks, &mut figures, 2, 1.0), 2, 2)?;
    refused_at(
        &rt,
        sheet.enter(&mut marks, &mut figures, 1, f32::NAN),
        4,
        1,
    )?;
    refused_at(&rt, sheet.on(&mut marks, &mut figures, &expm1f, 0), 5, 0)?;
    sheet.enter(&mut marks, &mut figures, 0, 88.5)?;
    refused_at(&rt, sheet.enter(&mut marks, &mut figures, 0, 1.0), 3, 0)?;
    refused_at(&rt, sheet.back(&mut marks, &mut figures, &expm1f, 0), 6, 0)?;
    let mut sheet = kept(&rt, sheet.close(&marks, &figures), 8, Some(0))?;
    sheet.clear(&mut marks, &mut figures, 0)?;
    let settled = passed(sheet.close(&marks, &figures))?;
    refused(&rt, settled.mean(&marks, &figures), 11)?;
    refused(&rt, settled.exceeds(&marks, &figures, f32::NAN), 12)
}

#[test]
fn infinite_sum(rt: HostRuntime) -> Result<(), Fail> {
    let expm1f = By { pair: Expm1f };
    let mut marks = [0u8; 2];
    let mut figures = [0.0f32; 2];
    let mut sheet = open(&mut marks, &mut figures)?;
    sheet.enter(&mut marks, &mut figures, 0, 88.5)?;
    sheet.enter(&mut marks, &mut figures, 1, 88.5)?;
    sheet.on_all(&mut marks, &mut figures, &expm1f)?;
    let settled = passed(sheet.close(&marks, &figures))?;
    refused_at(&rt, settled.total(&marks, &figures), 10, 1)
}

// Memory that was altered outside the calls.
#[test]
fn altered(rt: HostRuntime) -> Result<(), Fail> {
    let expm1f = By { pair: Expm1f };
    let mut marks = [0u8; 1];
    let mut figures = [0.0f32; 1];
    let mut sheet = open(&mut marks, &mut figures)?;
    marks[0] = 1;
    figures[0] = f32::NAN;
    refused_at(&rt, sheet.on(&mut marks, &mut figures, &expm1f, 0), 4, 0)?;
    refused_at(&rt, sheet.on_all(&mut marks, &mut figures, &expm1f), 4, 0)?;
    marks[0] = 2;
    figures[0] = -1.5;
    refused_at(&rt, sheet.back(&mut marks, &mut figures, &expm1f, 0), 7, 0)?;
    figures[0] = f32::NAN;
    let settled = passed(sheet.close(&marks, &figures))?;
    refused_at(&rt, settled.total(&marks, &figures), 9, 0)
}
