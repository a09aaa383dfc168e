//! Rows and memory: what each call takes and leaves, at every kind.
use crate::same::{refused, refused_at, same};
use conversion::conversion::Conversion;
use function_conversions::pair::By;
use function_conversions::tanh::Tanh;
use ledger::mark::Mark;
use sheet::open::open;
use std::test::Fail;

// A sheet has 1 to 4,096 rows in two slices of one length; refused memory is as found.
#[test]
fn lengths(rt: HostRuntime) -> Result<(), Fail> {
    let mut marks = [9u8; 4097];
    let mut figures = [5i64; 4097];
    refused(&rt, open(&mut marks[0..0], &mut figures[0..0]), 1)?;
    refused(&rt, open(&mut marks[0..3], &mut figures[0..2]), 1)?;
    refused(&rt, open(&mut marks, &mut figures), 1)?;
    assert_eq!(rt; marks[0], 9);
    assert_eq!(rt; figures[4096], 5);
    let _ = open(&mut marks[0..1], &mut figures[0..1])?;
    let _ = open(&mut marks[0..4096], &mut figures[0..4096])?;
    assert_eq!(rt; marks[4095], 0);
    assert_eq!(rt; figures[4095], 0);
    assert_eq!(rt; marks[4096], 9);
    Ok(())
}

// Every call refuses memory of another length, also where both slices have one.
#[test]
fn other_memory(rt: HostRuntime) -> Result<(), Fail> {
    let tanh = By { pair: Tanh };
    let mut marks = [0u8; 2];
    let mut figures = [0.0f64; 2];
    let mut sheet = open(&mut marks, &mut figures)?;
    let mut m = [1u8; 3];
    let mut x = [7.0f64; 3];
    refused(&rt, sheet.enter(&mut m, &mut x, 0, 1.0), 1)?;
    refused(&rt, sheet.on(&mut m, &mut x, &tanh, 0), 1)?;
    refused(&rt, sheet.on_all(&mut m, &mut x, &tanh), 1)?;
    refused(&rt, sheet.back(&mut m, &mut x, &tanh, 0), 1)?;
    refused(&rt, sheet.clear(&mut m, &mut x, 0), 1)?;
    refused(&rt, sheet.read(&m, &x, 0), 1)?;
    refused(&rt, sheet.enter(&mut m[0..2], &mut x, 0, 1.0), 1)?;
    refused(&rt, sheet.enter(&mut m, &mut x[0..2], 0, 1.0), 1)?;
    assert_eq!(rt; m[0], 1);
    same(&rt, x[0], 7.0);
    Ok(())
}

// A row number from the length on is no row, and names itself.
#[test]
fn no_such_row(rt: HostRuntime) -> Result<(), Fail> {
    let tanh = By { pair: Tanh };
    let mut marks = [0u8; 2];
    let mut figures = [0.0f64; 2];
    let mut sheet = open(&mut marks, &mut figures)?;
    refused_at(&rt, sheet.enter(&mut marks, &mut figures, 2, 1.0), 2, 2)?;
    refused_at(&rt, sheet.on(&mut marks, &mut figures, &tanh, 2), 2, 2)?;
    refused_at(&rt, sheet.back(&mut marks, &mut figures, &tanh, 3), 2, 3)?;
    refused_at(
        &rt,
        sheet.clear(&mut marks, &mut figures, usize::MAX),
        2,
        usize::MAX,
    )?;
    refused_at(&rt, sheet.read(&marks, &figures, 2), 2, 2)
}

// Held rows take no figure, free rows have none; what is no number is not entered, and infinities are.
#[test]
fn marks(rt: HostRuntime) -> Result<(), Fail> {
    let tanh = By { pair: Tanh };
    let mut marks = [0u8; 3];
    let mut figures = [0.0f64; 3];
    let mut sheet = open(&mut marks, &mut figures)?;
    sheet.enter(&mut marks, &mut figures, 0, f64::INFINITY)?;
    refused_at(
        &rt,
        sheet.enter(&mut marks, &mut figures, 0, f64::NAN),
        3,
        0,
    )?;
    refused_at(
        &rt,
        sheet.enter(&mut marks, &mut figures, 1, f64::NAN),
        4,
        1,
    )?;
    refused_at(&rt, sheet.back(&mut marks, &mut figures, &tanh, 0), 6, 0)?;
    sheet.on(&mut marks, &mut figures, &tanh, 0)?;
    same(&rt, figures[0], 1.0);
    assert_eq!(rt; marks[0], 2);
    refused_at(&rt, sheet.on(&mut marks, &mut figures, &tanh, 0), 6, 0)?;
    refused_at(&rt, sheet.enter(&mut marks, &mut figures, 0, 1.0), 3, 0)?;
    refused_at(&rt, sheet.on(&mut marks, &mut figures, &tanh, 1), 5, 1)?;
    refused_at(&rt, sheet.back(&mut marks, &mut figures, &tanh, 1), 5, 1)?;
    refused_at(&rt, sheet.clear(&mut marks, &mut figures, 1), 5, 1)?;
    sheet.back(&mut marks, &mut figures, &tanh, 0)?;
    same(&rt, figures[0], f64::INFINITY);
    assert_eq!(rt; marks[0], 1);
    sheet.clear(&mut marks, &mut figures, 0)?;
    same(&rt, figures[0], 0.0);
    assert_eq!(rt; marks[0], 0);
    Ok(())
}

// A byte that is no mark is read as free, and the figure as it lies.
#[test]
fn strange_bytes(rt: HostRuntime) -> Result<(), Fail> {
    let mut marks = [0u8; 2];
    let mut figures = [0.0f32; 2];
    let mut sheet = open(&mut marks, &mut figures)?;
    marks[1] = 3;
    figures[1] = 2.5;
    let (mark, x) = sheet.read(&marks, &figures, 1)?;
    assert_eq!(rt; mark, Mark::Free);
    assert_eq!(rt; x, 2.5f32);
    refused_at(&rt, sheet.clear(&mut marks, &mut figures, 1), 5, 1)?;
    sheet.enter(&mut marks, &mut figures, 1, 4.0)?;
    let (mark, x) = sheet.read(&marks, &figures, 1)?;
    assert_eq!(rt; mark, Mark::Plain);
    assert_eq!(rt; x, 4.0f32);
    Ok(())
}

// A mark as a byte and as a word; a byte that is no mark is read as free.
#[test]
fn marks_alone(rt: HostRuntime) -> Result<(), Fail> {
    for (mark, byte, name) in [
        (Mark::Free, 0, "free"),
        (Mark::Plain, 1, "plain"),
        (Mark::Turned, 2, "turned"),
    ] {
        assert_eq!(rt; u8::from(mark), byte);
        assert_eq!(rt; Mark::from(byte), mark);
        assert_eq!(rt; mark.byte(), byte);
        assert_eq!(rt; Mark::of(byte), mark);
        assert_eq!(rt; format!(in rt.alloc(); "{mark}")?.as_str(), name);
    }
    for byte in [3, 48, 255] {
        assert_eq!(rt; Mark::from(byte), Mark::Free);
        assert_eq!(rt; Mark::of(byte), Mark::Free);
    }
    Ok(())
}
