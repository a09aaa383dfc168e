//! Memory that was altered outside the calls: 4 from on and on_all, 7 from back, 9 for what is no number.
use crate::same::{passed, refused_at, same};
use conversion::chain::Chain;
use conversion::conversion::Conversion;
use conversion::flip::Flip;
use conversion::reversal::Reversal;
use function_conversions::pair::By;
use function_conversions::sinh::Sinh;
use function_conversions::tanh::Tanh;
use scale::Scale;
use sheet::open::open;
use std::test::Fail;

// A plain row that has no number is refused with 4, a turned row outside the back range with 7.
#[test]
fn by_a_function(rt: HostRuntime) -> Result<(), Fail> {
    let tanh = By { pair: Tanh };
    let mut marks = [0u8; 2];
    let mut figures = [0.0f64; 2];
    let mut sheet = open(&mut marks, &mut figures)?;
    marks[1] = 1;
    figures[1] = f64::NAN;
    refused_at(&rt, sheet.on(&mut marks, &mut figures, &tanh, 1), 4, 1)?;
    assert_eq!(rt; marks[1], 1);
    marks[1] = 2;
    figures[1] = 1.5;
    refused_at(&rt, sheet.back(&mut marks, &mut figures, &tanh, 1), 7, 1)?;
    assert_eq!(rt; marks[1], 2);
    same(&rt, figures[1], 1.5);
    Ok(())
}

// A flip and a chain say 4 and 7 too, whatever the function inside would have said.
#[test]
fn through_layers(rt: HostRuntime) -> Result<(), Fail> {
    let asinh = Flip {
        inner: By { pair: Sinh },
    };
    let scaled = Chain {
        first: Scale::new(3)?,
        second: By { pair: Tanh },
    };
    let mut marks = [0u8; 2];
    let mut figures = [0.0f64; 2];
    let mut sheet = open(&mut marks, &mut figures)?;
    marks[0] = 1;
    figures[0] = f64::NAN;
    refused_at(&rt, sheet.on(&mut marks, &mut figures, &asinh, 0), 4, 0)?;
    refused_at(&rt, sheet.on(&mut marks, &mut figures, &scaled, 0), 4, 0)?;
    marks[0] = 2;
    refused_at(&rt, sheet.back(&mut marks, &mut figures, &asinh, 0), 7, 0)?;
    figures[0] = -2.0;
    refused_at(&rt, sheet.back(&mut marks, &mut figures, &scaled, 0), 7, 0)?;
    sheet.back(&mut marks, &mut figures, &asinh, 0)?;
    assert_eq!(rt; marks[0], 1);
    Ok(())
}

// An on_all that is refused writes nothing, and names the first plain row that is refused.
#[test]
fn all_or_none(rt: HostRuntime) -> Result<(), Fail> {
    let tanh = By { pair: Tanh };
    let mut marks = [0u8; 4];
    let mut figures = [0.0f64; 4];
    let mut sheet = open(&mut marks, &mut figures)?;
    sheet.enter(&mut marks, &mut figures, 0, 800.0)?;
    marks[1] = 2;
    figures[1] = f64::NAN;
    marks[2] = 1;
    figures[2] = f64::NAN;
    marks[3] = 1;
    figures[3] = f64::NAN;
    refused_at(&rt, sheet.on_all(&mut marks, &mut figures, &tanh), 4, 2)?;
    assert_eq!(rt; marks[0], 1);
    same(&rt, figures[0], 800.0);
    marks[2] = 0;
    marks[3] = 0;
    sheet.on_all(&mut marks, &mut figures, &tanh)?;
    assert_eq!(rt; marks[0], 2);
    same(&rt, figures[0], 1.0);
    assert_eq!(rt; figures[1].is_nan(), true);
    Ok(())
}

// Totals refuse what is no number with 9, before any sum.
#[test]
fn no_number_in_totals(rt: HostRuntime) -> Result<(), Fail> {
    let mut marks = [0u8; 2];
    let mut figures = [0i64; 2];
    let sheet = open(&mut marks, &mut figures)?;
    let settled = passed(sheet.close(&marks, &figures))?;
    marks[1] = 2;
    figures[1] = i64::MAX;
    refused_at(&rt, settled.total(&marks, &figures), 9, 1)?;
    refused_at(&rt, settled.mean(&marks, &figures), 9, 1)?;
    refused_at(&rt, settled.exceeds(&marks, &figures, 0), 9, 1)
}

// Cents that lie beyond the greatest number are refused by the reversal.
#[test]
fn cents(rt: HostRuntime) -> Result<(), Fail> {
    let mut marks = [0u8; 1];
    let mut figures = [0i64; 1];
    let mut sheet = open(&mut marks, &mut figures)?;
    marks[0] = 1;
    figures[0] = i64::MIN;
    refused_at(&rt, sheet.on(&mut marks, &mut figures, &Reversal, 0), 4, 0)?;
    refused_at(&rt, sheet.on_all(&mut marks, &mut figures, &Reversal), 4, 0)?;
    marks[0] = 2;
    refused_at(
        &rt,
        sheet.back(&mut marks, &mut figures, &Reversal, 0),
        7,
        0,
    )?;
    assert_eq!(rt; figures[0], i64::MIN);
    Ok(())
}
