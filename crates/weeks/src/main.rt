//! Some weeks on new sheets, each call with what it is answered. Floats are printed as the digits of their bits.
#![tactic(auto)]

mod show;

use anyhow::anyhow;
use conversion::chain::Chain;
use conversion::conversion::{Conversion, Odd};
use conversion::flip::Flip;
use conversion::reversal::Reversal;
use function_conversions::expm1f::Expm1f;
use function_conversions::pair::By;
use function_conversions::sinh::Sinh;
use function_conversions::tanh::Tanh;
use kinds::kind::Kind;
use ledger::call::{Call, Listed};
use show::{Show, Shown};
use week::mirror::mirrored;
use week::run::carry_out;

fn main(rt: HostRuntime) -> anyhow::Result<()> {
    all(&rt)
}

fn all(rt: &HostRuntime) -> anyhow::Result<()> {
    tanh_week(rt)?;
    infinite_week(rt)?;
    empty_week(rt)?;
    cents_week(rt)?;
    layers_week(rt)?;
    single_week(rt)?;
    refused_week(rt)
}

// The calls that bring the sheet's own slices.
fn own<K: Kind>(
    rt: &HostRuntime,
    rows: usize,
    calls: &[Call<K>],
) -> anyhow::Result<Vec<Listed<K>>> {
    let listed = calls.iter().map(|call| Listed::own(rows, *call));
    Ok(listed.collect(rt.alloc())?)
}

// A week on a new sheet, printed.
fn print_week<K: Kind + Show, C: Conversion<Figure = K>>(
    rt: &HostRuntime,
    title: &str,
    c: &C,
    rows: usize,
    calls: &[Listed<K>],
) -> anyhow::Result<()> {
    let heap = rt.alloc();
    let mut marks = vec![in heap; 0u8; rows]?;
    let mut figures = vec![in heap; K::zero(); rows]?;
    println!(rt; "{title}")?;
    let week = carry_out(heap, c, calls, &mut marks, &mut figures).map_err(|_| anyhow!(
        "no sheet could be opened"
    ))?;
    for (listed, answer) in calls.iter().zip(week.answers.iter()) {
        let call = Shown(&listed.call);
        let said = Shown(answer);
        println!(rt; "  {call}: {said}")?;
    }
    println!(rt; "")?;
    Ok(())
}

// A week, and the same list on a second sheet with every entered figure sign-turned.
fn print_both<K: Kind + Show, C: Odd + Conversion<Figure = K>>(
    rt: &HostRuntime,
    title: &str,
    c: &C,
    rows: usize,
    calls: &[Call<K>],
) -> anyhow::Result<()> {
    let listed = own(rt, rows, calls)?;
    print_week(rt, title, c, rows, &listed)?;
    let mirror = mirrored(rt.alloc(), c, &listed)?;
    print_week(rt, "the same, sign-turned", c, rows, &mirror)
}

fn tanh_week(rt: &HostRuntime) -> anyhow::Result<()> {
    let calls = [
        Call::Enter(0, 0.0),
        Call::Enter(1, 800.0),
        Call::Enter(2, -800.0),
        Call::OnAll,
        Call::Close,
        Call::Total,
        Call::Mean,
        Call::Exceeds(0.0),
        Call::Read(1),
    ];
    let c = By { pair: Tanh };
    print_both(rt, "tanh of 0, 800 and -800", &c, 3, &calls)
}

fn infinite_week(rt: &HostRuntime) -> anyhow::Result<()> {
    let calls = [
        Call::Enter(0, 800.0),
        Call::On(0),
        Call::Close,
        Call::Total,
        Call::Mean,
        Call::Exceeds(1.0),
    ];
    let c = By { pair: Sinh };
    print_both(rt, "sinh of 800 is infinite", &c, 1, &calls)
}

fn empty_week(rt: &HostRuntime) -> anyhow::Result<()> {
    let calls = [
        Call::OnAll,
        Call::Close,
        Call::Total,
        Call::Mean,
        Call::Exceeds(0.0),
    ];
    let listed = own(rt, 2, &calls)?;
    print_week(rt, "an empty sheet", &By { pair: Tanh }, 2, &listed)
}

fn cents_week(rt: &HostRuntime) -> anyhow::Result<()> {
    let calls = [
        Call::Enter(0, 5i64),
        Call::Enter(2, -8),
        Call::OnAll,
        Call::Close,
        Call::Total,
        Call::Mean,
        Call::Exceeds(2),
        Call::Exceeds(3),
    ];
    print_both(rt, "cents 5 and -8, reversed", &Reversal, 3, &calls)
}

fn layers_week(rt: &HostRuntime) -> anyhow::Result<()> {
    let calls = [
        Call::Enter(0, 5i64),
        Call::Enter(1, -8),
        Call::On(1),
        Call::Back(1),
        Call::OnAll,
        Call::Close,
        Call::Total,
    ];
    let c = Chain {
        first: Flip { inner: Reversal },
        second: Chain {
            first: Reversal,
            second: Reversal,
        },
    };
    print_both(rt, "cents through a flip and two chains", &c, 2, &calls)
}

fn single_week(rt: &HostRuntime) -> anyhow::Result<()> {
    let calls = [
        Call::Enter(0, -20.0f32),
        Call::Enter(1, 0.0),
        Call::OnAll,
        Call::Close,
        Call::Total,
        Call::Mean,
        Call::Reopen,
        Call::Enter(2, 100.0),
        Call::On(2),
        Call::Close,
        Call::Total,
    ];
    let listed = own(rt, 3, &calls)?;
    print_week(
        rt,
        "expm1f of -20, 0 and 100",
        &By { pair: Expm1f },
        3,
        &listed,
    )
}

// Refusals, calls that the sheet has not, and calls that bring other memory.
fn refused_week(rt: &HostRuntime) -> anyhow::Result<()> {
    let calls = [
        Call::Enter(2, 1i64),
        Call::Enter(0, 1_000_000_000_000_001),
        Call::Enter(0, 1),
        Call::Enter(0, 2),
        Call::On(1),
        Call::Back(0),
        Call::Close,
        Call::Total,
        Call::OnAll,
        Call::On(0),
        Call::Clear(1),
        Call::Close,
        Call::Enter(1, 2),
        Call::Exceeds(-1_000_000_000_000_001),
        Call::Read(2),
        Call::Reopen,
        Call::Clear(0),
        Call::Close,
        Call::Mean,
    ];
    let mut listed = own(rt, 2, &calls)?;
    listed.push(Listed {
        marks: 3,
        figures: 2,
        call: Call::Total,
    })?;
    print_week(rt, "calls that are refused", &Reversal, 2, &listed)
}
