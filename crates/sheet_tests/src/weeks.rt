//! Lists of calls on a new sheet.
use conversion::reversal::Reversal;
use ledger::call::{Call, Listed};
use ledger::mark::Mark;
use refusals::Numbered;
use sheet::refusal::Refusal;
use std::test::Fail;
use week::answer::Answer;
use week::carry::Stop;
use week::head::Sheet;
use week::mirror::mirrored;
use week::run::carry_out;

fn own(call: Call<i64>) -> Listed<i64> {
    Listed::own(3, call)
}

const WEEK: [Call<i64>; 12] = [
    Call::Enter(0, 5),
    Call::Enter(0, 6),
    Call::Total,
    Call::Enter(2, -8),
    Call::Close,
    Call::OnAll,
    Call::Close,
    Call::Enter(1, 1),
    Call::Total,
    Call::Mean,
    Call::Exceeds(3),
    Call::Read(2),
];

// A week of cents, with calls that are refused and calls that the sheet has not.
#[test]
fn listed(rt: HostRuntime) -> Result<(), Fail> {
    let heap = rt.alloc();
    let calls: Vec<Listed<i64>> = WEEK.iter().map(|call| own(*call)).collect(heap)?;
    let mut marks = [7u8; 3];
    let mut figures = [7i64; 3];
    let week = carry_out(heap, &Reversal, &calls, &mut marks, &mut figures)?;
    let held = Refusal::Held(0);
    let plain = Refusal::StillPlain(0);
    assert_eq!(rt; held.number(), 3);
    assert_eq!(rt; plain.number(), 8);
    assert_eq!(rt; held.row(), Some(0));
    assert_eq!(rt; plain.row(), Some(0));
    let answers = [
        Answer::Done,
        Answer::Refused(held),
        Answer::LeftOut,
        Answer::Done,
        Answer::Refused(plain),
        Answer::Done,
        Answer::Done,
        Answer::LeftOut,
        Answer::Amount(3),
        Answer::Amount(1),
        Answer::Verdict(false),
        Answer::Row(Mark::Turned, 8),
    ];
    assert_eq!(rt; week.answers.as_slice(), answers.as_slice());
    assert_eq!(rt; marks[1], 0);
    assert_eq!(rt; figures[1], 0);
    assert_eq!(rt; figures[0], -5);
    Ok(())
}

// A call that brings other memory is refused with 1, whatever the call, and changes nothing.
#[test]
fn other_memory(rt: HostRuntime) -> Result<(), Fail> {
    let calls = [
        own(Call::Enter(0, 5)),
        Listed {
            marks: 4,
            figures: 3,
            call: Call::Clear(0),
        },
        Listed {
            marks: 0,
            figures: 0,
            call: Call::OnAll,
        },
        Listed {
            marks: 5000,
            figures: 5000,
            call: Call::Total,
        },
        own(Call::Read(0)),
    ];
    let mut marks = [0u8; 3];
    let mut figures = [0i64; 3];
    let week = carry_out(rt.alloc(), &Reversal, &calls, &mut marks, &mut figures)?;
    assert_eq!(rt; Refusal::Memory.number(), 1);
    assert_eq!(rt; Refusal::Memory.row(), None);
    let answers = [
        Answer::Done,
        Answer::Refused(Refusal::Memory),
        Answer::Refused(Refusal::Memory),
        Answer::LeftOut,
        Answer::Row(Mark::Plain, 5),
    ];
    assert_eq!(rt; week.answers.as_slice(), answers.as_slice());
    assert_eq!(rt; marks[0], 1);
    match week.sheet {
        Sheet::Open(_) => Ok(()),
        Sheet::Closed(_) => Err(Fail::new("closed")),
    }
}

// Slices that make no sheet are as found.
#[test]
fn no_sheet(rt: HostRuntime) -> Result<(), Fail> {
    let mut marks = [7u8; 3];
    let mut figures = [7i64; 2];
    let calls = [own(Call::OnAll)];
    let stop = carry_out(rt.alloc(), &Reversal, &calls, &mut marks, &mut figures).err();
    assert_eq!(rt; stop, Some(Stop::Refused(Refusal::Memory)));
    assert_eq!(rt; marks[2], 7);
    assert_eq!(rt; figures[1], 7);
    Ok(())
}

// The mirrored list enters the sign-turned figures, and keeps the limit.
#[test]
fn mirror(rt: HostRuntime) -> Result<(), Fail> {
    let heap = rt.alloc();
    let calls = [
        own(Call::Enter(0, 5)),
        own(Call::OnAll),
        own(Call::Exceeds(4)),
    ];
    let mirror = mirrored(heap, &Reversal, &calls)?;
    let turned = [
        own(Call::Enter(0, -5)),
        own(Call::OnAll),
        own(Call::Exceeds(4)),
    ];
    assert_eq!(rt; mirror.as_slice(), turned.as_slice());
    Ok(())
}
