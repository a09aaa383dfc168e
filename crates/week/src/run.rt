ghost use Rattle.std.specs.Prelude.{◌≡◌, ◌≤◌, [], map, length, replicate, IfOk, vec_capacity};
ghost use Rattle.ledger.specs.Ledgers.{own, run, replies};
ghost use Rattle.std.specs.List.{AllByRecursion};
ghost use Rattle.week.specs.Weeks.{size, seen, replied, sheet_step, SteppedListed, FitsIn};
ghost use Rattle.week.specs.Law.{CarriedOut};

use crate::answer::Answer;
use crate::carry::{Stop, Week};
use crate::head::Sheet;
use crate::step::step;
use conversion::conversion::Conversion;
use kinds::kind::Kind;
use ledger::call::Listed;
use sheet::open::open;
use std::alloc::{AllocError, Global};

// The slices of which a call that brings other memory gets the front. They hold zeros only, since no
// call changes them.
#[derive(Drop)]
struct Other<'m, 'f, K: Kind> {
    marks: &'m mut [u8],
    figures: &'f mut [K],
    ghost zero_marks: { marks.now ≡ replicate (length marks.now) 0 },
    ghost zero_figures: { figures.now ≡ replicate (length figures.now) K.means.nought },
}

fn brings_own<K>(listed: &Listed<K>, rows: usize) -> bool
    ensures { result ≡ own rows listed.now.marks listed.now.figures }
{
    listed.marks == rows && listed.figures == rows
}

// A call of a list, with the sheet's own slices or with the front of the other ones.
fn step_listed<C: Conversion>(
    sheet: Sheet,
    c: &C,
    listed: &Listed<C::Figure>,
    marks: &mut [u8],
    figures: &mut [C::Figure],
    other: &mut Other<C::Figure>,
) -> (Sheet, Answer<C::Figure>)
    requires rows { length marks.old ≡ size sheet }
    requires fits { FitsIn (length other.old.marks.now) (length other.old.figures.now) listed.now }
    ensures step { SteppedListed C.Figure.Kind.means (C.Conversion.rule c.now) sheet marks.old figures.old listed.now result.0 marks.new figures.new result.1 }
    ensures other_marks { length other.new.marks.now ≡ length other.old.marks.now }
    ensures other_figures { length other.new.figures.now ≡ length other.old.figures.now }
{
    if brings_own(listed, marks.len()) {
        return step(sheet, c, &listed.call, marks, figures);
    }
    let other_marks = &mut *other.marks;
    let other_figures = &mut *other.figures;
    step(
        sheet,
        c,
        &listed.call,
        &mut other_marks[0..listed.marks],
        &mut other_figures[0..listed.figures],
    )
}

// The longest memory that a call of the list brings.
fn longest<K>(calls: &[Listed<K>]) -> (usize, usize)
    ensures { AllByRecursion (FitsIn result.0 result.1) calls.now }
{
    calls.iter().fold((0, 0), |(marks, figures), listed| {
        (listed.marks.max(marks), listed.figures.max(figures))
    })
}

// As many copies of `x`.
// Stays a function: `vec![in heap; x; n]` makes clones, which no bound of a kind says to equal `x`.
fn copies<T: Copy>(heap: Global, n: usize, x: T) -> Result<Vec<T>, AllocError>
    ensures { IfOk result (λ v. v.items ≡ replicate n x) }
{
    let mut v = Vec::new(heap);
    v.resize(n, x)?;
    Ok(v)
}

// All calls of the list, one after another; there is room for their answers.
fn run_list<C: Conversion>(
    sheet: Sheet,
    c: &C,
    calls: &[Listed<C::Figure>],
    marks: &mut [u8],
    figures: &mut [C::Figure],
    other: &mut Other<C::Figure>,
    answers: &mut Vec<Answer<C::Figure>>,
) -> Sheet
    requires rows { length marks.old ≡ size sheet }
    requires fits { AllByRecursion (FitsIn (length other.old.marks.now) (length other.old.figures.now)) calls.now }
    requires empty { answers.old.items ≡ [] }
    requires room { length calls.now ≤ vec_capacity answers.old }
    ensures after { seen result marks.new figures.new ≡ run (sheet_step C.Figure.Kind.means (C.Conversion.rule c.now) (size sheet)) (seen sheet marks.old figures.old) calls.now }
    ensures answers { map replied answers.new.items ≡ replies (sheet_step C.Figure.Kind.means (C.Conversion.rule c.now) (size sheet)) (seen sheet marks.old figures.old) calls.now }
{
    let mut sheet = sheet;
    for listed in calls {
        let (next, answer) = step_listed(sheet, c, listed, marks, figures, other);
        sheet = next;
        let _ = answers.push(answer);
    }
    sheet
}

// Carries out a list of calls on a new sheet in the two slices, and gives the answer of each. What
// every list keeps is the law of a week, which is the last part of the contract. Where it gives a
// `Stop`, nothing was begun, and the slices are as found.
pub fn carry_out<C: Conversion>(
    heap: Global,
    c: &C,
    calls: &[Listed<C::Figure>],
    marks: &mut [u8],
    figures: &mut [C::Figure],
) -> Result<Week<C::Figure>, Stop>
    ensures { CarriedOut C.Figure.Kind.means (C.Conversion.rule c.now) calls.now marks.old figures.old result marks.new figures.new }
{
    let (longest_marks, longest_figures) = longest(calls);
    let mut other_marks = copies(heap, longest_marks, 0u8)?;
    let mut other_figures = copies(heap, longest_figures, C::Figure::zero())?;
    let mut answers = Vec::with_capacity(heap, calls.len())?;
    let opened = open(marks, figures)?;
    let mut other = Other {
        marks: other_marks.as_mut_slice(),
        figures: other_figures.as_mut_slice(),
    };
    let sheet = run_list(
        Sheet::Open(opened),
        c,
        calls,
        marks,
        figures,
        &mut other,
        &mut answers,
    );
    Ok(Week { sheet, answers })
}
