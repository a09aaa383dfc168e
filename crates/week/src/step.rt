ghost use Rattle.std.specs.Prelude.{◌≡◌, MatchResult};
ghost use Rattle.conversion.specs.Conversions.{Rule};
ghost use Rattle.week.specs.declared.head.Sheet.TheVariants as Head;
ghost use Rattle.week.specs.Weeks.{Stepped};

use crate::answer::Answer;
use crate::head::Sheet;
use conversion::conversion::Conversion;
use kinds::kind::Kind;
use ledger::call::Call;
use sheet::heads::{ClosedSheet, OpenSheet};
use sheet::refusal::Refusal;

// One call on a sheet, with the slices that it brings. A call that the sheet has not, open or closed
// as it is, is left out.
pub fn step<C: Conversion>(
    sheet: Sheet,
    c: &C,
    call: &Call<C::Figure>,
    marks: &mut [u8],
    figures: &mut [C::Figure],
) -> (Sheet, Answer<C::Figure>)
    ensures { Stepped C.Figure.Kind.means (C.Conversion.rule c.now) sheet marks.old figures.old call.now result.0 marks.new figures.new result.1 }
{
    match sheet {
        Sheet::Open(s) => step_open(s, c, call, marks, figures),
        Sheet::Closed(s) => step_closed(s, call, marks, figures),
    }
}

// The two slices stay apart here and in the carrier, as the sheet's calls take them.
fn step_open<C: Conversion>(
    sheet: OpenSheet,
    c: &C,
    call: &Call<C::Figure>,
    marks: &mut [u8],
    figures: &mut [C::Figure],
) -> (Sheet, Answer<C::Figure>)
    ensures { Stepped C.Figure.Kind.means (C.Conversion.rule c.now) (Head.Open sheet) marks.old figures.old call.now result.0 marks.new figures.new result.1 }
{
    let mut s = sheet;
    let answer = match call {
        Call::Enter(i, x) => Answer::of(s.enter(marks, figures, *i, *x), |_| Answer::Done),
        Call::On(i) => Answer::of(s.on(marks, figures, c, *i), |_| Answer::Done),
        Call::OnAll => Answer::of(s.on_all(marks, figures, c), |_| Answer::Done),
        Call::Back(i) => Answer::of(s.back(marks, figures, c, *i), |_| Answer::Done),
        Call::Clear(i) => Answer::of(s.clear(marks, figures, *i), |_| Answer::Done),
        Call::Read(i) => Answer::of(s.read(marks, figures, *i), |(mark, x)| Answer::Row(mark, x)),
        Call::Close => return passed(s.close(marks, figures), Sheet::Closed, Sheet::Open),
        Call::Reopen | Call::Total | Call::Mean | Call::Exceeds(_) => Answer::LeftOut,
    };
    (Sheet::Open(s), answer)
}

// What a close or a reopen gives: the other head, or the head back with the refusal.
fn passed<A, B, K, F: FnOnce(A) -> Sheet, G: FnOnce(B) -> Sheet>(
    r: Result<A, (B, Refusal)>,
    given: F,
    kept: G,
) -> (Sheet, Answer<K>)
    requires given { F.IsAlwaysCallable given }
    requires kept { G.IsAlwaysCallable kept }
    ensures { MatchResult r (λ head. F.post given head result.0 × (result.1 ≡ Answer.Done)) (λ p. G.post kept p.0 result.0 × (result.1 ≡ Answer.Refused p.1)) }
{
    r.map_or_else(
        |(head, refusal)| (kept(head), Answer::Refused(refusal)),
        |head| (given(head), Answer::Done),
    )
}

fn step_closed<K: Kind>(
    sheet: ClosedSheet,
    call: &Call<K>,
    marks: &[u8],
    figures: &[K],
) -> (Sheet, Answer<K>)
    ensures { (c : Rule K) → Stepped K.Kind.means c (Head.Closed sheet) marks.now figures.now call.now result.0 marks.now figures.now result.1 }
{
    let answer = match call {
        Call::Read(i) => Answer::of(
            sheet.read(marks, figures, *i),
            |(mark, x)| Answer::Row(mark, x),
        ),
        Call::Total => Answer::of(sheet.total(marks, figures), Answer::Amount),
        Call::Mean => Answer::of(sheet.mean(marks, figures), Answer::Amount),
        Call::Exceeds(limit) => Answer::of(
            sheet.exceeds(marks, figures, *limit),
            |b| Answer::Verdict(b),
        ),
        Call::Reopen => return passed(sheet.reopen(marks, figures), Sheet::Open, Sheet::Closed),
        Call::Enter(_, _)
        | Call::On(_)
        | Call::OnAll
        | Call::Back(_)
        | Call::Clear(_)
        | Call::Close => Answer::LeftOut,
    };
    (Sheet::Closed(sheet), answer)
}
