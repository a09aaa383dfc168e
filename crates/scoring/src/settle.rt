ghost use Rattle.scoring.specs.Weeks.{SettledBy};

use crate::calls::week_calls;
use crate::judge::judge;
use crate::judgement::Judgement;
use conversion::conversion::Conversion;
use std::alloc::Global;
use week::carry::Stop;
use week::run::carry_out;

// The score of a week: the calls of what stores sent, carried out on a new sheet in the two slices, and
// what their answers come to. Then the slices hold the scores, by row.
pub fn settle<C: Conversion>(
    heap: Global,
    c: &C,
    sent: &[Option<C::Figure>],
    limit: C::Figure,
    marks: &mut [u8],
    figures: &mut [C::Figure],
) -> Result<Judgement<C::Figure>, Stop>
    ensures { SettledBy C.Figure.Kind.means (C.Conversion.rule c.now) sent.now limit marks.old figures.old result marks.new figures.new }
{
    let calls = week_calls(heap, sent, limit)?;
    let week = carry_out(heap, c, &calls, marks, figures)?;
    Ok(judge(&week.answers))
}
