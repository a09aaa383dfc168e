//! The totals of a sheet, over its slices.
ghost use Rattle.std.specs.Prelude.{◌≡◌, count_by};
ghost use Rattle.ledger.specs.Marks.{is_turned, mark_of};
ghost use Rattle.ledger.specs.Rules.{added, total_rule, turned_count, some_turned, mean_rule};
ghost use Rattle.sheet.specs.Refusals.{answered};
ghost use Rattle.sheet.specs.Sheets.{rows_of, counts};

use crate::refusal::Refusal;
use crate::rows::Rows;
use kinds::count::Count;
use kinds::kind::Kind;
use ledger::mark::Mark;

// One row added to the sum of those before it, if it is turned.
fn add_row<K: Kind>(row: usize, byte: u8, x: K, sum: K) -> Result<K, Refusal>
    ensures { answered result ≡ added K.Kind.means row (record { mark = mark_of byte; figure = x }) sum }
{
    if Mark::from(byte) != Mark::Turned {
        return Ok(sum);
    }
    if !x.is_number() || x.is_infinite() {
        return Err(Refusal::NotFinite(row));
    }
    let more = sum.plus(x);
    if more.is_infinite() {
        return Err(Refusal::SumInfinite(row));
    }
    Ok(more)
}

impl<K> Rows<'_, '_, K> {
    // How many rows are turned. A sum of ones: by a `filter` and its `count` a mean of many rows takes up to twice as long.
    fn turned(&self) -> usize
        ensures { result ≡ count_by (λ m. is_turned (mark_of m)) self.now.marks.now }
    {
        self.marks
            .iter()
            .map(|byte| usize::from(Mark::from(*byte) == Mark::Turned))
            .sum()
    }

    // How many rows are turned, as a count: at least one.
    fn some_turned(&self) -> Result<Count, Refusal>
        ensures { counts result ≡ some_turned (turned_count (rows_of self.now.marks.now self.now.figures.now)) }
    {
        Count::new(self.turned()).ok_or(Refusal::NothingTurned)
    }
}

impl<K: Kind> Rows<'_, '_, K> {
    // The turned rows, added up in row order.
    pub(crate) fn total(&self) -> Result<K, Refusal>
        ensures { answered result ≡ total_rule K.Kind.means (rows_of self.now.marks.now self.now.figures.now) }
    {
        let mut sum = K::zero();
        for (row, (byte, x)) in self.marks.iter().zip(self.figures).enumerate() {
            sum = add_row(row, *byte, *x, sum)?;
        }
        Ok(sum)
    }

    // The total over the count of turned rows.
    pub(crate) fn mean(&self) -> Result<K, Refusal>
        ensures { answered result ≡ mean_rule K.Kind.means (rows_of self.now.marks.now self.now.figures.now) }
    {
        let count = self.some_turned()?;
        let total = self.total()?;
        Ok(total.over(count))
    }
}
