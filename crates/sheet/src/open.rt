//! The open sheet.
ghost use Rattle.std.specs.Prelude.{◌≡◌};
ghost use Rattle.sheet.specs.Refusals.{answered};
ghost use Rattle.sheet.specs.Sheets.{left, opens, opened, entered, turned_on, all_turned_on, turned_back, cleared, as_row, row_read, closes, closing};

use crate::every::{fill_zero, turn_all};
use crate::heads::{ClosedSheet, OpenSheet};
use crate::refusal::Refusal;
use crate::rows::{Rows, write};
use conversion::conversion::Conversion;
use kinds::kind::Kind;
use ledger::mark::Mark;

// A new sheet of as many rows as the two slices have, 1 to 4,096: every row is free, with figure zero.
pub fn open<K: Kind>(marks: &mut [u8], figures: &mut [K]) -> Result<OpenSheet, Refusal>
    ensures { opens result marks.new figures.new ≡ opened K.Kind.means marks.old figures.old }
{
    let len = marks.len();
    if figures.len() != len || !(1..=4096).contains(&len) {
        return Err(Refusal::Memory);
    }
    marks.fill(Mark::Free.into());
    fill_zero(figures);
    Ok(OpenSheet { len })
}

// The calls take two slices, and no struct of them: so the memory comes from its owner, whatever it holds.
impl OpenSheet {
    // A number into a free row, which becomes plain.
    pub fn enter<K: Kind>(
        &mut self,
        marks: &mut [u8],
        figures: &mut [K],
        row: usize,
        x: K,
    ) -> Result<(), Refusal>
        ensures call { left result marks.new figures.new ≡ entered K.Kind.means marks.old figures.old self.old.len row x }
        ensures head { self.new ≡ self.old }
    {
        let x = Rows::of(self.len, marks, figures)?.entered(row, x)?;
        write(marks, figures, row, Mark::Plain, x);
        Ok(())
    }

    // The conversion on to a plain row, which becomes turned.
    pub fn on<C: Conversion>(
        &mut self,
        marks: &mut [u8],
        figures: &mut [C::Figure],
        c: &C,
        row: usize,
    ) -> Result<(), Refusal>
        ensures call { left result marks.new figures.new ≡ turned_on C.Figure.Kind.means marks.old figures.old self.old.len (C.Conversion.rule c.now) row }
        ensures head { self.new ≡ self.old }
    {
        let rows = Rows::of(self.len, marks, figures)?;
        let x = rows.converted(row, Mark::Plain, |x| c.on(x))?;
        write(marks, figures, row, Mark::Turned, x);
        Ok(())
    }

    // The conversion on to every plain row, or to none.
    pub fn on_all<C: Conversion>(
        &mut self,
        marks: &mut [u8],
        figures: &mut [C::Figure],
        c: &C,
    ) -> Result<(), Refusal>
        ensures call { left result marks.new figures.new ≡ all_turned_on C.Figure.Kind.means marks.old figures.old self.old.len (C.Conversion.rule c.now) }
        ensures head { self.new ≡ self.old }
    {
        Rows::of(self.len, marks, figures)?.all_convertible(c)?;
        turn_all(marks, figures, c);
        Ok(())
    }

    // The conversion back from a turned row, which becomes plain. Stays beside on: each is a call by its name.
    pub fn back<C: Conversion>(
        &mut self,
        marks: &mut [u8],
        figures: &mut [C::Figure],
        c: &C,
        row: usize,
    ) -> Result<(), Refusal>
        ensures call { left result marks.new figures.new ≡ turned_back C.Figure.Kind.means marks.old figures.old self.old.len (C.Conversion.rule c.now) row }
        ensures head { self.new ≡ self.old }
    {
        let rows = Rows::of(self.len, marks, figures)?;
        let x = rows.converted(row, Mark::Turned, |x| c.back(x))?;
        write(marks, figures, row, Mark::Plain, x);
        Ok(())
    }

    // A held row becomes free, with figure zero.
    pub fn clear<K: Kind>(
        &mut self,
        marks: &mut [u8],
        figures: &mut [K],
        row: usize,
    ) -> Result<(), Refusal>
        ensures call { left result marks.new figures.new ≡ cleared K.Kind.means marks.old figures.old self.old.len row }
        ensures head { self.new ≡ self.old }
    {
        let x = Rows::of(self.len, marks, figures)?.cleared(row)?;
        write(marks, figures, row, Mark::Free, x);
        Ok(())
    }

    // The mark and the figure of a row.
    pub fn read<K: Kind>(
        &self,
        marks: &[u8],
        figures: &[K],
        row: usize,
    ) -> Result<(Mark, K), Refusal>
        ensures { answered result ≡ as_row (row_read K.Kind.means marks.now figures.now self.now.len row) }
    {
        Rows::of(self.len, marks, figures)?.read(row)
    }

    // A sheet with no plain row becomes closed; a refused close gives the open sheet back.
    pub fn close<K: Kind>(
        self,
        marks: &[u8],
        figures: &[K],
    ) -> Result<ClosedSheet, (OpenSheet, Refusal)>
        ensures { closes result ≡ closing K.Kind.means marks.now figures.now self.len }
    {
        let len = self.len;
        Rows::of(len, marks, figures)
            .and_then(|rows| rows.none_plain())
            .map_err(|refusal| (self, refusal))?;
        Ok(ClosedSheet { len })
    }
}
