//! The closed sheet.
ghost use Rattle.std.specs.Prelude.{◌≡◌};
ghost use Rattle.sheet.specs.Refusals.{answered};
ghost use Rattle.sheet.specs.Sheets.{as_row, row_read, reopens, reopening, totalled, averaged, compared};

use crate::heads::{ClosedSheet, OpenSheet};
use crate::refusal::Refusal;
use crate::rows::Rows;
use kinds::kind::Kind;
use ledger::mark::Mark;

// As with the open sheet, the calls take two slices.
impl ClosedSheet {
    // The mark and the figure of a row.
    pub fn read<K: Kind>(
        &self,
        marks: &[u8],
        figures: &[K],
        row: usize,
    ) -> Result<(Mark, K), Refusal>
        ensures { answered result ≡ as_row (row_read K.Kind.means marks.now figures.now self.now.len row) }
    {
        Rows::of(self.len, marks, figures)?.read(row)
    }

    // The turned rows, added up in row order from zero.
    pub fn total<K: Kind>(&self, marks: &[u8], figures: &[K]) -> Result<K, Refusal>
        ensures { answered result ≡ totalled K.Kind.means marks.now figures.now self.now.len }
    {
        Rows::of(self.len, marks, figures)?.total()
    }

    // The total over the count of turned rows.
    pub fn mean<K: Kind>(&self, marks: &[u8], figures: &[K]) -> Result<K, Refusal>
        ensures { answered result ≡ averaged K.Kind.means marks.now figures.now self.now.len }
    {
        Rows::of(self.len, marks, figures)?.mean()
    }

    // Whether the total is greater than the limit.
    pub fn exceeds<K: Kind>(&self, marks: &[u8], figures: &[K], limit: K) -> Result<bool, Refusal>
        ensures { answered result ≡ compared K.Kind.means marks.now figures.now self.now.len limit }
    {
        let rows = Rows::of(self.len, marks, figures)?;
        if !limit.is_number() {
            return Err(Refusal::NoLimit);
        }
        let total = rows.total()?;
        Ok(total.greater(limit))
    }

    // The sheet becomes open again; a refused reopen gives the closed sheet back.
    pub fn reopen<K: Kind>(
        self,
        marks: &[u8],
        figures: &[K],
    ) -> Result<OpenSheet, (ClosedSheet, Refusal)>
        ensures { reopens result ≡ reopening K.Kind.means marks.now figures.now self.len }
    {
        let len = self.len;
        Rows::of(len, marks, figures).map_err(|refusal| (self, refusal))?;
        Ok(OpenSheet { len })
    }
}
