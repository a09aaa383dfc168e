//! The rows of one sheet, in its two slices: what each call on one row finds, and how it writes.
ghost use Rattle.std.specs.Prelude.{◌≡◌, ◌<◌, ◌≤◌, length, slice_set, IfOk};
ghost use Rattle.ledger.specs.Rules.{and_then, enter_rule, clear_rule, read_rule};
ghost use Rattle.ledger.specs.Marks.{byte_of};
ghost use Rattle.conversion.specs.Refusals.{answered as converted};
ghost use Rattle.ledger.specs.Refusals.{at_row};
ghost use Rattle.sheet.specs.Refusals.{answered, checked, own_memory};
ghost use Rattle.sheet.specs.Sheets.{row_at, as_row, marked_rule};

use crate::refusal::{Refusal, at_row};
use conversion::refusal::Refusal as Cause;
use kinds::kind::Kind;
use ledger::mark::Mark;

// The two slices of a sheet, to be read: a mark byte and a figure for each row.
#[derive(Drop)]
pub(crate) struct Rows<'m, 'f, K> {
    pub(crate) marks: &'m [u8],
    pub(crate) figures: &'f [K],
    ghost paired: { length figures.now ≡ length marks.now },
    ghost few: { length marks.now ≤ 4096 },
}

impl<'m, 'f, K> Rows<'m, 'f, K> {
    // The rows of a sheet that has `len` of them: both slices have that length.
    pub(crate) fn of(
        len: usize,
        marks: &'m [u8],
        figures: &'f [K],
    ) -> Result<Rows<'m, 'f, K>, Refusal>
        requires { len ≤ 4096 }
        ensures answer { checked result ≡ own_memory len (length marks.now) (length figures.now) }
        ensures rows { IfOk result (λ r. (r.marks.now ≡ marks.now) × (r.figures.now ≡ figures.now)) }
    {
        if marks.len() != len || figures.len() != len {
            return Err(Refusal::Memory);
        }
        Ok(Rows { marks, figures })
    }
}

impl<K: Kind> Rows<'_, '_, K> {
    // The mark and the figure of a row.
    pub(crate) fn read(&self, row: usize) -> Result<(Mark, K), Refusal>
        ensures { answered result ≡ as_row (read_rule K.Kind.means (length self.now.marks.now) row (row_at K.Kind.means self.now.marks.now self.now.figures.now row)) }
    {
        if row >= self.marks.len() {
            return Err(Refusal::NoSuchRow(row));
        }
        Ok((Mark::from(self.marks[row]), self.figures[row]))
    }

    // The figure that an enter leaves in a row.
    pub(crate) fn entered(&self, row: usize, x: K) -> Result<K, Refusal>
        ensures { answered result ≡ enter_rule K.Kind.means (length self.now.marks.now) row (row_at K.Kind.means self.now.marks.now self.now.figures.now row) x }
    {
        let (mark, _) = self.read(row)?;
        if mark.is_held() {
            return Err(Refusal::Held(row));
        }
        if !x.is_number() {
            return Err(Refusal::NotANumber(row));
        }
        Ok(x)
    }

    // The figure that a clear leaves in a row.
    pub(crate) fn cleared(&self, row: usize) -> Result<K, Refusal>
        ensures { answered result ≡ clear_rule K.Kind.means (length self.now.marks.now) row (row_at K.Kind.means self.now.marks.now self.now.figures.now row) }
    {
        let (mark, _) = self.read(row)?;
        if !mark.is_held() {
            return Err(Refusal::Free(row));
        }
        Ok(K::zero())
    }

    // The figure of a row that has this mark.
    fn marked(&self, row: usize, wanted: Mark) -> Result<K, Refusal>
        ensures { answered result ≡ marked_rule (length self.now.marks.now) row (row_at K.Kind.means self.now.marks.now self.now.figures.now row) wanted }
    {
        let (mark, x) = self.read(row)?;
        if !mark.is_held() {
            return Err(Refusal::Free(row));
        }
        if mark != wanted {
            return Err(Refusal::WrongWay(row));
        }
        Ok(x)
    }

    // The figure that `convert` leaves in a row that has this mark.
    pub(crate) fn converted<F: FnOnce(K) -> Result<K, Cause>>(
        &self,
        row: usize,
        wanted: Mark,
        convert: F,
    ) -> Result<K, Refusal>
        requires { F.IsAlwaysCallable convert }
        ensures { let found = marked_rule (length self.now.marks.now) row (row_at K.Kind.means self.now.marks.now self.now.figures.now row) wanted in (y : _) × ((x : K) → found ≡ Ok x → F.post convert x y) × (answered result ≡ and_then found (λ _. at_row row (converted y))) }
    {
        at_row(convert(self.marked(row, wanted)?), row)
    }
}

// A row gets this mark and figure.
// Stays over two slices: of a struct with two `&mut` each method would have to say that both references stay.
pub(crate) fn write<K: Copy>(marks: &mut [u8], figures: &mut [K], row: usize, mark: Mark, x: K)
    requires marks { row < length marks.old }
    requires figures { row < length figures.old }
    ensures marks { marks.new ≡ slice_set marks.old row (byte_of mark) }
    ensures figures { figures.new ≡ slice_set figures.old row x }
{
    marks[row] = mark.into();
    figures[row] = x;
}
