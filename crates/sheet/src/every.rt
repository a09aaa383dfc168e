//! The calls on every row, over the slices of one sheet.
ghost use Rattle.std.specs.Prelude.{◌≡◌, true, map, position, length, replicate, if◌then◌else◌, Ok};
ghost use Rattle.ledger.specs.Marks.{is_plain, mark_of};
ghost use Rattle.ledger.specs.Rules.{close_rule, on_all_rule, convertible};
ghost use Rattle.sheet.specs.Refusals.{answered};
ghost use Rattle.sheet.specs.Sheets.{rows_of, mark_on, figures_on};

use crate::refusal::{Refusal, at_row};
use crate::rows::Rows;
use conversion::conversion::Conversion;
use kinds::kind::Kind;
use ledger::mark::Mark;

// Every figure becomes zero.
// Stays a `fill_with`: a `fill` asks for a `clone` that cannot fail, which the bound of a kind does not say.
pub(crate) fn fill_zero<K: Kind>(figures: &mut [K])
    ensures { figures.new ≡ replicate (length figures.old) K.Kind.means.nought }
{
    let zero = K::zero();
    figures.fill_with(|| zero);
}

impl<K> Rows<'_, '_, K> {
    // The first plain row.
    fn first_plain(&self) -> Option<usize>
        ensures { result ≡ position (λ m. is_plain (mark_of m)) self.now.marks.now }
    {
        self.marks
            .iter()
            .position(|byte| Mark::from(*byte) == Mark::Plain)
    }

    // What a close finds: no plain row.
    #[tactic(auto, using(crate::proofs::Means::first_plain))]
    pub(crate) fn none_plain(&self) -> Result<(), Refusal>
        ensures { answered result ≡ close_rule (rows_of self.now.marks.now self.now.figures.now) }
    {
        self.first_plain()
            .map_or(Ok(()), |row| Err(Refusal::StillPlain(row)))
    }
}

impl<K: Kind> Rows<'_, '_, K> {
    // Whether the conversion takes the figure of every plain row.
    pub(crate) fn all_convertible<C: Conversion<Figure = K>>(&self, c: &C) -> Result<(), Refusal>
        ensures { answered result ≡ on_all_rule K.Kind.means (C.Conversion.rule c.now) (rows_of self.now.marks.now self.now.figures.now) }
    {
        for (row, (byte, x)) in self.marks.iter().zip(self.figures).enumerate() {
            is_convertible(c, row, *byte, *x)?;
        }
        Ok(())
    }
}

// Whether the conversion takes the figure of a plain row.
fn is_convertible<C: Conversion>(c: &C, row: usize, byte: u8, x: C::Figure) -> Result<(), Refusal>
    ensures { answered result ≡ convertible C.Figure.Kind.means (C.Conversion.rule c.now) row (record { mark = mark_of byte; figure = x }) tt }
{
    if Mark::from(byte) != Mark::Plain {
        return Ok(());
    }
    at_row(c.on(x), row)?;
    Ok(())
}

// A plain row whose figure the conversion takes is turned; any other row stays.
fn turned_row<C: Conversion>(c: &C, byte: u8, x: C::Figure) -> (u8, C::Figure)
    requires { is_plain (mark_of byte) ≡ true → C.Figure.Kind.means.number x ≡ true }
    ensures mark { result.0 ≡ mark_on byte }
    ensures figure { result.1 ≡ (if is_plain (mark_of byte) then (C.Conversion.rule c.now).on x else x) }
{
    if Mark::from(byte) != Mark::Plain {
        return (byte, x);
    }
    c.on(x).map_or((byte, x), |y| (Mark::Turned.into(), y))
}

// Turns every plain row.
// Stays indexed at the figures: after a loop over two `iter_mut` in a `zip`, a proof knows no element of either slice.
pub(crate) fn turn_all<C: Conversion>(marks: &mut [u8], figures: &mut [C::Figure], c: &C)
    requires lengths { length figures.old ≡ length marks.old }
    requires convertible { on_all_rule C.Figure.Kind.means (C.Conversion.rule c.now) (rows_of marks.old figures.old) ≡ Ok tt }
    ensures marks { marks.new ≡ map mark_on marks.old }
    ensures figures { figures.new ≡ figures_on (C.Conversion.rule c.now) marks.old figures.old }
{
    for (row, byte) in marks.iter_mut().enumerate() {
        (*byte, figures[row]) = turned_row(c, *byte, figures[row]);
    }
}
