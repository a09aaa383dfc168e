ghost use Rattle.std.specs.Prelude.{◌≡◌, pos};
ghost use Rattle.std.specs.Option.{option_map};
ghost use Rattle.conversion.specs.Refusals.{answered as converted};
ghost use Rattle.ledger.specs.Refusals.{at_row};
ghost use Rattle.sheet.specs.Refusals.{told, answered, row_named};

use conversion::refusal::Refusal as Cause;
use refusals::Numbered;

// Why a call on a sheet is not carried out. Each case that concerns a row carries its number.
#[derive(Clone, Copy, PartialEq, Eq, Debug)]
pub enum Refusal {
    // The two slices differ in length, or have not the length of the sheet, or of any sheet.
    Memory,
    // The sheet has no such row.
    NoSuchRow(usize),
    // The row is held already.
    Held(usize),
    // The figure to be entered is no number of its kind.
    NotANumber(usize),
    // The row is free.
    Free(usize),
    // On of a turned row, or back of a plain one.
    WrongWay(usize),
    // The conversion refused the row's figure.
    Unconverted(usize, Cause),
    // The row is still plain as the sheet is to be closed.
    StillPlain(usize),
    // The figure of a turned row is infinite, or no number.
    NotFinite(usize),
    // The running sum becomes infinite at this row.
    SumInfinite(usize),
    // There is no mean of no turned rows.
    NothingTurned,
    // The limit is no number.
    NoLimit,
}

impl Numbered for Refusal {
    ghost told = { told };

    // Stays a number: by it a refusal is known outside.
    fn number(&self) -> u8 {
        match *self {
            Refusal::Memory => 1,
            Refusal::NoSuchRow(_) => 2,
            Refusal::Held(_) => 3,
            Refusal::NotANumber(_) => 4,
            Refusal::Free(_) => 5,
            Refusal::WrongWay(_) => 6,
            Refusal::Unconverted(_, cause) => cause.number(),
            Refusal::StillPlain(_) => 8,
            Refusal::NotFinite(_) => 9,
            Refusal::SumInfinite(_) => 10,
            Refusal::NothingTurned => 11,
            Refusal::NoLimit => 12,
        }
    }
}

impl Refusal {
    // The row that the refusal concerns, if it concerns one.
    pub fn row(&self) -> Option<usize>
        ensures { option_map pos result ≡ row_named (told self.now) }
    {
        match *self {
            Refusal::NoSuchRow(row)
            | Refusal::Held(row)
            | Refusal::NotANumber(row)
            | Refusal::Free(row)
            | Refusal::WrongWay(row)
            | Refusal::StillPlain(row)
            | Refusal::NotFinite(row)
            | Refusal::SumInfinite(row)
            | Refusal::Unconverted(row, _) => Some(row),
            Refusal::Memory | Refusal::NothingTurned | Refusal::NoLimit => None,
        }
    }
}

// The answer of a conversion, with the row added to what it refused.
pub(crate) fn at_row<K>(answer: Result<K, Cause>, row: usize) -> Result<K, Refusal>
    ensures { answered result ≡ at_row row (converted answer) }
{
    answer.map_err(|cause| Refusal::Unconverted(row, cause))
}
