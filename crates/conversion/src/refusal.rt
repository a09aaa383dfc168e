ghost use Rattle.std.specs.Prelude.{◌≡◌};
ghost use Rattle.conversion.specs.Refusals.{told, answered, refused_as, on_refused, back_refused};

use refusals::Numbered;

// Why a figure is not converted, or a conversion not made.
#[derive(Clone, Copy, PartialEq, Eq, Debug)]
pub enum Refusal {
    // The figure is no number of its kind.
    NotANumber,
    // The figure lies outside the back range.
    OutsideBackRange,
    // No scale has this exponent.
    ScaleOutOfBounds(i32),
}

impl Numbered for Refusal {
    ghost told = { told };

    // Stays a number: by it a refusal is known outside.
    fn number(&self) -> u8 {
        match *self {
            Refusal::NotANumber => 4,
            Refusal::OutsideBackRange => 7,
            Refusal::ScaleOutOfBounds(_) => 13,
        }
    }
}

// The answer of a layer, where a function inside refused in its own words.
pub fn refused_as<K>(answer: Result<K, Refusal>, refusal: Refusal) -> Result<K, Refusal>
    ensures { answered result ≡ refused_as (told refusal) answer }
{
    answer.map_err(|_| refusal)
}

// The answer of an on, where a function inside refused in its own words.
pub fn as_on<K>(answer: Result<K, Refusal>) -> Result<K, Refusal>
    ensures { answered result ≡ on_refused answer }
{
    refused_as(answer, Refusal::NotANumber)
}

// The answer of a back, where a function inside refused in its own words.
pub fn as_back<K>(answer: Result<K, Refusal>) -> Result<K, Refusal>
    ensures { answered result ≡ back_refused answer }
{
    refused_as(answer, Refusal::OutsideBackRange)
}
