// Why a line is refused.
ghost use Rattle.std.specs.Prelude.{◌≡◌};
ghost use Rattle.lines.specs.Held.{held};
ghost use Rattle.lines.specs.Refusals.{told, refusal_text};

use crate::short::{Reply, ShortBytes};
use refusals::Numbered;

#[derive(Clone, Copy, PartialEq, Eq, Debug)]
pub enum Refusal {
    // The line is no function's name, one space and as many digits as it takes.
    Malformed,
}

impl Numbered for Refusal {
    ghost told = { told };

    // Stays a number: by it a refusal is known outside.
    fn number(&self) -> u8 {
        match *self {
            Refusal::Malformed => 14,
        }
    }
}

impl Refusal {
    // The text that is printed for the refusal.
    // Stays no Display: of a `write!` nothing is known where it fails, and this text has to come.
    pub(crate) fn text(self) -> Reply
        ensures { held result ≡ refusal_text self }
    {
        let number = self.number();
        let mut text = ShortBytes::empty();
        text.push(b'?');
        text.push(b' ');
        text.push(number / 10 + b'0');
        text.push(number % 10 + b'0');
        text
    }
}
