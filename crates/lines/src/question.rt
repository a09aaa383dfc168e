// What a line asks.
ghost use Rattle.std.specs.Prelude.{◌≡◌, ◌^◌, ◌<◌, length, Ok, nat_lt};
ghost use Rattle.lines.specs.Functions.{places_of, result_at};
ghost use Rattle.lines.specs.Held.{held};
ghost use Rattle.lines.specs.Replies.{Asked, question_for, question_in, answer_to};

use crate::digits::{digits_of, number};
use crate::function::Function;
use crate::refusal::Refusal;
use crate::short::Reply;
use std::marker::Model;

// The most bytes of a line, without its line feed.
const LONGEST: usize = 32;

// A function, and the bits of the number at which its result is wanted: they fit the digits that it takes.
#[derive(Clone, Copy)]
pub(crate) struct Question {
    function: Function,
    bits: u64,
}

impl Model for Question {
    ghost Value = { Asked };

    ghost view = { λ q. record { function = q.function; bits = q.bits } };

    ghost invariant = { λ q. q.bits < 16 ^ places_of q.function };

    ghost inverse = { λ q. record { function = q.function; bits = q.bits } };
}

// Whether a line has more bytes than any that is answered.
fn is_long(line: &[u8]) -> bool
    ensures { result ≡ nat_lt 32 (length line.now) }
{
    line.len() > LONGEST
}

impl Question {
    // What is asked by a function's name and these digits.
    fn of(function: Function, digits: &[u8]) -> Result<Question, Refusal>
        ensures { result ≡ question_for function digits.now }
    {
        if digits.len() != function.places() {
            return Err(Refusal::Malformed);
        }
        let bits = number(digits).ok_or(Refusal::Malformed)?;
        Ok(Question { function, bits })
    }

    // What a line asks: a letter, one space, and digits.
    pub(crate) fn read(line: &[u8]) -> Result<Question, Refusal>
        ensures { result ≡ question_in line.now }
    {
        if is_long(line) {
            return Err(Refusal::Malformed);
        }
        let [letter, b' ', digits @ ..] = line else {
            return Err(Refusal::Malformed);
        };
        let function = Function::try_from(char::from(*letter))?;
        Question::of(function, digits)
    }

    // The digits of the result.
    pub(crate) fn answer(self) -> Reply
        ensures value { held result ≡ answer_to (Ok self) }
        ensures bound { result_at self.function self.bits < 16 ^ places_of self.function }
    {
        digits_of(self.function.result_at(self.bits), self.function.places())
    }
}
