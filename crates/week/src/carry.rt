use crate::answer::Answer;
use crate::head::Sheet;
use sheet::refusal::Refusal;
use std::alloc::AllocError;

// What carrying out a list of calls gives: the sheet after it, and the answer of each call.
#[derive(Drop)]
pub struct Week<K> {
    pub sheet: Sheet,
    pub answers: Vec<Answer<K>>,
}

// Why a list of calls was not begun.
#[derive(Clone, Copy, PartialEq, Eq, Debug)]
pub enum Stop {
    // No sheet could be opened.
    Refused(Refusal),
    // There was no memory for the answers.
    NoMemory,
}

impl From<Refusal> for Stop {
    ghost use Rattle.std.specs.Prelude.{◌≡◌};
    ghost use Rattle.week.specs.declared.carry.Stop.TheVariants.{Refused};

    ghost from_gives = { λ refusal stop. stop ≡ Refused refusal };

    fn from(refusal: Refusal) -> Stop {
        Stop::Refused(refusal)
    }
}

impl From<AllocError> for Stop {
    ghost use Rattle.std.specs.Prelude.{◌≡◌};
    ghost use Rattle.week.specs.declared.carry.Stop.TheVariants.{NoMemory};

    ghost from_gives = { λ _ stop. stop ≡ NoMemory };

    fn from(_e: AllocError) -> Stop {
        Stop::NoMemory
    }
}
