ghost use Rattle.std.specs.Prelude.{◌≡◌, Some};
ghost use Rattle.ledger.specs.Marks.{mark_of, byte_of, named, held};

use std::fmt;

// What a row is: free, or held. A held row is plain when its figure was entered or came back, and
// turned when the conversion was put on it.
#[derive(Clone, Copy, PartialEq, Eq, Debug)]
pub enum Mark {
    Free,
    Plain,
    Turned,
}

// How a mark byte is read: a byte that is no mark is free.
impl From<u8> for Mark {
    ghost from_gives = { λ byte mark. mark ≡ mark_of byte };

    fn from(byte: u8) -> Mark {
        match byte {
            1 => Mark::Plain,
            2 => Mark::Turned,
            _ => Mark::Free,
        }
    }
}

// How a mark is written.
impl From<Mark> for u8 {
    ghost from_gives = { λ mark byte. byte ≡ byte_of mark };

    fn from(mark: Mark) -> u8 {
        match mark {
            Mark::Free => 0,
            Mark::Plain => 1,
            Mark::Turned => 2,
        }
    }
}

// A mark by its name.
impl fmt::Display for Mark {
    ghost output = { λ mark. Some (named mark) };

    fn fmt<W: fmt::Write>(&self, f: &mut fmt::Formatter<W>) -> fmt::Result {
        match self {
            Mark::Free => write!(f, "free"),
            Mark::Plain => write!(f, "plain"),
            Mark::Turned => write!(f, "turned"),
        }
    }
}

impl Mark {
    // The mark of a byte.
    pub fn of(byte: u8) -> Mark
        ensures { result ≡ mark_of byte }
    {
        Mark::from(byte)
    }

    // The byte of a mark.
    pub fn byte(self) -> u8
        ensures { result ≡ byte_of self }
    {
        u8::from(self)
    }

    pub fn is_held(self) -> bool
        ensures { result ≡ held self }
    {
        self != Mark::Free
    }
}
