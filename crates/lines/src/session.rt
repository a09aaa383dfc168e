// Answering an input that comes byte by byte.
ghost use Rattle.std.specs.Prelude.{◌≡◌, [], ◌++◌, IfOk, OnOk};
ghost use Rattle.std.specs.Option.{option_map};
ghost use Rattle.lines.specs.Cutting.{begun, begun_after, reply_at, reply_at_end, bytes_of, printed_for, FedRight, CutRight};
ghost use Rattle.lines.specs.Held.{held};

use crate::reply::reply;
use crate::short::{Reply, ShortBytes};
use std::alloc::{AllocError, Global};

// One byte more than the longest line has: so many are refused, whatever follows them.
const KEPT: usize = 33;

// An input that is being answered: the line that has begun, up to the bytes that are kept.
#[derive(Clone, Copy)]
pub struct Session {
    line: ShortBytes<KEPT>,
}

impl Session {
    // At the start of an input.
    pub fn new() -> Session
        ensures value { begun result ≡ [] }
        ensures fed { FedRight }
        ensures cut { CutRight }
    {
        Session {
            line: ShortBytes::empty(),
        }
    }

    // Takes the next byte of the input. A line feed ends a line, and gives the reply to it.
    pub fn feed(&mut self, byte: u8) -> Option<Reply>
        ensures value { option_map held result ≡ reply_at (begun self.old) byte }
        ensures after { begun self.new ≡ begun_after (begun self.old) byte }
    {
        if byte == b'\n' {
            let printed = reply(self.line.as_slice());
            self.line = ShortBytes::empty();
            Some(printed)
        } else {
            self.line.push(byte);
            None
        }
    }

    // The input has ended: gives the reply to a last line that no line feed ended.
    pub fn finish(self) -> Option<Reply>
        ensures { option_map held result ≡ reply_at_end (begun self) }
    {
        let last = self.line.as_slice();
        if last.is_empty() {
            None
        } else {
            Some(reply(last))
        }
    }
}

// Adds a reply, if there is one, to what is printed.
fn add_reply(printed: &mut Vec<u8>, reply: Option<Reply>) -> Result<(), AllocError>
    ensures { OnOk result (printed.new.items ≡ printed.old.items ++ bytes_of (option_map held reply)) }
{
    if let Some(bytes) = reply {
        printed.extend_from_slice(bytes.as_slice())?;
    }
    Ok(())
}

// What is printed for an input.
pub fn answer_all(heap: Global, input: &[u8]) -> Result<Vec<u8>, AllocError>
    ensures { IfOk result (λ v. v.items ≡ printed_for input.now) }
{
    let mut session = Session::new();
    let mut printed = Vec::new(heap);
    for byte in input {
        add_reply(&mut printed, session.feed(*byte))?;
    }
    add_reply(&mut printed, session.finish())?;
    Ok(printed)
}
