// The table program: each line of standard input is answered by a line of standard output.
#![tactic(auto)]

use lines::session::Session;
use lines::short::Reply;
use std::io;
use std::io::{BufReader, BufWriter, Read, Write};

// Writes a reply, if there is one. Stays beside the library's, which adds to a `Vec` and not to a writer.
fn write_reply(out: &mut impl Write, reply: Option<Reply>) -> io::Result<()> {
    if let Some(bytes) = reply {
        out.write_all(bytes.as_slice())?;
    }
    Ok(())
}

fn main(rt: HostRuntime) -> io::Result<()> {
    let mut out = BufWriter::new(rt.alloc(), rt.stdout())?;
    let mut session = Session::new();
    for byte in BufReader::new(rt.alloc(), rt.stdin())?.bytes() {
        write_reply(&mut out, session.feed(byte?))?;
    }
    write_reply(&mut out, session.finish())?;
    out.flush()
}
