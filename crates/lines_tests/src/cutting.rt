// Inputs of several lines, and of none.
use lines::session::{Session, answer_all};
use std::alloc::AllocGlobal;
use std::process::Abort;
use std::test::Fail;

fn printed(rt: &(impl Abort + AllocGlobal), input: &[u8], expected: &[u8]) -> Result<(), Fail> {
    let all = answer_all(rt.alloc(), input)?;
    assert_eq!(rt; all.as_slice(), expected);
    Ok(())
}

#[test]
fn no_input(rt: HostRuntime) -> Result<(), Fail> {
    printed(&rt, b"", b"")
}

#[test]
fn one_empty_line(rt: HostRuntime) -> Result<(), Fail> {
    printed(&rt, b"\n", b"? 14\n")
}

#[test]
fn last_line_without_line_feed(rt: HostRuntime) -> Result<(), Fail> {
    printed(&rt, b"E 0000000000000000", b"0000000000000000\n")
}

#[test]
fn last_line_with_line_feed(rt: HostRuntime) -> Result<(), Fail> {
    printed(&rt, b"E 0000000000000000\n", b"0000000000000000\n")
}

#[test]
fn empty_lines_between(rt: HostRuntime) -> Result<(), Fail> {
    printed(
        &rt,
        b"E 0000000000000000\n\n\nL 8000000000000000\n\n",
        b"0000000000000000\n? 14\n? 14\n8000000000000000\n? 14\n",
    )
}

#[test]
fn carriage_returns(rt: HostRuntime) -> Result<(), Fail> {
    printed(
        &rt,
        b"E 0000000000000000\r\nE 0000000000000000\r",
        b"? 14\n? 14\n",
    )
}

// What follows the 33rd byte of a line is dropped, and the next line begins anew.
#[test]
fn a_long_line_between(rt: HostRuntime) -> Result<(), Fail> {
    printed(
        &rt,
        b"E 0000000000000000 E 0000000000000000 E 0000000000000000\nE 0000000000000000\n",
        b"? 14\n0000000000000000\n",
    )
}

#[test]
fn byte_by_byte(rt: HostRuntime) -> Result<(), Fail> {
    let mut session = Session::new();
    assert!(rt; session.feed(b'E').is_none());
    assert!(rt; session.feed(b'\n').is_some());
    assert!(rt; session.finish().is_none());
    Ok(())
}
