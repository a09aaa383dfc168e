// Lines that are refused.
use lines::refusal::Refusal;
use lines::reply::reply;
use refusals::Numbered;
use std::process::Abort;
use std::test::*;

fn refused(rt: &impl Abort, lines: &[&[u8]]) -> Result<(), Fail> {
    for line in lines {
        let printed = reply(line);
        assert_eq!(rt; printed.as_slice(), b"? 14\n".as_slice());
    }
    Ok(())
}

#[test]
fn the_number(rt: HostRuntime) -> Result<(), Fail> {
    assert_eq!(rt; Refusal::Malformed.number(), 14);
    Ok(())
}

#[test]
fn parts_are_missing(rt: HostRuntime) -> Result<(), Fail> {
    refused(
        &rt,
        &[
            b"",
            b" ",
            b"E",
            b"E ",
            b"0000000000000000",
            b" 0000000000000000",
            b"E0000000000000000",
        ],
    )
}

#[test]
fn names(rt: HostRuntime) -> Result<(), Fail> {
    refused(
        &rt,
        &[
            b"e 0000000000000000",
            b"X 0000000000000000",
            b"EE 0000000000000000",
            b"expm1 0000000000000000",
        ],
    )
}

#[test]
fn blanks(rt: HostRuntime) -> Result<(), Fail> {
    refused(
        &rt,
        &[
            b"E  0000000000000000",
            b"E  000000000000000",
            b" E 0000000000000000",
            b"E\t0000000000000000",
            b"E 0000000000000000 ",
            b"E 000000000000000 ",
            b"E 0000000000000000\r",
            b"E 0000000000000000\n",
        ],
    )
}

#[test]
fn digits(rt: HostRuntime) -> Result<(), Fail> {
    refused(
        &rt,
        &[
            b"E 000000000000000",
            b"E 00000000000000000",
            b"E 3FF0000000000000",
            b"E 3ff000000000000g",
            b"E 3ff000000000000`",
            b"E 3ff000000000000/",
            b"E 3ff000000000000:",
            b"E 0x3ff00000000000",
            b"E 3ff0_0000_0000_0",
            b"E -000000000000000",
        ],
    )
}

#[test]
fn other_bytes(rt: HostRuntime) -> Result<(), Fail> {
    refused(
        &rt,
        &[
            b"\xc3\x89 0000000000000000",
            b"\xff 0000000000000000",
            b"E \xff000000000000000",
            b"E \0000000000000000",
            b"\0",
            b"E\xa00000000000000000",
        ],
    )
}

#[test]
fn long_lines(rt: HostRuntime) -> Result<(), Fail> {
    refused(
        &rt,
        &[
            b"E 000000000000000000000000000000",
            b"E 0000000000000000000000000000000",
            b"E 0000000000000000              ",
            b"E 0000000000000000               ",
        ],
    )
}
