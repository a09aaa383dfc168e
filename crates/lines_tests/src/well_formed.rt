// Lines that are answered. The results are those that the C standard has for zeros, infinities and NaN.
use lines::reply::reply;
use std::process::Abort;
use std::test::*;

// Each line with what is printed for it.
fn answered(rt: &impl Abort, examples: &[(&[u8], &[u8])]) -> Result<(), Fail> {
    for (line, expected) in examples {
        let printed = reply(line);
        assert_eq!(rt; printed.as_slice(), *expected);
    }
    Ok(())
}

#[test]
fn zeros_come_back(rt: HostRuntime) -> Result<(), Fail> {
    answered(
        &rt,
        &[
            (b"E 0000000000000000", b"0000000000000000\n"),
            (b"E 8000000000000000", b"8000000000000000\n"),
            (b"L 0000000000000000", b"0000000000000000\n"),
            (b"L 8000000000000000", b"8000000000000000\n"),
        ],
    )
}

#[test]
fn infinity_comes_back(rt: HostRuntime) -> Result<(), Fail> {
    answered(
        &rt,
        &[
            (b"E 7ff0000000000000", b"7ff0000000000000\n"),
            (b"L 7ff0000000000000", b"7ff0000000000000\n"),
            (b"x 7ff0000000000000", b"7ff0000000000000\n"),
            (b"n 7ff0000000000000", b"7ff0000000000000\n"),
        ],
    )
}

#[test]
fn every_nan_is_one(rt: HostRuntime) -> Result<(), Fail> {
    answered(
        &rt,
        &[
            (b"E 7ff8000000000000", b"7ff8000000000000\n"),
            (b"E fff8000000000000", b"7ff8000000000000\n"),
            (b"L 7ff0000000000001", b"7ff8000000000000\n"),
            (b"x ffffffffffffffff", b"7ff8000000000000\n"),
            (b"n 7ffabcdef0123456", b"7ff8000000000000\n"),
        ],
    )
}

// Each letter by a result that tells its function from the others.
#[test]
fn letters(rt: HostRuntime) -> Result<(), Fail> {
    answered(
        &rt,
        &[
            (b"E fff0000000000000", b"bff0000000000000\n"),
            (b"L bff0000000000000", b"fff0000000000000\n"),
            (b"x 0000000000000000", b"3ff0000000000000\n"),
            (b"x fff0000000000000", b"0000000000000000\n"),
            (b"n 3ff0000000000000", b"0000000000000000\n"),
            (b"n 8000000000000000", b"fff0000000000000\n"),
        ],
    )
}
