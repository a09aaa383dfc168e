use lines::reply::reply;
use values::known_values;

// The table has fourteen rows, and its first and last are as they stand in the documents.
#[test]
fn rows(rt: HostRuntime) {
    let rows = known_values();
    assert_eq!(rt; rows.len(), 14);
    for (row, argument, expected) in [
        (&rows[0], 0x8000_0000_0000_0000, 0x8000_0000_0000_0000),
        (&rows[13], 0xbf80_0000, 0xff80_0000),
    ] {
        assert_eq!(rt; row.argument, argument);
        assert_eq!(rt; row.result, expected);
    }
}

// What the program prints for some of them.
#[test]
fn printed(rt: HostRuntime) {
    let examples: [(&[u8], &[u8]); 4] = [
        (b"T c089000000000000", b"bff0000000000000\n"),
        (b"c c180000000000000", b"7ff8000000000000\n"),
        (b"S 7ff", b"? 14\n"),
        (b"F c1a00000", b"bf800000\n"),
    ];
    for (line, expected) in examples {
        assert_eq!(rt; reply(line).as_slice(), expected);
    }
}
