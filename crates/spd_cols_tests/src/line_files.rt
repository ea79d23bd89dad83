// Lines files: the pieces between their LF bytes.

use spd_cols::lines;
use std::process::Abort;
use std::test::Fail;

/// A file and its entries.
type Row = (&'static [u8], &'static [&'static [u8]]);

static READ: [Row; 12] = [
    (b"a x\r\nb\na y", &[b"a x", b"b", b"a y"]),
    (b"", &[]),
    (b"\n", &[b""]),
    (b"\n\n", &[b"", b""]),
    (b"a", &[b"a"]),
    (b"a\n", &[b"a"]),
    (b"a\n\nb\n", &[b"a", b"", b"b"]),
    // one CR is dropped, and only at the end of a piece
    (b"a\r\r\nb\rc\n", &[b"a\r", b"b\rc"]),
    (b"a\r", &[b"a"]),
    // a last piece that is only a CR is an entry without bytes
    (b"a\n\r", &[b"a", b""]),
    // no mark is dropped, and quotes are bytes
    (
        b"\xEF\xBB\xBFa\n\"b\nc\"\n",
        &[b"\xEF\xBB\xBFa", b"\"b", b"c\""],
    ),
    (b"\xFF\x00\n", &[b"\xFF\x00"]),
];

fn expect_entries(rt: &(impl Abort + AllocGlobal), rows: &[Row]) -> Result<(), Fail> {
    for (file, expected) in rows {
        let found = lines(rt.alloc(), file)?;
        assert_eq!(rt; found.len() as usize, expected.len(), "of {file:?}");
        for place in 0..found.len() {
            assert_eq!(rt; found.get(place), expected[place as usize], "of {file:?}");
        }
    }
    Ok(())
}

#[test]
fn entries_are_the_pieces_between_ends(rt: HostRuntime) -> Result<(), Fail> {
    expect_entries(&rt, &READ)
}
