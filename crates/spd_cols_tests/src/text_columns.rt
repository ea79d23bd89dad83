// Text columns of CSV files: their cells as they are, or the first fault.

use spd_cols::{DataKind, text_column};
use std::process::Abort;
use std::test::Fail;

/// A file, and the entries of its column `name`.
type Row = (&'static [u8], &'static [&'static [u8]]);

static READ: [Row; 9] = [
    (
        b"\xEF\xBB\xBFid,name,price\r\n1,\"Bolt, long\",250\r\n2,Nut,40\r\n",
        &[b"Bolt, long", b"Nut"],
    ),
    (b"name\n\"a \"\"q\"\" b\"\n", &[b"a \"q\" b"]),
    (b"name\n\"two\r\nlines\"\n", &[b"two\r\nlines"]),
    // a quote inside a field is a plain byte, and bytes behind a closing quote are kept
    (b"name\na\"b\n\"c\"d\n", &[b"a\"b", b"cd"]),
    (b"name\n\"open\nx,y\n", &[b"open\nx,y\n"]),
    // bytes past ASCII are kept, and no encoding is checked
    (b"name\n\xC3\xA9\n\xFF\x80\n", &[b"\xC3\xA9", b"\xFF\x80"]),
    (b"name,id\n,1\n x ,2\n", &[b"", b" x "]),
    (b"id,name\n1,", &[b""]),
    (b"name\n", &[]),
];

fn expect_entries(rt: &(impl Abort + AllocGlobal), rows: &[Row]) -> Result<(), Fail> {
    for (file, expected) in rows {
        let found = text_column(rt.alloc(), file, b"name")?;
        assert_eq!(rt; found.len() as usize, expected.len(), "of {file:?}");
        for place in 0..found.len() {
            assert_eq!(rt; found.get(place), expected[place as usize], "of {file:?}");
        }
    }
    Ok(())
}

#[test]
fn cells_are_as_they_stand(rt: HostRuntime) -> Result<(), Fail> {
    expect_entries(&rt, &READ)
}

#[test]
fn records_of_another_length_are_refused(rt: HostRuntime) -> Result<(), Fail> {
    let Err(fault) = text_column(rt.alloc(), b"name,id\na,1\nb\n", b"name") else {
        panic!(rt; "a column");
    };
    assert_eq!(rt; (fault.row, fault.kind), (2, DataKind::Ragged));
    let Err(fault) = text_column(rt.alloc(), b"Name\na\n", b"name") else {
        panic!(rt; "a column");
    };
    assert_eq!(rt; (fault.row, fault.kind), (0, DataKind::NoField));
    Ok(())
}
