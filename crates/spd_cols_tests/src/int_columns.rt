// Int columns of CSV files: their values, or the first fault with its row.

use spd_cols::{DataFault, DataKind, int_column};
use std::process::Abort;
use std::test::Fail;

/// A file, a field, and what its column is.
type Row = (
    &'static [u8],
    &'static [u8],
    Result<&'static [i64], (u32, DataKind)>,
);

/// What spreadsheets write, and the bytes around it.
static READ: [Row; 15] = [
    (b"id,price\n1,10\n2,-4\n3,7\n", b"price", Ok(&[10, -4, 7])),
    (
        b"\xEF\xBB\xBFid,name,price\r\n1,\"Bolt, long\",250\r\n2,Nut,40\r\n",
        b"price",
        Ok(&[250, 40]),
    ),
    // the mark is gone from the name of the first field
    (b"\xEF\xBB\xBFid\n7\n", b"id", Ok(&[7])),
    // one mark is dropped, and the second is part of the name
    (
        b"\xEF\xBB\xBF\xEF\xBB\xBFid\n7\n",
        b"\xEF\xBB\xBFid",
        Ok(&[7]),
    ),
    (b"id,price\n", b"price", Ok(&[])),
    (b"id,price", b"price", Ok(&[])),
    (b"price\n-0\n0\n007\n-08\n", b"price", Ok(&[0, 0, 7, -8])),
    (
        b"price\n9223372036854775807\n-9223372036854775808\n",
        b"price",
        Ok(&[9223372036854775807, -9223372036854775808]),
    ),
    (b"price\n\"12\"\n", b"price", Ok(&[12])),
    // an empty line is no record, and a last record needs no end
    (b"price\n1\n\n\r\n2", b"price", Ok(&[1, 2])),
    (b"price\r1\r2\r", b"price", Ok(&[1, 2])),
    // of two fields of one name the first
    (b"a,b,a\n1,2,3\n4,5,6\n", b"a", Ok(&[1, 4])),
    (b"\"a \"\"q\"\"\",b\n1,2\n", b"a \"q\"", Ok(&[1])),
    // fields that aren't read may be anything
    (b"price,name\n1,\"a\nb\"\n2,c\"d\n", b"price", Ok(&[1, 2])),
    // a field without a name is one
    (b"a,\n1,2\n", b"", Ok(&[2])),
];

/// Files that are refused.
static REFUSED: [Row; 24] = [
    (b"", b"price", Err((0, DataKind::NoField))),
    (b"\n\n", b"price", Err((0, DataKind::NoField))),
    (b"\xEF\xBB\xBF", b"price", Err((0, DataKind::NoField))),
    (b"id,cost\n1,2\n", b"price", Err((0, DataKind::NoField))),
    (b"Price\n1\n", b"price", Err((0, DataKind::NoField))),
    (b"price \n1\n", b"price", Err((0, DataKind::NoField))),
    (
        b"\xEF\xBB\xBF\xEF\xBB\xBFid\n7\n",
        b"id",
        Err((0, DataKind::NoField)),
    ),
    (
        b"id,price\n1,10\n2,12x\n",
        b"price",
        Err((2, DataKind::NotInt)),
    ),
    (b"id,price\n1,10\n2\n", b"price", Err((2, DataKind::Ragged))),
    (b"id,price\n1,10,5\n", b"price", Err((1, DataKind::Ragged))),
    // a file that ends behind a comma has one more empty field
    (b"id,price\n1,", b"price", Err((1, DataKind::NotInt))),
    (b"price\n1\n2,", b"price", Err((2, DataKind::Ragged))),
    (b"price\n-\n", b"price", Err((1, DataKind::NotInt))),
    (b"price\n+5\n", b"price", Err((1, DataKind::NotInt))),
    (b"price\n--5\n", b"price", Err((1, DataKind::NotInt))),
    (b"price\n 5\n", b"price", Err((1, DataKind::NotInt))),
    (b"price\n\"\"\n", b"price", Err((1, DataKind::NotInt))),
    (b"price\n1.0\n", b"price", Err((1, DataKind::NotInt))),
    (
        b"price\n9223372036854775808\n",
        b"price",
        Err((1, DataKind::NotInt)),
    ),
    (
        b"price\n-9223372036854775809\n",
        b"price",
        Err((1, DataKind::NotInt)),
    ),
    (
        b"price\n99999999999999999999999999999999\n",
        b"price",
        Err((1, DataKind::NotInt)),
    ),
    // the record with fewer fields is told, and not its cell, nor the record behind it
    (b"price,id\nx\nx,1\n", b"price", Err((1, DataKind::Ragged))),
    (b"price,id\nx,1\n2\n", b"price", Err((1, DataKind::NotInt))),
    // an empty line isn't numbered; a quote that isn't closed runs to the end
    (
        b"price\n1\n\n\"2\n3\n",
        b"price",
        Err((2, DataKind::NotInt)),
    ),
];

fn expect_columns(rt: &(impl Abort + AllocGlobal), rows: &[Row]) -> Result<(), Fail> {
    for (file, field, expected) in rows {
        match (int_column(rt.alloc(), file, field), expected) {
            (Ok(found), Ok(values)) => assert_eq!(rt; found.as_slice(), *values, "of {file:?}"),
            (Err(DataFault { row, kind }), Err(fault)) => {
                assert_eq!(rt; (row, kind), *fault, "of {file:?}");
            }
            (Ok(_), Err(_)) => panic!(rt; "a column of {file:?}"),
            (Err(fault), Ok(_)) => panic!(rt; "{fault:?} of {file:?}"),
        }
    }
    Ok(())
}

#[test]
fn values_stand_in_the_order_of_records(rt: HostRuntime) -> Result<(), Fail> {
    expect_columns(&rt, &READ)
}

#[test]
fn the_first_fault_is_told(rt: HostRuntime) -> Result<(), Fail> {
    expect_columns(&rt, &REFUSED)
}
