// Files at the limit of entries, made when the test runs.

use spd_cols::{DataFault, DataKind, int_column, lines, text_column};
use std::alloc::{AllocError, Global};
use std::process::Abort;
use std::test::Fail;

/// A header, so many lines `7`, and what stands behind them.
fn file_of(alloc: Global, header: &[u8], count: u32, last: &[u8]) -> Result<Vec<u8>, AllocError> {
    let mut file = Vec::from_slice(alloc, header)?;
    for _ in 0..count {
        file.extend_from_slice(b"7\n")?;
    }
    file.extend_from_slice(last)?;
    Ok(file)
}

/// The fault of an int column of a million records and one more.
fn expect_fault(rt: &(impl Abort + AllocGlobal), last: &[u8], kind: DataKind) -> Result<(), Fail> {
    let file = file_of(rt.alloc(), b"n\n", 1_000_000, last)?;
    match int_column(rt.alloc(), &file, b"n") {
        Ok(_) => panic!(rt; "a column"),
        Err(DataFault { row, kind: found }) => assert_eq!(rt; (row, found), (1_000_001, kind)),
    }
    Ok(())
}

#[test]
fn an_int_column_has_a_million_entries(rt: HostRuntime) -> Result<(), Fail> {
    let file = file_of(rt.alloc(), b"n\n", 1_000_000, b"")?;
    let ints = int_column(rt.alloc(), &file, b"n")?;
    assert_eq!(rt; ints.len(), 1_000_000);
    assert_eq!(rt; *ints.get(999_999), 7);
    Ok(())
}

#[test]
fn a_text_column_has_a_million_entries(rt: HostRuntime) -> Result<(), Fail> {
    let file = file_of(rt.alloc(), b"n\n", 1_000_000, b"")?;
    let texts = text_column(rt.alloc(), &file, b"n")?;
    assert_eq!(rt; texts.len(), 1_000_000);
    assert_eq!(rt; texts.get(999_999), b"7".as_slice());
    Ok(())
}

#[test]
fn one_record_more_is_too_many(rt: HostRuntime) -> Result<(), Fail> {
    expect_fault(&rt, b"7\n", DataKind::TooMany)
}

#[test]
fn it_is_too_many_before_it_is_no_number(rt: HostRuntime) -> Result<(), Fail> {
    expect_fault(&rt, b"x\n", DataKind::TooMany)
}

#[test]
fn it_is_ragged_before_it_is_too_many(rt: HostRuntime) -> Result<(), Fail> {
    expect_fault(&rt, b"7,7\n", DataKind::Ragged)
}

#[test]
fn a_lines_file_has_at_most_a_million_entries(rt: HostRuntime) -> Result<(), Fail> {
    let most = file_of(rt.alloc(), b"", 1_000_000, b"")?;
    assert_eq!(rt; lines(rt.alloc(), &most)?.len(), 1_000_000);
    let more = file_of(rt.alloc(), b"", 1_000_000, b"7")?;
    match lines(rt.alloc(), &more) {
        Ok(_) => panic!(rt; "a column"),
        Err(fault) => assert_eq!(rt; (fault.row, fault.kind), (1_000_001, DataKind::TooMany)),
    }
    Ok(())
}
