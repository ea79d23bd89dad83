// Files that are made from a number of rows and a seed, each byte or the length worked out by hand.

use spd_cols::{int_column, make_csv};
use std::process::Abort;
use std::test::Fail;

/// The greatest seed.
const MOST_SEED: u32 = 4_294_967_295;

#[test]
fn a_file_of_three_rows_has_these_bytes(rt: HostRuntime) -> Result<(), Fail> {
    let file = make_csv(rt.alloc(), 3, 5)?;
    let expected = b"id,price,name\n0,5,item-0\n1,924,item-1\n2,843,item-2\n";
    assert_eq!(rt; file.as_slice(), expected.as_slice());
    Ok(())
}

#[test]
fn a_file_of_no_row_is_its_header(rt: HostRuntime) -> Result<(), Fail> {
    let file = make_csv(rt.alloc(), 0, 5)?;
    assert_eq!(rt; file.as_slice(), b"id,price,name\n".as_slice());
    Ok(())
}

// The header has 14 bytes. Of a million lines each has 8 bytes beside its three numbers, whose digits are
// 5,888,890 of the ids, 2,890,000 of the prices, of which each stands there 1,000 times, and 1,896,900 of
// the items' numbers.
#[test]
fn the_largest_file_has_this_length_and_last_line(rt: HostRuntime) -> Result<(), Fail> {
    let file = make_csv(rt.alloc(), 1_000_000, MOST_SEED)?;
    assert_eq!(rt; file.len(), 18_675_804);
    assert!(rt; file.as_slice().ends_with(b"\n999999,376,item-26\n"));
    Ok(())
}

#[test]
fn a_made_file_is_a_file_of_columns(rt: HostRuntime) -> Result<(), Fail> {
    let file = make_csv(rt.alloc(), 99, 7)?;
    let prices = int_column(rt.alloc(), &file, b"price")?;
    assert_eq!(rt; prices.len(), 99);
    assert_eq!(rt; *prices.get(98), (98 * 7919 + 7) % 1000);
    Ok(())
}
