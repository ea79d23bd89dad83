// A CSV file that is made from two numbers.

ghost use Rattle.std.specs.Prelude.{◌≡◌, ◌++◌, ◌≤◌, IfOk, OnOk, string_bytes};
ghost use Rattle.spd_cols.specs.Made.{made_csv, made_row};

use std::alloc::{AllocError, Global};

/// A CSV file of this many rows, at most 1,000,000, behind the header `id,price,name`: row `i` is `i`, the
/// price `(i * 7919 + seed) % 1000` and the name `item-` with `i % 97`. Each line ends with LF.
/// `AllocError` comes where memory runs out.
pub fn make_csv(alloc: Global, rows: u32, seed: u32) -> Result<Vec<u8>, AllocError>
    requires { rows ≤ 1000000 }
    ensures { IfOk result (λ file. file.items ≡ made_csv rows seed) }
{
    let mut text = String::from_str(alloc, "id,price,name\n")?;
    for row in 0..rows {
        push_row(alloc, &mut text, row, seed)?;
    }
    Ok(text.into_bytes())
}

/// Appends the line of a row.
fn push_row(alloc: Global, text: &mut String, row: u32, seed: u32) -> Result<(), AllocError>
    ensures { OnOk result (string_bytes text.new ≡ string_bytes text.old ++ made_row seed row) }
{
    let price = (u64::from(row) * 7919 + u64::from(seed)) % 1000;
    text.push_str(row.to_string(alloc)?.as_str())?;
    text.push_str(",")?;
    text.push_str(price.to_string(alloc)?.as_str())?;
    text.push_str(",item-")?;
    text.push_str((row % 97).to_string(alloc)?.as_str())?;
    text.push_str("\n")?;
    Ok(())
}
