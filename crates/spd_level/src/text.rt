// The line that a print writes.

ghost use Rattle.std.specs.Prelude.{◌≡◌, IfOk, map};
ghost use Rattle.spd_meaning.specs.Values.{all_texts};
ghost use Rattle.spd_code.specs.Coded.{code_part_value};
ghost use Rattle.spd_level.specs.Columns.{around_columns};
ghost use Rattle.spd_level.specs.Found.{text_list, IsPut};

use crate::value::value_of;
use spd_code::CodePrintPart;
use spd_data::Data;
use std::alloc::{AllocError, Global};

/// The texts of the parts of a print, one behind another, or the code of the first fault.
pub fn text_of(
    alloc: Global,
    parts: &[CodePrintPart],
    columns: &Data,
    vars: &[i64],
    line: u32,
) -> Result<Result<Vec<u8>, u64>, AllocError>
    ensures { IfOk result (λ found.
        text_list found
        ≡ all_texts (map (λ p. code_part_value (around_columns columns.now) p vars.now line) parts.now)) }
{
    let mut text = Vec::new(alloc);
    for part in parts {
        if let Err(code) = add_part(part, columns, vars, line, &mut text)? {
            return Ok(Err(code));
        }
    }
    Ok(Ok(text))
}

/// Puts the text of a part behind a text: a string as it is, a value in decimal. A fault leaves
/// the text as it was.
fn add_part(
    part: &CodePrintPart,
    columns: &Data,
    vars: &[i64],
    line: u32,
    text: &mut Vec<u8>,
) -> Result<Result<(), u64>, AllocError>
    ensures { IfOk result (λ found.
        IsPut text.old.items text.new.items found
        (code_part_value (around_columns columns.now) part.now vars.now line)) }
{
    match part {
        CodePrintPart::Lit(lit) => {
            text.extend_from_slice(lit.as_slice())?;
            Ok(Ok(()))
        }
        CodePrintPart::Value(expr) => match value_of(expr, columns, vars, line) {
            Ok(value) => {
                let digits = value.to_string(*text.allocator())?;
                text.extend_from_slice(digits.as_bytes())?;
                Ok(Ok(()))
            }
            Err(code) => Ok(Err(code)),
        },
    }
}
