// The file of a column.

ghost use Rattle.std.specs.Prelude.{◌≡◌};
ghost use Rattle.std.specs.Option.{option_copied};
ghost use Rattle.spd_cols.specs.Loading as spec;

use crate::loading::file_of;
use spd_syntax::Program;

/// The name of the file of a column, which is named by its number, counted from 0 in the order of the
/// declarations. There is none where the program declares no such column.
#[tactic(auto, using(crate::proofs::FilesOfColumns::no_file, crate::proofs::FilesOfColumns::first_file, crate::proofs::FilesOfColumns::next_file))]
pub fn file_of_column(program: &Program, column: u32) -> Option<&[u8]>
    ensures { option_copied result ≡ spec.file_of_column program.now.items column }
{
    let mut left = column;
    for item in program.items.as_slice() {
        if let Some(file) = file_of(&item.what) {
            if left == 0 {
                return Some(file);
            }
            left -= 1;
        }
    }
    None
}
