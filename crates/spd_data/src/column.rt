// Columns, and the list of all that a program has.

use crate::texts::Texts;
use spd_list::Seq;

/// The values of an int column.
pub type Ints = Seq<i64>;

/// A column: an int column's values, or the byte strings of a text column or of a lines file.
#[derive(Debug, Drop)]
pub enum Column {
    Ints(Ints),
    Texts(Texts),
}

/// All columns of a program, in the order of their declarations.
pub type Data = Seq<Column>;
