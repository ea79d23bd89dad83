//! The columns of CSV and lines files, by definitions over whole files.
#![tactic(auto)]

mod csv_columns;
mod fault;
mod line_pieces;
mod loading;
mod made;
mod naming;
mod rows;
mod value;

pub use csv_columns::{int_column, text_column};
pub use fault::{DataFault, DataKind, LoadFault};
pub use line_pieces::lines;
pub use loading::load;
pub use made::make_csv;
pub use naming::file_of_column;
