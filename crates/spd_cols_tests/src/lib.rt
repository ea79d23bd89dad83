//! Tests of columns over bytes that are written by hand: their entries, and the first fault of each file.
#![tactic(auto)]

#[cfg(test)]
mod int_columns;
#[cfg(test)]
mod large;
#[cfg(test)]
mod line_files;
#[cfg(test)]
mod loads;
#[cfg(test)]
mod made_files;
#[cfg(test)]
mod text_columns;
