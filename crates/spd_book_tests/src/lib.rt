//! Tests of the books: bodies that offer and fault over one table, a step at a time, beside a plain model of
//! what each finish is to give and of what is still owed to it.
#![tactic(auto)]

mod crew;
mod given;

pub use crew::Team;
pub use given::{Given, fault, nothing, read, value};

#[cfg(test)]
mod explorer;
#[cfg(test)]
mod making;
#[cfg(test)]
mod model;
#[cfg(test)]
mod rows;
#[cfg(test)]
mod scripts;
#[cfg(test)]
mod steps;
#[cfg(test)]
mod threads;
