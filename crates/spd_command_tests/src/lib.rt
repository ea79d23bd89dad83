//! Tests of command lines: which lists of words are refused, and what the others ask for.
#![tactic(auto)]

#[cfg(test)]
mod asked;
#[cfg(test)]
mod lines;
#[cfg(test)]
mod numbered;
#[cfg(test)]
mod refused;
