//! Tests of the checks over program texts: the first fault of each, with its line.
#![tactic(auto)]

#[cfg(test)]
mod coding;
#[cfg(test)]
mod faults;
#[cfg(test)]
mod orders;
