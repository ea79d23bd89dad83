//! Tests of the crates of program texts: tokens, first faults, canonical texts, and texts that are read, printed and read again.
#![tactic(auto)]

#[cfg(test)]
mod bytes;
#[cfg(test)]
mod expected;
#[cfg(test)]
mod faults;
#[cfg(test)]
mod levels;
#[cfg(test)]
mod limits;
#[cfg(test)]
mod literals;
#[cfg(test)]
mod operands;
#[cfg(test)]
mod pieces;
#[cfg(test)]
mod printing;
#[cfg(test)]
mod tokens;
#[cfg(test)]
mod trees;
#[cfg(test)]
mod words;
