//! Tests of `run`, on so many workers and within so many moves: it answers what the elision is defined to give.
#![tactic(auto)]

#[cfg(test)]
mod arguments;
#[cfg(test)]
mod counts;
#[cfg(test)]
mod logs;
#[cfg(test)]
mod options;
#[cfg(test)]
mod rows;
#[cfg(test)]
mod running;
