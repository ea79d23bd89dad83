//! Tests of what a worker is handed: coins, and ready vertices on one thread and on several.
#![tactic(auto)]

#[cfg(test)]
mod coins;
#[cfg(test)]
mod lanes;
#[cfg(test)]
mod lists;
#[cfg(test)]
mod piles;
#[cfg(test)]
mod threads;
