//! Tests that cross crates: commands, programs, and all ways to run a finish.
#![tactic(auto)]

#[cfg(test)]
mod checks;
#[cfg(test)]
mod column_rows;
#[cfg(test)]
mod commands;
#[cfg(test)]
mod data_commands;
#[cfg(test)]
mod families;
#[cfg(test)]
mod finish_rows;
#[cfg(test)]
mod jobs;
#[cfg(test)]
mod limits;
#[cfg(test)]
mod making;
#[cfg(test)]
mod programs;
#[cfg(test)]
mod refused;
#[cfg(test)]
mod serving;
#[cfg(test)]
mod spine_rows;
#[cfg(test)]
mod ways;
