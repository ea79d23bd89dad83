//! What it means that a count was raised: a definition for the crates whose answers have counts for a cause.
#![tactic(auto)]
