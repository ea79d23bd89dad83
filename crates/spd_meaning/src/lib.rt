//! What a program means, said of its source tree by its own names: definitions and lemmas, and no
//! function.
#![tactic(auto)]
