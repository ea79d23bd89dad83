//! What a program gets from its process: its arguments, the files of its working folder, and its
//! standard streams.
#![tactic(auto)]

mod arguments;
mod dir_shelf;
mod process_arguments;
mod size_limit;
mod std_stream;

pub use arguments::{Arguments, all_arguments};
pub use dir_shelf::DirShelf;
pub use process_arguments::ProcessArguments;
pub use size_limit::SizeLimit;
pub use std_stream::{StdErr, StdOut, StdStream};
