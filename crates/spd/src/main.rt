//! The program `spd`: takes its words from the arguments, its files from the working folder, and
//! puts to the standard streams. Its workers are threads.
#![tactic(auto)]

use spd_process::{DirShelf, ProcessArguments, SizeLimit, StdErr, StdOut, all_arguments};
use spd_top::serve_arguments;
use std::process::ExitCode;

fn main(rt: HostRuntime) -> ExitCode {
    let alloc = rt.alloc();
    let arguments = all_arguments(alloc, &ProcessArguments::new(&rt));
    let mut shelf = DirShelf::new(alloc, &rt);
    let mut out = StdOut::new(rt.stdout(), SizeLimit::of_output(&rt));
    let mut err = StdErr::new(rt.stderr(), SizeLimit::of_errors(&rt));
    // Named, so that neither sink can stand for the other.
    let status = serve_arguments::<_, _, StdOut<_>, StdErr<_>>(
        &rt, alloc, arguments, &mut shelf, &mut out, &mut err,
    );
    ExitCode::from(status)
}
