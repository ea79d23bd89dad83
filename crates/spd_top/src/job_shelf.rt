// The files of a job: the built-in program, and the file that it reads.

ghost use Rattle.std.specs.Prelude.{◌≡◌, ◌≤◌, IfOk};
ghost use Rattle.spd_io.specs.Shelf.{Holds};
ghost use Rattle.spd_top.specs.BuiltIn.{job_files, job_program, job_shelf};

use spd_cols::make_csv;
use spd_io::{Shelf, ShelfFault};
use std::alloc::{AllocError, Global};

/// The name by which the built-in program is read and told of.
pub(crate) const JOB_NAME: &str = "job.sp";

/// The built-in program: by halves it adds up the prices of a file, and finds the least and the greatest.
const JOB_PROGRAM: &[u8] = b"column price: int from \"job.csv\" field \"price\";
task add(lo, hi) {
  if hi - lo < 2 {
    if lo < hi { offer price[lo]; }
  } else {
    let mid = (lo + hi) / 2;
    async { run add(lo, mid); }
    run add(mid, hi);
  }
}
main {
  print \"rows \", len(price);
  let s = finish sum { run add(0, len(price)); }
  print \"sum \", s;
  let l = finish least { run add(0, len(price)); }
  print \"least \", l;
  let g = finish greatest { run add(0, len(price)); }
  print \"greatest \", g;
}
";

/// The text of the built-in program.
#[tactic(auto, unfolding(crate::specs::BuiltIn::job_program))]
fn job_program() -> &'static [u8]
    ensures { result.now ≡ job_program }
{
    JOB_PROGRAM
}

/// The built-in program and the file that it reads, which has so many rows and is made from a seed when it
/// is read.
#[derive(Drop)]
pub(crate) struct JobShelf {
    rows: u32,
    seed: u32,
    ghost within: { rows ≤ 1000000 },
}

impl JobShelf {
    /// The files of a job over so many rows, at most 1,000,000.
    pub(crate) fn new(rows: u32, seed: u32) -> JobShelf
        requires { rows ≤ 1000000 }
        ensures { (result.rows ≡ rows) × (result.seed ≡ seed) }
    {
        JobShelf { rows, seed }
    }

    /// The file of a name. The built-in program reads no file but these two.
    fn file(&self, alloc: Global, name: &str) -> Result<Vec<u8>, AllocError>
        ensures { IfOk result (λ file. job_files self.now.rows self.now.seed name.now ≡ Holds file.items) }
    {
        match name {
            "job.sp" => {
                let program = Vec::from_slice(alloc, job_program())?;
                Ok(program)
            }
            "job.csv" => {
                let file = make_csv(alloc, self.rows, self.seed)?;
                Ok(file)
            }
            _ => Err(AllocError),
        }
    }
}

impl Shelf for JobShelf {
    ghost state = { λ shelf. job_shelf shelf.rows shelf.seed };

    fn read(&mut self, alloc: Global, name: &str, limit: usize) -> Result<Vec<u8>, ShelfFault> {
        match self.file(alloc, name) {
            Ok(file) if file.len() <= limit => Ok(file),
            Ok(_) => Err(ShelfFault::TooLong),
            Err(_) => Err(ShelfFault::NoMemory),
        }
    }
}
