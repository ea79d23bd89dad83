// The arguments of the process.
ghost use Rattle.std.specs.Prelude.{None};

use crate::arguments::Arguments;
use spd_list::Seq;
use std::alloc::{AllocError, Global};
use std::env::FillError;
use std::rt::Env;

/// The arguments that the process was started with, as their bytes are. It tells nothing of them.
#[derive(Drop)]
pub struct ProcessArguments<'a, R: Env> {
    process: &'a R,
}

impl<'a, R: Env> ProcessArguments<'a, R> {
    /// The arguments of a process.
    pub fn new(process: &'a R) -> ProcessArguments<'a, R> {
        ProcessArguments { process }
    }
}

impl<'a, R: Env> Arguments for ProcessArguments<'a, R> {
    ghost told = { λ _. None };

    fn argument(&self, alloc: Global, number: u32) -> Result<Option<Seq<u8>>, AllocError> {
        let mut buffer = Vec::new(alloc);
        for doublings in 8..usize::BITS {
            buffer.resize(1usize << doublings, 0)?;
            match self.process.arg(number as usize, &mut buffer) {
                Ok(length) => return Ok(Some(Seq::from_slice(alloc, &buffer[..length])?)),
                Err(FillError::NotPresent) => return Ok(None),
                Err(FillError::TooLong) => {}
            }
        }
        Err(AllocError)
    }
}

#[cfg(test)]
mod tests;
