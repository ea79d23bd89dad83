// Arguments of any length, of a process that the test makes up.

use super::*;
use std::test::Fail;

/// A process of these arguments, which needs room for a whole argument.
#[derive(Drop)]
struct Started<'a> {
    arguments: &'a [&'a [u8]],
}

impl<'a> Env for Started<'a> {
    fn arg(&self, i: usize, buf: &mut [u8]) -> Result<usize, FillError> {
        let Some(argument) = self.arguments.get(i) else {
            return Err(FillError::NotPresent);
        };
        let Some(room) = buf.get_mut(..argument.len()) else {
            return Err(FillError::TooLong);
        };
        room.copy_from_slice(argument);
        Ok(argument.len())
    }

    fn var(&self, _name: &str, _buf: &mut [u8]) -> Result<usize, FillError> {
        Err(FillError::NotPresent)
    }

    fn var_at(&self, _i: usize, _buf: &mut [u8]) -> Result<usize, FillError> {
        Err(FillError::NotPresent)
    }
}

#[test]
fn arguments_of_any_length_are_read_as_they_are(rt: HostRuntime) -> Result<(), Fail> {
    let alloc = rt.alloc();
    let long = [b'x'; 1000];
    let exact = [b'y'; 256];
    let all: [&[u8]; 4] = [b"\xffspd", &long, b"", &exact];
    let process = Started { arguments: &all };
    let arguments = ProcessArguments::new(&process);
    for number in 0..4u32 {
        let argument = arguments.argument(alloc, number)?;
        let bytes = argument.as_ref().map(|bytes| bytes.as_slice());
        assert_eq!(rt; bytes, Some(all[number as usize]), "argument {number}");
    }
    assert!(rt; arguments.argument(alloc, 4)?.is_none());
    Ok(())
}
