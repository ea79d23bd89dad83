// Reading a row's words.

use spd_command::{Command, CommandError, read_command};
use std::alloc::{AllocError, AllocGlobal, Global};
use std::process::Abort;
use std::test::Fail;

/// The words of a row, as a program is given them.
pub(crate) fn strings_of(alloc: Global, words: &[&str]) -> Result<Vec<String>, AllocError> {
    let mut strings = Vec::new(alloc);
    for word in words {
        strings.push(String::from_str(alloc, word)?)?;
    }
    Ok(strings)
}

/// Expects that each of these lists of words is refused.
pub(crate) fn expect_refused(
    rt: &(impl Abort + AllocGlobal),
    rows: &[&[&str]],
) -> Result<(), Fail> {
    for words in rows {
        let strings = strings_of(rt.alloc(), words)?;
        let read = read_command(rt.alloc(), strings.as_slice());
        assert!(rt;
            matches!(read, Err(CommandError::Refused)),
            "of {words:?}: {read:?}"
        );
    }
    Ok(())
}

/// Expects that each of these lists of words asks for the command beside it.
pub(crate) fn expect_asked(
    rt: &(impl Abort + AllocGlobal),
    rows: &[(&[&str], Command)],
) -> Result<(), Fail> {
    for (words, command) in rows {
        let strings = strings_of(rt.alloc(), words)?;
        let read = read_command(rt.alloc(), strings.as_slice());
        assert_eq!(rt; read, Ok(*command), "of {words:?}");
    }
    Ok(())
}
