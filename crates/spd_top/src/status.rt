/// The program ran to its end.
pub const DONE: u8 = 0;

/// The program's text is refused.
pub const PROGRAM_REFUSED: u8 = 1;

/// The words are refused.
pub const WORDS_REFUSED: u8 = 2;

/// The program ended with a fault.
pub const PROGRAM_FAULTED: u8 = 3;

/// A file could not be read.
pub const READ_FAILED: u8 = 4;

/// Standard output or standard error failed.
pub const WRITE_FAILED: u8 = 5;

/// A file of data is refused.
pub const DATA_REFUSED: u8 = 6;

/// Memory ran out.
pub const OUT_OF_MEMORY: u8 = 7;
