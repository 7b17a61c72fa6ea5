//! The exit statuses of the program.

/// The complete answer was written.
pub const DONE: u8 = 0;

/// The script's machine was still running at the step limit, or an `expect` failed.
pub const NOT_ENDED: u8 = 1;

/// The input was refused, or a read or a write failed.
pub const FAILED: u8 = 2;

/// The command line was refused.
pub const REFUSED_WORDS: u8 = 3;

/// Memory ran out.
pub const NO_MEMORY: u8 = 4;
