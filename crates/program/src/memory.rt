//! The error of calls that run out of memory.

use thiserror::Error;

/// Memory ran out for a program, its source, or a step of the machine that runs it. Nothing changed.
#[derive(Clone, Copy, Debug, PartialEq, Eq, Error)]
#[error("out of memory")]
pub struct OutOfMemory;
