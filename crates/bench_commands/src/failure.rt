//! Why an answer wasn't completed.
ghost use Rattle.std.specs.Prelude.{◌≡◌};
ghost use Rattle.bench_commands.specs.declared.failure.Failure.TheVariants.{OutOfMemory};

use std::alloc::AllocError;

/// Why an answer wasn't completed.
#[derive(Clone, Copy, Debug, PartialEq, Eq)]
pub enum Failure {
    /// A read failed, or the input didn't end within `READS` reads.
    Read,
    /// A write to the output failed.
    Write,
    /// There wasn't enough memory for the answer.
    OutOfMemory,
}

impl From<AllocError> for Failure {
    ghost from_gives = { λ _ e. e ≡ OutOfMemory };

    fn from(_error: AllocError) -> Failure {
        Failure::OutOfMemory
    }
}
