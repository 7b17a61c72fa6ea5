//! The commands of `nicbench`, for any reader and writer.
//!
//! `bench_commands`, which reads the input and writes the output, is re-exported. With `nicbench threads`, workers
//! drive queues of one device, each on a separate thread. `bench_threads` shares a device, sets it up, and delivers
//! frames while the workers receive them and send them back. Then it closes the history, and prints a summary of each
//! queue. The program's `main` depends on this crate.
#![tactic(auto)]

mod ending;
mod frames;
mod gathered;
mod jobs;
mod refused;
mod summary;
mod threads;

pub use bench_commands::{
    BYTES, DONE, FAILED, Failure, Input, InputFault, NO_MEMORY, NOT_ENDED, Outcome, Output, READS,
    REFUSED_WORDS, Refusal, answer, bench, read_input,
};
pub use frames::{OVER_IPV4, OVER_IPV6};
pub use jobs::KEY;
pub use threads::bench_threads;
