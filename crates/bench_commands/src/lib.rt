//! The program `nicbench`, for any reader and writer.
//!
//! `asked` parses the arguments of a command line with clap. The contract of `asked` defines exactly which arguments
//! make which request, and says that all other arguments are refused. `answer` takes the request of a command line,
//! reads all input and writes the answer. The contract of `answer` (`IsAnswerTo`) defines the output and the status for
//! each request and input. `bench` reads the arguments, calls `answer`, and returns a status in every case. The
//! program's `main` depends on this crate.
#![tactic(auto)]

mod answering;
mod app;
mod commands;
mod debug_options;
mod eeprom;
mod ending;
pub mod examples;
mod failure;
mod hashing;
mod input;
mod objects;
mod output;
mod parse;
mod reading;
mod refusal;
mod reply;
mod request;
mod run_options;
mod script_run;
mod session;
mod status;
mod steps;
mod threads_options;
mod view;

pub use answering::answer;
pub use debug_options::DebugOptions;
pub use ending::{Outcome, bench};
pub use failure::Failure;
pub use input::{Input, READS};
pub use output::Output;
pub use parse::asked;
pub use reading::{BYTES, InputFault, read_input};
pub use refusal::Refusal;
pub use request::{Asked, BytesRequest, Request, TextRequest};
pub use run_options::RunOptions;
pub use status::{DONE, FAILED, NO_MEMORY, NOT_ENDED, REFUSED_WORDS};
pub use threads_options::ThreadsOptions;
