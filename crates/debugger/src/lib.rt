//! A debugger for register scripts, with steps forward and back, breakpoints, and views of registers.
//!
//! Contracts see a `Debugger` as a `Session`: its program, the configuration of its device, a number of steps and the
//! breakpoints. The state that a debugger shows is always `machine_at` this number of steps, whichever commands were
//! executed before. `Debugger::exec` executes a `Command` as `command_of` defines. `nicbench` depends on this crate.
#![tactic(auto)]

mod breakpoints;
mod command;
mod debugger;
pub mod laws;
mod running;
mod snapshots;
mod source;

pub use breakpoints::BREAK_LIMIT;
pub use command::{Command, DebugRefusal, View};
pub use debugger::Debugger;
pub use machine::{NewRefused, Status};
