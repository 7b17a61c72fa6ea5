//! The machine that runs a program of the register-script language on a device.
//!
//! A `Machine` owns a device and 256 blocks of packet memory, and executes one instruction per step. In contracts, a
//! machine is its program, the configuration of its device and a state; after n counted steps this state is
//! `machine_at` n. One definition, `action_of`, lists the action of each instruction. The debugger and `nicbench`
//! depend on this crate.
#![tactic(auto)]

mod action;
pub mod laws;
mod machine;
mod processor;
mod snapshot;

pub use machine::{BLOCKS, Machine, NewRefused, Status, StepAnswer};
pub use snapshot::MachineSnapshot;
