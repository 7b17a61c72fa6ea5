//! The commands of a debugger, and their results.

use machine::Status;
use thiserror::Error;

/// A command to a debugger.
#[derive(Clone, Copy, Debug, PartialEq, Eq)]
pub enum Command {
    /// Takes this many steps, or fewer if the machine stops earlier.
    Step(u64),
    /// Goes back this many steps.
    Back(u64),
    /// Runs on for at most this many steps. The run ends early if the machine stops or if, after at least one step, the
    /// next instruction has a breakpoint.
    Continue(u64),
    /// Sets a breakpoint at the instruction with this number. If this breakpoint is already set, nothing changes.
    Break(u32),
    /// Removes the breakpoint at the instruction with this number.
    Clear(u32),
    /// Shows what a read of this address through the physical function would return, without the read's side effects.
    Show(u32),
    /// Shows what a read of this offset through this virtual function would return, without the read's side effects.
    ShowVf(u8, u32),
}

/// The state of a debugger's machine after a command.
#[derive(Clone, Copy, Debug, PartialEq, Eq)]
pub struct View {
    /// The number of steps taken.
    pub steps: u64,
    /// The number of the next instruction, counted from 0, or the number of the instruction at which the machine
    /// stopped.
    pub pc: u16,
    /// The accumulator: the last value that was read or peeked, with each later `and` applied.
    pub acc: u32,
    /// Whether the machine runs, has ended, or has failed.
    pub status: Status,
    /// The value that a show command requested. `None` if no register is at the address, and after other commands.
    pub shown: Option<u32>,
}

/// Why a command was refused. The debugger is unchanged, except that a `Step` or `Continue` that runs out of memory has
/// taken the steps before the refused one.
#[derive(Clone, Copy, Debug, PartialEq, Eq, Error)]
pub enum DebugRefusal {
    /// The command would go back more steps than the machine has taken.
    #[error("before the first step")]
    AtStart,
    /// The program has no instruction with this number, or there is no breakpoint to clear.
    #[error("no such instruction")]
    NoSuchPc,
    /// 32 breakpoints are already set.
    #[error("too many breakpoints")]
    TooManyBreaks,
    /// There isn't enough memory for a step, or for running again from an earlier state.
    #[error("out of memory")]
    OutOfMemory,
}
