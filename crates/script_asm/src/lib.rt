//! Register scripts: their source, their programs and objects, and the machine that runs a program.
//!
//! `assemble` turns a source into a `Program`, and `disassemble` turns a program into a source. The crate re-exports
//! items from two others: `program`, which defines programs and their objects, and `machine`, which runs a program on a
//! device.
//!
//! `program_of` defines, line by line, the program that a source means. `text_of` defines the source that a program
//! disassembles to. `nicbench` and the debugger depend on this crate.
#![tactic(auto)]

mod assembly;
mod disassembly;
mod faults;
mod laws;
mod names;
mod operations;
mod places;
mod printing;
mod sheet;
mod statements;
mod targets;

pub use assembly::{assemble, assemble_before};
pub use disassembly::disassemble;
pub use faults::{LineFault, ScriptFault};
pub use laws::{
    faults_come_in_order, first_fault_decides, names_have_their_places, program_is_what_lines_say,
    texts_read_back,
};
pub use machine::{BLOCKS, Machine, MachineSnapshot, NewRefused, Status, StepAnswer};
pub use program::{
    DATA_BYTES, DATA_LIMIT, INSTRUCTION_LIMIT, Instruction, ObjectFault, OutOfMemory, Program, read,
};
pub use targets::target;
