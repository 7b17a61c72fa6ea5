//! Programs of the register-script language: instructions and data strings, and their encoding as bytes.
//!
//! An [`Instruction`] is generic over jump targets and data strings: a script refers to both by name, a program by
//! number. Contracts see a [`Program`] as a `Listing`. `IsListing` states what holds for every program: the program is
//! within its limits, and everything to which an instruction refers exists. `script_asm` assembles programs from
//! scripts, and `machine` runs them. An object is a program encoded as bytes: [`Program::to_bytes`] encodes a program
//! as an object, and [`read`] decodes an object.
#![tactic(auto)]

mod fault;
mod fields;
mod instruction;
mod laws;
mod meaning;
mod memory;
mod numbers;
mod program;
mod reading;
mod writing;

pub use dma_arena::{Arena, BLOCK_BYTES, Buf, LentMemory, Octets};
pub use dma_ring::{Dir, RingFault};
pub use fault::ObjectFault;
pub use instruction::Instruction;
pub use intr_unit::Group;
pub use laws::{first_fault_decides, instructions_decide, objects_read_back};
pub use memory::OutOfMemory;
pub use program::{DATA_BYTES, DATA_LIMIT, INSTRUCTION_LIMIT, Program};
pub use reading::read;
pub use vf_map::MAX_VFS;
