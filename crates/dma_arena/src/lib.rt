//! Packet memory: 2,048-byte blocks, and the bus through which the device reads and writes them.
//!
//! At any time, a block is in one place: free in an [`Arena`], owned as a [`Buf`] or in a [`Run`], or lent to the
//! device in a [`LentMemory`]. There, bus address `a` is byte `a % 2048` of block `a / 2048`. An [`Octets`] stores
//! bytes, for example those of a frame.
//!
//! In contracts, an arena is its numbers, each free or in use (`specs/Numbers.antt`), and lent memory is a map from
//! block number to bytes (`specs/Memory.antt`). The laws about arenas and lent memory are in `laws`; `proofs/` contains
//! lemmas that state the same facts. The rings, the device and the script machine depend on this crate.

#![tactic(auto)]

mod arena;
mod buf;
mod ending;
mod free_list;
pub mod laws;
mod lent;
mod links;
mod octets;
mod ranges;
mod raw;
mod run;
mod table;

pub use arena::{Arena, ArenaFault, BLOCK_NUMBERS, SplitFault, SplitRefused};
pub use buf::{BLOCK_BYTES, BlockBox, Buf};
pub use ending::leave;
pub use lent::{LendRefused, LentMemory};
pub use octets::Octets;
pub use run::Run;
