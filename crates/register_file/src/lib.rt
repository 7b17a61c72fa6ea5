//! The registers of the Intel 82599 as the device core stores them: their values, the enable requests for the queues'
//! sides, and the interrupt causes that messages have reported.
//!
//! Contracts view a `RegisterFile` as `Registers`: the values of each row at its indices, the enable requests of each
//! queue, and the reported causes of each group. `read` and `write` access a place according to the kind of its row. A
//! write changes the bits that the kind allows. Reading a counter resets it to 0, except for a virtual function's
//! counters. Accesses to a group's interrupts go through `intr_unit`, using the values of the group's registers. `peek`
//! returns what a read would return, without its side effects; `word` returns the stored value.
//!
//! The remaining calls serve the device core. They query a queue (its ring, whether it is enabled, its counter), a pool
//! (its queues, whether it is enabled) or single bits. They also move a head, enable a side of a queue, increment a
//! counter, complete an EEPROM read, and reset a pool. The caller passes the link state and the EEPROM size, which
//! calculated registers report, as `Surroundings`. The definitions are in `specs/`.
//!
//! `Cells` stores the registers that reset to 0: a single register in a field, a row in an array. These registers have
//! their own structs: the queues' sides, the interrupt groups, the hash key, and registers that a pool reset or a full
//! reset treats specially. `cell` and `set_word` map each row to its field. This crate doesn't allocate. Laws about the
//! registers as a whole are in `register_laws`.
//!
//! Source: Intel 82599 datasheet, sections on the device registers.
#![tactic(auto)]

mod access;
mod banks;
mod bits;
mod cells;
mod copying;
mod counters;
mod eeprom;
mod groups;
mod hashing;
mod interrupts;
mod mailbox;
mod owner;
mod pools;
mod queue;
mod register_file;
mod settings;
mod side;
mod surroundings;
mod words;

pub use access::{asks_pool_reset, asks_reset};
pub use dma_ring::Dir;
pub use intr_unit::Group;
pub use owner::{Owner, owner_of};
pub use reg_table::{Bank, Place, RowId, addr_of, bank_of, place_of, resolve};
pub use register_file::RegisterFile;
pub use rss_hash::{Input, Key, QueueMode, choose, choose_bytes, classify, entry, hash};
pub use surroundings::Surroundings;
pub use vf_map::{
    Located, MAX_VFS, Mode, QUEUES, has_queue, locate, mode_of, pool_of, queue_in, queues_of,
};
