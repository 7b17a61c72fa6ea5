//! The device core of the bench: the Intel 82599 as a driver sees it through its registers, one event at a time.
//!
//! Contracts view a `Device` as a `State`. A `State` contains the registers, the memory lent to the device, the frames
//! in the receive list, and the bytes staged by the transmit queues. It also contains the transmitted frames not yet
//! collected, whether the link is up, and the EEPROM image. `Device::install` replaces the image. `Device::step` runs
//! one `Event` and returns a `Reply`, as the definition `step_of` specifies. `Device::run` runs a list of events.
//! `Device::peek_register`, `Device::peek_vf` and `Device::next_out` inspect the device without side effects. Between
//! two events a device is sound; see `Device::stays_sound`.
//!
//! `Engine` holds the device's parts and runs the events. The definitions are in `specs/`, one file per family of
//! events. The code is in files with the same names. The script machine, the debugger, the lock and the driver depend
//! on this crate.
//!
//! Source: Intel 82599 datasheet, sections on the receive and transmit functions, on interrupts, on virtualization and
//! on the device registers.
#![tactic(auto)]

mod access;
mod arrival;
mod bus;
mod config;
mod copies;
mod device;
mod eeprom;
mod engine;
mod event;
mod interrupt;
mod lending;
mod link;
mod named;
mod notes;
mod notes_holding;
mod notes_shared;
mod notes_trimming;
mod pools;
mod receive;
mod resting;
mod runs;
mod snapshot;
mod state_copy;
mod switching;
mod transmit;
mod waiting;

pub use config::{Config, MAX_FIFO, NewFault};
pub use device::{Device, Parts};
pub use eeprom_image::{AsmFault, Image, LoadFault, assemble, load};
pub use event::{Event, EventNote, Note, OutOfMemory, Port, Reply, ReplyNote, Why};
pub use named::Named;
pub use notes_shared::Notes;
pub use register_file::{
    Bank, Group, Key, Located, MAX_VFS, Mode, Place, QUEUES, RowId, addr_of, asks_pool_reset,
    asks_reset, bank_of, has_queue, hash, locate, mode_of, place_of, queues_of,
};
pub use runs::RunStop;
pub use rx_ring::{
    Arena, BLOCK_BYTES, BLOCK_NUMBERS, BlockBox, Buf, Dir, LentMemory, Octets, RingFault, Run,
    data_descriptor_word, first_half, is_last, is_sent, is_written_back, leave, of_halves,
    posted_word, reported_hash, reported_length, reported_rss, second_half,
};
pub use snapshot::{RestoreRefused, Snapshot};
