//! How the driver reaches the device.
//!
//! The trait `Nic` is a driver's access to the device: each call first applies some events, then the caller's event.
//! Three types implement `Nic`. `Direct` uses a device in hand, and `ThroughLock` uses a pass to a shared device; both
//! run the device steps of the driver's queue before a call. `Interleaved` applies given lists of foreign events
//! instead. In contracts, the events applied through a `Nic` are its list of calls.
//!
//! The other modules build on `Nic`. `accesses.rt` contains the accesses that a driver makes, each with the replies
//! that it can get. `pf_setup` sets up the whole device. A `Queue` computes the numbers of its registers at a port, and
//! prepares, enables and disables its sides. `slots.rt` computes the slots, addresses and blocks of a ring, and a
//! `Bufs` is the list of a packet's Bufs. A `Reclaim` returns blocks to their arena.
#![tactic(auto)]

mod accesses;
mod both;
mod bufs;
mod direct;
mod fault;
mod frames;
mod handled;
mod history;
mod home;
mod interleaved;
mod names;
mod nic;
mod packet;
mod registers;
mod setup;
mod sides;
mod slots;
mod through_lock;

pub use accesses::{lend, peek, poke, read, take, write};
pub use bufs::{Bufs, MOST_BUFS, bytes_in};
pub use device_lock::{
    Arena, BLOCK_BYTES, BLOCK_NUMBERS, Buf, Call, CallFault, Calls, CloseFault, CloseRefused,
    Closed, Dir, Entry, Event, EventNote, Made, Mode, NewFault, Octets, Pass, Place, Port, QUEUES,
    Reply, RowId, Settings, Shared, Watched, Why, data_descriptor_word, first_half, is_last,
    is_sent, is_written_back, leave, left_alone, of_halves, place_at, posted_word, queues_of,
    reported_hash, reported_length, reported_rss, second_half,
};
pub use direct::Direct;
pub use fault::{PmdFault, without_event};
pub use frames::{LONGEST_FRAME, SHORTEST_FRAME, is_frame, most_blocks, packet_limit};
pub use history::{history_of, marked_history};
pub use home::Reclaim;
pub use interleaved::{Finished, Interleaved};
pub use names::Queue;
pub use nic::Nic;
pub use packet::{Packet, Record, fresh_packet, give_bufs, give_packet};
pub use registers::Access;
pub use setup::{Setting, Setup, pf_setup, set};
pub use sides::POLLS;
pub use slots::{blocks_for, descriptor_address, is_ring_block, next_slot, slot_after};
pub use through_lock::ThroughLock;
