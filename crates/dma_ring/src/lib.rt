//! The descriptor rings of the Intel 82599: what receive and transmit rings have in common.
//!
//! A ring is a list of slots in bus memory, 16 bytes each. The device owns the slots from the head up to, but not
//! including, the tail. After the last slot, the ring continues at slot 0. This crate defines the slots, their
//! addresses, and the named fields of their descriptors; `rx_ring` fills descriptors and `tx_ring` fetches them. No
//! call allocates.
//!
//! Source: Intel 82599 datasheet, sections on receive and transmit descriptor rings and on advanced descriptors.
#![tactic(auto)]

mod bits;
mod descriptor;
mod dir;
mod driver;
mod fault;
pub mod laws;
mod receive;
mod ring;
mod transmit;

pub use descriptor::{first_half, of_halves, second_half};
pub use dir::Dir;
pub use driver::{
    data_descriptor_word, is_last, is_sent, is_written_back, posted_word, reported_hash,
    reported_length, reported_rss,
};
pub use fault::RingFault;
pub use laws::available_slots_follow_the_head;
pub use receive::{Packet, buffer_address, done_word, packet_word};
pub use ring::{DESCRIPTOR_BYTES, Ring};
pub use transmit::{Command, command_in, done};
