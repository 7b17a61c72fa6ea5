//! The receive rings of the Intel 82599: filling one descriptor.
//!
//! [`fill`] fills the slot at the head of a ring. First it tests the queue's registers, and whether the descriptor and
//! the buffer's bytes are lent. Then it writes the next bytes of a frame into the descriptor's buffer and writes back
//! the descriptor, all in one call. `specs/Fill.antt` defines the result of `fill` and the memory after the call;
//! `laws` states what a driver can rely on. The ring itself is in `dma_ring`, and the device depends on this crate. No
//! call allocates.
//!
//! Source: Intel 82599 datasheet, sections on receive descriptor rings and on advanced receive descriptors.
#![tactic(auto)]

mod control;
mod filled;
mod item;
pub mod laws;
mod slot;

pub use dma_arena::{
    Arena, BLOCK_BYTES, BLOCK_NUMBERS, BlockBox, Buf, LendRefused, LentMemory, Octets, Run, leave,
};
pub use dma_ring::{
    Dir, Packet, Ring, RingFault, data_descriptor_word, first_half, is_last, is_sent,
    is_written_back, of_halves, packet_word, posted_word, reported_hash, reported_length,
    reported_rss, second_half,
};
pub use filled::Filled;
pub use item::Item;
pub use slot::fill;
