//! The transmit rings of the Intel 82599: fetching one descriptor.
//!
//! [`fetch`] processes the slot at the head of a ring. First it tests what the descriptor requests and whether the
//! memory that this needs is lent. Then it stages the bytes of the descriptor's buffer, returns the frame at the end of
//! a packet, and writes back a requested report, all in one call. `specs/Fetch.antt` defines the result of `fetch`, and
//! the memory and staged bytes after the call; `laws` states what a driver can rely on. The ring itself is in
//! `dma_ring`, and the device depends on this crate. Only a frame's bytes are allocated.
//!
//! Source: Intel 82599 datasheet, sections on transmit descriptor rings and on advanced transmit descriptors.
#![tactic(auto)]

mod fetched;
pub mod laws;
mod refused;
mod slot;
mod staged;
mod tx;

pub use dma_ring::{Ring, RingFault};
pub use fetched::Fetched;
pub use refused::TxRefused;
pub use slot::fetch;
pub use staged::Staged;
pub use tx::Tx;
