//! Where a received frame goes: the address filter, the pool, and the queue.
//!
//! [`sort`] makes three decisions from the registers. It decides whether the frame's destination address is accepted
//! (RAL and RAH, MTA, FCTRL). It decides which pool receives the frame (MPSAR, VT_CTL, VFRE). It decides which queue
//! receives the frame (MRQC, GCR_EXT, and the frame's RSS hash with RSSRK and RETA). The definitions are in `specs/`.
//! No call allocates. The device core depends on this crate.
//!
//! Source: Intel 82599 datasheet, sections on packet filtering and on receive queue assignment.
#![tactic(auto)]

mod address;
mod fields;
mod laws;
mod pools;
mod sorting;
mod target;
mod unwanted;

pub use laws::{
    broadcast_is_let_in, fields_stand_at_their_bits, filtered_is_not_let_in, functions_get_theirs,
    multicast_is_let_in, off_pools_get_none, pool_is_the_lowest_of_the_first_match,
    pools_beyond_get_none, queue_is_by_the_mode, reset_refuses_all, single_queue_is_queue_0,
    unicast_is_let_in,
};
pub use pools::uses_pools;
pub use sorting::sort;
pub use target::Target;
pub use unwanted::Unwanted;
