//! The virtual functions of the Intel 82599: which register of the device an offset in a virtual function's register
//! space reaches.
//!
//! GCR_EXT divides the 128 queues into 16, 32 or 64 pools, and virtual function v has pool v. [`mode_of`],
//! [`queues_of`], [`pool_of`] and [`queue_in`] compute this division. [`locate`] maps a function's offsets to registers
//! of the device, following a table in `specs/Map.antt`; [`map`] returns their addresses, from the register table.
//! `specs/Owner.antt` defines which registers belong to a pool. No call allocates. The registers and the device core
//! depend on this crate.
//!
//! Source: Intel 82599 datasheet, section on the registers of virtual functions, with this project's profile.
#![tactic(auto)]

mod laws;
mod located;
mod mapped;
mod mapping;
mod mode;
mod pools;

pub use laws::{
    addresses_are_aligned, addresses_read_back, each_queue_has_one_pool, functions_are_apart,
    offsets_have_one_register, pool_is_where_the_queue_is, pools_are_apart,
    queue_registers_are_there, registers_are_the_pools,
};
pub use located::Located;
pub use mapped::Mapped;
pub use mapping::{locate, map};
pub use mode::Mode;
pub use pools::{MAX_VFS, QUEUES, has_queue, mode_of, pool_of, queue_in, queues_of};
