//! A device that threads share under a lock, with the history of their calls.
//!
//! `Shared::new` returns a shared device and one `Pass` for each caller. `Shared::call` applies one event under the
//! lock: it appends one `Entry` to the history and one `Call` to the pass, or changes nothing. The lock protects a
//! `Locked`. The type `Locked` guarantees that the history is legal from a new device and leads to the device's state.
//! `Shared::close` takes back all passes and returns the one history, which contains each pass's calls in order. The
//! closed history is in an `Unlocked`, with a separate entry for each call. `Calls` are the calls made to a device in
//! hand, or the calls made by one pass. The driver and the bench's threads depend on this crate.
#![tactic(auto)]

mod alone;
mod calls;
mod closed;
mod compare;
mod entry;
mod fault;
pub mod laws;
mod locked;
mod noting;
mod packed;
mod pass;
mod positions;
mod reported;
mod resting;
mod shared;
mod stepping;
mod unlocked;

pub use alone::{Watched, left_alone, place_at};
pub use calls::{Calls, Made};
pub use closed::Closed;
pub use entry::{Call, Entry};
pub use fault::{CallFault, CloseFault, NewFault};
pub use locked::Locked;
pub use nic_device::{
    Arena, BLOCK_BYTES, BLOCK_NUMBERS, Buf, Device, Dir, Event, EventNote, Mode, Octets,
    OutOfMemory, Place, Port, QUEUES, Reply, RowId, Why, addr_of, data_descriptor_word, first_half,
    is_last, is_sent, is_written_back, leave, of_halves, posted_word, queues_of, reported_hash,
    reported_length, reported_rss, second_half,
};
pub use packed::{Packed, Rested};
pub use pass::Pass;
pub use reported::{Frames, Settings};
pub use resting::IdleSteps;
pub use shared::{CloseRefused, MAX_LIMIT, MAX_PASSES, Shared};
pub use unlocked::Unlocked;
