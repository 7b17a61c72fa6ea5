//! The poll-mode driver of one queue, built from its two halves.
//!
//! `running.rt` contains a driver whose two rings are up: it receives and sends packets and tracks where each block is.
//! `bursts.rt` sends several packets in one call, `bytes.rt` creates packets from given bytes, and `arriving.rt`
//! delivers a frame from the link. `rings.rt` contains the steps that bring the rings up; `start.rt` finds the blocks
//! for the rings and runs these steps in order. `driver.rt` contains the whole driver, `Pmd`, from its start to its
//! stop.
//!
//! `Halted` is a driver whose start failed after it had lent a block, or whose stop has begun. `Halted::stop` disables
//! both sides of its queue and takes its blocks back; if a stop fails, you can call it again. `ends.rt` contains the
//! two halves of a `Halted`: each half is a ring, or blocks that are being returned. `stopping.rt` contains the steps
//! after both rings are closed.
#![tactic(auto)]

mod arriving;
mod bursts;
mod bytes;
mod driver;
mod ends;
mod halted;
mod home;
mod rings;
mod running;
mod start;
mod stopping;

pub use arriving::{Arrived, arrive};
pub use driver::{Pmd, StopRefused};
pub use halted::Halted;
pub use home::{Home, StopFailed};
pub use pmd_access::{
    Arena, BLOCK_BYTES, BLOCK_NUMBERS, Bufs, Call, CallFault, Calls, CloseFault, CloseRefused,
    Closed, Direct, Entry, Event, EventNote, Finished, Interleaved, LONGEST_FRAME, Made, Mode,
    NewFault, Nic, Octets, POLLS, Packet, Pass, Place, PmdFault, Port, QUEUES, Queue, Record,
    Reply, RowId, SHORTEST_FRAME, Settings, Setup, Shared, ThroughLock, Watched, bytes_in,
    history_of, leave, left_alone, marked_history, pf_setup, place_at, queues_of,
};
pub use pmd_tx::{Reaped, TxAnswer, TxFault};
pub use running::Running;
pub use start::{Rest, StartRefused};
