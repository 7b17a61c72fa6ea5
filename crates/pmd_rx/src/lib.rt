//! The receive half of the poll-mode driver.
//!
//! `ring.rt` contains the ring as the driver keeps it. `receive.rt` and `tail.rt` contain one step for each access that
//! the driver makes to the ring; each step takes the driver from one stage to the next. `posting.rt` and `burst.rt`
//! build on them: `ReceiveRing::post`, `ReceiveRing::receive` and `ReceiveRing::receive_burst`. The contracts say which
//! calls are the driver's own, and how the driver's specified state follows from these calls.
#![tactic(auto)]

mod burst;
mod posting;
mod receive;
mod ring;
mod tail;

pub use ring::ReceiveRing;
