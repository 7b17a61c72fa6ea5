//! The transmit half of the poll-mode driver.
//!
//! `ring.rt` contains one step for each access that the driver makes to its ring; `sending.rt` and `reaping.rt` build
//! on these steps. The contracts state which calls are the driver's own, which step each of them performs, and how the
//! driver's specified state follows from these calls.
#![tactic(auto)]

mod answer;
mod padding;
mod piece;
mod reaping;
mod ring;
mod sending;

pub use answer::{Reaped, TxAnswer, TxFault};
pub use ring::TransmitRing;
pub use sending::are_out;
