//! The result of stopping a driver.

use crate::halted::Halted;
use pmd_access::{Arena, PmdFault, Record};

/// The result of stopping a driver. It can't be dropped, because the arena can't.
pub struct Home {
    /// The driver's arena.
    pub arena: Arena,
    /// The number of blocks that the device no longer had when the driver tried to take them back.
    pub lost: u32,
    /// The records of the packets that the driver handed out, oldest first.
    pub handed: Vec<Record>,
    /// The records of the packets that the driver accepted, oldest first.
    pub accepted: Vec<Record>,
}

/// A failed stop: the reason, and the driver at that point. You can try to stop the driver again.
pub struct StopFailed {
    /// Why the stop failed.
    pub fault: PmdFault,
    /// The driver, which is no longer running. Some of its blocks may still be lent.
    pub halted: Halted,
}
