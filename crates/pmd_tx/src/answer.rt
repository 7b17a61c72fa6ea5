//! What a driver returns when it sends.

use pmd_access::{Packet, PmdFault};

/// What the driver returns for a packet, if no fault occurs.
pub enum TxAnswer {
    /// The packet is accepted: it will be sent, and the driver owns its blocks.
    Taken,
    /// Too few descriptors are free for the packet's parts. The packet is returned.
    RingFull(Packet),
}

/// Why a packet isn't sent now, and the packet if it is returned. The packet is returned if none of its blocks was
/// lent; otherwise it is accepted.
pub struct TxFault {
    /// The reason that the packet isn't sent now.
    pub fault: PmdFault,
    /// The packet; `None` if it is accepted and the next call continues with it.
    pub packet: Option<Packet>,
}

/// What a call to `reap` found out about the sent packets.
#[derive(Clone, Copy, Debug, PartialEq, Eq)]
pub struct Reaped {
    /// The number of sent packets whose blocks were freed.
    pub freed: u16,
    /// Whether no packet is outstanding.
    pub idle: bool,
}

/// The result of checking a packet before any event.
#[derive(Drop)]
pub(crate) enum Gate {
    /// The packet is refused and returned.
    Refused(PmdFault),
    /// The ring is full.
    Full,
    /// The packet can be sent.
    Open,
}
