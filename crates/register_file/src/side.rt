//! The registers of one side of a queue.

/// The registers of a queue's receive side, and its enable request.
#[derive(Clone, Copy)]
pub(crate) struct ReceiveSide {
    /// RDBAL: low part of the ring's base address.
    pub(crate) base_low: u32,
    /// RDBAH: high part of the ring's base address.
    pub(crate) base_high: u32,
    /// RDLEN: length of the ring in bytes.
    pub(crate) length: u32,
    /// RDH: head of the ring, a descriptor index.
    pub(crate) head: u32,
    /// SRRCTL: split receive control, with buffer size and descriptor type.
    pub(crate) control: u32,
    /// RDT: tail of the ring, a descriptor index.
    pub(crate) tail: u32,
    /// RXDCTL: receive descriptor control, with the enable bit.
    pub(crate) enable: u32,
    /// Whether the side has an enable request.
    pub(crate) wanted: bool,
}

/// The registers of a queue's transmit side, and its enable request.
#[derive(Clone, Copy)]
pub(crate) struct TransmitSide {
    /// TDBAL: low part of the ring's base address.
    pub(crate) base_low: u32,
    /// TDBAH: high part of the ring's base address.
    pub(crate) base_high: u32,
    /// TDLEN: length of the ring in bytes.
    pub(crate) length: u32,
    /// TDH: head of the ring, a descriptor index.
    pub(crate) head: u32,
    /// TDT: tail of the ring, a descriptor index.
    pub(crate) tail: u32,
    /// TXDCTL: transmit descriptor control, with the enable bit.
    pub(crate) enable: u32,
    /// TDWBAL: low part of the head write-back address, with the enable bit.
    pub(crate) writeback_low: u32,
    /// TDWBAH: high part of the head write-back address.
    pub(crate) writeback_high: u32,
    /// Whether the side has an enable request.
    pub(crate) wanted: bool,
}

impl ReceiveSide {
    /// The receive side after a reset.
    pub(crate) const AT_RESET: ReceiveSide = ReceiveSide {
        base_low: 0,
        base_high: 0,
        length: 0,
        head: 0,
        control: 0x0402,
        tail: 0,
        enable: 0,
        wanted: false,
    };
}

impl TransmitSide {
    /// The transmit side after a reset.
    pub(crate) const AT_RESET: TransmitSide = TransmitSide {
        base_low: 0,
        base_high: 0,
        length: 0,
        head: 0,
        tail: 0,
        enable: 0,
        writeback_low: 0,
        writeback_high: 0,
        wanted: false,
    };
}
