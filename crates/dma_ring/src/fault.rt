/// Why a descriptor can't be processed. A fault writes no memory.
#[derive(Clone, Copy, PartialEq, Eq, Debug)]
pub enum RingFault {
    /// The head or the tail isn't a slot of the ring.
    Outside,
    /// Memory that the access needs isn't lent. The value is the bus address of the first byte that the access needs.
    NotLent(u64),
    /// The receive queue's descriptor type in SRRCTL isn't 1 (advanced, one buffer).
    DescType,
    /// The receive queue's buffer size in SRRCTL is 0.
    NoBufferSize,
    /// The transmit descriptor requests segmentation, VLAN insertion or checksum insertion.
    Offload,
    /// The transmit descriptor has the legacy format.
    Legacy,
    /// The transmit frame is longer than the frame limit.
    TooLong,
    /// The transmit descriptor is neither a data nor a context descriptor.
    UnknownType,
}
