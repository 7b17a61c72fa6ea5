/// The part of the device that a register belongs to.
#[derive(Clone, Copy, PartialEq, Eq, Debug)]
pub enum Bank {
    /// The device as a whole: its settings and its state.
    Device,
    /// The device's statistics counters.
    Counters,
    /// The receive side of a queue. The register's index is the queue's number, 0 to 127.
    Receive,
    /// The transmit side of a queue. The register's index is the queue's number, 0 to 127.
    Transmit,
    /// The physical function's interrupts.
    Interrupts,
    /// A virtual function's interrupts. The register's index is the function's number.
    VfInterrupts,
    /// A pool of queues. The register's index is the pool's number.
    Pool,
    /// A virtual function's statistics counters. The register's index is the function's number.
    VfCounters,
    /// The interrupt vectors of the virtual functions' queues. The pool mode and the register's index determine which
    /// queues.
    Vectors,
    /// The mailbox memory, for messages between the physical function and the virtual functions: 16 words per virtual
    /// function.
    Messages,
}
