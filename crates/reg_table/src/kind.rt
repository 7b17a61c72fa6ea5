/// What reads and writes of a register do.
#[derive(Clone, Copy, PartialEq, Eq, Debug)]
pub enum Kind {
    /// Read-write. A read returns the word. A write replaces the bits in the row's mask.
    Rw,
    /// Read-only. A read returns the word. A write changes nothing.
    Ro,
    /// Calculated. A read returns a value computed from other registers, the link and the EEPROM. A write changes
    /// nothing.
    Calc,
    /// A clear-on-read counter. A read returns the word and sets the register to 0. A write changes nothing.
    Rc,
    /// The interrupt causes of a group. A read returns the word and clears causes. A write clears each cause whose bit
    /// is 1 in the written word.
    Cause,
    /// The interrupt masks of a group. A read returns the word. A write sets each mask whose bit is 1 in the written
    /// word.
    Ones,
    /// Sets interrupt causes of a group. A write sets each cause whose bit is 1 in the written word. A read returns 0.
    Set,
    /// Clears interrupt masks of a group. A write clears each mask whose bit is 1 in the written word. A read returns
    /// 0.
    Clear,
    /// Read-write while the register's side of its queue is disabled. While the side is enabled, a write changes
    /// nothing.
    Held,
    /// The enable register of one side of a queue. Read-write except for bit 25. Bit 25 of a write only requests that
    /// the side be enabled or disabled. Bit 25 of the register reads as 1 while the side is enabled, and takes the
    /// requested value in a later step.
    Enable,
    /// Device control. A write that requests a reset resets the device and does nothing else. Any other write has the
    /// same effect as for `Rw`.
    Ctrl,
    /// Control of a virtual function. A read returns 0. A write that requests a reset resets the function's pool. Any
    /// other write changes nothing.
    Vreset,
    /// EEPROM read: the requested word index, and the word that was read. A read returns the word. A write replaces
    /// bits 15:0 except bit 1, and clears the other bits.
    Eerd,
    /// Causes that stay set until a write clears them. A read returns the word. A write clears each bit that is 1 in
    /// the written word.
    W1c,
    /// A virtual function's mailbox. A read returns the word and clears the bits that are reported only once: a status,
    /// an acknowledgement, a completed reset. A write takes the mailbox if the physical function doesn't hold it, or
    /// releases the mailbox. The write can also send a request or an acknowledgement to the physical function.
    Vfmail,
    /// The physical function's view of a virtual function's mailbox. A read returns who holds the mailbox. A write
    /// takes the mailbox from the virtual function, takes it for the physical function if nobody holds it, or releases
    /// it. The write can also send a status or an acknowledgement.
    Pfmail,
    /// Extended device control. Like `Rw`; in addition, a write with bit 14 set reports to each virtual function that a
    /// reset is done.
    Ctrlext,
}
