//! The statuses that the calls return, as numbers.

/// The event is complete.
pub const DONE: u8 = 0;

/// The access reached no register in the device.
pub const STRAY: u8 = 1;

/// There was nothing to do, and nothing changed.
pub const IDLE: u8 = 2;

/// A frame was dropped; `why` in the report is the reason.
pub const DROPPED: u8 = 3;

/// A receive step wrote one part of a frame.
pub const WROTE: u8 = 4;

/// A transmit step moved the queue's head. No frame was sent.
pub const ADVANCED: u8 = 5;

/// A transmit step sent a frame.
pub const SENT: u8 = 6;

/// A descriptor couldn't be processed; `why` in the report is the reason.
pub const FAULT: u8 = 7;

/// An MSI-X message was sent.
pub const MESSAGE: u8 = 8;

/// A transmitted frame was collected.
pub const FRAME: u8 = 9;

/// A block that the access needs isn't lent.
pub const NOT_LENT: u8 = 16;

/// A block with this number is already lent. No call returns TWICE, because the arena contains each block only once.
pub const TWICE: u8 = 17;

/// No queue has this number.
pub const NO_QUEUE: u8 = 18;

/// This virtual function has no interrupt group.
pub const NO_GROUP: u8 = 19;

/// The bus address isn't a multiple of 16. No call returns MISALIGNED, because no call needs an aligned address.
pub const MISALIGNED: u8 = 20;

/// There isn't enough memory for the call.
pub const OUT_OF_MEMORY: u8 = 32;

/// The caller's buffer is too short for the result, or the input is too long.
pub const NO_ROOM: u8 = 33;

/// There would be more than 63 virtual functions.
pub const TOO_MANY_VFS: u8 = 34;

/// The receive list would have room for no frames, or for more than 4,096 frames.
pub const BAD_FIFO: u8 = 35;

/// There would be no blocks, or more than 65,536 blocks.
pub const BAD_BLOCKS: u8 = 36;

/// No block with this number is free.
pub const NO_BLOCK: u8 = 37;

/// The array is full, and there may be more to do.
pub const MORE: u8 = 38;
