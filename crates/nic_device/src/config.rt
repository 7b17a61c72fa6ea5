ghost use Rattle.std.specs.Prelude.{◌≡◌};

use std::alloc::AllocError;

/// The maximum capacity of a receive list, in frames.
pub const MAX_FIFO: u16 = 4096;

/// The configuration of a device, fixed for its lifetime.
#[derive(Clone, Copy, PartialEq, Eq, Debug)]
pub struct Config {
    /// The number of virtual functions: 0 to `MAX_VFS`.
    pub vfs: u8,
    /// The capacity of the receive list in frames: 1 to `MAX_FIFO`.
    pub fifo: u16,
}

/// Why no device was created. Nothing was allocated.
#[derive(Clone, Copy, PartialEq, Eq, Debug)]
pub enum NewFault {
    /// There would be more than `MAX_VFS` virtual functions.
    TooManyVfs,
    /// The receive list would have room for no frames, or for more than `MAX_FIFO`.
    Fifo,
    /// There isn't enough memory for the device.
    OutOfMemory,
}

impl From<AllocError> for NewFault {
    ghost use Rattle.nic_device.specs.declared.config.NewFault.TheVariants.{OutOfMemory};

    ghost from_gives = { λ _ fault. fault ≡ OutOfMemory };

    fn from(_error: AllocError) -> NewFault {
        NewFault::OutOfMemory
    }
}
