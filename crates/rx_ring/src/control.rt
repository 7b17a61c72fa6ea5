//! The fields of SRRCTL, a receive queue's control register, that describe its buffers.
//!
//! Intel 82599 datasheet, section on split receive control registers.

ghost use Rattle.std.specs.Prelude.{◌≡◌, ◌<◌, ◌^◌};
ghost use Rattle.rx_ring.specs.Control.{descriptor_type_of, buffer_size_of};

/// The descriptor type: advanced, with one buffer.
pub(crate) const ONE_BUFFER: u32 = 1;

/// The lowest bit of the descriptor type.
const TYPE_ONE: u32 = 0x0200_0000;

/// The unit of the buffer size, in bytes.
const KILOBYTE: usize = 1024;

/// Returns the type of the queue's descriptors, from bits 27:25.
pub(crate) fn descriptor_type(srrctl: u32) -> u32
    ensures { result ≡ descriptor_type_of srrctl }
{
    srrctl / TYPE_ONE % 8
}

/// Returns the size of each of the queue's buffers, in bytes: bits 4:0 count units of 1,024 bytes.
pub(crate) fn buffer_size(srrctl: u32) -> usize
    ensures size { result ≡ buffer_size_of srrctl }
    ensures short { result < 2 ^ 16 }
{
    KILOBYTE * (srrctl % 32) as usize
}
