//! A descriptor as two little-endian 64-bit words. The first half is at the lower address.

ghost use Rattle.std.specs.Prelude.{◌≡◌};
ghost use Rattle.dma_ring.specs.Descriptor.{first_half, second_half, of_halves};

use byteorder::{ByteOrder, LittleEndian};

/// Returns the 64-bit value of a descriptor's bytes 0 to 7, little-endian.
#[tactic(auto, unfolding(crate::specs::Descriptor::first_half))]
pub fn first_half(descriptor: &[u8; 16]) -> u64
    ensures { result ≡ first_half descriptor.now }
{
    LittleEndian::read_u64(&descriptor[..8])
}

/// Returns the 64-bit value of a descriptor's bytes 8 to 15, little-endian.
#[tactic(auto, unfolding(crate::specs::Descriptor::second_half))]
pub fn second_half(descriptor: &[u8; 16]) -> u64
    ensures { result ≡ second_half descriptor.now }
{
    LittleEndian::read_u64(&descriptor[8..])
}

/// Returns the 16 bytes of the descriptor that has these halves.
#[tactic(auto, unfolding(crate::specs::Descriptor::of_halves))]
pub fn of_halves(first: u64, second: u64) -> [u8; 16]
    ensures { result ≡ of_halves first second }
{
    let mut descriptor = [0; 16];
    LittleEndian::write_u64(&mut descriptor[..8], first);
    LittleEndian::write_u64(&mut descriptor[8..], second);
    descriptor
}
