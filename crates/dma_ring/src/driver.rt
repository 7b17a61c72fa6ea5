//! How a driver uses descriptors: what it writes for the device, and how it reads what the device wrote back.
//!
//! Intel 82599 datasheet, sections on advanced receive descriptors and on advanced transmit data descriptors.

ghost use Rattle.std.specs.Prelude.{◌≡◌, ◌<◌, ◌%◌, ◌^◌};
ghost use Rattle.dma_ring.specs.Bits.{has_bit};
ghost use Rattle.dma_ring.specs.Driver.{posted, rss_in, hash_in, data_word};
ghost use Rattle.dma_ring.specs.Receive.{is_done, ends_packet, bytes_in};

use crate::bits::has_bit;

/// The bits that a driver sets in every data descriptor: type 3 (DTYP), frame check sequence (IFCS) and advanced format
/// (DEXT).
const DATA: u64 = (3 << 20) + (1 << 25) + (1 << 29);

/// The bits that a driver sets in a packet's last descriptor: end of packet (EOP) and report status (RS).
const LAST: u64 = (1 << 24) + (1 << 27);

/// The lowest bit of PAYLEN, the length of the whole packet.
const PAYLEN: u32 = 46;

/// The bit with which the device reports that a transmit descriptor is done, DD.
const SENT: u32 = 32;

/// Returns the first half of a receive descriptor with its buffer at this bus address, which must be even.
pub fn posted_word(address: u64) -> u64
    requires { address % 2 ≡ 0 }
    ensures { result ≡ posted address }
{
    address
}

/// Whether a receive descriptor with this second half was written back (DD).
pub fn is_written_back(second: u64) -> bool
    ensures { result ≡ is_done second }
{
    second % 2 == 1
}

/// Whether the packet ends (EOP) in the descriptor's buffer, given the second half of a written-back descriptor.
pub fn is_last(second: u64) -> bool
    ensures { result ≡ ends_packet second }
{
    second / 2 % 2 == 1
}

/// Returns the number of bytes written to the descriptor's buffer, given the second half of a written-back descriptor.
pub fn reported_length(second: u64) -> u16
    ensures { result ≡ bytes_in second }
{
    (second / 0x1_0000_0000 % 0x1_0000) as u16
}

/// Returns the packet's RSS type from the first half of a written-back descriptor.
pub fn reported_rss(first: u64) -> u8
    ensures value { result ≡ rss_in first }
    // The type is 0 to 15.
    ensures small { result < 16 }
{
    (first % 16) as u8
}

/// Returns the packet's RSS hash from the first half of a written-back descriptor, or 0 if no hash is reported.
pub fn reported_hash(first: u64) -> u32
    requires { first < 2 ^ 64 }
    ensures { result ≡ hash_in first }
{
    (first / 0x1_0000_0000) as u32
}

/// Returns the second half of a transmit data descriptor for `len` bytes. They are part of a packet that is `payload`
/// bytes long; `payload` must be below 2^18. If `last` is set, the packet ends with these bytes, and the device reports
/// when the descriptor is done.
pub fn data_descriptor_word(len: u16, last: bool, payload: u32) -> u64
    requires { payload < 2 ^ 18 }
    ensures { result ≡ data_word len last payload }
{
    let flags = if last { DATA + LAST } else { DATA };
    flags + u64::from(len) + (u64::from(payload) << PAYLEN)
}

/// Whether a transmit descriptor with this second half is done (DD).
pub fn is_sent(second: u64) -> bool
    ensures { result ≡ has_bit 32 second }
{
    has_bit(second, SENT)
}
