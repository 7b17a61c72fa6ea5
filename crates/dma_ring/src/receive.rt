//! The fields of a receive descriptor.
//!
//! Intel 82599 datasheet, section on advanced receive descriptors.

ghost use Rattle.std.specs.Prelude.{◌≡◌, ◌<◌, ◌^◌};
ghost use Rattle.dma_ring.specs.Receive.{buffer_of, reported_of, written_back};

/// The bit of a written-back first half that is 1 if the packet is IPv4. The RSS type is in bits 3:0.
const IPV4: u32 = 4;

/// The bit of the first half that is 1 if the packet is IPv6.
const IPV6: u32 = 6;

/// The bit of the first half that is 1 if the packet is TCP.
const TCP: u32 = 8;

/// The bit of the first half that is 1 if the packet is UDP.
const UDP: u32 = 9;

/// The lowest bit of the packet's RSS hash in the first half.
const HASH: u32 = 32;

/// The bit of a written-back second half that is 1 if the descriptor is done.
const DD: u32 = 0;

/// The bit of the second half that is 1 if the packet ends in this buffer.
const EOP: u32 = 1;

/// The lowest bit of the number of bytes in this buffer, in the second half.
const PKT_LEN: u32 = 32;

/// Returns the buffer's bus address from a descriptor's first half. Bit 0 is ignored.
pub fn buffer_address(first: u64) -> u64
    ensures { result ≡ buffer_of first }
{
    2 * (first / 2)
}

/// What a descriptor reports about a packet.
#[derive(Clone, Copy, PartialEq, Eq, Debug)]
pub struct Packet {
    /// The RSS type, 0 to 15.
    pub rss: u8,
    /// Whether the packet is IPv4.
    pub ipv4: bool,
    /// Whether the packet is IPv6.
    pub ipv6: bool,
    /// Whether the packet is TCP.
    pub tcp: bool,
    /// Whether the packet is UDP.
    pub udp: bool,
    /// The RSS hash, or 0 if no hash is reported.
    pub hash: u32,
}

/// Returns the first half that the device writes back, which reports the packet's RSS type, protocols and hash.
pub fn packet_word(packet: &Packet) -> u64
    ensures { result ≡ reported_of packet.now }
{
    u64::from(packet.rss)
        + if packet.ipv4 { 1 << IPV4 } else { 0 }
        + if packet.ipv6 { 1 << IPV6 } else { 0 }
        + if packet.tcp { 1 << TCP } else { 0 }
        + if packet.udp { 1 << UDP } else { 0 }
        + (u64::from(packet.hash) << HASH)
}

/// Returns the second half that the device writes back. It reports that the descriptor is done, whether the packet
/// ends, and the number of bytes in this buffer.
pub fn done_word(len: u16, end: bool) -> u64
    ensures { result ≡ written_back len end }
{
    let flags = if end { (1 << DD) + (1 << EOP) } else { 1 << DD };
    flags + (u64::from(len) << PKT_LEN)
}
