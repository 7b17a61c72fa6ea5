ghost use Rattle.std.specs.Prelude.{◌≡◌, ◌+◌, ◌<◌, ◌≤◌, IsTrue, length};
ghost use Rattle.rss_hash.specs.Ipv4.{header_len, is_ipv4, is_whole, ipv4_carries};
ghost use Rattle.rss_hash.specs.Flow.{ipv4_flow};

use crate::bytes::number_at;
use crate::flow::{Flow, TCP, UDP};
use crate::input::Input;

/// Whether the packet has version 4 and a complete header of at least five words.
#[tactic(auto, unfolding(crate::specs::Ipv4::is_ipv4))]
pub(crate) fn is_packet(packet: &[u8]) -> bool
    ensures value { result ≡ is_ipv4 packet.now }
    ensures room { IsTrue result → 20 ≤ length packet.now }
{
    if packet.is_empty() {
        return false;
    }
    let header = header_len(packet);
    packet[0] / 16 == 4 && header >= 20 && header <= packet.len()
}

/// Returns the flow of an IPv4 packet.
#[tactic(auto, using(crate::proofs::Parts::joined_parts), unfolding(crate::specs::Flow::ipv4_flow))]
pub(crate) fn flow(packet: &[u8]) -> Flow
    requires { 20 ≤ length packet.now }
    ensures { result ≡ ipv4_flow packet.now }
{
    let tcp = carries(packet, TCP);
    let udp = carries(packet, UDP);
    let mut input = Input::empty().with(&packet[SOURCE..ADDRESSES_END]);
    if tcp || udp {
        let ports = header_len(packet);
        input = input.with(&packet[ports..ports + 4]);
    }
    Flow {
        version: 4,
        tcp,
        udp,
        input,
    }
}

const FRAGMENT: usize = 6;

const PROTOCOL: usize = 9;

const SOURCE: usize = 12;

const ADDRESSES_END: usize = 20;

/// Returns the header's length in bytes. The packet's first byte contains this length in words.
fn header_len(packet: &[u8]) -> usize
    requires { 0 < length packet.now }
    ensures value { result ≡ header_len packet.now }
    ensures range { result ≤ 60 }
{
    4 * usize::from(packet[0] % 16)
}

/// Whether the packet isn't a fragment, carries this protocol, and contains the protocol's port bytes.
#[tactic(auto, unfolding(crate::specs::Ipv4::ipv4_carries))]
fn carries(packet: &[u8], protocol: u8) -> bool
    requires { 20 ≤ length packet.now }
    ensures value { result ≡ ipv4_carries protocol packet.now }
    ensures room { IsTrue result → header_len packet.now + 4 ≤ length packet.now }
{
    packet[PROTOCOL] == protocol && is_whole(packet) && header_len(packet) + 4 <= packet.len()
}

/// Whether the packet isn't a fragment of a larger one.
fn is_whole(packet: &[u8]) -> bool
    requires { 20 ≤ length packet.now }
    ensures { result ≡ is_whole packet.now }
{
    number_at(packet, FRAGMENT) & 0x3FFF == 0
}
