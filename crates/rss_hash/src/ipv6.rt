ghost use Rattle.std.specs.Prelude.{◌≡◌, ◌≤◌, IsTrue, length};
ghost use Rattle.rss_hash.specs.Ipv6.{is_ipv6, ipv6_carries};
ghost use Rattle.rss_hash.specs.Flow.{ipv6_flow};

use crate::flow::{Flow, TCP, UDP};
use crate::input::Input;

/// Whether the packet has version 6 and a complete 40-byte header.
#[tactic(auto, unfolding(crate::specs::Ipv6::is_ipv6))]
pub(crate) fn is_packet(packet: &[u8]) -> bool
    ensures value { result ≡ is_ipv6 packet.now }
    ensures room { IsTrue result → 40 ≤ length packet.now }
{
    packet.len() >= HEADER && packet[0] / 16 == 6
}

/// Returns the flow of an IPv6 packet. Ports after an extension header are ignored.
#[tactic(auto, using(crate::proofs::Parts::joined_parts), unfolding(crate::specs::Flow::ipv6_flow))]
pub(crate) fn flow(packet: &[u8]) -> Flow
    requires { 40 ≤ length packet.now }
    ensures { result ≡ ipv6_flow packet.now }
{
    let tcp = carries(packet, TCP);
    let udp = carries(packet, UDP);
    let mut input = Input::empty().with(&packet[SOURCE..HEADER]);
    if tcp || udp {
        input = input.with(&packet[HEADER..HEADER + 4]);
    }
    Flow {
        version: 6,
        tcp,
        udp,
        input,
    }
}

const HEADER: usize = 40;

const NEXT_HEADER: usize = 6;

const SOURCE: usize = 8;

/// Whether this protocol directly follows the IPv6 header, and the protocol's port bytes are present.
#[tactic(auto, unfolding(crate::specs::Ipv6::ipv6_carries))]
fn carries(packet: &[u8], protocol: u8) -> bool
    requires { 40 ≤ length packet.now }
    ensures value { result ≡ ipv6_carries protocol packet.now }
    ensures room { IsTrue result → 44 ≤ length packet.now }
{
    packet[NEXT_HEADER] == protocol && packet.len() >= HEADER + 4
}
