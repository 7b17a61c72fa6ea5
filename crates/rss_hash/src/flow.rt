ghost use Rattle.std.specs.Prelude.{◌≡◌, ℕ, List};
ghost use Rattle.rss_hash.specs.Frame.{ether_type};
ghost use Rattle.rss_hash.specs.Flow.{flow_of, no_flow};

use crate::bytes::number_at;
use crate::input::Input;
use crate::{ipv4, ipv6};

/// How receive side scaling classifies a frame.
#[derive(Clone, Copy, PartialEq, Eq, Debug)]
pub struct Flow {
    /// The version of IP: 4, 6, or 0 for any other frame.
    pub version: u8,
    /// Whether the frame is TCP with known ports.
    pub tcp: bool,
    /// Whether the frame is UDP with known ports.
    pub udp: bool,
    /// The source and destination addresses. If `tcp` or `udp` is true, the source and destination ports follow.
    pub input: Input,
}

/// Classifies a frame, given without its frame check sequence. Any bytes are accepted. Tagged frames and frames with a
/// truncated IP header are neither IPv4 nor IPv6. Fragments and frames without their four port bytes are neither TCP
/// nor UDP. The lengths in IP headers are ignored.
#[inline(always)]
pub fn classify(frame: &[u8]) -> Flow
    ensures { result ≡ flow_of frame.now }
{
    if frame.len() < ETHERNET_HEADER {
        return Flow::other();
    }
    let (_, packet) = frame.split_at(ETHERNET_HEADER);
    match number_at(frame, ETHER_TYPE) {
        IPV4 if ipv4::is_packet(packet) => ipv4::flow(packet),
        IPV6 if ipv6::is_packet(packet) => ipv6::flow(packet),
        _ => Flow::other(),
    }
}

/// A frame with the EtherType of a VLAN tag, 0x8100, is neither IPv4 nor IPv6, whatever follows the tag. So the frame
/// belongs to no flow.
pub fn tagged_frames_are_no_flow()
    ensures { (frame : List ℕ) → ether_type frame ≡ 0x8100 → flow_of frame ≡ no_flow }
{}

/// The protocol numbers of the transport protocols with ports.
pub(crate) const TCP: u8 = 6;

pub(crate) const UDP: u8 = 17;

const ETHERNET_HEADER: usize = 14;

const ETHER_TYPE: usize = 12;

const IPV4: u16 = 0x0800;

const IPV6: u16 = 0x86DD;

impl Flow {
    /// Returns the flow of a frame that is neither version of IP.
    fn other() -> Flow
        ensures { result ≡ no_flow }
    {
        Flow {
            version: 0,
            tcp: false,
            udp: false,
            input: Input::empty(),
        }
    }
}
