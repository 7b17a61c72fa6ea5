ghost use Rattle.std.specs.Prelude.{◌≡◌, ◌≤◌, [], length, take};
ghost use Rattle.rss_hash.specs.Choice.{code_of, is_enabled, first_enabled, rss_type_of, hashed_part};

use crate::flow::Flow;
use crate::input::Input;
use crate::mrqc::{QueueMode, RssFields};
use bitflags::Flags;

/// The part of a frame that was hashed, with its number in receive descriptors.
///
/// Intel 82599 datasheet, section on the RSS type of a receive descriptor.
#[derive(Clone, Copy, PartialEq, Eq, Debug)]
pub enum RssType {
    /// Nothing was hashed.
    NoHash = 0,
    /// IPv4 addresses and TCP ports.
    TcpIpv4 = 1,
    /// IPv4 addresses, without ports.
    Ipv4 = 2,
    /// IPv6 addresses and TCP ports.
    TcpIpv6 = 3,
    /// IPv6 addresses, without ports.
    Ipv6 = 5,
    /// IPv4 addresses and UDP ports.
    UdpIpv4 = 7,
    /// IPv6 addresses and UDP ports.
    UdpIpv6 = 8,
}

impl RssType {
    /// Returns the type of a flow for a value of MRQC. In a mode that hashes, the result is the flow's type with ports
    /// if that type is enabled. Otherwise, it is the flow's type with addresses if that type is enabled. In all other
    /// cases the result is `NoHash`.
    #[tactic(auto, using(crate::proofs::Types::no_types), unfolding(crate::specs::Choice::rss_type_of))]
    pub fn of(mrqc: u32, flow: &Flow) -> RssType
        ensures { result ≡ rss_type_of mrqc flow.now }
    {
        if !QueueMode::of(mrqc).is_hashing() {
            return RssType::NoHash;
        }
        match flow.version {
            4 => ipv4_type(mrqc, flow),
            6 => ipv6_type(mrqc, flow),
            _ => RssType::NoHash,
        }
    }

    /// Whether a value of MRQC enables this type.
    #[tactic(auto, using(crate::proofs::Fields::contains_bit))]
    fn is_enabled(self, mrqc: u32) -> bool
        ensures { result ≡ is_enabled mrqc self }
    {
        let fields = RssFields::from_bits_retain(mrqc);
        match self {
            RssType::NoHash => true,
            RssType::TcpIpv4 => fields.contains(RssFields::TCP_IPV4),
            RssType::Ipv4 => fields.contains(RssFields::IPV4),
            RssType::TcpIpv6 => fields.contains(RssFields::TCP_IPV6),
            RssType::Ipv6 => fields.contains(RssFields::IPV6),
            RssType::UdpIpv4 => fields.contains(RssFields::UDP_IPV4),
            RssType::UdpIpv6 => fields.contains(RssFields::UDP_IPV6),
        }
    }

    /// Returns the type's number in bits 3:0 of a receive descriptor.
    pub fn code(self) -> u8
        ensures { result ≡ code_of self }
    {
        self as u8
    }
}

/// Returns the RSS type of a flow for a value of MRQC, and the part of the flow that is hashed. For type 0, the hashed
/// part is empty, so the hash is 0.
pub fn choose(mrqc: u32, flow: &Flow) -> (u8, Input)
    ensures rss_type { result.0 ≡ code_of (rss_type_of mrqc flow.now) }
    ensures input { result.1 ≡ hashed_part (rss_type_of mrqc flow.now) flow.now.input }
    ensures nothing { result.0 ≡ 0 → result.1 ≡ [] }
{
    let (rss_type, bytes) = choose_bytes(mrqc, flow);
    (rss_type, Input::empty().with(bytes))
}

/// Returns the RSS type of a flow for a value of MRQC, and the hashed bytes as they are stored in the flow.
pub fn choose_bytes(mrqc: u32, flow: &Flow) -> (u8, &[u8])
    // The type is the first enabled type that applies to the flow. Types with ports come before types with only
    // addresses.
    ensures rss_type { result.0 ≡ code_of (rss_type_of mrqc flow.now) }
    ensures bytes { result.1.now ≡ hashed_part (rss_type_of mrqc flow.now) flow.now.input }
    // There are at most 36 bytes.
    ensures fits { length result.1.now ≤ 36 }
    // Type 0 hashes nothing.
    ensures nothing { result.0 ≡ 0 → result.1.now ≡ [] }
{
    let rss_type = RssType::of(mrqc, flow);
    let input = flow.input.as_slice();
    let bytes = match rss_type {
        RssType::NoHash => &input[..0],
        RssType::Ipv4 => first(input, IPV4_ADDRESSES),
        RssType::Ipv6 => first(input, IPV6_ADDRESSES),
        RssType::TcpIpv4 | RssType::UdpIpv4 | RssType::TcpIpv6 | RssType::UdpIpv6 => input,
    };
    (rss_type.code(), bytes)
}

/// Returns the first `len` bytes, or all bytes if there are fewer than `len`.
fn first(bytes: &[u8], len: usize) -> &[u8]
    ensures value { result.now ≡ take len bytes.now }
    ensures fits { length result.now ≤ length bytes.now }
{
    &bytes[..len.min(bytes.len())]
}

/// The length of a source and a destination address together, in bytes.
const IPV4_ADDRESSES: usize = 8;

const IPV6_ADDRESSES: usize = 32;

/// Returns the type of an IPv4 flow in a mode that hashes.
#[tactic(auto, using(crate::proofs::Types::ipv4_types))]
fn ipv4_type(mrqc: u32, flow: &Flow) -> RssType
    requires { flow.now.version ≡ 4 }
    ensures { result ≡ first_enabled mrqc flow.now }
{
    if flow.tcp && RssType::TcpIpv4.is_enabled(mrqc) {
        RssType::TcpIpv4
    } else if flow.udp && RssType::UdpIpv4.is_enabled(mrqc) {
        RssType::UdpIpv4
    } else if RssType::Ipv4.is_enabled(mrqc) {
        RssType::Ipv4
    } else {
        RssType::NoHash
    }
}

/// Returns the type of an IPv6 flow in a mode that hashes.
#[tactic(auto, using(crate::proofs::Types::ipv6_types))]
fn ipv6_type(mrqc: u32, flow: &Flow) -> RssType
    requires { flow.now.version ≡ 6 }
    ensures { result ≡ first_enabled mrqc flow.now }
{
    if flow.tcp && RssType::TcpIpv6.is_enabled(mrqc) {
        RssType::TcpIpv6
    } else if flow.udp && RssType::UdpIpv6.is_enabled(mrqc) {
        RssType::UdpIpv6
    } else if RssType::Ipv6.is_enabled(mrqc) {
        RssType::Ipv6
    } else {
        RssType::NoHash
    }
}
