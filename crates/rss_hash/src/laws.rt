//! Laws of `classify`: a frame that is built from header fields is classified by these fields.

ghost use Rattle.rss_hash.specs.Flow.{flow_of};
ghost use Rattle.rss_hash.specs.Laws.{tcp_flow, udp_flow, PortsOverIpv4, OthersOverIpv4};
ghost use Rattle.rss_hash.specs.Laws.{FragmentsHaveNoPorts, PortsOverIpv6, OthersOverIpv6, OtherTypesAreNoFlow};

/// An unfragmented TCP segment over IPv4, with a header of 5 to 15 words after an Ethernet header, is classified by its
/// addresses and its ports.
pub fn tcp_over_ipv4_is_its_fields()
    ensures { PortsOverIpv4 6 tcp_flow flow_of }
{}

/// An unfragmented UDP datagram over IPv4, with a header of 5 to 15 words after an Ethernet header, is classified by
/// its addresses and its ports.
pub fn udp_over_ipv4_is_its_fields()
    ensures { PortsOverIpv4 17 udp_flow flow_of }
{}

/// An IPv4 packet with a protocol other than TCP and UDP is classified by its addresses, whether or not it is a
/// fragment and whatever the packet carries.
pub fn other_packets_over_ipv4_are_addresses()
    ensures { OthersOverIpv4 flow_of }
{}

/// A fragment of an IPv4 packet is classified by its addresses, without ports, whatever the fragment's protocol is and
/// whatever the fragment carries.
pub fn fragments_have_no_ports()
    ensures { FragmentsHaveNoPorts flow_of }
{}

/// A TCP segment right after an IPv6 header is classified by its addresses and its ports.
pub fn tcp_over_ipv6_is_its_fields()
    ensures { PortsOverIpv6 6 tcp_flow flow_of }
{}

/// A UDP datagram right after an IPv6 header is classified by its addresses and its ports.
pub fn udp_over_ipv6_is_its_fields()
    ensures { PortsOverIpv6 17 udp_flow flow_of }
{}

/// An IPv6 packet with a next header other than TCP and UDP, including an extension header, is classified by its
/// addresses, whatever the packet carries.
pub fn other_packets_over_ipv6_are_addresses()
    ensures { OthersOverIpv6 flow_of }
{}

/// A frame whose EtherType is neither IPv4's nor IPv6's isn't a flow, whatever the frame carries. This includes tagged
/// frames.
pub fn other_types_are_no_flow()
    ensures { OtherTypesAreNoFlow flow_of }
{}
