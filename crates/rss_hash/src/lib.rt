//! Receive side scaling of the Intel 82599: how a received frame is classified, which part of the frame is hashed, the
//! Toeplitz hash, and the redirection table entry that the hash selects.
#![tactic(auto)]

mod bytes;
mod choice;
mod flow;
mod hash_key;
mod input;
mod ipv4;
mod ipv6;
mod key;
mod laws;
mod mrqc;
mod redirection;
mod tables;
mod toeplitz;

pub use choice::{RssType, choose, choose_bytes};
pub use flow::{Flow, classify, tagged_frames_are_no_flow};
pub use hash_key::HashKey;
pub use input::Input;
pub use key::Key;
pub use laws::{
    fragments_have_no_ports, other_packets_over_ipv4_are_addresses,
    other_packets_over_ipv6_are_addresses, other_types_are_no_flow, tcp_over_ipv4_is_its_fields,
    tcp_over_ipv6_is_its_fields, udp_over_ipv4_is_its_fields, udp_over_ipv6_is_its_fields,
};
pub use mrqc::{QueueMode, RssFields};
pub use redirection::{entry, entry_in};
pub use toeplitz::{hash, hash_bits_are_parities, hash_ignores_trailing_zeros, hash_is_linear};
