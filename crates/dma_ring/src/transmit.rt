//! The fields of a transmit descriptor.
//!
//! Intel 82599 datasheet, section on advanced transmit descriptors.

ghost use Rattle.std.specs.Prelude.{◌≡◌, ◌<◌, ◌^◌};
ghost use Rattle.dma_ring.specs.Transmit.{command_of, with_done};

use crate::bits::has_bit;

/// The lowest bit of the descriptor's type, DTYP. The number of bytes, DTALEN, is in bits 15:0. Two fields have no
/// effect: IFCS, which requests a frame check sequence, in bit 25; and PAYLEN, the payload length, in bits 63:46.
const DTYP: u32 = 20;

/// End of packet: the packet ends with this buffer.
const EOP: u32 = 24;

/// Report status: the device reports when the descriptor is done.
const RS: u32 = 27;

/// The descriptor has the advanced format.
const DEXT: u32 = 29;

/// VLAN insertion is requested, which isn't supported.
const VLE: u32 = 30;

/// Segmentation is requested, which isn't supported.
const TSE: u32 = 31;

/// The device is done with the descriptor.
const DD: u32 = 32;

/// The lowest bit of POPTS, which selects the checksums to insert.
const POPTS: u32 = 40;

/// What the second half of a transmit descriptor requests.
#[derive(Clone, Copy, PartialEq, Eq, Debug)]
pub struct Command {
    /// The number of bytes in the buffer.
    pub len: u16,
    /// The descriptor's type: 2 is context, 3 is data.
    pub kind: u8,
    /// Whether the packet ends with this buffer (EOP).
    pub end: bool,
    /// Whether the device reports when the descriptor is done (RS).
    pub report: bool,
    /// Whether the descriptor has the advanced format (DEXT).
    pub extended: bool,
    /// Whether the descriptor requests segmentation, VLAN insertion or checksum insertion.
    pub offload: bool,
}

/// Returns the command that a transmit descriptor's second half contains.
#[tactic(auto, unfolding(crate::specs::Transmit::command_of))]
pub fn command_in(second: u64) -> Command
    ensures { result ≡ command_of second }
{
    Command {
        len: (second % 0x1_0000) as u16,
        kind: ((second >> DTYP) % 16) as u8,
        end: has_bit(second, EOP),
        report: has_bit(second, RS),
        extended: has_bit(second, DEXT),
        offload: has_bit(second, VLE) || has_bit(second, TSE) || (second >> POPTS) % 64 != 0,
    }
}

/// Returns this second half with the done bit set and every other bit unchanged.
pub fn done(second: u64) -> u64
    ensures { result ≡ with_done second }
{
    if has_bit(second, DD) {
        second
    } else {
        second + (1 << DD)
    }
}
