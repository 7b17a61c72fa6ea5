//! The address filter: whether a frame's destination is accepted.

ghost use Rattle.std.specs.Prelude.{◌≡◌, ◌<◌, slice_index, IfSome};
ghost use Rattle.rx_filter.specs.Address.{destination_low, destination_high, matches, first_match, is_broadcast, is_multicast, multicast_shift, multicast_number, is_in_table, lets_multicast, lets_unicast, lets_broadcast, passes};

use crate::fields::MO;
use reg_table::{Fctrl, Mcstctrl, Rah, has_bit, has_flag};
use register_file::{RegisterFile, RowId};

/// The number of receive addresses (RAL and RAH pairs).
const ADDRESSES: u16 = 128;

/// Whether a frame's destination is accepted.
#[tactic(auto, unfolding(crate::specs::Address::passes))]
pub(crate) fn passes(registers: &RegisterFile, frame: &[u8]) -> bool
    ensures { result ≡ passes registers.now frame.now }
{
    if is_broadcast(frame) {
        lets_broadcast(registers) || lets_multicast(registers)
    } else if is_multicast(frame) {
        lets_multicast(registers)
            || is_in_table(registers, frame)
            || first_match(registers, frame).is_some()
    } else {
        lets_unicast(registers) || first_match(registers, frame).is_some()
    }
}

/// Returns the index of the first valid receive address that equals a frame's destination.
#[inline(always)]
pub(crate) fn first_match(registers: &RegisterFile, frame: &[u8]) -> Option<u16>
    ensures first { result ≡ first_match registers.now frame.now }
    ensures range { IfSome result (λ index. index < 128) }
{
    for index in 0..ADDRESSES {
        if matches(registers, frame, index) {
            return Some(index);
        }
    }
    None
}

/// Whether the receive address with this index is valid and equals a frame's destination.
fn matches(registers: &RegisterFile, frame: &[u8], index: u16) -> bool
    requires { index < 128 }
    ensures { result ≡ matches registers.now frame.now index }
{
    let high = registers.word(RowId::Rah, index);
    has_flag(high, Rah::AV)
        && registers.word(RowId::Ral, index) == destination_low(frame)
        && high % 0x1_0000 == destination_high(frame)
}

/// Returns a byte of a frame, or 0 past the frame's end.
fn byte(frame: &[u8], at: usize) -> u8
    ensures { result ≡ slice_index frame.now at }
{
    if at < frame.len() { frame[at] } else { 0 }
}

/// Returns bytes 0 to 3 of the destination, little-endian.
fn destination_low(frame: &[u8]) -> u32
    ensures { result ≡ destination_low frame.now }
{
    u32::from(byte(frame, 0))
        + 0x100 * u32::from(byte(frame, 1))
        + 0x1_0000 * u32::from(byte(frame, 2))
        + 0x100_0000 * u32::from(byte(frame, 3))
}

/// Returns bytes 4 and 5 of the destination, little-endian. The value is below 65,536.
fn destination_high(frame: &[u8]) -> u32
    ensures value { result ≡ destination_high frame.now }
    ensures range { result < 65536 }
{
    u32::from(byte(frame, 4)) + 0x100 * u32::from(byte(frame, 5))
}

/// Whether a frame is broadcast.
fn is_broadcast(frame: &[u8]) -> bool
    ensures { result ≡ is_broadcast frame.now }
{
    destination_low(frame) == 0xFFFF_FFFF && destination_high(frame) == 0xFFFF
}

/// Whether a frame is multicast or broadcast: bit 0 of its first byte is 1.
fn is_multicast(frame: &[u8]) -> bool
    ensures { result ≡ is_multicast frame.now }
{
    byte(frame, 0) % 2 == 1
}

/// Whether the multicast table is enabled and the bit for a frame's destination is 1 in the table.
fn is_in_table(registers: &RegisterFile, frame: &[u8]) -> bool
    ensures { result ≡ is_in_table registers.now frame.now }
{
    if !has_flag(registers.word(RowId::Mcstctrl, 0), Mcstctrl::MFE) {
        return false;
    }
    let number = multicast_number(registers, frame);
    has_bit(
        registers.word(RowId::Mta, number / 32),
        u32::from(number % 32),
    )
}

/// Returns the index, below 4,096, of a destination's bit in the multicast table.
fn multicast_number(registers: &RegisterFile, frame: &[u8]) -> u16
    ensures value { result ≡ multicast_number registers.now frame.now }
    ensures range { result < 4096 }
{
    let part = match (registers.word(RowId::Mcstctrl, 0) >> MO) % 4 {
        0 => destination_high(frame) / 16,
        1 => destination_high(frame) / 8,
        2 => destination_high(frame) / 4,
        _ => destination_high(frame),
    };
    (part % 0x1000) as u16
}

/// Whether all multicast frames are accepted (FCTRL MPE).
fn lets_multicast(registers: &RegisterFile) -> bool
    ensures { result ≡ lets_multicast registers.now }
{
    has_flag(registers.word(RowId::Fctrl, 0), Fctrl::MPE)
}

/// Whether all unicast frames are accepted (FCTRL UPE).
fn lets_unicast(registers: &RegisterFile) -> bool
    ensures { result ≡ lets_unicast registers.now }
{
    has_flag(registers.word(RowId::Fctrl, 0), Fctrl::UPE)
}

/// Whether broadcast frames are accepted (FCTRL BAM).
fn lets_broadcast(registers: &RegisterFile) -> bool
    ensures { result ≡ lets_broadcast registers.now }
{
    has_flag(registers.word(RowId::Fctrl, 0), Fctrl::BAM)
}
