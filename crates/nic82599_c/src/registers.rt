//! Register reads and writes, and the physical function's addresses for the registers of virtual functions.

ghost use Rattle.std.specs.Prelude.{◌≡◌, ℕ, unwrap_or};
ghost use Rattle.nic_device.specs.Step.{reply_to, reported_word};
ghost use Rattle.card.specs.Card.{made, reply_of_read, reply_of_write};
ghost use Rattle.vf_map.specs.Map.{mapped};
ghost use Rattle.vf_map.specs.Pools.{mode_of};
ghost use Rattle.nic82599_c.specs.Statuses.{peek_status, map_status, mapped_address};
ghost use Rattle.nic82599_c.specs.Outcome.{status_of, word_of};

use crate::handle::Handle;
use crate::status::{DONE, NO_GROUP, STRAY};
use card::Card;
use nic_device::{Event, Port};
use vf_map::{MAX_VFS, Mapped, map, mode_of};

/// Returns the status of a register access.
fn access_status(stray: bool) -> u8
    ensures read { (word : ℕ) → result ≡ status_of (reply_of_read word stray) }
    ensures write { result ≡ status_of (reply_of_write stray) }
{
    if stray { STRAY } else { DONE }
}

/// Reads a register at a port, with the read's side effects.
fn read(card: &mut Card, port: Port, number: u32, word: &mut u32) -> u8
    ensures status { result ≡ status_of (reply_to card.old.device (Event.Read port number)) }
    ensures word { word.new ≡ word_of (reply_to card.old.device (Event.Read port number)) }
    ensures card { card.new ≡ made card.old (Event.Read port number) }
{
    let (found, stray) = card.read(port, number);
    *word = found;
    access_status(stray)
}

/// Writes a register at a port.
fn write(card: &mut Card, port: Port, number: u32, word: u32) -> u8
    ensures status { result ≡ status_of (reply_to card.old.device (Event.Write port number word)) }
    ensures card { card.new ≡ made card.old (Event.Write port number word) }
{
    access_status(card.write(port, number, word))
}

/// Reads a register at a port without the read's side effects.
fn peek(card: &Card, port: Port, number: u32, word: &mut u32) -> u8
    ensures status { result ≡ peek_status (reported_word (reply_to card.now.device (Event.Read port number))) }
    ensures word { word.new ≡ unwrap_or (reported_word (reply_to card.now.device (Event.Read port number))) word.old }
{
    match card.peek(port, number) {
        Some(found) => {
            *word = found;
            DONE
        }
        None => STRAY,
    }
}

/// Reads a register of the physical function by its byte address, with the read's side effects. Returns DONE and stores
/// the register's value in `word`, or returns STRAY and stores the value that a driver would read. A stray read leaves
/// the card unchanged.
#[unsafe(no_mangle)]
pub extern "C" fn nic_read32(nic: &mut Handle, address: u32, word: &mut u32) -> u8
    ensures status { result ≡ status_of (reply_to nic.old.card.device (Event.Read Port.Pf address)) }
    ensures word { word.new ≡ word_of (reply_to nic.old.card.device (Event.Read Port.Pf address)) }
    ensures card { nic.new.card ≡ made nic.old.card (Event.Read Port.Pf address) }
{
    read(nic.get_mut(), Port::Pf, address, word)
}

/// Writes a register of the physical function by its byte address. Returns DONE, or STRAY; a stray write leaves the
/// card unchanged.
#[unsafe(no_mangle)]
pub extern "C" fn nic_write32(nic: &mut Handle, address: u32, word: u32) -> u8
    ensures status { result ≡ status_of (reply_to nic.old.card.device (Event.Write Port.Pf address word)) }
    ensures card { nic.new.card ≡ made nic.old.card (Event.Write Port.Pf address word) }
{
    write(nic.get_mut(), Port::Pf, address, word)
}

/// Reads a register of a virtual function by its byte offset, with the read's side effects. Returns DONE and stores the
/// register's value in `word`, or returns STRAY and stores the value that a driver would read, even if there is no such
/// virtual function. A stray read leaves the card unchanged.
#[unsafe(no_mangle)]
pub extern "C" fn nic_vf_read32(nic: &mut Handle, vf: u8, offset: u32, word: &mut u32) -> u8
    ensures status { result ≡ status_of (reply_to nic.old.card.device (Event.Read (Port.Vf vf) offset)) }
    ensures word { word.new ≡ word_of (reply_to nic.old.card.device (Event.Read (Port.Vf vf) offset)) }
    ensures card { nic.new.card ≡ made nic.old.card (Event.Read (Port.Vf vf) offset) }
{
    read(nic.get_mut(), Port::Vf(vf), offset, word)
}

/// Writes a register of a virtual function by its byte offset. Returns DONE, or STRAY; a stray write leaves the card
/// unchanged.
#[unsafe(no_mangle)]
pub extern "C" fn nic_vf_write32(nic: &mut Handle, vf: u8, offset: u32, word: u32) -> u8
    ensures status { result ≡ status_of (reply_to nic.old.card.device (Event.Write (Port.Vf vf) offset word)) }
    ensures card { nic.new.card ≡ made nic.old.card (Event.Write (Port.Vf vf) offset word) }
{
    write(nic.get_mut(), Port::Vf(vf), offset, word)
}

/// Stores in `word` the value that `nic_read32` would read, without the read's side effects: the card is unchanged.
/// Returns DONE, or STRAY, which leaves `word` unchanged.
#[unsafe(no_mangle)]
pub extern "C" fn nic_peek32(nic: &mut Handle, address: u32, word: &mut u32) -> u8
    ensures status { result ≡ peek_status (reported_word (reply_to nic.old.card.device (Event.Read Port.Pf address))) }
    ensures word { word.new ≡ unwrap_or
        (reported_word (reply_to nic.old.card.device (Event.Read Port.Pf address))) word.old }
    ensures unchanged { nic.new.card ≡ nic.old.card }
{
    peek(nic.get_mut(), Port::Pf, address, word)
}

/// Stores in `word` the value that `nic_vf_read32` would read, without the read's side effects: the card is unchanged.
/// Returns DONE, or STRAY, which leaves `word` unchanged.
#[unsafe(no_mangle)]
pub extern "C" fn nic_vf_peek32(nic: &mut Handle, vf: u8, offset: u32, word: &mut u32) -> u8
    ensures status { result ≡ peek_status
        (reported_word (reply_to nic.old.card.device (Event.Read (Port.Vf vf) offset))) }
    ensures word { word.new ≡ unwrap_or
        (reported_word (reply_to nic.old.card.device (Event.Read (Port.Vf vf) offset))) word.old }
    ensures unchanged { nic.new.card ≡ nic.old.card }
{
    peek(nic.get_mut(), Port::Vf(vf), offset, word)
}

/// Finds the address at which the physical function accesses the register that virtual function `vf` has at an offset.
/// The mode is the one that a value of GCR_EXT selects; address and offset are in bytes. Returns DONE and stores the
/// address in `address`; STRAY if the virtual function has no register at the offset; or NO_GROUP if the mode has no
/// pool for the virtual function or its number is above 62. STRAY and NO_GROUP leave `address` unchanged. No controller
/// is involved, so the result doesn't depend on whether a controller has this virtual function.
#[unsafe(no_mangle)]
pub extern "C" fn nic_vf_address(gcr_ext: u32, vf: u8, offset: u32, address: &mut u32) -> u8
    ensures status { result ≡ map_status (mapped (mode_of gcr_ext) 63 vf offset) }
    ensures address { address.new ≡ unwrap_or
        (mapped_address (mapped (mode_of gcr_ext) 63 vf offset)) address.old }
{
    match map(mode_of(gcr_ext), MAX_VFS, vf, offset) {
        Mapped::Pf(found) => {
            *address = found;
            DONE
        }
        Mapped::Hole => STRAY,
        Mapped::Absent => NO_GROUP,
    }
}
