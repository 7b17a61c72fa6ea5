ghost use Rattle.std.specs.Prelude.{◌≡◌, ◌<◌, ◌≤◌, Some, None, if◌then◌else◌};
ghost use Rattle.vf_map.specs.Laws.{IsInRange};
ghost use Rattle.vf_map.specs.Map.{located, mapped, entries, own_entries, message_entries, function_entries, vector_entries, receive_rows, transmit_rows};
ghost use Rattle.vf_map.specs.Pools.{most_queues};
ghost use Rattle.vf_map.specs.Parts.{place_at, queues_entries, row_after, of_queue};
ghost use Rattle.reg_table.specs.declared.rows.RowId.TheVariants as row;

use crate::located::Located;
use crate::mapped::Mapped;
use crate::mode::Mode;
use crate::pools::queues_of;
use reg_table::{Place, RowId, addr_of};

/// The offset of a function's first vector register, PVTIVAR.
const VECTORS: u32 = 0x120;

/// The offset of a function's first word of mailbox memory, and the number of its words.
const MESSAGES: u32 = 0x200;

const MESSAGE_WORDS: u16 = 16;

/// The size in bytes of the register space for all queues' receive sides, and of the space for all queues' transmit
/// sides. The receive queues are in the second block of this size, the transmit queues in the third.
const SIDE: u32 = 0x1000;

/// The size in bytes of the register space of one side of a queue.
const QUEUE: u32 = 0x40;

/// Maps an offset of virtual function v, given that there are `vfs` functions. Returns `Absent` if v isn't below `vfs`
/// or the mode has no pool v; otherwise the `Register` at the offset, or `Hole` if no register is there. Offsets are in
/// bytes. An offset that isn't a multiple of 4 is a hole.
///
/// Intel 82599 datasheet, section on the registers of virtual functions.
pub fn locate(mode: Mode, vfs: u8, v: u8, offset: u32) -> Located
    ensures value { result ≡ located mode vfs v offset }
    ensures in_range { IsInRange result }
{
    if v >= vfs {
        return Located::Absent;
    }
    match queues_of(mode, v) {
        None => Located::Absent,
        Some((first, count)) => match place(v, first, count, offset) {
            Some(place) => Located::Register(place),
            None => Located::Hole,
        },
    }
}

/// Maps an offset of virtual function v as `locate` does, but returns `Pf` with the register's first address, in bytes,
/// instead of `Register`.
pub fn map(mode: Mode, vfs: u8, v: u8, offset: u32) -> Mapped
    ensures { result ≡ mapped mode vfs v offset }
{
    match locate(mode, vfs, v, offset) {
        Located::Absent => Mapped::Absent,
        Located::Hole => Mapped::Hole,
        Located::Register(place) => Mapped::Pf(addr_of(place)),
    }
}

/// Returns the register at an offset of function v. The function has `count` queues, starting with queue `first`.
fn place(v: u8, first: u8, count: u8, offset: u32) -> Option<Place>
    requires { count ≤ most_queues }
    ensures { result ≡ place_at (entries v first count) offset }
{
    if let Some(place) = function_place(v, offset) {
        return Some(place);
    }
    if let Some(place) = vector_place(first, count, offset) {
        return Some(place);
    }
    queue_place(first, count, offset)
}

/// Returns the register at an offset of function v, except the registers of its queues and vectors.
fn function_place(v: u8, offset: u32) -> Option<Place>
    ensures { result ≡ place_at (function_entries v) offset }
{
    if let Some(place) = own_place(v, offset) {
        return Some(place);
    }
    message_place(v, offset)
}

/// Returns the register at an offset, among the registers that exist once per virtual function.
#[rattlefmt::skip]
fn own_place(v: u8, offset: u32) -> Option<Place>
    ensures { result ≡ place_at (own_entries v) offset }
{
    match offset {
        0x0000 => register(RowId::Pvfctrl, v),
        0x0008 => register(RowId::Status, 0),
        0x0010 => register(RowId::Links, 0),
        0x0100 => register(RowId::Pvteicr, v),
        0x0104 => register(RowId::Pvteics, v),
        0x0108 => register(RowId::Pvteims, v),
        0x010C => register(RowId::Pvteimc, v),
        0x0110 => register(RowId::Pvteiac, v),
        0x0114 => register(RowId::Pvteiam, v),
        0x0140 => register(RowId::PvtivarMisc, v),
        0x02FC => register(RowId::Pvfmailbox, v),
        0x0300 => register(RowId::Psrtype, v),
        0x101C => register(RowId::Vfgprc, v),
        0x201C => register(RowId::Vfgptc, v),
        _ => None,
    }
}

fn register(row: RowId, index: u8) -> Option<Place>
    ensures { result ≡ of_queue (Some row) index }
{
    Some(Place {
        row,
        index: u16::from(index),
    })
}

/// Returns the word of mailbox memory, PFMBMEM, at an offset of function v.
fn message_place(v: u8, offset: u32) -> Option<Place>
    ensures { result ≡ place_at (message_entries v) offset }
{
    if offset < MESSAGES || offset % 4 != 0 {
        return None;
    }
    let word = (offset - MESSAGES) / 4;
    if word < u32::from(MESSAGE_WORDS) {
        Some(Place {
            row: RowId::Pfmbmem,
            index: MESSAGE_WORDS * u16::from(v) + word as u16,
        })
    } else {
        None
    }
}

/// Returns the vector register, PVTIVAR, at an offset. The function has one vector register for each pair of its
/// queues.
fn vector_place(first: u8, count: u8, offset: u32) -> Option<Place>
    ensures { result ≡ place_at (vector_entries first count) offset }
{
    if offset < VECTORS || offset % 4 != 0 {
        return None;
    }
    let word = (offset - VECTORS) / 4;
    if word < u32::from(count / 2) {
        Some(Place {
            row: RowId::Pvtivar,
            index: u16::from(first / 2) + word as u16,
        })
    } else {
        None
    }
}

/// Returns the register at an offset, if it belongs to one of the function's queues.
fn queue_place(first: u8, count: u8, offset: u32) -> Option<Place>
    requires { count ≤ most_queues }
    ensures { result ≡ place_at (queues_entries first count) offset }
{
    let x = offset % SIDE / QUEUE;
    if x >= u32::from(count) {
        return None;
    }
    let queue = u16::from(first) + x as u16;
    let bytes = offset % QUEUE;
    match offset / SIDE {
        1 => queue_register(receive_row(bytes), queue),
        2 => queue_register(transmit_row(bytes), queue),
        _ => None,
    }
}

fn queue_register(row: Option<RowId>, queue: u16) -> Option<Place>
    ensures { result ≡ of_queue row queue }
{
    match row {
        Some(row) => Some(Place { row, index: queue }),
        None => None,
    }
}

/// Returns the receive register at this distance, in bytes, from a queue's first register.
#[rattlefmt::skip]
#[tactic(auto, unfolding(reg_table::specs::Rows::rows))]
fn receive_row(bytes: u32) -> Option<RowId>
    ensures { result ≡ row_after row.Rdbal receive_rows bytes }
{
    match bytes {
        0x00 => Some(RowId::Rdbal),
        0x04 => Some(RowId::Rdbah),
        0x08 => Some(RowId::Rdlen),
        0x10 => Some(RowId::Rdh),
        0x14 => Some(RowId::Srrctl),
        0x18 => Some(RowId::Rdt),
        0x28 => Some(RowId::Rxdctl),
        _ => None,
    }
}

/// Returns the transmit register at this distance, in bytes, from a queue's first register.
#[rattlefmt::skip]
#[tactic(auto, unfolding(reg_table::specs::Rows::rows))]
fn transmit_row(bytes: u32) -> Option<RowId>
    ensures { result ≡ row_after row.Tdbal transmit_rows bytes }
{
    match bytes {
        0x00 => Some(RowId::Tdbal),
        0x04 => Some(RowId::Tdbah),
        0x08 => Some(RowId::Tdlen),
        0x10 => Some(RowId::Tdh),
        0x18 => Some(RowId::Tdt),
        0x28 => Some(RowId::Txdctl),
        0x38 => Some(RowId::Tdwbal),
        0x3C => Some(RowId::Tdwbah),
        _ => None,
    }
}
