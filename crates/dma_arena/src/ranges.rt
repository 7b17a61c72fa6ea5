//! Reads and writes ranges of bus addresses in the lent blocks, one block at a time.

ghost use Rattle.std.specs.Prelude.{◌≡◌, ◌↔◌, ◌*◌, ◌+◌, ◌%◌, ◌<◌, ◌≤◌, ◌++◌, true, IsTrue, length, vec_capacity};
ghost use Rattle.dma_arena.specs.Memory.{has_block, is_lent, read_at, write_at, IsWhole};

use crate::table::Table;

/// Whether each byte of the range is in a lent block.
pub(crate) fn are_lent(blocks: &Table, address: u64, len: usize) -> bool
    requires { IsWhole blocks.now }
    ensures { result ≡ is_lent blocks.now address len }
{
    if is_in_one(address, len) {
        return is_lent_block(blocks, address / 2048);
    }
    let mut done = 0;
    while done < len {
        let at = address + done as u64;
        if !is_lent_block(blocks, at / 2048) {
            return false;
        }
        done += ((2048 - at % 2048) as usize).min(len - done);
    }
    true
}

/// Fills the slice with the bytes starting at an address.
pub(crate) fn read_bytes(blocks: &Table, address: u64, bytes: &mut [u8])
    requires whole { IsWhole blocks.now }
    requires lent { is_lent blocks.now address (length bytes.old) ≡ true }
    ensures read { bytes.new ≡ read_at blocks.now address (length bytes.old) }
{
    if is_in_one(address, bytes.len()) {
        read_part(
            blocks,
            (address / 2048) as u32,
            (address % 2048) as usize,
            bytes,
        );
        return;
    }
    let mut done = 0;
    while done < bytes.len() {
        let at = address + done as u64;
        let offset = (at % 2048) as usize;
        let len = (2048 - offset).min(bytes.len() - done);
        let part = &mut bytes[done..done + len];
        read_part(blocks, (at / 2048) as u32, offset, part);
        done += len;
    }
}

/// Appends the `len` bytes starting at an address to a vector that has room for them. Allocates nothing.
pub(crate) fn append_bytes(blocks: &Table, address: u64, len: usize, bytes: &mut Vec<u8>)
    requires whole { IsWhole blocks.now }
    requires lent { is_lent blocks.now address len ≡ true }
    requires room { length bytes.old.items + len ≤ vec_capacity bytes.old }
    ensures read { bytes.new.items ≡ bytes.old.items ++ read_at blocks.now address len }
    ensures capacity { vec_capacity bytes.old ≤ vec_capacity bytes.new }
{
    if is_in_one(address, len) {
        append_part(
            blocks,
            (address / 2048) as u32,
            (address % 2048) as usize,
            len,
            bytes,
        );
        return;
    }
    let mut done = 0;
    while done < len {
        let at = address + done as u64;
        let offset = (at % 2048) as usize;
        let more = (2048 - offset).min(len - done);
        append_part(blocks, (at / 2048) as u32, offset, more, bytes);
        done += more;
    }
}

/// Writes the bytes of the slice, starting at an address.
pub(crate) fn write_bytes(blocks: &mut Table, address: u64, bytes: &[u8])
    requires whole { IsWhole blocks.old }
    requires lent { is_lent blocks.old address (length bytes.now) ≡ true }
    ensures whole { IsWhole blocks.new }
    ensures written { blocks.new ≡ write_at blocks.old address bytes.now }
{
    if is_in_one(address, bytes.len()) {
        write_part(
            blocks,
            (address / 2048) as u32,
            (address % 2048) as usize,
            bytes,
        );
        return;
    }
    let mut done = 0;
    while done < bytes.len() {
        let at = address + done as u64;
        let offset = (at % 2048) as usize;
        let len = (2048 - offset).min(bytes.len() - done);
        write_part(blocks, (at / 2048) as u32, offset, &bytes[done..done + len]);
        done += len;
    }
}

/// Whether the range is nonempty and ends in the block that it starts in, as nearly all ranges do.
fn is_in_one(address: u64, len: usize) -> bool
    ensures { IsTrue result ↔ (0 < len) × (address % 2048 + len ≤ 2048) }
{
    0 < len && len <= 2048 - (address % 2048) as usize
}

/// Whether the block with this number is lent. The number may be too large for a block.
fn is_lent_block(blocks: &Table, number: u64) -> bool
    requires { IsWhole blocks.now }
    ensures { result ≡ has_block blocks.now number }
{
    match u32::try_from(number) {
        Ok(number) => blocks.has(number),
        Err(_) => false,
    }
}

/// Fills the slice with bytes from one block, starting at index `offset`.
fn read_part(blocks: &Table, number: u32, offset: usize, bytes: &mut [u8])
    requires whole { IsWhole blocks.now }
    requires lent { has_block blocks.now number ≡ true }
    requires room { offset + length bytes.old ≤ 2048 }
    ensures read { bytes.new ≡ read_at blocks.now (2048 * number + offset) (length bytes.old) }
{
    match blocks.get(number) {
        Some(buf) => bytes.copy_from_slice(&buf.bytes()[offset..offset + bytes.len()]),
        None => unreachable!(),
    }
}

/// Appends `len` bytes from one block, starting at index `offset`, to a vector that has room for them.
fn append_part(blocks: &Table, number: u32, offset: usize, len: usize, bytes: &mut Vec<u8>)
    requires whole { IsWhole blocks.now }
    requires lent { has_block blocks.now number ≡ true }
    requires inside { offset + len ≤ 2048 }
    requires room { length bytes.old.items + len ≤ vec_capacity bytes.old }
    ensures read { bytes.new.items ≡ bytes.old.items ++ read_at blocks.now (2048 * number + offset) len }
    ensures capacity { vec_capacity bytes.old ≤ vec_capacity bytes.new }
{
    match blocks.get(number) {
        Some(buf) => append_reserved(bytes, &buf.bytes()[offset..offset + len]),
        None => unreachable!(),
    }
}

/// Appends these bytes to a vector that has room for them.
fn append_reserved(bytes: &mut Vec<u8>, more: &[u8])
    requires room { length bytes.old.items + length more.now ≤ vec_capacity bytes.old }
    ensures appended { bytes.new.items ≡ bytes.old.items ++ more.now }
    ensures capacity { vec_capacity bytes.old ≤ vec_capacity bytes.new }
{
    match bytes.extend_from_slice(more) {
        Ok(()) => {}
        Err(_) => unreachable!(),
    }
}

/// Writes bytes into one block, starting at index `offset`.
fn write_part(blocks: &mut Table, number: u32, offset: usize, bytes: &[u8])
    requires whole { IsWhole blocks.old }
    requires lent { has_block blocks.old number ≡ true }
    requires room { offset + length bytes.now ≤ 2048 }
    ensures whole { IsWhole blocks.new }
    ensures written { blocks.new ≡ write_at blocks.old (2048 * number + offset) bytes.now }
{
    blocks.put(number, offset, bytes);
}
