//! Checksums that cover a whole value.

use crate::outcome::done;
use nic_device::{Arena, Buf, Device, Event, LentMemory, Octets, Parts, Reply};
use std::process::Abort;

/// The initial value of a checksum.
pub const START: u64 = 0xCBF2_9CE4_8422_2325;

/// Adds a number to a checksum.
pub fn with(sum: u64, number: u64) -> u64 {
    (sum ^ number).wrapping_mul(0x0000_0100_0000_01B3)
}

/// Adds bytes and their number to a checksum.
pub fn with_bytes(sum: u64, bytes: &[u8]) -> u64 {
    let mut sum = with(sum, bytes.len() as u64);
    for byte in bytes {
        sum = with(sum, u64::from(*byte));
    }
    sum
}

/// Adds a word, or the fact that there is none, to a checksum.
fn with_word(sum: u64, word: Option<u32>) -> u64 {
    match word {
        Some(word) => with(with(sum, 1), u64::from(word)),
        None => with(sum, 0),
    }
}

/// Adds a block to a checksum.
pub fn with_buf(sum: u64, buf: &Buf) -> u64 {
    with_bytes(with(sum, u64::from(buf.block())), buf.bytes())
}

/// Adds the free blocks of an arena to a checksum. Their numbers must be below 300.
pub fn with_arena(sum: u64, arena: &Arena) -> u64 {
    let mut sum = with(sum, u64::from(arena.free_blocks()));
    for block in 0..300 {
        sum = with(sum, u64::from(arena.is_free(block)));
    }
    sum
}

/// Adds an event that didn't run to a checksum.
pub fn with_event(sum: u64, event: &Option<Event>) -> u64 {
    match event {
        Some(Event::Lend(buf)) => with_buf(with(sum, 2), buf),
        Some(Event::Arrive(frame)) => with_bytes(with(sum, 3), frame.bytes()),
        Some(_other) => with(sum, 1),
        None => with(sum, 0),
    }
}

/// Adds all registers and all 16-byte units of the first four blocks to a checksum.
pub fn with_device<R: Abort>(rt: &R, sum: u64, device: &mut Device) -> u64 {
    let mut sum = with(sum, device.next_out() as u64);
    for number in 0..0x8000u32 {
        sum = with_word(sum, device.peek_register(4 * number));
    }
    for number in 0..512u32 {
        match done(rt, device.step(Event::Peek16(16 * number))) {
            Reply::Bytes(bytes) => sum = with_bytes(sum, &bytes),
            Reply::NotLent => sum = with(sum, 0),
            _other => panic!(rt; "not a peek's reply"),
        }
    }
    sum
}

/// Closes an arena with all blocks free. Returns the checksum with the arena added.
pub fn end_arena<R: Abort>(rt: &R, sum: u64, arena: Arena) -> u64 {
    let sum = with_arena(sum, &arena);
    done(rt, arena.close());
    sum
}

/// Closes lent memory and the arena of its blocks. Returns the checksum with all bytes added.
pub fn end_memory<R: Abort>(rt: &R, sum: u64, memory: LentMemory, arena: Arena) -> u64 {
    let (mut sum, mut memory, mut arena) = (sum, memory, arena);
    for block in 0..300 {
        if let Some(buf) = memory.take(block) {
            sum = with_buf(sum, &buf);
            done(rt, arena.give(buf));
        }
    }
    done(rt, memory.finish());
    end_arena(rt, sum, arena)
}

/// Adds frames to a checksum.
pub fn with_frames(sum: u64, frames: &[(u8, Octets)]) -> u64 {
    let mut sum = with(sum, frames.len() as u64);
    for (queue, frame) in frames {
        sum = with_bytes(with(sum, u64::from(*queue)), frame.bytes());
    }
    sum
}

/// Closes a device and the arena of its blocks. Returns the checksum with all contents of the device added.
pub fn end_device<R: Abort>(rt: &R, sum: u64, device: Device, arena: Arena) -> u64 {
    let mut device = device;
    let sum = with_device(rt, sum, &mut device);
    let Parts {
        memory,
        frames,
        image: _,
    } = device.dismantle();
    end_memory(rt, with_frames(sum, frames.as_slice()), memory, arena)
}
