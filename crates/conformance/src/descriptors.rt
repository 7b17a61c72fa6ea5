//! `dma_ring`: rings and the fields of descriptors. A 64-bit number is written as two words, the high half first.
//!
//! A ring is written as length, head and tail. `ring` prints the number of slots, and then either the number of slots
//! that the device owns, or `outside`.

use crate::call::Call;
use dma_ring::{
    Ring, buffer_address, command_in, done, done_word, first_half, of_halves, second_half,
};
use std::alloc::{AllocError, Global};

/// Returns the printed result of a call.
pub fn answer(alloc: Global, call: Call<'_>) -> Result<String, AllocError> {
    match call.name {
        "ring" | "next" | "descriptor" => ring_text(alloc, call),
        "halves" => {
            let bytes = of_halves(call.long(0, 1), call.long(2, 3));
            let (first, second) = (first_half(&bytes), second_half(&bytes));
            format!(in alloc; "{bytes:?} {first:#x} {second:#x}")
        }
        "done_word" => {
            format!(in alloc; "{:#x}", done_word(call.half(0), call.word(1) == "end"))
        }
        "buffer" => format!(in alloc; "{:#x}", buffer_address(call.long(0, 1))),
        "command" => format!(in alloc; "{:?}", command_in(call.long(0, 1))),
        "done" => format!(in alloc; "{:#x}", done(call.long(0, 1))),
        _ => format!(in alloc; "no such call"),
    }
}

/// Returns the printed result of a call on a ring.
fn ring_text(alloc: Global, call: Call<'_>) -> Result<String, AllocError> {
    let ring = Ring {
        base: call.long(3, 4),
        length: call.number(0),
        head: call.half(1),
        tail: call.half(2),
    };
    let slots = ring.slots();
    match call.name {
        "ring" if ring.outside() => format!(in alloc; "{slots} outside"),
        "ring" => format!(in alloc; "{slots} {}", ring.available()),
        "descriptor" => format!(in alloc; "{:#x}", ring.descriptor(call.half(5))),
        _ => {
            let slot = call.half(3);
            if u32::from(slot) < slots && slots <= 65536 {
                return format!(in alloc; "{}", ring.next(slot));
            }
            format!(in alloc; "none")
        }
    }
}
