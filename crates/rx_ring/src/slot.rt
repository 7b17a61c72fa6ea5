//! Fills the slot at the head in three steps: registers, descriptor, buffer.

ghost use Rattle.std.specs.Prelude.{◌≡◌, ◌-◌, ◌≤◌, ◌<◌, ◌^◌, length, IsTrue, IsFalse, OnErr};
ghost use Rattle.dma_arena.specs.Memory.{is_lent};
ghost use Rattle.dma_ring.specs.Ring.{is_outside, slots_of};
ghost use Rattle.rx_ring.specs.Fill.{IsReady, head_address, fill_of, fill_slot_of, fill_buffer_of};
ghost use Rattle.rx_ring.specs.Item.{rest_of};

use crate::control::{ONE_BUFFER, buffer_size, descriptor_type};
use crate::filled::Filled;
use crate::item::Item;
use dma_arena::LentMemory;
use dma_ring::{Ring, RingFault, buffer_address, done_word, first_half, of_halves};

/// Fills the slot at the head of a receive ring. The call writes the item's next bytes, as many as fit, to the buffer
/// of the slot's descriptor, and then writes back the descriptor. It allocates nothing. If the head and the tail are in
/// the ring, the device must own at least one of the ring's slots. The ring must have at most 65,536 slots, and the
/// item's offset must be at most the length of its frame.
///
/// `srrctl` is the value of the queue's SRRCTL. Errors, in the order of the tests: `Outside` if the head or the tail
/// isn't a slot; `DescType` if the descriptor type isn't 1 (advanced, one buffer); `NoBufferSize` if the buffer size is
/// 0; `NotLent` with the descriptor's address; `NotLent` with the buffer's address, if a byte to be written isn't lent.
/// Each error leaves the memory unchanged.
///
/// Intel 82599 datasheet, section on advanced receive descriptors.
#[tactic(auto, unfolding(crate::specs::Fill::fill_of))]
pub fn fill(
    memory: &mut LentMemory,
    ring: &Ring,
    srrctl: u32,
    item: &Item<'_>,
) -> Result<Filled, RingFault>
    requires ready { IsReady ring.now }
    requires slots { slots_of ring.now ≤ 65536 }
    requires offset { item.now.offset ≤ length item.now.frame.now }
    // All clauses hold for every SRRCTL value, every memory, and any remaining bytes of a frame.
    ensures answer { result ≡ (fill_of memory.old ring.now srrctl (rest_of item.now)).answer }
    ensures memory { memory.new ≡ (fill_of memory.old ring.now srrctl (rest_of item.now)).memory }
    ensures kept { OnErr result (memory.new ≡ memory.old) }
{
    if ring.outside() {
        return Err(RingFault::Outside);
    }
    if descriptor_type(srrctl) != ONE_BUFFER {
        return Err(RingFault::DescType);
    }
    let size = buffer_size(srrctl);
    if size == 0 {
        return Err(RingFault::NoBufferSize);
    }
    fill_slot(memory, ring, item, size)
}

/// Fills the slot at the head, given the buffer size in bytes: tests the descriptor and reads the buffer's address from
/// it.
#[tactic(auto, unfolding(crate::specs::Fill::fill_slot_of))]
fn fill_slot(
    memory: &mut LentMemory,
    ring: &Ring,
    item: &Item<'_>,
    size: usize,
) -> Result<Filled, RingFault>
    requires inside { IsFalse (is_outside ring.now) }
    requires slots { slots_of ring.now ≤ 65536 }
    requires offset { item.now.offset ≤ length item.now.frame.now }
    requires short { size < 2 ^ 16 }
    ensures answer { result ≡ (fill_slot_of memory.old ring.now (rest_of item.now) size).answer }
    ensures memory { memory.new ≡ (fill_slot_of memory.old ring.now (rest_of item.now) size).memory }
    ensures kept { OnErr result (memory.new ≡ memory.old) }
{
    let desc = ring.descriptor(ring.head);
    if !memory.is_lent(desc, 16) {
        return Err(RingFault::NotLent(desc));
    }
    let at = buffer_address(first_half(&memory.read16(desc)));
    let len = size.min(item.frame.len() - item.offset);
    fill_buffer(memory, ring, item, at, len)
}

/// Writes the item's next `len` bytes into the buffer at bus address `at`, then writes back the descriptor.
#[tactic(auto, unfolding(crate::specs::Fill::fill_buffer_of))]
fn fill_buffer(
    memory: &mut LentMemory,
    ring: &Ring,
    item: &Item<'_>,
    at: u64,
    len: usize,
) -> Result<Filled, RingFault>
    requires inside { IsFalse (is_outside ring.now) }
    requires slots { slots_of ring.now ≤ 65536 }
    requires offset { item.now.offset ≤ length item.now.frame.now }
    requires lent { IsTrue (is_lent memory.old (head_address ring.now) 16) }
    requires room { len ≤ length item.now.frame.now - item.now.offset }
    requires short { len < 2 ^ 16 }
    ensures answer { result ≡ (fill_buffer_of memory.old ring.now (rest_of item.now) at len).answer }
    ensures memory { memory.new ≡ (fill_buffer_of memory.old ring.now (rest_of item.now) at len).memory }
    ensures kept { OnErr result (memory.new ≡ memory.old) }
{
    if !memory.is_lent(at, len) {
        return Err(RingFault::NotLent(at));
    }
    let rest = &item.frame[item.offset..];
    let end = len == rest.len();
    let desc = ring.descriptor(ring.head);
    memory.write_at(at, &rest[..len]);
    memory.write16(desc, of_halves(item.first, done_word(len as u16, end)));
    Ok(Filled {
        slot: ring.head,
        end,
        desc,
        at,
        len,
        head: ring.next(ring.head),
    })
}
