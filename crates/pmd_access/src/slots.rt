//! The slots of a driver's ring, which occupies consecutive blocks of bus memory.

ghost use Rattle.std.specs.Prelude.{◌≡◌, ◌<◌, ◌≤◌, ◌+◌};
ghost use Rattle.device_lock.specs.NicDevice.DmaRing.Ring.{next_of};
ghost use Rattle.pmd_access.specs.Slots.{wrapped, descriptor_in, blocks_for, is_ring_block};

/// Returns the slot after `slot` in a ring of `size` slots; after the last slot, this is slot 0.
pub fn next_slot(size: u16, slot: u16) -> u16
    requires { slot < size }
    ensures { result ≡ next_of size slot }
{
    if slot + 1 == size { 0 } else { slot + 1 }
}

/// Returns the slot that is `after` slots past `slot` in a ring of `size` slots, at most 1,024.
pub fn slot_after(size: u16, slot: u16, after: u16) -> u16
    requires few { size ≤ 1024 }
    requires slot { slot < size }
    requires after { after ≤ size }
    ensures { result ≡ wrapped size (slot + after) }
{
    let at = slot + after;
    if at < size { at } else { at - size }
}

/// Returns the bus address of a slot's descriptor in a ring that starts at block `ring`.
pub fn descriptor_address(ring: u32, slot: u16) -> u32
    requires { ring < 65536 }
    ensures { result ≡ descriptor_in ring slot }
{
    2048 * ring + 16 * u32::from(slot)
}

/// Returns the number of blocks in a ring of `size` slots, at most 1,024. A block contains 128 descriptors.
pub fn blocks_for(size: u16) -> u32
    requires { size ≤ 1024 }
    ensures blocks { result ≡ blocks_for size }
    ensures few { result ≤ 8 }
{
    (u32::from(size) + 127) / 128
}

/// Returns whether `block` belongs to a ring of `size` slots, at most 1,024, that starts at block `ring`.
pub fn is_ring_block(ring: u32, size: u16, block: u32) -> bool
    requires size { size ≤ 1024 }
    requires ring { ring < 65536 }
    ensures { result ≡ is_ring_block ring size block }
{
    ring <= block && block < ring + blocks_for(size)
}
