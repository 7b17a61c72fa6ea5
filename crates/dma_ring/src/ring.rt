ghost use Rattle.std.specs.Prelude.{◌≡◌, ◌<◌, ◌≤◌, length, IsTrue, IsFalse};
ghost use Rattle.dma_ring.specs.Ring.{slots_of, is_outside, next_of, descriptor_address, available_slots};

/// The size of a descriptor in bytes.
pub const DESCRIPTOR_BYTES: u32 = 16;

/// A ring, as a queue's registers describe it.
#[derive(Clone, Copy, PartialEq, Eq, Debug)]
pub struct Ring {
    /// The bus address of slot 0 (RDBAL and RDBAH, or TDBAL and TDBAH).
    pub base: u64,
    /// The ring's length in bytes (RDLEN or TDLEN). A remainder shorter than 16 bytes isn't a slot.
    pub length: u32,
    /// The slot that the device processes next (RDH or TDH).
    pub head: u16,
    /// The first slot that the device doesn't own (RDT or TDT).
    pub tail: u16,
}

impl Ring {
    /// Returns the number of slots in the ring: one for each 16 bytes of its length.
    pub fn slots(&self) -> u32
        ensures { result ≡ slots_of self.now }
    {
        self.length / DESCRIPTOR_BYTES
    }

    /// Whether the head or the tail isn't a slot of the ring.
    pub fn outside(&self) -> bool
        ensures { result ≡ is_outside self.now }
    {
        u32::from(self.head) >= self.slots() || u32::from(self.tail) >= self.slots()
    }

    /// Returns the number of slots that the device owns: from the head up to, but not including, the tail. The number
    /// is 0 if the head and the tail are equal. Both must be slots of the ring.
    pub fn available(&self) -> u32
        requires { IsFalse (is_outside self.now) }
        ensures { result ≡ length (available_slots self.now) }
    {
        let head = u32::from(self.head);
        let tail = u32::from(self.tail);
        if head <= tail {
            tail - head
        } else {
            self.slots() - head + tail
        }
    }

    /// Returns the slot that follows `slot`. Slot 0 follows the last slot. The ring must have at most 65,536 slots.
    pub fn next(&self, slot: u16) -> u16
        requires slot { slot < slots_of self.now }
        requires slots { slots_of self.now ≤ 65536 }
        ensures { result ≡ next_of (slots_of self.now) slot }
    {
        if u32::from(slot) + 1 == self.slots() {
            return 0;
        }
        slot + 1
    }

    /// Returns the bus address of a slot's descriptor: the base plus 16 bytes per slot, modulo 2^64.
    pub fn descriptor(&self, slot: u16) -> u64
        ensures { result ≡ descriptor_address self.now slot }
    {
        self.base
            .wrapping_add(u64::from(DESCRIPTOR_BYTES) * u64::from(slot))
    }
}
