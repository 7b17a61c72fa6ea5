//! Access to packet memory by bus address.

ghost use Rattle.std.specs.Prelude.{◌≡◌, ◌↔◌, true, false, length, Some, IsTrue, IsOk, IfOk, IfErr, OnOk, OnErr};
ghost use Rattle.std.specs.FinMap as map;
ghost use Rattle.nic_device.specs.DmaArena.Memory.{has_block, is_lent, read_at};
ghost use Rattle.card.specs.Card.{written, with_bytes};

use crate::card::Card;
use nic_device::BlockBox;

impl Card {
    /// Copies the memory that starts at a bus address into the slice, and returns `true`. Returns `false` if and only
    /// if one of these bytes isn't lent; in that case the slice is unchanged.
    pub fn dma_read(&self, bus: u64, bytes: &mut [u8]) -> bool
        ensures lent { result ≡ is_lent self.now.device.memory bus (length bytes.old) }
        ensures read { result ≡ true → bytes.new ≡ read_at self.now.device.memory bus (length bytes.old) }
        ensures kept { result ≡ false → bytes.new ≡ bytes.old }
    {
        self.device.dma_read(bus, bytes)
    }

    /// Writes the slice to memory, starting at a bus address, and returns `true`. Returns `false` if and only if one of
    /// the bytes wouldn't be in a lent block; in that case nothing changes.
    pub fn dma_write(&mut self, bus: u64, bytes: &[u8]) -> bool
        ensures lent { result ≡ is_lent self.old.device.memory bus (length bytes.now) }
        ensures written { result ≡ true → self.new ≡ written self.old bus bytes.now }
        ensures kept { result ≡ false → self.new ≡ self.old }
    {
        self.device.dma_write(bus, bytes)
    }

    /// Replaces the memory of a lent block by new memory. The block then contains the bytes of the new memory. Returns
    /// the former memory, with the bytes that the block contained. Fails if and only if the block isn't lent; the error
    /// then contains the new memory, and nothing changes.
    pub fn exchange(&mut self, block: u32, memory: BlockBox) -> Result<BlockBox, BlockBox>
        ensures ok { IsOk result ↔ IsTrue (has_block self.old.device.memory block) }
        ensures put { OnOk result (self.new ≡ with_bytes self.old block memory.value) }
        ensures former { IfOk result (λ former. Some former.value ≡ map.get self.old.device.memory block) }
        ensures back { IfErr result (λ back. back ≡ memory) }
        ensures kept { OnErr result (self.new ≡ self.old) }
    {
        self.device.exchange(block, memory)
    }
}
