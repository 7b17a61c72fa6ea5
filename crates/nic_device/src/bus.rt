//! Reads and writes of bus address ranges in one call, for a program that owns the device.

ghost use Rattle.std.specs.Prelude.{◌≡◌, ◌*◌, ◌%◌, ◌↔◌, ℕ, true, false, length, Some, IsTrue, IsOk, IfOk, IfErr, OnOk, OnErr};
ghost use Rattle.std.specs.FinMap as map;
ghost use Rattle.rx_ring.specs.DmaArena.Memory.{has_block, is_lent, read_at, write_at};
ghost use Rattle.nic_device.specs.Bus.{PeeksTell, PokesLead};

use crate::device::Device;
use crate::engine::Engine;
use crate::event::Event;
use rx_ring::{BLOCK_BYTES, BlockBox};

impl Device {
    /// Reads packet memory into the slice, starting at a bus address. The range may span blocks. Returns `false` and
    /// leaves the slice unchanged if and only if some byte of the range isn't in a lent block.
    ///
    /// Suppose that the call returns `true`, the address is a multiple of 16, and the slice is 16 n bytes long. Then n
    /// consecutive `Peek16` events for the same range return the same bytes and change nothing.
    pub fn dma_read(&self, bus: u64, bytes: &mut [u8]) -> bool
        ensures lent { result ≡ is_lent self.now.memory bus (length bytes.old) }
        ensures read { result ≡ true → bytes.new ≡ read_at self.now.memory bus (length bytes.old) }
        ensures kept { result ≡ false → bytes.new ≡ bytes.old }
        ensures peeks { (n : ℕ) → result ≡ true → bus % 16 ≡ 0 → length bytes.old ≡ 16 * n
            → PeeksTell self.now bus n bytes.new }
    {
        self.engine.read_range(bus, bytes)
    }

    /// Writes the bytes of the slice to packet memory, starting at a bus address. The range may span blocks. Returns
    /// `false` and changes nothing if and only if some byte of the range isn't in a lent block.
    ///
    /// Suppose that the call returns `true`, the address is a multiple of 16, and the slice is 16 n bytes long. Then n
    /// consecutive `Poke16` events that write the same bytes leave the same state, and each replies `Done`.
    pub fn dma_write(&mut self, bus: u64, bytes: &[u8]) -> bool
        ensures lent { result ≡ is_lent self.old.memory bus (length bytes.now) }
        ensures written { result ≡ true → self.new ≡
            record self.old { memory = write_at self.old.memory bus bytes.now } }
        ensures kept { result ≡ false → self.new ≡ self.old }
        ensures pokes { (n : ℕ) → result ≡ true → bus % 16 ≡ 0 → length bytes.now ≡ 16 * n
            → PokesLead self.old bus n bytes.now self.new }
    {
        self.engine.write_range(bus, bytes)
    }

    /// Replaces the memory of a lent block with new memory. Afterwards, the block contains the new memory's bytes.
    /// Returns the old memory with the bytes that the block contained. The call copies nothing, but no clause states
    /// this.
    ///
    /// The device sees this as a write of the new memory's 2,048 bytes to the block. Fails if and only if the block
    /// isn't lent; the error then contains the new memory.
    pub fn exchange(&mut self, block: u32, memory: BlockBox) -> Result<BlockBox, BlockBox>
        ensures ok { IsOk result ↔ IsTrue (has_block self.old.memory block) }
        ensures put { OnOk result (self.new ≡
            record self.old { memory = map.insert self.old.memory block memory.value }) }
        ensures former { IfOk result (λ former. Some former.value ≡ map.get self.old.memory block) }
        ensures back { IfErr result (λ back. back ≡ memory) }
        ensures kept { OnErr result (self.new ≡ self.old) }
        // If the block is lent, 128 consecutive `Poke16` events with the new memory's bytes all succeed and leave the
        // same state.
        ensures pokes { IsOk result → PokesLead self.old (2048 * block) 128 memory.value self.new }
    {
        let all: &[u8] = &*memory;
        prove!(all.len() == BLOCK_BYTES);
        // Every element of lent memory must be below 256, and every element of the new memory is.
        Event::are_bytes(all);
        self.engine.exchange(block, memory)
    }
}

impl Engine {
    /// Reads the bytes starting at a bus address into the slice, if all of them are in lent blocks.
    fn read_range(&self, bus: u64, bytes: &mut [u8]) -> bool
        ensures lent { result ≡ is_lent self.now.memory bus (length bytes.old) }
        ensures read { result ≡ true → bytes.new ≡ read_at self.now.memory bus (length bytes.old) }
        ensures kept { result ≡ false → bytes.new ≡ bytes.old }
    {
        if !self.memory.is_lent(bus, bytes.len()) {
            return false;
        }
        self.memory.read_at(bus, bytes);
        true
    }

    /// Replaces the memory of a block, if the block is lent.
    fn exchange(&mut self, block: u32, memory: BlockBox) -> Result<BlockBox, BlockBox>
        ensures ok { IsOk result ↔ IsTrue (has_block self.old.memory block) }
        ensures put { OnOk result (self.new ≡
            record self.old { memory = map.insert self.old.memory block memory.value }) }
        ensures former { IfOk result (λ former. Some former.value ≡ map.get self.old.memory block) }
        ensures back { IfErr result (λ back. back ≡ memory) }
        ensures kept { OnErr result (self.new ≡ self.old) }
    {
        self.memory.exchange(block, memory)
    }

    /// Writes the bytes of the slice, starting at a bus address, if all bytes of the range are in lent blocks.
    fn write_range(&mut self, bus: u64, bytes: &[u8]) -> bool
        ensures lent { result ≡ is_lent self.old.memory bus (length bytes.now) }
        ensures written { result ≡ true → self.new ≡
            record self.old { memory = write_at self.old.memory bus bytes.now } }
        ensures kept { result ≡ false → self.new ≡ self.old }
    {
        if !self.memory.is_lent(bus, bytes.len()) {
            return false;
        }
        self.memory.write_at(bus, bytes);
        true
    }
}
