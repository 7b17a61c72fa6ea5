ghost use Rattle.std.specs.Prelude.{◌≡◌, ◌↔◌, ◌+◌, ◌<◌, ◌≤◌, ◌++◌, ℕ, true, false, length, vec_capacity, IsTrue, Some, IfSome, IfNone, IfOk, IfErr, IsOk, IsNone, OnOk, OnErr};
ghost use Rattle.std.specs.FinMap as map;
ghost use Rattle.dma_arena.specs.Memory.{has_block, block_at, is_lent, read_at, write_at, IsWhole};
ghost use Rattle.dma_arena.specs.LendRefused.{back_of, IsTwice};

use crate::buf::{BLOCK_BYTES, BlockBox, Buf};
use crate::ranges;
use crate::table::Table;
use std::alloc::Global;
use std::marker::Model;

/// The packet memory that is lent to the device: blocks by number, and the bus that accesses them.
///
/// Bus address `a` is byte `a % 2048` of block `a / 2048`. A range of addresses may span blocks; a range is lent if
/// each block that it touches is lent. In contracts, lent memory is a map from the number of each lent block to the
/// block's bytes. Lent memory can't be dropped: `finish` ends it when no block is lent.
///
/// Only `lend` allocates. It makes room for all numbers up to the highest number that was ever lent.
pub struct LentMemory {
    blocks: Table,
}

impl Model for LentMemory {
    ghost use Rattle.std.specs.Coded.{coded_ℕ, coded_list};
    ghost use Rattle.std.specs.FinMap as map;
    ghost use Rattle.dma_arena.specs.Memory.{Memory, IsWhole};

    ghost Value = { Memory };

    ghost coded = { map.code coded_ℕ (coded_list coded_ℕ) };

    ghost view = { λ a. a.blocks };

    ghost invariant = { λ a. IsWhole a.blocks };
}

/// Why a block wasn't lent. Each variant returns the block.
pub enum LendRefused {
    /// A block with this number is already lent.
    Twice(Buf),
    /// There isn't enough memory to record the block.
    OutOfMemory(Buf),
}

impl LentMemory {
    /// Returns lent memory that contains no block. Allocates nothing.
    pub fn new(alloc: Global) -> LentMemory
        ensures { result ≡ map.empty }
    {
        LentMemory {
            blocks: Table::new(alloc),
        }
    }

    /// Lends a block under its number.
    ///
    /// Errors: `Twice` if and only if that number is already lent, otherwise `OutOfMemory`. Both errors contain the
    /// block and leave the lent memory unchanged. No number is lent twice at the same time.
    pub fn lend(&mut self, buf: Buf) -> Result<(), LendRefused>
        ensures lent { OnOk result (self.new ≡ map.insert self.old buf.number buf.bytes) }
        ensures once { OnOk result (has_block self.old buf.number ≡ false) }
        ensures twice { IfErr result (λ r. IsTwice r ↔ IsTrue (has_block self.old buf.number)) }
        ensures back { IfErr result (λ r. back_of r ≡ buf) }
        ensures kept { OnErr result (self.new ≡ self.old) }
    {
        if self.blocks.has(buf.block()) {
            return Err(LendRefused::Twice(buf));
        }
        // The invariant needs this block to be whole, which follows from the contract of `bytes`.
        let _ = buf.bytes();
        match self.blocks.insert(buf) {
            Ok(()) => Ok(()),
            Err(buf) => Err(LendRefused::OutOfMemory(buf)),
        }
    }

    /// Takes a block back, with the bytes that the bus left in it. Returns `None` if the block isn't lent; in this case
    /// nothing changes.
    pub fn take(&mut self, block: u32) -> Option<Buf>
        ensures taken { result ≡ block_at self.old block }
        ensures left { self.new ≡ map.remove self.old block }
        ensures kept { IfNone result (self.new ≡ self.old) }
    {
        self.blocks.remove(block)
    }

    /// Returns the lowest lent number. Returns `None` if and only if no block is lent.
    pub fn lowest(&self) -> Option<u32>
        ensures none { IsNone result ↔ (self.now ≡ map.empty) }
        ensures lent { IfSome result (λ number. IsTrue (has_block self.now number)) }
        // No lower number is lent.
        ensures least { IfSome result (λ number. (q : ℕ) → q < number → has_block self.now q ≡ false) }
    {
        self.blocks.lowest()
    }

    /// Returns a number above those of all lent blocks. It is at most 65,536.
    pub fn end(&self) -> u32
        ensures above { (number : ℕ) → has_block self.now number ≡ true → number < result }
        ensures small { result ≤ 65536 }
    {
        self.blocks.slots()
    }

    /// Whether each of the `len` bytes starting at a bus address is in a lent block. An empty range is always lent. Any
    /// other range that would extend past block 65,535 isn't lent.
    pub fn is_lent(&self, address: u64, len: usize) -> bool
        ensures lent { result ≡ is_lent self.now address len }
        ensures whole { IsWhole self.now }
    {
        ranges::are_lent(&self.blocks, address, len)
    }

    /// Returns the 16 bytes of a descriptor at a bus address. All of them must be lent.
    pub fn read16(&self, address: u64) -> [u8; 16]
        requires { is_lent self.now address 16 ≡ true }
        ensures { result ≡ read_at self.now address 16 }
    {
        let mut bytes = [0; 16];
        self.read_at(address, &mut bytes);
        bytes
    }

    /// Writes the 16 bytes of a descriptor at a bus address. All of them must be lent.
    pub fn write16(&mut self, address: u64, bytes: [u8; 16])
        requires { is_lent self.old address 16 ≡ true }
        ensures { self.new ≡ write_at self.old address bytes }
    {
        self.write_at(address, &bytes);
    }

    /// Fills the slice with the bytes starting at a bus address. All of these bytes must be lent. Each byte is read
    /// from its own address, even if the range spans blocks.
    pub fn read_at(&self, address: u64, bytes: &mut [u8])
        requires { is_lent self.now address (length bytes.old) ≡ true }
        ensures { bytes.new ≡ read_at self.now address (length bytes.old) }
    {
        ranges::read_bytes(&self.blocks, address, bytes);
    }

    /// Appends the `len` bytes starting at a bus address to a vector that has room for them. All of these bytes must be
    /// lent. Allocates nothing. Each byte is read from its own address, even if the range spans blocks.
    pub fn append_to(&self, address: u64, len: usize, bytes: &mut Vec<u8>)
        requires lent { is_lent self.now address len ≡ true }
        requires room { length bytes.old.items + len ≤ vec_capacity bytes.old }
        ensures appended { bytes.new.items ≡ bytes.old.items ++ read_at self.now address len }
        ensures capacity { vec_capacity bytes.old ≤ vec_capacity bytes.new }
    {
        ranges::append_bytes(&self.blocks, address, len, bytes);
    }

    /// Writes the bytes of the slice, starting at a bus address. All bytes of this range must be lent. Each byte is
    /// written to its own address, even if the range spans blocks.
    pub fn write_at(&mut self, address: u64, bytes: &[u8])
        requires { is_lent self.old address (length bytes.now) ≡ true }
        ensures { self.new ≡ write_at self.old address bytes.now }
    {
        ranges::write_bytes(&mut self.blocks, address, bytes);
    }

    /// Replaces the memory of a lent block without copying. The block now has the bytes of the new memory; the old
    /// memory is returned with the bytes that the block had.
    ///
    /// Fails if and only if the block isn't lent. The error then contains the new memory, and nothing changes.
    pub fn exchange(&mut self, block: u32, memory: BlockBox) -> Result<BlockBox, BlockBox>
        ensures ok { IsOk result ↔ IsTrue (has_block self.old block) }
        ensures put { OnOk result (self.new ≡ map.insert self.old block memory.value) }
        ensures former { IfOk result (λ former. Some former.value ≡ map.get self.old block) }
        ensures back { IfErr result (λ back. back ≡ memory) }
        ensures kept { OnErr result (self.new ≡ self.old) }
    {
        if !self.blocks.has(block) {
            return Err(memory);
        }
        let all: &[u8] = &*memory;
        prove!(all.len() == BLOCK_BYTES);
        Ok(self.blocks.exchange(block, memory))
    }

    /// Ends the lent memory. Fails if and only if a block is still lent; the error then contains the memory, unchanged.
    pub fn finish(self) -> Result<(), LentMemory>
        ensures ok { IsOk result ↔ (self ≡ map.empty) }
        ensures back { IfErr result (λ m. m ≡ self) }
    {
        if !self.blocks.is_empty() {
            return Err(self);
        }
        let LentMemory { blocks } = self;
        blocks.end();
        Ok(())
    }
}
