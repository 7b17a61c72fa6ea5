ghost use Rattle.std.specs.Prelude.{◌≡◌, ◌+◌, ◌<◌, ◌≤◌, length, replicate, None};
ghost use Rattle.std.specs.Borrow.{sem};
ghost use Rattle.dma_arena.specs.Block.{IsBlock, IsZeroFrom, bus_of, zero_block};
ghost use Rattle.dma_arena.specs.Memory.{put_bytes};

use crate::raw::Raw;
use std::alloc::{AllocError, Global};
use std::marker::Model;
use std::mem;

/// The size of a block in bytes.
pub const BLOCK_BYTES: usize = 2048;

/// The memory of one block, in a box that can be dropped.
pub type BlockBox = Box<[u8; BLOCK_BYTES], Global>;

/// The memory of one block. The memory moves between owners; only `free` frees it.
pub(crate) type RawBlock = Raw<[u8; BLOCK_BYTES], Global>;

/// Allocates the memory of a block.
pub(crate) fn make(alloc: Global) -> Result<RawBlock, AllocError> {
    Ok(Raw::of(Box::new(alloc, [0; BLOCK_BYTES])?))
}

/// Sets a block's bytes to 0.
fn clear(bytes: &mut RawBlock)
    ensures { bytes.new.value ≡ replicate 2048 0 }
{
    *bytes.get_mut() = [0; BLOCK_BYTES];
}

/// Drops an empty slot.
pub(crate) fn nothing(slot: Option<Buf>)
    requires { slot ≡ None }
{
    match slot {
        None => {}
        Some(_) => unreachable!(),
    }
}

/// A block of packet memory that the program owns.
///
/// In contracts, a block is its number and its bytes. It can't be cloned or dropped, so each block is in exactly one
/// place, and must finally be given to an arena or lent.
///
/// A block also stores an index: all of the block's bytes at and after this index are still 0, as they were when the
/// block was taken from an arena.
pub struct Buf {
    number: u16,
    written: u16,
    bytes: RawBlock,
}

impl Model for Buf {
    ghost use Rattle.std.specs.Prelude.{◌≤◌};
    ghost use Rattle.dma_arena.specs.Block.{Block, IsZeroFrom};

    ghost Value = { Block };

    ghost view = { λ b. record { number = b.number; bytes = b.bytes.value } };

    ghost invariant = { λ b. (b.written ≤ 2048) × IsZeroFrom b.written b.bytes.value };
}

impl Buf {
    ghost use Rattle.dma_arena.specs.Loan.{LendsBytes};

    /// Returns a block with this number and this memory, set to 0.
    pub(crate) fn cleared(number: u16, mut bytes: RawBlock) -> Buf
        ensures { result ≡ zero_block number }
    {
        clear(&mut bytes);
        Buf {
            number,
            written: 0,
            bytes,
        }
    }

    /// Returns the memory of a block that the program gives up.
    pub(crate) fn into_memory(self) -> RawBlock {
        let Buf {
            number: _,
            written: _,
            bytes,
        } = self;
        bytes
    }

    /// Replaces the block's memory without copying. The block now has the bytes of the new memory; the old memory is
    /// returned with the bytes that the block had.
    pub(crate) fn exchange(&mut self, memory: BlockBox) -> BlockBox
        ensures put { self.new ≡ record self.old { bytes = memory.value } }
        ensures former { result.value ≡ self.old.bytes }
    {
        self.written = 2048;
        mem::replace(&mut self.bytes, Raw::of(memory)).into_box()
    }

    /// Copies bytes into the block, starting at index `at`. They must fit: a block is 2,048 bytes long.
    #[tactic(auto, unfolding(crate::specs::Memory::put_bytes))]
    pub fn put(&mut self, at: usize, bytes: &[u8])
        requires { at + length bytes.now ≤ 2048 }
        ensures { self.new ≡ record self.old { bytes = put_bytes self.old.bytes at bytes.now } }
    {
        let end = at + bytes.len();
        self.written = self.written.max(end as u16);
        self.bytes.get_mut()[at..end].copy_from_slice(bytes);
    }

    /// Returns an index, at most 2,048; all bytes at and after it are 0. The index is stored, not searched for, so
    /// bytes before it may be 0 too.
    pub fn zeros_from(&self) -> usize
        ensures within { result ≤ 2048 }
        ensures zeros { IsZeroFrom result self.now.bytes }
    {
        usize::from(self.written)
    }

    /// Returns the block's number.
    pub fn block(&self) -> u32
        ensures number { result ≡ self.now.number }
        // The number is below 65,536.
        ensures small { result < 65536 }
    {
        u32::from(self.number)
    }

    /// Returns the bus address of the block's first byte: the block's number times 2,048.
    pub fn bus(&self) -> u64
        ensures { result ≡ bus_of self.now }
    {
        u64::from(self.number) * 2048
    }

    /// Returns the 2,048 bytes of the block.
    pub fn bytes(&self) -> &[u8; BLOCK_BYTES]
        ensures value { result.now ≡ self.now.bytes }
        ensures whole { IsBlock self.now }
    {
        // The number's type keeps it below 65,536.
        let _number = self.number;
        let bytes = self.bytes.get();
        let all: &[u8] = bytes;
        prove!(all.len() == BLOCK_BYTES);
        bytes
    }

    /// Borrows the block's bytes for writing. The block keeps its number. When the borrow ends, the block contains the
    /// bytes last written through the borrow.
    pub fn bytes_mut(&mut self) -> &mut [u8; BLOCK_BYTES]
        ensures* written { sem 𝓛 (LendsBytes self.entry result) }
        ensures value { result.now ≡ self.old.bytes }
    {
        self.written = BLOCK_BYTES as u16;
        self.bytes.get_mut()
    }
}
