//! The links of free blocks, stored in the blocks' first bytes.

ghost use Rattle.std.specs.Prelude.{◌≡◌};
ghost use Rattle.dma_arena.specs.Links.{links_of};

use crate::buf::{BLOCK_BYTES, RawBlock};
use std::marker::Model;

/// The indices of a free block's neighbours in the free list.
#[derive(Clone, Copy)]
pub(crate) struct Links {
    pub(crate) next: u32,
    pub(crate) prev: u32,
}

/// The memory of a free block, with the block's links in the first eight bytes. In contracts, a free block is its
/// links.
pub(crate) struct FreeBlock {
    memory: RawBlock,
}

impl Model for FreeBlock {
    ghost use Rattle.dma_arena.specs.declared.links.Links.{Links};
    ghost use Rattle.dma_arena.specs.Links.{links_of};

    ghost Value = { Links };

    ghost view = { λ b. links_of b.memory.value };
}

impl FreeBlock {
    /// Writes links into the memory of a block that becomes free.
    pub(crate) fn of(mut memory: RawBlock, links: Links) -> FreeBlock
        ensures { result ≡ links }
    {
        write_links(memory.get_mut(), links.next, links.prev);
        FreeBlock { memory }
    }

    /// Returns the memory of a block that leaves the free list.
    pub(crate) fn into_memory(self) -> RawBlock {
        let FreeBlock { memory } = self;
        memory
    }

    /// Returns the indices of the block's neighbours.
    pub(crate) fn links(&self) -> Links
        ensures { result ≡ self.now }
    {
        read_links(self.memory.get())
    }
}

/// Returns the links in a block's first eight bytes.
#[tactic(auto, unfolding(crate::specs::Links::links_of))]
fn read_links(bytes: &[u8; BLOCK_BYTES]) -> Links
    ensures { result ≡ links_of bytes.now }
{
    let mut next = [0; 4];
    next.copy_from_slice(&bytes[..4]);
    let mut prev = [0; 4];
    prev.copy_from_slice(&bytes[4..8]);
    Links {
        next: u32::from_le_bytes(next),
        prev: u32::from_le_bytes(prev),
    }
}

/// Writes links into a block's first eight bytes, little-endian.
fn write_links(bytes: &mut [u8; BLOCK_BYTES], next: u32, prev: u32)
    ensures { links_of bytes.new ≡ record { next = next; prev = prev } }
{
    bytes[..4].copy_from_slice(&next.to_le_bytes());
    bytes[4..8].copy_from_slice(&prev.to_le_bytes());
}
