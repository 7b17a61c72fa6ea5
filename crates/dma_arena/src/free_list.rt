//! The blocks of an arena by index, each free or in use. The free blocks are counted and form a linked list; each free
//! block stores its links in its first bytes.

ghost use Rattle.std.specs.Prelude.{ℕ, ◌≡◌, ◌+◌, ◌-◌, ◌<◌, ◌≤◌, true, false, is_some, map, Some, None, length, replicate, count_by, slice_index_or, slice_set, IfOk, IfErr, IfSome, IfNone, IsTrue};
ghost use Rattle.std.specs.List.{list_all};
ghost use Rattle.dma_arena.specs.Links.{nodes_of, Relinked, IsLinked};

use crate::buf::{RawBlock, make};
use crate::links::{FreeBlock, Links};
use std::alloc::{AllocError, Global};
use std::marker::Model;

/// The index that marks both ends of the list; no block has this index.
const END: u32 = 65536;

/// The blocks of an arena, each at its index, with the linked list of the free blocks.
///
/// In contracts, a free list is a list that says for each index whether the block there is free.
pub(crate) struct FreeList {
    ends: Links,
    slots: Vec<Option<FreeBlock>>,
    free: u32,
}

impl Model for FreeList {
    ghost use Rattle.std.specs.Prelude.{◌≡◌, List, Bool, count_by, map, is_some};
    ghost use Rattle.dma_arena.specs.Links.{IsLinked};

    ghost Value = { List Bool };

    ghost view = { λ a. map is_some a.slots.items };

    ghost invariant = { λ a.
        IsLinked a.ends a.slots.items × (a.free ≡ count_by (λ free. free) (map is_some a.slots.items)) };
}

impl FreeList {
    /// Creates slots for `count` blocks, none of them free.
    fn empty(alloc: Global, count: usize) -> Result<FreeList, AllocError>
        requires { count ≤ 65536 }
        ensures { IfOk result (λ list. list ≡ replicate count false) }
    {
        let mut slots = Vec::with_capacity(alloc, count)?;
        for _made in 0..count {
            match slots.push(None) {
                Ok(()) => {}
                Err(_) => unreachable!(),
            }
        }
        let ends = Links {
            next: END,
            prev: END,
        };
        Ok(FreeList {
            ends,
            slots,
            free: 0,
        })
    }

    /// Creates `count` blocks, all of them free and linked by ascending index.
    pub(crate) fn full(alloc: Global, count: usize) -> Result<FreeList, AllocError>
        requires { count ≤ 65536 }
        ensures { IfOk result (λ list. list ≡ replicate count true) }
    {
        let mut list = FreeList::empty(alloc, count)?;
        let mut left = count;
        while left > 0 {
            let Ok(memory) = make(alloc) else {
                list.free_all();
                return Err(AllocError);
            };
            left -= 1;
            list.put(left as u32, memory);
        }
        Ok(list)
    }

    /// Returns the number of slots.
    pub(crate) fn len(&self) -> usize
        ensures count { result ≡ length self.now }
        ensures small { result ≤ 65536 }
    {
        let _ends = self.ends;
        self.slots.len()
    }

    /// Whether the block at an index is free.
    pub(crate) fn is_free(&self, place: usize) -> bool
        requires { place < length self.now }
        ensures { result ≡ slice_index_or self.now place false }
    {
        self.slots[place].is_some()
    }

    /// Returns the number of free blocks.
    pub(crate) fn count_free(&self) -> u32
        ensures { result ≡ count_by (λ free. free) self.now }
    {
        self.free
    }

    /// Whether all blocks are free.
    pub(crate) fn all_free(&self) -> bool
        ensures { result ≡ list_all (λ free. free) self.now }
    {
        self.count_free() as usize == self.len()
    }

    /// Returns the index of the first free block; `None` if no block is free.
    pub(crate) fn first(&self) -> Option<u32>
        ensures free { IfSome result (λ place. IsTrue (slice_index_or self.now place false)) }
        ensures small { IfSome result (λ place. place < length self.now) }
        ensures none { IfNone result (count_by (λ free. free) self.now ≡ 0) }
    {
        if self.ends.next == END {
            None
        } else {
            Some(self.ends.next)
        }
    }

    /// Puts a block's memory back at its index, so the block becomes free. The block must be in use.
    pub(crate) fn put(&mut self, place: u32, memory: RawBlock)
        requires inside { place < length self.old }
        requires in_use { slice_index_or self.old place false ≡ false }
        ensures { self.new ≡ slice_set self.old place true }
    {
        link(&mut self.ends, &mut self.slots, place, memory);
        self.free += 1;
    }

    /// Takes the block at an index. The block must be free.
    pub(crate) fn take(&mut self, place: u32) -> RawBlock
        requires { IsTrue (slice_index_or self.old place false) }
        ensures { self.new ≡ slice_set self.old place false }
    {
        self.free -= 1;
        unlink(&mut self.ends, &mut self.slots, place)
    }

    /// Fills all slots of this list with free blocks taken from `other`, starting at index `from` in `other`.
    fn fill(&mut self, other: &mut FreeList, from: usize)
        requires empty { self.old ≡ replicate (length self.old) false }
        requires fits { from + length self.old ≤ 65536 }
        requires there { (k : ℕ) → k < length self.old → slice_index_or other.old (from + k) false ≡ true }
        ensures filled { self.new ≡ replicate (length self.old) true }
        ensures kept { (p : ℕ) → from + length self.old ≤ p
            → slice_index_or other.new p false ≡ slice_index_or other.old p false }
    {
        let mut left = self.len();
        while left > 0 {
            left -= 1;
            let memory = other.take((from + left) as u32);
            self.put(left as u32, memory);
        }
    }

    /// Splits the list, all blocks of which are free, into the slots below index `place` and the remaining slots. If
    /// there isn't enough memory, the error contains the unchanged list.
    pub(crate) fn split(mut self, place: usize) -> Result<(FreeList, FreeList), FreeList>
        requires free { self ≡ replicate (length self) true }
        requires inside { place ≤ length self }
        ensures below { IfOk result (λ p. p.0 ≡ replicate place true) }
        ensures above { IfOk result (λ p. p.1 ≡ replicate (length self - place) true) }
        ensures back { IfErr result (λ list. list ≡ self) }
    {
        let alloc = *self.slots.allocator();
        let count = self.len() - place;
        let Ok(mut below) = FreeList::empty(alloc, place) else {
            return Err(self);
        };
        let Ok(mut above) = FreeList::empty(alloc, count) else {
            below.free_all();
            return Err(self);
        };
        below.fill(&mut self, 0);
        above.fill(&mut self, place);
        self.free_all();
        Ok((below, above))
    }

    /// Frees the memory of all free blocks.
    pub(crate) fn free_all(self) {
        let FreeList {
            ends: _,
            mut slots,
            free: _,
        } = self;
        while let Some(slot) = slots.pop() {
            if let Some(block) = slot {
                block.into_memory().free();
            }
        }
        slots.destroy_empty();
    }
}

/// Returns the links at an index, which must be `END` or the index of a free block.
fn links_at(ends: Links, slots: &[Option<FreeBlock>], place: u32) -> Links
    requires there { is_some (nodes_of ends slots.now place) ≡ true }
    ensures { nodes_of ends slots.now place ≡ Some result }
{
    if place == END {
        return ends;
    }
    match &slots[place as usize] {
        Some(block) => block.links(),
        None => unreachable!(),
    }
}

/// Sets the links at an index, which must be `END` or the index of a free block.
fn relink(ends: &mut Links, slots: &mut [Option<FreeBlock>], place: u32, links: Links)
    requires there { is_some (nodes_of ends.old slots.old place) ≡ true }
    ensures linked { Relinked (nodes_of ends.old slots.old) (nodes_of ends.new slots.new) place links }
    ensures marks { map is_some slots.new ≡ map is_some slots.old }
{
    if place == END {
        *ends = links;
        return;
    }
    let Some(block) = slots[place as usize].take() else {
        unreachable!();
    };
    let former = slots[place as usize].replace(FreeBlock::of(block.into_memory(), links));
    match former {
        None => {}
        Some(_) => unreachable!(),
    }
}

/// Inserts a block at the front of the list.
fn link(ends: &mut Links, slots: &mut [Option<FreeBlock>], place: u32, memory: RawBlock)
    requires linked { IsLinked ends.old slots.old }
    requires inside { place < length slots.old }
    requires in_use { slice_index_or slots.old place None ≡ None }
    ensures linked { IsLinked ends.new slots.new }
    ensures marks { map is_some slots.new ≡ slice_set (map is_some slots.old) place true }
{
    let first = ends.next;
    let block = FreeBlock::of(
        memory,
        Links {
            next: first,
            prev: END,
        },
    );
    let former = slots[place as usize].replace(block);
    match former {
        None => {}
        Some(_) => unreachable!(),
    }
    ends.next = place;
    let after = links_at(*ends, slots, first);
    relink(
        ends,
        slots,
        first,
        Links {
            next: after.next,
            prev: place,
        },
    );
}

/// Removes a block from the list, and links its neighbours to each other.
fn unlink(ends: &mut Links, slots: &mut [Option<FreeBlock>], place: u32) -> RawBlock
    requires linked { IsLinked ends.old slots.old }
    requires free { is_some (slice_index_or slots.old place None) ≡ true }
    ensures linked { IsLinked ends.new slots.new }
    ensures marks { map is_some slots.new ≡ slice_set (map is_some slots.old) place false }
{
    let links = links_at(*ends, slots, place);
    let before = links_at(*ends, slots, links.prev);
    relink(
        ends,
        slots,
        links.prev,
        Links {
            next: links.next,
            prev: before.prev,
        },
    );
    let after = links_at(*ends, slots, links.next);
    relink(
        ends,
        slots,
        links.next,
        Links {
            next: after.next,
            prev: links.prev,
        },
    );
    let Some(block) = slots[place as usize].take() else {
        unreachable!();
    };
    block.into_memory()
}
