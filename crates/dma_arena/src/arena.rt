ghost use Rattle.std.specs.Prelude.{◌≡◌, ◌+◌, ◌-◌, ◌<◌, ◌≤◌, ◌↔◌, true, false, length, is_some, slice_index_or, IsTrue, IfOk, IfErr, IsOk, OnOk, OnErr, IfSome, IfNone, OnSome, IsNone};
ghost use Rattle.dma_arena.specs.Block.{zero_block};
ghost use Rattle.dma_arena.specs.Numbers.{count_of, free_count, is_own, is_free, are_all_free, all_free, with_free, numbers_below, numbers_from, IsArena, IsInside};

use crate::buf::Buf;
use crate::free_list::FreeList;
use std::alloc::Global;
use std::marker::Model;

/// The number of possible block numbers; every block number is below it.
pub const BLOCK_NUMBERS: u32 = 65536;

/// A pool of packet-memory blocks with consecutive numbers, each either free or in use.
///
/// In contracts, an arena is its first number and a list that says for each number whether it is free. An arena can't
/// be dropped: `close` ends it when all of its blocks are free.
pub struct Arena {
    first: u16,
    list: FreeList,
}

impl Model for Arena {
    ghost use Rattle.dma_arena.specs.Numbers.{Numbers, IsArena};

    ghost Value = { Numbers };

    ghost view = { λ a. record { first = a.first; free = a.list } };

    ghost invariant = { λ a. IsArena (record { first = a.first; free = a.list }) };
}

/// Why an arena wasn't created.
#[derive(Clone, Copy, Debug, PartialEq, Eq)]
pub enum ArenaFault {
    /// The requested count is 0.
    Empty,
    /// A number would be above 65,535.
    TooMany,
    /// There isn't enough memory for the blocks.
    OutOfMemory,
}

/// Why an arena wasn't split.
#[derive(Clone, Copy, Debug, PartialEq, Eq)]
pub enum SplitFault {
    /// A block of the arena isn't free.
    InUse,
    /// The number is the arena's first or isn't in the arena, so one half would be empty.
    OutsideArena,
    /// There isn't enough memory for the free list of the second half.
    OutOfMemory,
}

/// A refused split: the reason and the unchanged arena.
pub struct SplitRefused {
    /// Why the arena wasn't split.
    pub fault: SplitFault,
    /// The arena, unchanged.
    pub arena: Arena,
}

impl Arena {
    /// Creates an arena with the block numbers `first` to `first + count - 1`, all of them free. Allocates 2,048 bytes
    /// per block.
    ///
    /// Errors, in this order: `Empty` if `count` is 0; `TooMany` if a number would be above 65,535; `OutOfMemory`.
    pub fn new(alloc: Global, first: u32, count: u32) -> Result<Arena, ArenaFault>
        ensures ok { IfOk result (λ a. a ≡ all_free first count) }
        ensures made { IsOk result → (0 < count) × (first + count ≤ 65536) }
        ensures empty { (result ≡ Err ArenaFault.Empty) ↔ (count ≡ 0) }
        ensures too_many { (result ≡ Err ArenaFault.TooMany) ↔ ((0 < count) × (65536 < first + count)) }
    {
        if count == 0 {
            return Err(ArenaFault::Empty);
        }
        if first > BLOCK_NUMBERS || count > BLOCK_NUMBERS - first {
            return Err(ArenaFault::TooMany);
        }
        match FreeList::full(alloc, count as usize) {
            Ok(list) => Ok(Arena {
                first: first as u16,
                list,
            }),
            Err(_) => Err(ArenaFault::OutOfMemory),
        }
    }

    /// Returns the lowest of this arena's block numbers.
    pub fn first(&self) -> u32
        ensures { result ≡ self.now.first }
    {
        u32::from(self.first)
    }

    /// Returns how many block numbers this arena has. The numbers are consecutive and start with `first()`.
    pub fn count(&self) -> u32
        ensures { result ≡ count_of self.now }
    {
        self.list.len() as u32
    }

    /// Whether the block number belongs to this arena, free or not.
    pub fn owns(&self, block: u32) -> bool
        ensures own { result ≡ is_own self.now block }
        ensures arena { IsArena self.now }
    {
        self.place(block).is_some()
    }

    /// Whether the block is free in this arena. Returns `false` for a number outside the arena.
    pub fn is_free(&self, block: u32) -> bool
        ensures { result ≡ is_free self.now block }
    {
        match self.place(block) {
            Some(at) => self.list.is_free(at),
            None => false,
        }
    }

    /// Returns the number of free blocks.
    pub fn free_blocks(&self) -> u32
        ensures { result ≡ free_count self.now }
    {
        self.list.count_free()
    }

    /// Takes a free block, filled with zeros. Returns `None` if and only if no block is free.
    ///
    /// Which free block is taken is unspecified. Only the taken block's number stops being free. If no block is free,
    /// nothing changes.
    pub fn take(&mut self) -> Option<Buf>
        ensures none { IsNone result ↔ (free_count self.old ≡ 0) }
        ensures free { IfSome result (λ b. IsTrue (is_free self.old b.number)) }
        ensures zero { IfSome result (λ b. b ≡ zero_block b.number) }
        ensures taken { IfSome result (λ b. self.new ≡ with_free self.old b.number false) }
        ensures kept { IfNone result (self.new ≡ self.old) }
    {
        let number = self.first_free()?;
        self.take_at(number)
    }

    /// Takes the block with this number, filled with zeros. Returns `None` if and only if the number isn't free in this
    /// arena. Only this number stops being free. If the number isn't free, nothing changes.
    pub fn take_at(&mut self, block: u32) -> Option<Buf>
        ensures none { IsNone result ↔ (is_free self.old block ≡ false) }
        ensures zero { IfSome result (λ b. b ≡ zero_block block) }
        ensures taken { OnSome result (self.new ≡ with_free self.old block false) }
        ensures kept { IfNone result (self.new ≡ self.old) }
    {
        let at = self.place(block)?;
        if !self.list.is_free(at) {
            return None;
        }
        Some(Buf::cleared(block as u16, self.list.take(at as u32)))
    }

    /// Returns a block to the arena. Its number becomes free, and no other number changes. If the number doesn't belong
    /// to this arena or is already free, the error returns the block, and the arena is unchanged.
    pub fn give(&mut self, buf: Buf) -> Result<(), Buf>
        ensures ok { IsOk result ↔ (IsTrue (is_own self.old buf.number) × (is_free self.old buf.number ≡ false)) }
        ensures given { OnOk result (self.new ≡ with_free self.old buf.number true) }
        ensures back { IfErr result (λ b. b ≡ buf) }
        ensures kept { OnErr result (self.new ≡ self.old) }
    {
        match self.place(buf.block()) {
            Some(at) if !self.list.is_free(at) => {
                self.list.put(at as u32, buf.into_memory());
                Ok(())
            }
            _ => Err(buf),
        }
    }

    /// Returns a block to the arena that it was taken from. Its number becomes free. The number must belong to this
    /// arena and be in use; `give` checks both.
    pub fn give_back(&mut self, buf: Buf)
        requires own { is_own self.old buf.number ≡ true }
        requires away { is_free self.old buf.number ≡ false }
        ensures { self.new ≡ with_free self.old buf.number true }
    {
        match self.give(buf) {
            Ok(()) => {}
            Err(_buf) => unreachable!(),
        }
    }

    /// Splits the arena into one with the numbers below `at` and one with the remaining numbers.
    ///
    /// Errors, in this order: `InUse` if a block isn't free; `OutsideArena` if one half would have no numbers;
    /// `OutOfMemory`. Each error contains the arena, unchanged. On success, all blocks were free, and both halves have
    /// at least one number.
    pub fn split(self, at: u32) -> Result<(Arena, Arena), SplitRefused>
        ensures below { IfOk result (λ p. p.0 ≡ numbers_below self at) }
        ensures above { IfOk result (λ p. p.1 ≡ numbers_from self at) }
        ensures parted { IsOk result → IsTrue (are_all_free self) × IsInside self at }
        ensures in_use { IfErr result (λ r. (r.fault ≡ SplitFault.InUse) ↔ (are_all_free self ≡ false)) }
        ensures outside { IfErr result (λ r.
            (r.fault ≡ SplitFault.OutsideArena) ↔ (IsTrue (are_all_free self) × (IsInside self at → ⊥))) }
        ensures back { IfErr result (λ r. r.arena ≡ self) }
    {
        if !self.are_all_free() {
            return Err(SplitRefused {
                fault: SplitFault::InUse,
                arena: self,
            });
        }
        match self.place(at) {
            Some(place) if place > 0 => self.split_at(place),
            _ => Err(SplitRefused {
                fault: SplitFault::OutsideArena,
                arena: self,
            }),
        }
    }

    /// Closes the arena and frees its memory. Fails if and only if one of its blocks isn't free; the error then
    /// contains the arena, unchanged.
    pub fn close(self) -> Result<(), Arena>
        ensures ok { IsOk result ↔ IsTrue (are_all_free self) }
        ensures back { IfErr result (λ a. a ≡ self) }
    {
        if !self.are_all_free() {
            return Err(self);
        }
        let Arena { first: _, list } = self;
        list.free_all();
        Ok(())
    }

    /// Returns the index of a number's slot in the free list.
    fn place(&self, block: u32) -> Option<usize>
        ensures own { is_some result ≡ is_own self.now block }
        ensures place { IfSome result (λ at. self.now.first + at ≡ block) }
        ensures slot { IfSome result (λ at. at < count_of self.now) }
        ensures free { IfSome result (λ at. is_free self.now block ≡ slice_index_or self.now.free at false) }
        ensures none { IfNone result (is_free self.now block ≡ false) }
        ensures arena { IsArena self.now }
    {
        let first = u32::from(self.first);
        if block < first {
            return None;
        }
        let at = (block - first) as usize;
        if at < self.list.len() { Some(at) } else { None }
    }

    /// Returns the number of the first block in the free list.
    fn first_free(&self) -> Option<u32>
        ensures free { IfSome result (λ number. IsTrue (is_free self.now number)) }
        ensures none { IfNone result (free_count self.now ≡ 0) }
    {
        let place = self.list.first()?;
        Some(u32::from(self.first) + place)
    }

    /// Whether all blocks are free.
    fn are_all_free(&self) -> bool
        ensures { result ≡ are_all_free self.now }
    {
        self.list.all_free()
    }

    /// Splits the free list at an index.
    fn split_at(self, place: usize) -> Result<(Arena, Arena), SplitRefused>
        requires free { IsTrue (are_all_free self) }
        requires inside { (0 < place) × (place < count_of self) }
        ensures below { IfOk result (λ p. p.0 ≡ all_free self.first place) }
        ensures above { IfOk result (λ p. p.1 ≡ all_free (self.first + place) (count_of self - place)) }
        ensures fault { IfErr result (λ r. r.fault ≡ SplitFault.OutOfMemory) }
        ensures back { IfErr result (λ r. r.arena ≡ self) }
    {
        let Arena { first, list } = self;
        match list.split(place) {
            Ok((below, above)) => {
                let start = first + place as u16;
                Ok((
                    Arena { first, list: below },
                    Arena {
                        first: start,
                        list: above,
                    },
                ))
            }
            Err(list) => Err(SplitRefused {
                fault: SplitFault::OutOfMemory,
                arena: Arena { first, list },
            }),
        }
    }
}
