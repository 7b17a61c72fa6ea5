//! Copies of lent blocks, and how a restore lends blocks again with the copied bytes.

ghost use Rattle.std.specs.Prelude.{◌≡◌, ◌↔◌, ℕ, true, false, length, IsTrue, Some, None, IfOk, OnOk, OnErr};
ghost use Rattle.std.specs.FinMap as map;
ghost use Rattle.rx_ring.specs.DmaArena.Memory.{Memory, has_block, IsWhole};
ghost use Rattle.rx_ring.specs.DmaArena.Numbers.{Numbers, is_free, with_free};
ghost use Rattle.nic_device.specs.Blocks.{AreFree, AreAway, AreAmong, TellsTaken, HaveLeft, StillLeft, memory_of, AreRising};

use rx_ring::{Arena, BLOCK_BYTES, LendRefused, LentMemory, Octets};
use std::alloc::{AllocError, Global};
use std::collections::VecDeque;
use std::marker::Model;

/// Copies of blocks with their numbers, in ascending order. Contracts view these copies as the memory that was copied.
#[derive(Drop)]
pub(crate) struct Blocks {
    copies: Vec<(u32, Octets)>,
}

impl Model for Blocks {
    ghost use Rattle.std.specs.Coded.{coded_ℕ, coded_list};
    ghost use Rattle.std.specs.FinMap as map;
    ghost use Rattle.rx_ring.specs.DmaArena.Memory.{Memory};
    ghost use Rattle.nic_device.specs.Blocks.{memory_of, AreRising};

    ghost Value = { Memory };

    ghost coded = { map.code coded_ℕ (coded_list coded_ℕ) };

    ghost view = { λ b. memory_of b.copies.items };

    ghost invariant = { λ b. AreRising b.copies.items };
}

impl Blocks {
    /// Returns no copies.
    pub(crate) fn none(alloc: Global) -> Blocks
        ensures { result ≡ map.empty }
    {
        Blocks {
            copies: Vec::new(alloc),
        }
    }

    /// Returns copies of all lent blocks.
    pub(crate) fn copied(alloc: Global, memory: &LentMemory) -> Result<Blocks, AllocError>
        requires { IsWhole memory.now }
        ensures { IfOk result (λ blocks. blocks ≡ memory.now) }
    {
        let mut copies = VecDeque::new(alloc);
        let mut number = memory.end();
        'each: while number > 0 {
            number -= 1;
            if let Some(bytes) = copy_of(alloc, memory, number)? {
                copies.push_front((number, bytes))?;
            }
        }
        Ok(Blocks {
            copies: copies.into_vec(),
        })
    }

    /// Returns the lowest number of a copied block that isn't free in the arena, or `None` if all copied blocks are
    /// free there.
    pub(crate) fn lowest_taken(&self, arena: &Arena) -> Option<u32>
        ensures { TellsTaken arena.now self.now result }
    {
        let copies = &self.copies;
        let mut lowest = None;
        let mut at = copies.len();
        'each: while at > 0 {
            at -= 1;
            let number = copies[at].0;
            if !arena.is_free(number) {
                lowest = Some(number);
            }
        }
        lowest
    }

    /// Whether every copied block is lent now.
    pub(crate) fn are_lent(&self, memory: &LentMemory) -> bool
        ensures { IsTrue result ↔ AreAmong memory.now self.now }
    {
        all_lent(&self.copies, memory)
    }

    /// Writes the copied bytes back to the copied blocks, which must be lent. Returns all other lent blocks to the
    /// arena.
    pub(crate) fn put_back(&self, memory: &mut LentMemory, arena: &mut Arena)
        requires lent { AreAmong memory.old self.now }
        requires whole { IsWhole self.now }
        requires blocks { IsWhole memory.old }
        requires away { AreAway arena.old memory.old }
        ensures put { memory.new ≡ self.now }
        ensures left { StillLeft arena.old memory.old arena.new memory.new }
    {
        put_all_back(&self.copies, memory, arena);
    }

    /// Takes the copied blocks out of the arena, where all of them must be free, and lends them with the copied bytes.
    /// If memory runs out, the arena is unchanged.
    pub(crate) fn lent(&self, alloc: Global, arena: &mut Arena) -> Result<LentMemory, AllocError>
        requires free { AreFree arena.old self.now }
        requires whole { IsWhole self.now }
        ensures lent { IfOk result (λ memory. memory ≡ self.now) }
        ensures left { OnOk result (HaveLeft arena.old arena.new self.now) }
        ensures kept { OnErr result (arena.new ≡ arena.old) }
    {
        let mut memory = LentMemory::new(alloc);
        match lend_all(&self.copies, arena, &mut memory) {
            Ok(()) => Ok(memory),
            Err(error) => {
                give_all_back(memory, arena);
                Err(error)
            }
        }
    }
}

/// Returns a copy of a lent block, or `None` if no block with that number is lent.
fn copy_of(alloc: Global, memory: &LentMemory, number: u32) -> Result<Option<Octets>, AllocError>
    ensures { IfOk result (λ copy. copy ≡ map.get memory.now number) }
{
    let bus = u64::from(number) * 2048;
    if !memory.is_lent(bus, BLOCK_BYTES) {
        return Ok(None);
    }
    let mut bytes = [0; BLOCK_BYTES];
    memory.read_at(bus, &mut bytes);
    let copy = Vec::from_slice(alloc, &bytes)?;
    Ok(Some(Octets::of(copy)))
}

/// Whether every copied block is lent.
fn all_lent(copies: &[(u32, Octets)], memory: &LentMemory) -> bool
    requires { AreRising copies.now }
    ensures { IsTrue result ↔ AreAmong memory.now (memory_of copies.now) }
{
    let mut at = copies.len();
    'each: while at > 0 {
        at -= 1;
        if !memory.is_lent(u64::from(copies[at].0) * 2048, BLOCK_BYTES) {
            return false;
        }
    }
    true
}

/// Writes the copied bytes back to their lent blocks, and returns lent blocks without a copy to the arena. Begins with
/// the highest block number.
fn put_all_back(copies: &[(u32, Octets)], memory: &mut LentMemory, arena: &mut Arena)
    requires rising { AreRising copies.now }
    requires lent { AreAmong memory.old (memory_of copies.now) }
    requires whole { IsWhole (memory_of copies.now) }
    requires blocks { IsWhole memory.old }
    requires away { AreAway arena.old memory.old }
    ensures put { memory.new ≡ memory_of copies.now }
    ensures left { StillLeft arena.old memory.old arena.new memory.new }
{
    let mut at = copies.len();
    let mut number = memory.end();
    'each: while number > 0 {
        number -= 1;
        if at > 0 && copies[at - 1].0 == number {
            at -= 1;
            write_block(memory, number, &copies[at].1);
        } else {
            return_block(memory, arena, number);
        }
    }
}

/// Overwrites a lent block.
fn write_block(memory: &mut LentMemory, number: u32, bytes: &Octets)
    requires lent { has_block memory.old number ≡ true }
    requires whole { length bytes.now ≡ 2048 }
    requires blocks { IsWhole memory.old }
    ensures { memory.new ≡ map.insert memory.old number bytes.now }
{
    memory.write_at(u64::from(number) * 2048, bytes.bytes());
}

/// Takes a block back, if it is lent, and returns it to the arena.
fn return_block(memory: &mut LentMemory, arena: &mut Arena, number: u32)
    requires { AreAway arena.old memory.old }
    ensures taken { memory.new ≡ map.remove memory.old number }
    ensures away { AreAway arena.new memory.new }
    ensures left { StillLeft arena.old memory.old arena.new memory.new }
{
    if let Some(buf) = memory.take(number) {
        arena.give_back(buf);
    }
}

/// Lends a block from the arena for each copy, highest number first.
fn lend_all(
    copies: &[(u32, Octets)],
    arena: &mut Arena,
    memory: &mut LentMemory,
) -> Result<(), AllocError>
    requires rising { AreRising copies.now }
    requires free { AreFree arena.old (memory_of copies.now) }
    requires whole { IsWhole (memory_of copies.now) }
    requires empty { memory.old ≡ map.empty }
    ensures lent { OnOk result (memory.new ≡ memory_of copies.now) }
    ensures left { HaveLeft arena.old arena.new memory.new }
{
    let mut at = copies.len();
    'each: while at > 0 {
        at -= 1;
        let (number, bytes) = &copies[at];
        lend_copy(arena, memory, *number, bytes)?;
    }
    Ok(())
}

/// Takes a free block out of the arena and lends it with these bytes.
fn lend_copy(
    arena: &mut Arena,
    memory: &mut LentMemory,
    number: u32,
    bytes: &Octets,
) -> Result<(), AllocError>
    requires free { is_free arena.old number ≡ true }
    requires apart { has_block memory.old number ≡ false }
    requires whole { length bytes.now ≡ 2048 }
    ensures lent { OnOk result (memory.new ≡ map.insert memory.old number bytes.now) }
    ensures left { OnOk result (arena.new ≡ with_free arena.old number false) }
    ensures unlent { OnErr result (memory.new ≡ memory.old) }
    ensures kept { OnErr result (arena.new ≡ arena.old) }
{
    let Some(mut buf) = arena.take_at(number) else {
        unreachable!()
    };
    buf.put(0, bytes.bytes());
    match memory.lend(buf) {
        Ok(()) => Ok(()),
        Err(LendRefused::Twice(_buf)) => unreachable!(),
        Err(LendRefused::OutOfMemory(buf)) => {
            arena.give_back(buf);
            Err(AllocError)
        }
    }
}

/// Consumes the lent memory and returns all of its blocks to the arena that they were taken from.
fn give_all_back(mut memory: LentMemory, arena: &mut Arena)
    requires { AreAway arena.old memory }
    ensures { (before : Numbers) → HaveLeft before arena.old memory → arena.new ≡ before }
{
    'each: while let Some(number) = memory.lowest() {
        match memory.take(number) {
            Some(buf) => arena.give_back(buf),
            None => unreachable!(),
        }
    }
    match memory.finish() {
        Ok(()) => {}
        Err(_memory) => unreachable!(),
    }
}
