//! The lent blocks by number.

ghost use Rattle.std.specs.Prelude.{ℕ, ◌≡◌, ◌↔◌, ◌+◌, ◌-◌, ◌<◌, ◌≤◌, ◌++◌, true, false, Some, None, length, replicate, is_some, count_by, option_copied, unwrap_or, [], IsTrue, IfSome, IfNone, IfErr, IsNone, OnOk, OnErr};
ghost use Rattle.std.specs.FinMap as map;
ghost use Rattle.dma_arena.specs.Memory.{has_block, block_at, put_bytes};
ghost use Rattle.dma_arena.specs.Shown.{NoneBelow, IsFirst};

use crate::buf::{BlockBox, Buf, nothing};
use std::alloc::{AllocError, Global};
use std::marker::Model;

/// The value of `first` while no block is lent; no block has this number.
const NONE_LENT: u32 = 65536;

/// The lent blocks, each at the index of its number.
///
/// In contracts, a table is a map from the number of each lent block to the block's bytes. The table has a slot for
/// each number up to the highest that was ever lent: at most 65,536 slots. Only `insert` adds slots.
///
/// The table stores the number of its blocks, `count`, and their lowest number, `first`. It also stores `next`: no
/// block between `first` and `next` is lent. So if the lowest block is repeatedly taken and lent again, the slots after
/// that block aren't searched each time.
pub(crate) struct Table {
    places: Vec<Option<Buf>>,
    first: u32,
    next: u32,
    count: u32,
}

impl Model for Table {
    ghost use Rattle.std.specs.Coded.{coded_ℕ, coded_list};
    ghost use Rattle.std.specs.FinMap as map;
    ghost use Rattle.dma_arena.specs.Memory.{Memory};
    ghost use Rattle.dma_arena.specs.Shown.{shown, IsTable};

    ghost Value = { Memory };

    ghost coded = { map.code coded_ℕ (coded_list coded_ℕ) };

    ghost view = { λ t. shown t.places.items };

    ghost invariant = { λ t. IsTable t.places.items t.first t.next t.count };
}

impl Table {
    /// Returns a table without blocks. Allocates nothing.
    pub(crate) fn new(alloc: Global) -> Table
        ensures { result ≡ map.empty }
    {
        Table {
            places: Vec::new(alloc),
            first: NONE_LENT,
            next: 0,
            count: 0,
        }
    }

    /// Returns the lent block with this number, or `None` if no block with this number is lent.
    pub(crate) fn get(&self, number: u32) -> Option<&Buf>
        ensures { option_copied result ≡ block_at self.now number }
    {
        if number as usize >= self.places.len() {
            return None;
        }
        self.places[number as usize].as_ref()
    }

    /// Whether the block with this number is lent.
    pub(crate) fn has(&self, number: u32) -> bool
        ensures { result ≡ has_block self.now number }
    {
        self.get(number).is_some()
    }

    /// Whether no block is lent.
    pub(crate) fn is_empty(&self) -> bool
        ensures { IsTrue result ↔ (self.now ≡ map.empty) }
    {
        self.first == NONE_LENT
    }

    /// Returns the lowest lent number; `None` if no block is lent.
    pub(crate) fn lowest(&self) -> Option<u32>
        ensures none { IsNone result ↔ (self.now ≡ map.empty) }
        ensures lent { IfSome result (λ number. IsTrue (has_block self.now number)) }
        ensures least { IfSome result (λ number. (q : ℕ) → q < number → has_block self.now q ≡ false) }
    {
        if self.first == NONE_LENT {
            return None;
        }
        Some(self.first)
    }

    /// Returns the number of slots. Each lent block has a lower number.
    pub(crate) fn slots(&self) -> u32
        ensures above { (number : ℕ) → has_block self.now number ≡ true → number < result }
        ensures small { result ≤ 65536 }
    {
        self.places.len() as u32
    }

    /// Copies bytes into a lent block, starting at index `offset`. They must fit: a block is 2,048 bytes long.
    pub(crate) fn put(&mut self, number: u32, offset: usize, bytes: &[u8])
        requires lent { has_block self.old number ≡ true }
        requires room { offset + length bytes.now ≤ 2048 }
        ensures { self.new
            ≡ map.insert self.old number (put_bytes (unwrap_or (map.get self.old number) []) offset bytes.now) }
    {
        match &mut self.places[number as usize] {
            Some(buf) => buf.put(offset, bytes),
            None => unreachable!(),
        }
    }

    /// Replaces the memory of a lent block, and returns the old memory.
    pub(crate) fn exchange(&mut self, number: u32, memory: BlockBox) -> BlockBox
        requires lent { has_block self.old number ≡ true }
        ensures put { self.new ≡ map.insert self.old number memory.value }
        ensures former { Some result.value ≡ map.get self.old number }
    {
        match &mut self.places[number as usize] {
            Some(buf) => buf.exchange(memory),
            None => unreachable!(),
        }
    }

    /// Inserts a block at its number, which must not be lent.
    ///
    /// If there isn't enough memory for the slots up to the block's slot, the error returns the block, and the set of
    /// lent blocks is unchanged.
    pub(crate) fn insert(&mut self, buf: Buf) -> Result<(), Buf>
        requires { has_block self.old buf.number ≡ false }
        ensures lent { OnOk result (self.new ≡ map.insert self.old buf.number buf.bytes) }
        ensures back { IfErr result (λ b. b ≡ buf) }
        ensures kept { OnErr result (self.new ≡ self.old) }
    {
        let number = buf.block();
        let Ok(()) = make_places(&mut self.places, number) else {
            return Err(buf);
        };
        nothing(self.places[number as usize].replace(buf));
        self.count += 1;
        self.next = next_with(self.first, self.next, number);
        self.first = self.first.min(number);
        Ok(())
    }

    /// Removes the block with this number. Returns `None` if that block isn't lent. If the removed block had the lowest
    /// number and other blocks remain, searches for the new lowest number, starting after the slots that are known to
    /// be empty.
    pub(crate) fn remove(&mut self, number: u32) -> Option<Buf>
        ensures taken { result ≡ block_at self.old number }
        ensures left { self.new ≡ map.remove self.old number }
        ensures kept { IfNone result (self.new ≡ self.old) }
    {
        if number as usize >= self.places.len() {
            return None;
        }
        let Some(buf) = self.places[number as usize].take() else {
            return None;
        };
        self.count -= 1;
        if number == self.first {
            let from = self.next.max(number + 1);
            self.first = first_from(&self.places, from, self.count);
            self.next = 0;
        }
        Some(buf)
    }

    /// Ends a table without blocks, and frees its slots.
    pub(crate) fn end(self)
        requires { self ≡ map.empty }
    {
        let Table {
            mut places,
            first: _,
            next: _,
            count: _,
        } = self;
        while let Some(place) = places.pop() {
            nothing(place);
        }
        places.destroy_empty();
    }
}

/// Adds empty slots up to a number, which must be below 65,536.
fn make_places(places: &mut Vec<Option<Buf>>, number: u32) -> Result<(), AllocError>
    requires { number < 65536 }
    ensures made { OnOk result (places.new.items
        ≡ places.old.items ++ replicate (number + 1 - length places.old.items) None) }
    ensures kept { OnErr result (places.new.items ≡ places.old.items) }
{
    let count = number as usize + 1;
    if count <= places.len() {
        return Ok(());
    }
    let more = count - places.len();
    places.reserve(more)?;
    for _made in 0..more {
        match places.push(None) {
            Ok(()) => {}
            Err(_) => unreachable!(),
        }
    }
    Ok(())
}

/// Returns the value of the table's `next` after the block with this number is inserted: no block between the lowest
/// block and this value is lent.
fn next_with(first: u32, next: u32, number: u32) -> u32
    ensures below { number < first → result ≡ first }
    ensures above { first ≤ number → result ≤ number }
    ensures gap { first ≤ number → result ≤ next }
{
    if number < first {
        first
    } else {
        next.min(number)
    }
}

/// Returns the index of the first slot that contains a block, or `NONE_LENT` if all slots are empty. No slot below
/// `from` may contain a block, and `count` must be the number of slots that do.
fn first_from(places: &[Option<Buf>], from: u32, count: u32) -> u32
    requires below { NoneBelow places.now from }
    requires few { length places.now ≤ 65536 }
    requires counted { count ≡ count_by (λ place. is_some place) places.now }
    ensures { IsFirst places.now result }
{
    if count == 0 {
        return NONE_LENT;
    }
    let mut place = from as usize;
    while place < places.len() {
        if places[place].is_some() {
            return place as u32;
        }
        place += 1;
    }
    NONE_LENT
}
