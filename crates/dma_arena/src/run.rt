//! Runs: blocks with consecutive numbers, for packets that need several blocks.

ghost use Rattle.std.specs.Prelude.{ℕ, ◌≡◌, ◌↔◌, ◌+◌, ◌-◌, ◌<◌, ◌≤◌, None, option_map, slice_index_or, IfErr, IfSome, IfNone, IsNone, IsOk, OnSome};
ghost use Rattle.dma_arena.specs.Block.{zero_block};
ghost use Rattle.dma_arena.specs.Numbers.{count_of, is_free};
ghost use Rattle.dma_arena.specs.Run.{run_in, lowest_run, are_free, without_run};

use crate::arena::Arena;
use crate::buf::{Buf, nothing};
use std::marker::Model;

/// The maximum number of blocks in a run.
const RUN_BLOCKS: usize = 8;

/// Owned blocks with consecutive numbers, all filled with zeros.
///
/// In contracts, a run is its first number and its count. A run can't be dropped: `finish` ends it after all of its
/// blocks have been popped.
pub struct Run {
    first: u32,
    count: u32,
    slots: [Option<Buf>; RUN_BLOCKS],
}

impl Model for Run {
    ghost use Rattle.dma_arena.specs.Run.{BlockRun, IsRunOf};

    ghost Value = { BlockRun };

    ghost view = { λ r. record { first = r.first; count = r.count } };

    ghost invariant = { λ r. IsRunOf r.first r.count r.slots };
}

impl Run {
    /// Returns the lowest block number of the run.
    pub fn first(&self) -> u32
        ensures { result ≡ self.now.first }
    {
        self.first
    }

    /// Returns the number of blocks that remain in the run.
    pub fn count(&self) -> u32
        ensures count { result ≡ self.now.count }
        // At most 8.
        ensures few { result ≤ 8 }
    {
        self.count
    }

    /// Takes out the block with the highest number, filled with zeros. Returns `None` if and only if the run is empty.
    /// The other blocks stay in the run; an empty run is unchanged.
    pub fn pop(&mut self) -> Option<Buf>
        ensures none { IsNone result ↔ (self.old.count ≡ 0) }
        ensures highest { IfSome result (λ b. b ≡ zero_block (self.old.first + self.old.count - 1)) }
        ensures left { OnSome result (self.new ≡ record self.old { count = self.old.count - 1 }) }
        ensures kept { IfNone result (self.new ≡ self.old) }
    {
        if self.count == 0 {
            return None;
        }
        self.count -= 1;
        self.slots[self.count as usize].take()
    }

    /// Ends the run. Fails if and only if blocks remain; the error then contains the run, unchanged.
    pub fn finish(self) -> Result<(), Run>
        ensures ok { IsOk result ↔ (self.count ≡ 0) }
        ensures back { IfErr result (λ r. r ≡ self) }
    {
        let count = self.count;
        if count > 0 {
            return Err(self);
        }
        let Run {
            first: _,
            count: _,
            slots,
        } = self;
        nothing_left(slots);
        Ok(())
    }

    /// Returns an empty run that begins at this number.
    fn empty(first: u32) -> Run
        ensures { result ≡ record { first = first; count = 0 } }
    {
        Run {
            first,
            count: 0,
            slots: [None, None, None, None, None, None, None, None],
        }
    }

    /// Appends the block with the next number, which must be filled with zeros.
    fn push(&mut self, buf: Buf)
        requires few { self.old.count < 8 }
        requires next { buf ≡ zero_block (self.old.first + self.old.count) }
        ensures { self.new ≡ record self.old { count = self.old.count + 1 } }
    {
        let former = self.slots[self.count as usize].replace(buf);
        nothing(former);
        self.count += 1;
    }
}

impl Arena {
    /// Returns the arena's lowest number, `from` or higher, that begins a run of `count` free blocks; `count` must be
    /// at most 8. Returns `None` if and only if there is no such number. `from` must not be below the arena's numbers.
    pub fn find_run(&self, from: u32, count: u32) -> Option<u32>
        requires from { self.now.first ≤ from }
        requires few { count ≤ 8 }
        ensures run { result ≡ lowest_run self.now count from }
        ensures found { IfSome result (λ first. (from ≤ first) × (first + count ≤ 65536)) }
    {
        let mut number = from;
        while self.owns(number) {
            if are_free(self, number, count) {
                return Some(number);
            }
            number += 1;
        }
        None
    }

    /// Takes the lowest run of `count` free blocks (1 to 8), all filled with zeros. Returns `None` if and only if there
    /// aren't `count` consecutive free blocks. Allocates nothing. Only the run's numbers stop being free. If the result
    /// is `None`, nothing changes.
    pub fn take_run(&mut self, count: u32) -> Option<Run>
        requires few { (1 ≤ count) × (count ≤ 8) }
        ensures run { result ≡ option_map (λ first. record { first = first; count = count }) (run_in self.old count) }
        ensures small { IfSome result (λ r. r.first + count ≤ 65536) }
        ensures taken { IfSome result (λ r. self.new ≡ without_run self.old r.first count) }
        ensures kept { IfNone result (self.new ≡ self.old) }
    {
        let first = self.find_run(self.first(), count)?;
        let mut run = Run::empty(first);
        for k in 0..count {
            match self.take_at(first + k) {
                Some(buf) => run.push(buf),
                None => unreachable!(),
            }
        }
        Some(run)
    }
}

/// Drops a run's slots, all of which must be empty.
fn nothing_left(slots: [Option<Buf>; RUN_BLOCKS])
    requires { (k : ℕ) → slice_index_or slots k None ≡ None }
{
    let [a, b, c, d, e, f, g, h] = slots;
    nothing(a);
    nothing(b);
    nothing(c);
    nothing(d);
    nothing(e);
    nothing(f);
    nothing(g);
    nothing(h);
}

/// Whether each of the `count` blocks starting at `first` is free.
fn are_free(arena: &Arena, first: u32, count: u32) -> bool
    requires { (first < 65536) × (count ≤ 8) }
    ensures { result ≡ are_free arena.now first count }
{
    for k in 0..count {
        if !arena.is_free(first + k) {
            return false;
        }
    }
    true
}
