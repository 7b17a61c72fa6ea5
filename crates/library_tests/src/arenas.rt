//! Packet memory calls and the fetch of a descriptor, with allocations that fail.

use crate::outcome::{done, none, put, some};
use crate::sums::{START, end_arena, end_memory, with, with_arena, with_buf, with_bytes};
use crate::trial::{Trial, tried};
use dma_arena::{LendRefused, SplitFault, SplitRefused};
use dma_ring::Ring;
use nic_device::{Arena, Buf, LentMemory};
use std::alloc::Global;
use std::process::Abort;
use std::sync::Wait;
use tx_ring::{Staged, Tx, TxRefused, fetch};

/// An arena to split.
struct Splitting {
    whole: Option<Arena>,
    parts: Option<(Arena, Arena)>,
}

impl Splitting {
    /// Creates an arena of eight blocks.
    fn new<R: Abort>(rt: &R, alloc: Global) -> Splitting {
        Splitting {
            whole: Some(done(rt, Arena::new(alloc, 0, 8))),
            parts: None,
        }
    }
}

impl Trial for Splitting {
    fn call<R: Abort + Wait>(&mut self, rt: &R, _alloc: Global) -> bool {
        match some(rt, self.whole.take()).split(4) {
            Ok(parts) => {
                put(rt, &mut self.parts, parts);
                true
            }
            Err(SplitRefused { fault, arena }) => {
                assert!(rt; fault == SplitFault::OutOfMemory);
                put(rt, &mut self.whole, arena);
                false
            }
        }
    }

    fn picture<R: Abort>(&mut self, _rt: &R) -> u64 {
        match &self.whole {
            Some(arena) => with_arena(START, arena),
            None => 0,
        }
    }

    fn end<R: Abort + Wait>(self, rt: &R, _alloc: Global) -> u64 {
        let Splitting { whole, parts } = self;
        none(rt, whole);
        let (below, above) = some(rt, parts);
        end_arena(rt, end_arena(rt, START, below), above)
    }
}

#[test]
fn an_arena_is_split(rt: HostRuntime) {
    let alloc = rt.alloc();
    let subject = Splitting::new(&rt, alloc);
    let calm = Splitting::new(&rt, alloc);
    tried(&rt, alloc, subject, calm);
}

/// A block to lend.
struct Lending {
    arena: Arena,
    memory: LentMemory,
    buf: Option<Buf>,
}

impl Lending {
    /// Creates block 15 with contents, while block 0 is lent. The table of lent blocks has no entry for number 15 yet.
    fn new<R: Abort>(rt: &R, alloc: Global) -> Lending {
        let mut arena = done(rt, Arena::new(alloc, 0, 16));
        let mut memory = LentMemory::new(alloc);
        done(rt, memory.lend(some(rt, arena.take_at(0))));
        let mut buf = some(rt, arena.take_at(15));
        buf.bytes_mut()[7] = 0x5A;
        Lending {
            arena,
            memory,
            buf: Some(buf),
        }
    }
}

impl Trial for Lending {
    fn call<R: Abort + Wait>(&mut self, rt: &R, _alloc: Global) -> bool {
        match self.memory.lend(some(rt, self.buf.take())) {
            Ok(()) => true,
            Err(LendRefused::OutOfMemory(buf)) => {
                put(rt, &mut self.buf, buf);
                false
            }
            Err(LendRefused::Twice(_buf)) => panic!(rt; "it is lent"),
        }
    }

    fn picture<R: Abort>(&mut self, _rt: &R) -> u64 {
        let sum = with(START, u64::from(self.memory.is_lent(15 * 2048, 16)));
        match &self.buf {
            Some(buf) => with_buf(sum, buf),
            None => with(sum, u64::from(self.memory.is_lent(0, 2048))),
        }
    }

    fn end<R: Abort + Wait>(self, rt: &R, _alloc: Global) -> u64 {
        let Lending { arena, memory, buf } = self;
        none(rt, buf);
        end_memory(rt, START, memory, arena)
    }
}

#[test]
fn a_block_is_lent(rt: HostRuntime) {
    let alloc = rt.alloc();
    let subject = Lending::new(&rt, alloc);
    let calm = Lending::new(&rt, alloc);
    tried(&rt, alloc, subject, calm);
}

/// A descriptor to fetch.
struct Fetching {
    arena: Arena,
    memory: LentMemory,
    staged: Staged,
    sum: u64,
}

impl Fetching {
    /// Creates a descriptor for a 60-byte frame in slot 0.
    fn new<R: Abort>(rt: &R, alloc: Global) -> Fetching {
        let mut arena = done(rt, Arena::new(alloc, 0, 2));
        let mut memory = LentMemory::new(alloc);
        let mut ring = some(rt, arena.take_at(0));
        ring.bytes_mut()[1] = 8;
        ring.bytes_mut()[8] = 60;
        ring.bytes_mut()[10] = 0x30;
        ring.bytes_mut()[11] = 0x2B;
        let mut frame = some(rt, arena.take_at(1));
        frame.bytes_mut()[3] = 0x77;
        done(rt, memory.lend(ring));
        done(rt, memory.lend(frame));
        Fetching {
            arena,
            memory,
            staged: Staged::new(alloc),
            sum: START,
        }
    }
}

/// Slot 0 of eight belongs to the device.
const RING: Ring = Ring {
    base: 0,
    length: 128,
    head: 0,
    tail: 1,
};

const LIMITS: Tx = Tx {
    limit: 1514,
    pad: true,
    writeback: None,
};

impl Trial for Fetching {
    fn call<R: Abort + Wait>(&mut self, rt: &R, alloc: Global) -> bool {
        match fetch(alloc, &mut self.memory, &RING, &LIMITS, &mut self.staged) {
            Ok(fetched) => {
                let frame = some(rt, fetched.frame);
                self.sum = with_bytes(with(self.sum, u64::from(fetched.head)), frame.bytes());
                true
            }
            Err(TxRefused::OutOfMemory) => false,
            Err(TxRefused::Fault(_fault)) => panic!(rt; "a fault"),
        }
    }

    fn picture<R: Abort>(&mut self, _rt: &R) -> u64 {
        let lent = u64::from(self.memory.is_lent(0, 4096));
        with_bytes(with(self.sum, lent), self.staged.bytes())
    }

    fn end<R: Abort + Wait>(self, rt: &R, _alloc: Global) -> u64 {
        let Fetching {
            arena,
            memory,
            staged: _,
            sum,
        } = self;
        end_memory(rt, sum, memory, arena)
    }
}

#[test]
fn a_descriptor_is_fetched(rt: HostRuntime) {
    let alloc = rt.alloc();
    let subject = Fetching::new(&rt, alloc);
    let calm = Fetching::new(&rt, alloc);
    tried(&rt, alloc, subject, calm);
}
