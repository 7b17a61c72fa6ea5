//! Packet memory calls with ample memory. Each call is made by a separate function whose contract says nothing about
//! blocks: facts about all blocks would make each step of a test slow to prove.

use crate::device::{device, end, make, stepped};
use crate::outcome::{Hand, done, holds, none, refused, same, some};
use dma_arena::{
    Arena, ArenaFault, Buf, LendRefused, LentMemory, Octets, Run, SplitFault, SplitRefused,
};
use nic_device::{Device, Event, Reply};

/// Requires that a value can be sent to another thread.
fn can_be_sent<T: Send>() {}

/// Returns an arena of `count` blocks, starting at `first`.
fn arena(rt: &impl Hand, first: u32, count: u32) -> Arena {
    done(rt, Arena::new(rt.alloc(), first, count))
}

fn taken(rt: &impl Hand, arena: &mut Arena, block: u32) -> Buf {
    some(rt, arena.take_at(block))
}

fn give(rt: &impl Hand, arena: &mut Arena, buf: Buf) {
    done(rt, arena.give(buf));
}

/// Closes an arena. All its blocks must be free.
fn close(rt: &impl Hand, arena: Arena) {
    done(rt, arena.close());
}

/// Checks that an arena doesn't close while a block is taken.
fn stays_open(rt: &impl Hand, arena: Arena) -> Arena {
    refused(rt, arena.close())
}

fn lend(rt: &impl Hand, memory: &mut LentMemory, buf: Buf) {
    done(rt, memory.lend(buf));
}

fn back(rt: &impl Hand, memory: &mut LentMemory, block: u32) -> Buf {
    some(rt, memory.take(block))
}

/// Closes lent memory. All its blocks must have been taken back.
fn finish(rt: &impl Hand, memory: LentMemory) {
    done(rt, memory.finish());
}

fn halves(rt: &impl Hand, arena: Arena, at: u32) -> (Arena, Arena) {
    done(rt, arena.split(at))
}

/// Checks that an arena isn't split at this block, for this reason. Returns the arena.
fn whole(rt: &impl Hand, arena: Arena, at: u32, wanted: SplitFault) -> Arena {
    let SplitRefused { fault, arena } = refused(rt, arena.split(at));
    holds(rt, "why it isn't split", fault == wanted);
    arena
}

#[test]
fn blocks_are_lent_and_come_back(rt: HostRuntime) {
    let rt = &rt;
    let (mut below, above) = halves(rt, arena(rt, 0, 8), 4);
    let mut memory = LentMemory::new(rt.alloc());
    lend(rt, &mut memory, some(rt, below.take()));
    lend(rt, &mut memory, taken(rt, &mut below, 3));
    give(rt, &mut below, back(rt, &mut memory, 0));
    give(rt, &mut below, back(rt, &mut memory, 3));
    finish(rt, memory);
    close(rt, below);
    close(rt, above);
}

#[test]
fn packet_memory_goes_to_other_threads(_rt: HostRuntime) {
    can_be_sent::<Arena>();
    can_be_sent::<Buf>();
    can_be_sent::<Run>();
    can_be_sent::<LentMemory>();
    can_be_sent::<Octets>();
}

/// Returns the next block, which must be the last one.
fn last(rt: &impl Hand, arena: &mut Arena) -> Buf {
    let buf = some(rt, arena.take());
    none(rt, arena.take());
    buf
}

/// Both blocks of an arena are taken, one of them by its number. The arena closes after both are given back.
#[test]
fn an_arena_closes_once_all_blocks_are_given(rt: HostRuntime) {
    let rt = &rt;
    let mut arena = arena(rt, 4, 2);
    let five = taken(rt, &mut arena, 5);
    let four = last(rt, &mut arena);
    same(rt, u64::from(five.block()), 5);
    same(rt, u64::from(four.block()), 4);
    let mut arena = stays_open(rt, arena);
    give(rt, &mut arena, five);
    let mut arena = stays_open(rt, arena);
    give(rt, &mut arena, four);
    same(rt, u64::from(arena.free_blocks()), 2);
    close(rt, arena);
}

/// Returns the lowest run of two blocks, with its first block and its number of blocks.
fn run_of_two(rt: &impl Hand, arena: &mut Arena) -> (Run, u64, u64) {
    let run = some(rt, arena.take_run(2));
    let (first, count) = (u64::from(run.first()), u64::from(run.count()));
    (run, first, count)
}

/// Checks that there is no run of two blocks.
fn no_run_of_two(rt: &impl Hand, arena: &mut Arena) {
    none(rt, arena.take_run(2));
}

/// Returns the two blocks of a run, the higher one first. Checks that the run is finished only after both blocks are
/// taken out.
fn both_of(rt: &impl Hand, run: Run) -> (Buf, Buf) {
    let mut run = run;
    let high = some(rt, run.pop());
    let mut run = refused(rt, run.finish());
    let low = some(rt, run.pop());
    none(rt, run.pop());
    done(rt, run.finish());
    (high, low)
}

/// If block 1 is taken, the lowest run of two consists of blocks 2 and 3. This run returns the higher block first, and
/// is finished after both blocks are taken out.
#[test]
fn a_run_is_taken_and_comes_back(rt: HostRuntime) {
    let rt = &rt;
    let mut arena = arena(rt, 0, 4);
    let one = taken(rt, &mut arena, 1);
    let (run, first, count) = run_of_two(rt, &mut arena);
    same(rt, first, 2);
    same(rt, count, 2);
    no_run_of_two(rt, &mut arena);
    same(rt, u64::from(arena.free_blocks()), 1);
    let (three, two) = both_of(rt, run);
    same(rt, u64::from(two.block()), 2);
    same(rt, u64::from(three.block()), 3);
    give(rt, &mut arena, one);
    give(rt, &mut arena, two);
    give(rt, &mut arena, three);
    close(rt, arena);
}

/// Checks that the arena is refused for this reason.
fn no_arena(rt: &impl Hand, first: u32, count: u32, wanted: ArenaFault) {
    let fault = refused(rt, Arena::new(rt.alloc(), first, count));
    holds(rt, "why there is no arena", fault == wanted);
}

/// An arena contains at least one block, and only blocks with numbers below 65,536.
#[test]
fn arenas_have_their_limits(rt: HostRuntime) {
    let rt = &rt;
    no_arena(rt, 0, 0, ArenaFault::Empty);
    no_arena(rt, 65_535, 2, ArenaFault::TooMany);
    no_arena(rt, 0, 65_537, ArenaFault::TooMany);
    close(rt, arena(rt, 65_535, 1));
}

/// Checks an arena's first block and its number of free blocks.
fn is_free_from(rt: &impl Hand, arena: &Arena, first: u64, free: u64) {
    same(rt, u64::from(arena.first()), first);
    same(rt, u64::from(arena.free_blocks()), free);
}

/// An arena is split only between two of its blocks, and only while all its blocks are free.
#[test]
fn arenas_are_split_inside(rt: HostRuntime) {
    let rt = &rt;
    let mut arena = arena(rt, 0, 8);
    for at in [0, 8, 9] {
        arena = whole(rt, arena, at, SplitFault::OutsideArena);
    }
    let seven = taken(rt, &mut arena, 7);
    let mut arena = whole(rt, arena, 8, SplitFault::InUse);
    give(rt, &mut arena, seven);
    let (below, above) = halves(rt, arena, 4);
    is_free_from(rt, &below, 0, 4);
    is_free_from(rt, &above, 4, 4);
    close(rt, below);
    close(rt, above);
}

/// Checks that an arena refuses and returns a block with a number that is free in the arena.
fn handed_back(rt: &impl Hand, arena: &mut Arena, buf: Buf) -> Buf {
    refused(rt, arena.give(buf))
}

/// Checks that lent memory refuses and returns a block with a number that is already lent.
fn lent_once(rt: &impl Hand, memory: &mut LentMemory, buf: Buf) -> Buf {
    match refused(rt, memory.lend(buf)) {
        LendRefused::Twice(buf) => buf,
        LendRefused::OutOfMemory(_buf) => panic!(rt; "memory"),
    }
}

/// A block of another arena is refused while its number is free in this arena. Such a block is also refused while its
/// number is lent.
#[test]
fn blocks_of_another_arena_are_reported(rt: HostRuntime) {
    let rt = &rt;
    let mut other = arena(rt, 4, 2);
    let mut arena = arena(rt, 4, 2);
    let foreign = taken(rt, &mut other, 4);
    let foreign = handed_back(rt, &mut arena, foreign);
    let mut memory = LentMemory::new(rt.alloc());
    lend(rt, &mut memory, taken(rt, &mut arena, 4));
    let foreign = lent_once(rt, &mut memory, foreign);
    same(rt, u64::from(foreign.block()), 4);
    give(rt, &mut arena, back(rt, &mut memory, 4));
    finish(rt, memory);
    give(rt, &mut other, foreign);
    close(rt, arena);
    close(rt, other);
}

/// Checks that a device refuses and returns a block with a number that is already lent.
fn lent_twice(rt: &impl Hand, device: &mut Device, buf: Buf) -> Buf {
    match stepped(rt, device, Event::Lend(buf)) {
        Reply::Twice(buf) => buf,
        _other => panic!(rt; "not twice"),
    }
}

/// Takes the block with this number back from a device.
fn taken_back(rt: &impl Hand, device: &mut Device, block: u32) -> Buf {
    match stepped(rt, device, Event::Take(block)) {
        Reply::Buf(buf) => buf,
        _other => panic!(rt; "no block"),
    }
}

/// A device accepts each block number only once at a time. The event returns the refused block, and the lent block is
/// unchanged.
#[test]
fn a_device_is_lent_a_number_once(rt: HostRuntime) {
    let rt = &rt;
    let (mut other, mut arena) = (arena(rt, 4, 2), arena(rt, 4, 2));
    let mut device = device(rt);
    make(rt, &mut device, Event::Lend(taken(rt, &mut arena, 4)));
    let foreign = lent_twice(rt, &mut device, taken(rt, &mut other, 4));
    same(rt, u64::from(foreign.block()), 4);
    give(rt, &mut arena, taken_back(rt, &mut device, 4));
    make(rt, &mut device, Event::Lend(foreign));
    give(rt, &mut other, taken_back(rt, &mut device, 4));
    let _image = end(rt, device);
    close(rt, arena);
    close(rt, other);
}
