//! Brings up a driver's rings, with one function for each step. If a step fails, the only blocks that it has taken from
//! the arena are those that it lent.

ghost use Rattle.std.specs.Prelude.{◌≡◌, ◌≤◌, ◌+◌, [], true};
ghost use Rattle.std.specs.List.{range_with_len};
ghost use Rattle.std.specs.VecDeque.{deque_capacity};
ghost use Rattle.pmd_access.specs.NicDevice.DmaArena.Numbers.{is_free};
ghost use Rattle.pmd_access.specs.NicDevice.DmaArena.Run.{IsFreeRun};
ghost use Rattle.pmd_access.specs.Frames.{is_frame};
ghost use Rattle.pmd_access.specs.Asks.{Asks, fault_in};
ghost use Rattle.pmd_driver.specs.Faults.{unprepared_in};
ghost use Rattle.pmd_driver.specs.Rising.{GoesUp, HasPlace, IsEmpty, LendsOne, LendsRun, Prepares, PreparesReceive, PreparesTransmit};

use pmd_access::{
    Arena, CallFault, Dir, Nic, PmdFault, Queue, blocks_for, lend, most_blocks, packet_limit,
};
use pmd_rx::ReceiveRing;
use pmd_tx::TransmitRing;
use std::alloc::Global;
use std::collections::VecDeque;

/// Why a ring couldn't be prepared, and the numbers of the ring's blocks that are already lent.
pub(crate) struct Unprepared {
    pub(crate) fault: PmdFault,
    pub(crate) lent: VecDeque<u32>,
}

/// Lends a block that is free in the arena.
fn lend_one<N: Nic>(
    alloc: Global,
    nic: &mut N,
    arena: &mut Arena,
    block: u32,
) -> Result<(), PmdFault>
    requires { is_free arena.old block ≡ true }
    ensures asks { Asks N.began N.refuses (fault_in result) nic.old nic.new }
    ensures lends { LendsOne result block (N.made nic.old) arena.old (N.made nic.new) arena.new }
{
    let Some(buf) = arena.take_at(block) else {
        unreachable!()
    };
    match lend(alloc, nic, buf) {
        Ok(None) => Ok(()),
        Ok(Some(buf)) => {
            arena.give_back(buf);
            Err(PmdFault::DeviceFault)
        }
        Err((fault, buf)) => {
            arena.give_back(buf);
            Err(PmdFault::Call(fault))
        }
    }
}

/// Lends `count` blocks in order, starting at block `first`; all of them are free in the arena. Appends the numbers of
/// the lent blocks to `lent`, which has room for them.
fn lend_run<N: Nic>(
    alloc: Global,
    nic: &mut N,
    arena: &mut Arena,
    first: u32,
    count: u32,
    lent: &mut VecDeque<u32>,
) -> Result<(), PmdFault>
    requires low { first + count ≤ 65536 }
    requires free { IsFreeRun arena.old first count }
    requires none { lent.old.items ≡ [] }
    requires room { count ≤ deque_capacity lent.old }
    ensures asks { Asks N.began N.refuses (fault_in result) nic.old nic.new }
    ensures lends { LendsRun result (range_with_len first count) (N.made nic.old) arena.old (N.made nic.new) arena.new
        lent.new.items }
{
    for k in 0..count {
        match lend_one(alloc, nic, arena, first + k) {
            Ok(()) => lent.push_back_reserved(first + k),
            Err(fault) => return Err(fault),
        }
    }
    Ok(())
}

/// Writes the registers of an empty ring with 8 to 1,024 descriptors, then lends the ring's blocks, which are free in
/// the arena and start at block `ring`.
fn prepare<N: Nic>(
    alloc: Global,
    nic: &mut N,
    queue: &Queue,
    arena: &mut Arena,
    side: Dir,
    ring: u32,
    size: u16,
) -> Result<(), Unprepared>
    requires { HasPlace arena.old ring size }
    ensures asks { Asks N.began N.refuses (unprepared_in result) nic.old nic.new }
    ensures prepares { Prepares result queue.now side ring size (N.made nic.old) arena.old (N.made nic.new) arena.new }
{
    let count = blocks_for(size);
    let mut lent = VecDeque::new(alloc);
    if lent.reserve(count as usize).is_err() {
        return Err(Unprepared {
            fault: PmdFault::Call(CallFault::OutOfMemory(())),
            lent,
        });
    }
    match queue.lay_out(alloc, nic, side, ring, size) {
        Ok(()) => {}
        Err(fault) => return Err(Unprepared { fault, lent }),
    }
    match lend_run(alloc, nic, arena, ring, count, &mut lent) {
        Ok(()) => Ok(()),
        Err(fault) => Err(Unprepared { fault, lent }),
    }
}

/// Disables both sides of the queue as `Queue::disable_both` does, then prepares an empty receive ring with 8 to 1,024
/// descriptors. The ring's blocks are free in the arena and start at block `ring`.
pub(crate) fn receive_ring<N: Nic>(
    alloc: Global,
    nic: &mut N,
    queue: &Queue,
    arena: &mut Arena,
    ring: u32,
    size: u16,
    frame: u16,
) -> Result<ReceiveRing, Unprepared>
    requires place { HasPlace arena.old ring size }
    requires frame { is_frame frame ≡ true }
    ensures asks { Asks N.began N.refuses (unprepared_in result) nic.old nic.new }
    ensures prepares { PreparesReceive result queue.now ring size frame (N.made nic.old) arena.old (N.made nic.new)
        arena.new }
{
    match queue.disable_both(alloc, nic) {
        Ok(()) => {}
        Err(fault) => {
            let lent = VecDeque::new(alloc);
            return Err(Unprepared { fault, lent });
        }
    }
    match prepare(alloc, nic, queue, arena, Dir::Rx, ring, size) {
        Ok(()) => {
            let tail = queue.tail_number(Dir::Rx);
            Ok(ReceiveRing::new(alloc, queue.port(), tail, ring, size, most_blocks(frame)))
        }
        Err(unprepared) => Err(unprepared),
    }
}

/// Prepares an empty transmit ring with 8 to 1,024 descriptors. The ring's blocks are free in the arena and start at
/// block `ring`.
pub(crate) fn transmit_ring<N: Nic>(
    alloc: Global,
    nic: &mut N,
    queue: &Queue,
    arena: &mut Arena,
    ring: u32,
    size: u16,
    frame: u16,
) -> Result<TransmitRing, Unprepared>
    requires place { HasPlace arena.old ring size }
    requires frame { is_frame frame ≡ true }
    ensures asks { Asks N.began N.refuses (unprepared_in result) nic.old nic.new }
    ensures prepares { PreparesTransmit result queue.now size frame (N.made nic.old) arena.old (N.made nic.new)
        arena.new }
{
    match prepare(alloc, nic, queue, arena, Dir::Tx, ring, size) {
        Ok(()) => {
            let tail = queue.tail_number(Dir::Tx);
            Ok(TransmitRing::new(alloc, queue.port(), tail, ring, size, packet_limit(frame)))
        }
        Err(unprepared) => Err(unprepared),
    }
}

/// Enables both sides and fills the receive ring. Enough blocks must be free to fill it.
pub(crate) fn go_on<N: Nic>(
    alloc: Global,
    nic: &mut N,
    queue: &Queue,
    arena: &mut Arena,
    receive: &mut ReceiveRing,
) -> Result<(), PmdFault>
    requires { IsEmpty arena.old receive.old }
    ensures asks { Asks N.began N.refuses (fault_in result) nic.old nic.new }
    ensures goes { GoesUp result queue.now (N.made nic.old) arena.old receive.old (N.made nic.new) arena.new
        receive.new }
{
    match queue.switch_both(alloc, nic, true) {
        Ok(()) => receive.fill(alloc, nic, arena),
        Err(fault) => Err(fault),
    }
}
