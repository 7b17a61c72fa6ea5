//! How a driver starts.

ghost use Rattle.std.specs.Prelude.{◌≡◌, ◌↔◌, ◌≤◌, ◌+◌, ◌-◌, ◌*◌, ◌++◌, [], true, None, Some, IsSome, IfSome, OnSome, IfOk, IfErr};
ghost use Rattle.pmd_access.specs.NicDevice.DmaArena.Numbers.{free_count};
ghost use Rattle.pmd_driver.specs.Halted.{Halted, with_receive_ring};
ghost use Rattle.pmd_rx.specs.Keeping.{blocks_out};
ghost use Rattle.pmd_access.specs.Asks.{Asks};
ghost use Rattle.pmd_driver.specs.Starting.{ComesLate};
ghost use Rattle.pmd_driver.specs.Blocks.{HasAll, IsWhole};
ghost use Rattle.pmd_driver.specs.Driver.{handed_of, halted_of};
ghost use Rattle.pmd_driver.specs.Faults.{refused_in};
ghost use Rattle.pmd_driver.specs.Rising.{HasPlaces, IsOpen, StartsUp, StopsShort};
ghost use Rattle.pmd_driver.specs.Runs.{AreRuns};
ghost use Rattle.pmd_driver.specs.Started.{is_size, has_room, start_gate, left_accepted, left_handed, IsHome, IsShut};
ghost use Rattle.pmd_driver.specs.Started.{HasStarted, IsLeftWith, StopsStarting};
ghost use Rattle.pmd_access.specs.Begun.{BeganAs};
ghost use Rattle.pmd_access.specs.Frames.{is_frame};
ghost use Rattle.pmd_access.specs.Home.{AreOut};
ghost use Rattle.pmd_access.specs.Slots.{blocks_for};
ghost use Rattle.pmd_access.specs.Refusals.{Refusals, CanFail};

use crate::driver::{Pmd, Rings};
use crate::halted::Halted;
use crate::home::Home;
use crate::rings::{Unprepared, go_on, receive_ring, transmit_ring};
use crate::running::Running;
use pmd_access::{Arena, Nic, PmdFault, Port, Queue, blocks_for, is_frame};
use pmd_rx::ReceiveRing;
use std::alloc::Global;

/// What a refused start returns.
pub enum Rest {
    /// The arena, with none of its blocks lent.
    Home(Home),
    /// A driver that isn't running, with the blocks that it lent. `stop` returns these blocks to the arena.
    Running(Pmd),
}

/// A start that was refused.
pub struct StartRefused {
    /// Why the start was refused.
    pub fault: PmdFault,
    /// What you must close or stop: an arena, or a driver that isn't running.
    pub rest: Rest,
}

/// Returns whether a ring may have `size` descriptors: a multiple of 8 from 8 to 1,024.
fn is_size(size: u16) -> bool
    ensures { result ≡ is_size size }
{
    8 <= size && size <= 1024 && size % 8 == 0
}

/// Where a start places its rings: the first block of each ring.
#[derive(Clone, Copy)]
struct Places {
    receive: u32,
    transmit: u32,
}

/// Finds the two lowest runs of free blocks, each long enough for one ring. Returns `None` if there are no two such
/// runs or too few blocks are free.
fn find_places(arena: &Arena, size: u16) -> Option<Places>
    requires { (8 ≤ size) × (size ≤ 1024) }
    ensures some { IsSome result ↔ (has_room arena.now size ≡ true) }
    ensures runs { IfSome result (λ at. AreRuns arena.now (blocks_for size) at.receive at.transmit) }
    ensures enough { OnSome result (size - 1 + 2 * blocks_for size ≤ free_count arena.now) }
{
    let count = blocks_for(size);
    if arena.free_blocks() < u32::from(size) - 1 + 2 * count {
        return None;
    }
    let receive = arena.find_run(arena.first(), count)?;
    let transmit = arena.find_run(receive + count, count)?;
    Some(Places { receive, transmit })
}

/// Checks, before any event, whether a start is refused. If it isn't, returns the queue and the first block of each
/// ring.
fn named(
    arena: &Arena,
    port: Port,
    queue: u16,
    size: u16,
    frame: u16,
) -> Result<(Queue, Places), PmdFault>
    ensures named { IfOk result (λ n.
        IsOpen arena.now (record { port = port; queue = queue }) n.0 size frame n.1.receive n.1.transmit) }
    ensures shut { IfErr result (λ f.
        start_gate arena.now (record { port = port; queue = queue }) size frame ≡ Some f) }
    ensures refusal { (way : Refusals) → IfErr result (λ f. CanFail way f) }
{
    if !is_size(size) || !is_frame(frame) {
        return Err(PmdFault::BadSize);
    }
    let Some(places) = find_places(arena, size) else {
        return Err(PmdFault::NoBuffer);
    };
    match Queue::new(port, queue) {
        Some(queue) => Ok((queue, places)),
        None => Err(PmdFault::DeviceFault),
    }
}

/// Creates the error for a start that failed before it had lent a block. The error contains the arena.
fn at_home(alloc: Global, fault: PmdFault, arena: Arena) -> StartRefused
    ensures fault { result.fault ≡ fault }
    ensures rest { IsHome arena result.rest }
{
    StartRefused {
        fault,
        rest: Rest::Home(Home {
            arena,
            lost: 0,
            handed: Vec::new(alloc),
            accepted: Vec::new(alloc),
        }),
    }
}

/// Creates the error for a start that failed after it had lent blocks. The error contains a driver with these blocks.
fn half_started(fault: PmdFault, queue: Queue, halted: Halted) -> StartRefused
    ensures { result ≡ record {
      fault = fault;
      rest = Rest.Running (record { queue = queue; rings = Rings.Down halted });
    } }
{
    StartRefused {
        fault,
        rest: Rest::Running(Pmd::of(queue, Rings::Down(halted))),
    }
}

/// Creates the error for a start that failed while it prepared the receive ring. The arena owns the ring's blocks that
/// are already lent. They are all different, and none of them is free in the arena.
fn left_before_one(
    alloc: Global,
    queue: Queue,
    arena: Arena,
    unprepared: Unprepared,
) -> StartRefused
    requires { AreOut arena unprepared.lent.items }
    ensures fault { result.fault ≡ unprepared.fault }
    ensures rest { IsLeftWith queue arena unprepared.lent.items result.rest }
{
    let Unprepared { fault, lent } = unprepared;
    if lent.is_empty() {
        return at_home(alloc, fault, arena);
    }
    half_started(fault, queue, Halted::of_blocks(alloc, arena, lent))
}

/// Creates the error for a start that failed while it prepared the transmit ring. The arena owns the receive ring's
/// blocks and the transmit ring's blocks that are already lent. They are all different, and none of them is free in the
/// arena.
fn left_after_one(
    alloc: Global,
    queue: Queue,
    arena: Arena,
    receive: ReceiveRing,
    unprepared: Unprepared,
) -> StartRefused
    requires { AreOut arena (blocks_out receive ++ unprepared.lent.items) }
    ensures { result ≡ record {
      fault = unprepared.fault;
      rest = Rest.Running (record {
        queue = queue;
        rings = Rings.Down (with_receive_ring arena receive unprepared.lent.items);
      });
    } }
{
    let Unprepared { fault, lent } = unprepared;
    half_started(
        fault,
        queue,
        Halted::of_receive(alloc, arena, receive, lent),
    )
}

/// Brings up the rings of a queue, one after the other.
fn bring_up<N: Nic>(
    alloc: Global,
    nic: &mut N,
    queue: Queue,
    size: u16,
    frame: u16,
    arena: Arena,
    places: Places,
) -> Result<Pmd, StartRefused>
    requires { HasPlaces arena size frame places.receive places.transmit }
    ensures asks { Asks N.began N.refuses (refused_in result) nic.old nic.new }
    ensures starts { IfOk result (λ p. StartsUp queue size frame (N.made nic.old) arena (N.made nic.new) p) }
    ensures stops { IfErr result (λ e. StopsShort queue size frame (N.made nic.old) arena (N.made nic.new) e) }
{
    let mut arena = arena;
    let mut receive = match receive_ring(
        alloc,
        nic,
        &queue,
        &mut arena,
        places.receive,
        size,
        frame,
    ) {
        Ok(receive) => receive,
        Err(unprepared) => return Err(left_before_one(alloc, queue, arena, unprepared)),
    };
    let transmit = match transmit_ring(
        alloc,
        nic,
        &queue,
        &mut arena,
        places.transmit,
        size,
        frame,
    ) {
        Ok(transmit) => transmit,
        Err(unprepared) => return Err(left_after_one(alloc, queue, arena, receive, unprepared)),
    };
    match go_on(alloc, nic, &queue, &mut arena, &mut receive) {
        Ok(()) => {
            let running = Running::new(arena, receive, transmit);
            Ok(Pmd::of(queue, Rings::Up(running)))
        }
        Err(fault) => {
            let halted = Halted::of_rings(arena, receive, transmit);
            Err(half_started(fault, queue, halted))
        }
    }
}

impl Pmd {
    /// Starts the driver of a queue that is off. Each ring has `size` descriptors: a multiple of 8 from 8 to 1,024.
    /// Each ring takes a run of blocks from the arena, one block for every 128 descriptors, and `size` - 1 blocks are
    /// posted for incoming frames. A frame is at most `frame` bytes long, including its frame check sequence; `frame`
    /// is from 1,518 to 9,728.
    ///
    /// Before any event, it checks its arguments in this order. It fails with `BadSize` if the size or the frame length
    /// is out of range; with `NoBuffer` if too few blocks are free, or if the free blocks don't contain two such runs;
    /// with `DeviceFault` if the port can't address the queue. After that, it fails with `DeviceFault` if a side of the
    /// queue is on, or if the device sends a reply that a healthy queue can't send; with `StartTimeout` if 1,000 polls
    /// show a side off; with `Call` if a call was refused. If the start had already lent a block, the error contains
    /// the half-started driver; otherwise it contains the arena.
    pub fn start<N: Nic>(
        alloc: Global,
        nic: &mut N,
        port: Port,
        queue: u16,
        size: u16,
        frame: u16,
        arena: Arena,
    ) -> Result<Pmd, StartRefused>
        ensures shut { IsShut (start_gate arena (record { port = port; queue = queue }) size frame) arena
            (N.made nic.old) (N.made nic.new) result }
        // Before it lent any block, the driver read both sides as off, wrote "off" to both, and again read both as
        // off. It wrote the registers of one ring and lent the ring's free, consecutive blocks in order; then it did
        // the same for the other ring. It requested that both sides be enabled, and polled both sides until they were
        // on; fewer than 1,000 polls showed a side off. Then it filled the receive ring. Apart from device steps in
        // between, it made no other calls.
        ensures started { IfOk result (λ p. HasStarted (record { port = port; queue = queue }) size frame
            (N.made nic.old) arena (N.made nic.new) p) }
        ensures stops { IfErr result (λ e. start_gate arena (record { port = port; queue = queue }) size frame ≡ None
            → StopsStarting (record { port = port; queue = queue }) size frame (N.made nic.old) arena
            (N.made nic.new) e) }
        ensures late { IfErr result (λ e. start_gate arena (record { port = port; queue = queue }) size frame ≡ None
            → ComesLate e.fault) }
        ensures none { IfOk result (λ p. handed_of p.rings ≡ []) }
        ensures left { IfErr result (λ e. left_handed e.rest ≡ []) }
        ensures accepted { IfErr result (λ e. left_accepted e.rest ≡ []) }
        ensures blocks { IfOk result (λ p. HasAll arena (halted_of p.rings) []) }
        ensures whole { IfErr result (λ e. IsWhole arena e.rest) }
        ensures began { BeganAs N.began nic.old nic.new }
        ensures refuses { N.refuses nic.new ≡ N.refuses nic.old }
        ensures refusal { IfErr result (λ e. CanFail (N.refuses nic.new) e.fault) }
    {
        match named(&arena, port, queue, size, frame) {
            Ok((queue, places)) => bring_up(alloc, nic, queue, size, frame, arena, places),
            Err(fault) => Err(at_home(alloc, fault, arena)),
        }
    }
}
