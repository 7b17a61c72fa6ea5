//! A driver that isn't running.

ghost use Rattle.std.specs.Prelude.{◌≡◌, ◌↔◌, ◌<◌, ◌++◌, ◌⊎◌, ℕ, [], true, None, IfOk, IfErr, IsOk, IsNone, OnOk, OnErr};
ghost use Rattle.std.specs.List.{list_any};
ghost use Rattle.pmd_access.specs.NicDevice.DmaArena.Numbers.{free_count, is_own, is_free};
ghost use Rattle.pmd_access.specs.Begun.{BeganAs};
ghost use Rattle.pmd_access.specs.Bufs.{numbers_of, with_all_free};
ghost use Rattle.pmd_access.specs.Home.{AreOut};
ghost use Rattle.pmd_access.specs.Fresh.{IsFresh, bufs_for};
ghost use Rattle.pmd_rx.specs.Keeping.{blocks_out};
ghost use Rattle.pmd_driver.specs.Running.{kept_out};
ghost use Rattle.pmd_driver.specs.Blocks.{KeepsEach};
ghost use Rattle.pmd_driver.specs.Halted.{IsHalted, all_out, is_out, goes_back, is_free_or_out, with_rings};
ghost use Rattle.pmd_driver.specs.Halted.{with_receive_ring, with_blocks};
ghost use Rattle.pmd_driver.specs.Stopping.{Stops, StopFails, IsInPart, IsUnclosed, closed};
ghost use Rattle.pmd_driver.specs.Leaving.{leaving_as};
ghost use Rattle.pmd_access.specs.Refusals.{CanFail};

use crate::ends::{Receiving, Sending};
use crate::home::{Home, StopFailed};
use crate::stopping::Leaving;
use pmd_access::{
    Arena, Bufs, CallFault, Nic, Packet, PmdFault, Queue, Reclaim, Record, fresh_packet,
    give_packet,
};
use pmd_rx::ReceiveRing;
use pmd_tx::{TransmitRing, are_out};
use std::alloc::Global;
use std::collections::VecDeque;
use std::marker::Model;

/// A driver that isn't running: its start failed after it had lent a block, or its stop has begun. A `Halted` can't be
/// dropped, because its arena can't be; `stop` ends it.
pub struct Halted {
    arena: Arena,
    receive: Receiving,
    transmit: Sending,
}

impl Model for Halted {
    ghost use Rattle.pmd_driver.specs.Halted as halted;
    ghost use Rattle.pmd_driver.specs.Ends.{halted_as};

    ghost Value = { halted.Halted };

    ghost view = { λ h. halted_as h.arena h.receive h.transmit };

    ghost invariant = { λ h. halted.IsHalted (halted_as h.arena h.receive h.transmit) };
}

impl Halted {
    /// Creates a driver from the two rings of one queue. The arena owns the rings' blocks, which are all different, and
    /// none of them is free there. The function allocates nothing.
    pub fn of_rings(arena: Arena, receive: ReceiveRing, transmit: TransmitRing) -> Halted
        requires { AreOut arena (blocks_out receive ++ kept_out transmit) }
        ensures { result ≡ with_rings arena receive transmit }
    {
        let _count = arena.count();
        Halted {
            arena,
            receive: Receiving::Ring(receive),
            transmit: Sending::Ring(transmit),
        }
    }

    /// Creates a driver from a receive ring and some blocks lent for a transmit ring that doesn't exist yet. The arena
    /// owns the receive ring's blocks and these blocks, which are all different, and none of them is free there. The
    /// function allocates nothing.
    pub fn of_receive(
        alloc: Global,
        arena: Arena,
        receive: ReceiveRing,
        lent: VecDeque<u32>,
    ) -> Halted
        requires { AreOut arena (blocks_out receive ++ lent.items) }
        ensures { result ≡ with_receive_ring arena receive lent.items }
    {
        let _count = arena.count();
        Halted {
            arena,
            receive: Receiving::Ring(receive),
            transmit: Sending::Leaves(Reclaim::of(lent), Vec::new(alloc)),
        }
    }

    /// Creates a driver from some blocks that were lent for a receive ring. The arena owns these blocks, which are all
    /// different, and none of them is free there. The function allocates nothing.
    pub fn of_blocks(alloc: Global, arena: Arena, lent: VecDeque<u32>) -> Halted
        requires { AreOut arena lent.items }
        ensures { result ≡ with_blocks arena lent.items }
    {
        let _count = arena.count();
        Halted {
            arena,
            receive: Receiving::Leaves(Reclaim::of(lent), Vec::new(alloc)),
            transmit: Sending::Leaves(Reclaim::new(alloc), Vec::new(alloc)),
        }
    }

    /// Returns the records of the packets handed out so far, oldest first.
    pub fn handed(&self) -> &[Record]
        ensures { result.now ≡ self.now.handed }
    {
        self.receive.handed()
    }

    /// Returns the records of the packets accepted so far, oldest first.
    pub fn accepted(&self) -> &[Record]
        ensures { result.now ≡ self.now.accepted }
    {
        self.transmit.accepted()
    }

    /// Returns the number of free blocks in the driver's arena.
    pub fn free_blocks(&self) -> u32
        ensures { result ≡ free_count self.now.arena }
    {
        self.arena.free_blocks()
    }
}

impl Halted {
    /// Creates a packet of `len` zero bytes in free blocks. Returns `None` and takes no block if too few blocks are
    /// free or the length is above 10,240.
    pub fn packet(&mut self, len: u16) -> Option<Packet>
        ensures none { IsNone result ↔ ((10240 < len) ⊎ (free_count self.old.arena < bufs_for len)) }
        ensures made { IsFresh self.old.arena len result self.new.arena }
        ensures rest { self.new ≡ record self.old { arena = self.new.arena } }
    {
        fresh_packet(&mut self.arena, len)
    }

    /// Returns whether the driver still has the block with this number in use.
    fn is_out(&self, block: u32) -> bool
        ensures { result ≡ is_out self.now block }
    {
        self.receive.has(block) || self.transmit.has(block)
    }

    /// Returns whether the driver still has one of these blocks in use.
    fn has_one(&self, bufs: &Bufs) -> bool
        ensures { result ≡ list_any (λ n. is_out self.now n) (numbers_of bufs.now) }
    {
        for number in 0..bufs.count() {
            if self.is_out(bufs.get(number).block()) {
                return true;
            }
        }
        false
    }

    /// Returns whether the blocks of a packet can return to the arena.
    fn goes_back(&self, packet: &Packet) -> bool
        ensures { result ≡ goes_back self.now packet.now }
    {
        are_out(&self.arena, &packet.bufs) && !self.has_one(&packet.bufs)
    }

    /// Returns a packet's blocks to the arena. If one of the blocks can't go back to the arena, the caller gets the
    /// packet back instead. A block can't go back if the arena doesn't own its number, or if the block is already free.
    /// Nor can it go back if it occurs twice in the packet, or if this driver still has it in use.
    pub fn release(&mut self, packet: Packet) -> Result<(), Packet>
        ensures ok { IsOk result ↔ (goes_back self.old packet ≡ true) }
        ensures released { OnOk result
            (self.new ≡ record self.old { arena = with_all_free self.old.arena (numbers_of packet.bufs) }) }
        ensures blocks { OnOk result (KeepsEach self.old.arena (all_out self.old ++ numbers_of packet.bufs)
            self.new.arena (all_out self.new ++ [])) }
        ensures back { IfErr result (λ back. back ≡ packet) }
        // A refused release changes nothing.
        ensures kept { OnErr result (self.new ≡ self.old) }
    {
        if self.goes_back(&packet) {
            give_packet(&mut self.arena, packet);
            return Ok(());
        }
        Err(packet)
    }
}

impl Halted {
    /// Stops the driver: closes the rings, disables both sides of the queue, and returns all blocks to the arena.
    ///
    /// Fails with `Call(OutOfMemory)` before any event if there is no memory to close a ring. After that, it fails with
    /// `StartTimeout` if a side isn't disabled within the permitted polls; with `DeviceFault` if the port doesn't have
    /// a register that `stop` accesses; with `Call` if a call was refused. The error contains the driver in its current
    /// state, and you can call `stop` again. That call writes "off", polls again, and continues with the blocks that
    /// haven't been returned yet. A block that the device no longer has when `stop` tries to take it back is lost.
    pub fn stop<N: Nic>(self, alloc: Global, nic: &mut N, queue: &Queue) -> Result<Home, StopFailed>
        // If the stop succeeds, it has made only these calls, apart from device steps in between. It requested that
        // both sides be disabled, polled both sides, with fewer than 1,000 polls that showed a side on, and took each
        // block back.
        ensures home { IfOk result (λ home. Stops queue.now (N.made nic.old) self (N.made nic.new) home) }
        // The arena owns the same numbers as before.
        ensures owns { IfOk result (λ home. (n : ℕ) → is_own home.arena n ≡ is_own self.arena n) }
        // If no block is lost, the free numbers are those that were free before and those of the blocks that the driver
        // had in use. If a block is lost, clause `home` determines the free numbers: those that were free before, those
        // of the blocks in hand, and those of the blocks that the device returned.
        ensures free { IfOk result (λ home. home.lost ≡ 0
            → (n : ℕ) → is_free home.arena n ≡ is_free_or_out self.arena (all_out self) n) }
        ensures failed { IfErr result (λ failed.
            StopFails failed.fault queue.now (N.made nic.old) self (N.made nic.new) failed.halted) }
        ensures began { BeganAs N.began nic.old nic.new }
        ensures refuses { N.refuses nic.new ≡ N.refuses nic.old }
        ensures refusal { IfErr result (λ failed. CanFail (N.refuses nic.new) failed.fault) }
    {
        match self.close(alloc) {
            Ok(leaving) => leaving.go_home(alloc, nic, queue),
            Err(halted) => Err(StopFailed {
                fault: PmdFault::Call(CallFault::OutOfMemory(())),
                halted,
            }),
        }
    }

    /// Closes both rings. If memory runs out, returns the driver; one of its rings may then already be closed.
    fn close(self, alloc: Global) -> Result<Leaving, Halted>
        ensures closed { IfOk result (λ leaving. leaving_as leaving ≡ closed self) }
        ensures out { IsHalted self }
        ensures left { IfErr result (λ halted. IsInPart self halted) }
    {
        let Halted {
            arena,
            receive,
            transmit,
        } = self;
        let mut arena = arena;
        match receive.close(&mut arena) {
            Ok((receive, handed)) => match transmit.close(alloc, &mut arena) {
                Ok((transmit, accepted)) => Ok(Leaving {
                    arena,
                    receive,
                    transmit,
                    handed,
                    accepted,
                }),
                Err(transmit) => Err(Halted {
                    arena,
                    receive: Receiving::Leaves(receive, handed),
                    transmit,
                }),
            },
            Err(receive) => Err(Halted {
                arena,
                receive,
                transmit,
            }),
        }
    }

    /// Turns a driver with closed rings back into a `Halted`.
    pub(crate) fn of_leaving(leaving: Leaving) -> Halted
        requires { IsHalted (leaving_as leaving) }
        ensures { result ≡ leaving_as leaving }
    {
        let Leaving {
            arena,
            receive,
            transmit,
            handed,
            accepted,
        } = leaving;
        Halted {
            arena,
            receive: Receiving::Leaves(receive, handed),
            transmit: Sending::Leaves(transmit, accepted),
        }
    }
}
