//! A driver with both rings up.

ghost use Rattle.std.specs.Prelude.{◌≡◌, ◌<◌, ◌⊎◌, ◌↔◌, [], nat_lt, true, drop, length, All, IfOk, IfErr, IfSome, IsNone, IsOk, OnOk, OnErr};
ghost use Rattle.std.specs.List.{list_any};
ghost use Rattle.pmd_access.specs.NicDevice.DmaArena.Numbers.{free_count};
ghost use Rattle.pmd_access.specs.NicDevice.DmaArena.Whereabouts.{times_in_hand};
ghost use Rattle.pmd_access.specs.Begun.{BeganAs};
ghost use Rattle.pmd_access.specs.Bufs.{numbers_of};
ghost use Rattle.pmd_access.specs.Fresh.{IsFresh, bufs_for};
ghost use Rattle.pmd_rx.specs.Keeping.{blocks_out, handed_blocks, numbers_in, numbers_of_all};
ghost use Rattle.pmd_access.specs.Asks.{Asks, fault_in};
ghost use Rattle.pmd_tx.specs.Acts.{failed_in};
ghost use Rattle.pmd_tx.specs.Counted.{packets_in};
ghost use Rattle.pmd_tx.specs.Sends.{returned};
ghost use Rattle.pmd_driver.specs.Apart.{DrivesRings, OwnsSame};
ghost use Rattle.pmd_driver.specs.Blocks.{KeepsUp};
ghost use Rattle.pmd_driver.specs.Bursts.{IsReceiveBurst, vacant_in};
ghost use Rattle.pmd_driver.specs.DriverCalls.{IsReceiveCall, IsSendCall, IsReapCall};
ghost use Rattle.pmd_driver.specs.Halves.{halves_of};
ghost use Rattle.pmd_driver.specs.Queueing.{Continues, QueuesOne};
ghost use Rattle.pmd_driver.specs.Running.{IsUp, IsReleased, goes_back, receives};
ghost use Rattle.pmd_access.specs.Refusals.{CanFail};

use pmd_access::{Arena, Bufs, Nic, Packet, PmdFault, Record, bytes_in, fresh_packet, give_packet};
use pmd_rx::ReceiveRing;
use pmd_tx::{Reaped, TransmitRing, TxAnswer, TxFault};
use std::alloc::Global;
use std::collections::VecDeque;
use std::marker::Model;

/// A driver with both rings up: the arena that owns its blocks, and the rings. After any call, no block is both free in
/// the arena and with a ring, and no block is with the rings twice. In the receive ring, one slot is vacant, and the
/// slots of held and complete packets aren't posted; all other slots are posted.
pub struct Running {
    arena: Arena,
    receive: ReceiveRing,
    transmit: TransmitRing,
}

impl Model for Running {
    ghost use Rattle.pmd_driver.specs.Running as running;

    ghost Value = { running.Running };

    ghost view = { λ r. record { arena = r.arena; receive = r.receive; transmit = r.transmit } };

    ghost invariant = { λ r. running.IsUp (record { arena = r.arena; receive = r.receive; transmit = r.transmit }) };
}

impl Running {
    /// Creates a driver from two rings that are up. The arena owns the rings' blocks, and none of them is free there.
    /// In the receive ring, one slot is vacant. The slots of parts that were taken, but whose packets weren't handed
    /// out, aren't posted. All other slots are posted. The transmit ring has at least one slot.
    pub fn new(arena: Arena, receive: ReceiveRing, transmit: TransmitRing) -> Running
        requires { IsUp (record { arena = arena; receive = receive; transmit = transmit }) }
        ensures { result ≡ record { arena = arena; receive = receive; transmit = transmit } }
    {
        Running {
            arena,
            receive,
            transmit,
        }
    }

    /// Returns the arena and the rings, which are up.
    pub fn into_parts(self) -> (Arena, ReceiveRing, TransmitRing)
        ensures arena { result.0 ≡ self.arena }
        // The receive ring.
        ensures receive { result.1 ≡ self.receive }
        // The transmit ring.
        ensures transmit { result.2 ≡ self.transmit }
        ensures up { IsUp self }
    {
        let Running {
            arena,
            receive,
            transmit,
        } = self;
        (arena, receive, transmit)
    }

    /// Returns the records of the packets handed out so far, oldest first.
    pub fn handed(&self) -> &[Record]
        ensures { result.now ≡ self.now.receive.handed }
    {
        self.receive.handed()
    }

    /// Returns the records of the packets accepted so far, oldest first.
    pub fn accepted(&self) -> &[Record]
        ensures { result.now ≡ self.now.transmit.accepted }
    {
        self.transmit.accepted()
    }

    /// Returns the number of free blocks in the driver's arena.
    pub fn free_blocks(&self) -> u32
        ensures { result ≡ free_count self.now.arena }
    {
        self.arena.free_blocks()
    }

    /// Returns the number of transmit descriptors that can still be filled.
    pub fn vacant(&self) -> u16
        ensures vacant { result ≡ vacant_in self.now.transmit }
        // The number is from 0 to 1,023.
        ensures few { result < 1024 }
    {
        self.transmit.vacant()
    }

    /// Returns the number of packets accepted but not yet reaped.
    pub fn outstanding(&self) -> u16
        ensures { result ≡ packets_in self.now.transmit.outstanding }
    {
        self.transmit.outstanding()
    }
}

impl Running {
    /// Receives the next packet, in order. Returns `None` while a slot of that packet isn't done.
    ///
    /// Fails with `NoBuffer` if a packet is waiting and too few blocks are free for it; with `DeviceFault` if a reply
    /// is one that a healthy queue never sends; with `Call` if a call was refused, or if there was no memory for the
    /// packet's record. After a failure, the driver keeps its position in the ring, and the next call continues from
    /// there.
    pub fn rx<N: Nic>(&mut self, alloc: Global, nic: &mut N) -> Result<Option<Packet>, PmdFault>
        ensures drives { DrivesRings (N.made nic.old) self.old (N.made nic.new) self.new }
        ensures received { IsReceiveCall result (N.made nic.old) self.old (N.made nic.new) self.new }
        ensures home { IfOk result (λ out. IfSome out (λ packet. goes_back self.new packet ≡ true)) }
        ensures blocks { KeepsUp self.old [] self.new (handed_blocks result) }
        ensures began { BeganAs N.began nic.old nic.new }
        ensures refuses { N.refuses nic.new ≡ N.refuses nic.old }
        ensures refusal { IfErr result (λ f. CanFail (N.refuses nic.new) f) }
    {
        self.receive.receive(alloc, nic, &mut self.arena)
    }

    /// Receives the next packets in order, up to `most`. Before it appends them to `packets`, it replaces their blocks
    /// in the ring and advances the tail past the new blocks. Returns the number of packets received. This number is 0
    /// only if `most` is 0, or if the slot after those already found done isn't done. Otherwise, the contract doesn't
    /// specify how many packets, from 1 to `most`, the call returns.
    ///
    /// It fails for the same reasons as `rx`, and only if it returns no packet. The next call continues where the
    /// failed call stopped. It also returns `Call` if there is no memory to append the packets.
    pub fn rx_burst<N: Nic>(
        &mut self,
        alloc: Global,
        nic: &mut N,
        most: u16,
        packets: &mut VecDeque<Packet>,
    ) -> Result<u16, PmdFault>
        ensures drives { DrivesRings (N.made nic.old) self.old (N.made nic.new) self.new }
        ensures received { IsReceiveBurst most packets.old.items packets.new.items result (N.made nic.old) self.old
            (N.made nic.new) self.new }
        ensures home { All (λ p. goes_back self.new p ≡ true)
            (drop (length packets.old.items) packets.new.items) }
        ensures blocks { KeepsUp self.old (numbers_of_all packets.old.items) self.new
            (numbers_of_all packets.new.items) }
        ensures began { BeganAs N.began nic.old nic.new }
        ensures refuses { N.refuses nic.new ≡ N.refuses nic.old }
        ensures refusal { IfErr result (λ f. CanFail (N.refuses nic.new) f) }
    {
        self.receive
            .receive_burst(alloc, nic, &mut self.arena, most, packets)
    }

    /// Sends a packet, zero-padded to 60 bytes if it is shorter. It fills one descriptor for each `Buf` that contains
    /// bytes of the packet.
    ///
    /// It checks the packet before any event. Fails with `BadSize` if the packet's length is 0, above the frame limit
    /// less 4, or above the capacity of its Bufs; with `ForeignBlock` if `release` would refuse the packet; with
    /// `RingFull` if the outstanding descriptors and the packet's descriptors together would leave no slot of the ring
    /// vacant.
    ///
    /// After that, it fails with `DeviceFault` if the device sends a reply that a healthy queue can't send; with `Call`
    /// if a call was refused, or if there was no memory for the record. If none of the packet's blocks was lent yet,
    /// the error returns the packet. After `DeviceFault`, the contract promises only that the returned packet's blocks
    /// have the same numbers. If a block was already lent, the packet is accepted, and the next call continues with it.
    pub fn tx<N: Nic>(
        &mut self,
        alloc: Global,
        nic: &mut N,
        packet: Packet,
    ) -> Result<TxAnswer, TxFault>
        ensures drives { DrivesRings (N.made nic.old) self.old (N.made nic.new) self.new }
        ensures sent { IsSendCall packet result (N.made nic.old) self.old (N.made nic.new) self.new }
        ensures blocks { KeepsUp self.old (numbers_of packet.bufs) self.new (numbers_in (returned result)) }
        ensures began { BeganAs N.began nic.old nic.new }
        ensures refuses { N.refuses nic.new ≡ N.refuses nic.old }
        ensures refusal { IfErr result (λ failed. CanFail (N.refuses nic.new) failed.fault) }
    {
        let _whole = bytes_in(&packet.bufs);
        let elsewhere = self.receives(&packet.bufs);
        self.transmit
            .send(alloc, nic, &mut self.arena, elsewhere, packet)
    }

    /// Frees the blocks of sent packets, oldest first. If an earlier call left a packet unfinished, `reap` first
    /// continues with that packet. If `reap` returns without a fault, its clauses promise that the tail has passed both
    /// the freed packets and the oldest remaining packet.
    ///
    /// Fails with `DeviceFault` if the device sends a reply that a healthy queue can't send, or with `Call` if a call
    /// was refused. Blocks already freed stay free.
    pub fn reap<N: Nic>(&mut self, alloc: Global, nic: &mut N) -> Result<Reaped, PmdFault>
        ensures drives { DrivesRings (N.made nic.old) self.old (N.made nic.new) self.new }
        ensures reaped { IsReapCall result (N.made nic.old) self.old (N.made nic.new) self.new }
        ensures blocks { KeepsUp self.old [] self.new [] }
        ensures began { BeganAs N.began nic.old nic.new }
        ensures refuses { N.refuses nic.new ≡ N.refuses nic.old }
        ensures refusal { IfErr result (λ f. CanFail (N.refuses nic.new) f) }
    {
        self.transmit.reap(alloc, nic, &mut self.arena)
    }
}

impl Running {
    /// Does the work of `tx` but doesn't advance the tail, so that `flush` can advance it after several packets.
    pub(crate) fn queue_packet<N: Nic>(
        &mut self,
        alloc: Global,
        nic: &mut N,
        packet: Packet,
    ) -> Result<TxAnswer, TxFault>
        ensures asks { Asks N.began N.refuses (failed_in result) nic.old nic.new }
        ensures queues { QueuesOne packet result (N.made nic.old) self.old (N.made nic.new) self.new }
    {
        let _whole = bytes_in(&packet.bufs);
        let elsewhere = self.receives(&packet.bufs);
        self.transmit
            .queue(alloc, nic, &mut self.arena, elsewhere, packet)
    }

    /// Advances the tail past all accepted packets, unless the tail is already there. If a part of the last packet is
    /// still waiting, it finishes that packet first.
    ///
    /// Fails with `DeviceFault` if the device sends a reply that a healthy queue can't send, or with `Call` if a call
    /// was refused; the next call continues.
    pub(crate) fn flush<N: Nic>(&mut self, alloc: Global, nic: &mut N) -> Result<(), PmdFault>
        ensures asks { Asks N.began N.refuses (fault_in result) nic.old nic.new }
        ensures continues { Continues (fault_in result) (N.made nic.old) self.old (N.made nic.new) self.new }
        ensures settled { OnOk result (self.new.transmit.posted ≡ length self.new.transmit.outstanding) }
    {
        self.transmit.flush(alloc, nic)
    }
}

impl Running {
    /// Creates a packet of `len` zero bytes in free blocks. Returns `None` and takes no block if too few blocks are
    /// free or the length is above 10,240.
    pub fn packet(&mut self, len: u16) -> Option<Packet>
        ensures none { IsNone result ↔ ((10240 < len) ⊎ (free_count self.old.arena < bufs_for len)) }
        ensures made { IsFresh self.old.arena len result self.new.arena }
        ensures rest { self.new ≡ record self.old { arena = self.new.arena } }
        ensures owns { OwnsSame self.old.arena self.new.arena }
        ensures blocks { KeepsUp self.old [] self.new (numbers_in result) }
    {
        fresh_packet(&mut self.arena, len)
    }

    /// Returns whether the receive ring has one of these blocks in use.
    fn receives(&self, bufs: &Bufs) -> bool
        ensures { result
            ≡ list_any (λ n. nat_lt 0 (times_in_hand (blocks_out self.now.receive) n)) (numbers_of bufs.now) }
    {
        for number in 0..bufs.count() {
            if self.receive.has(bufs.get(number).block()) {
                return true;
            }
        }
        false
    }

    /// Returns whether the blocks of a packet can return to the arena.
    fn goes_back(&self, packet: &Packet) -> bool
        ensures { result ≡ goes_back self.now packet.now }
    {
        self.transmit.goes_home(&self.arena, packet) && !self.receives(&packet.bufs)
    }

    /// Returns a packet's blocks to the arena. If one of the blocks can't go back to the arena, the caller gets the
    /// packet back instead. A block can't go back if the arena doesn't own its number, or if the block is already free.
    /// Nor can it go back if it occurs twice in the packet, or if this driver still has it in use.
    pub fn release(&mut self, packet: Packet) -> Result<(), Packet>
        ensures ok { IsOk result ↔ (goes_back self.old packet ≡ true) }
        ensures released { OnOk result (IsReleased self.old packet self.new) }
        ensures blocks { OnOk result (KeepsUp self.old (numbers_of packet.bufs) self.new []) }
        ensures back { IfErr result (λ back. back ≡ packet) }
        // A refused release changes nothing.
        ensures kept { OnErr result (self.new ≡ self.old) }
        // The rings are unchanged, and the arena owns the same numbers.
        ensures halves { (halves_of self.new ≡ halves_of self.old) × OwnsSame self.old.arena self.new.arena }
    {
        if self.goes_back(&packet) {
            give_packet(&mut self.arena, packet);
            return Ok(());
        }
        Err(packet)
    }
}
