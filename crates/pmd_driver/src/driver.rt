//! The driver of one queue.

ghost use Rattle.std.specs.Prelude.{ℕ, ◌≡◌, ◌<◌, ◌⊎◌, ◌++◌, ◌∷◌, ◌↔◌, [], true, Some, Err, All, drop, length, IfOk, IfErr, IfSome, IsNone, IsOk, OnOk, OnErr};
ghost use Rattle.pmd_access.specs.NicDevice.DmaArena.Numbers.{free_count, is_own, is_free};
ghost use Rattle.pmd_access.specs.Begun.{BeganAs};
ghost use Rattle.pmd_access.specs.Bufs.{numbers_of, with_all_free};
ghost use Rattle.pmd_access.specs.Fresh.{IsFresh, bufs_for};
ghost use Rattle.pmd_access.specs.Packet.{kept_of};
ghost use Rattle.pmd_rx.specs.Keeping.{handed_blocks, numbers_in, numbers_of_all};
ghost use Rattle.pmd_rx.specs.Receive.{records_of};
ghost use Rattle.pmd_tx.specs.Sends.{returned};
ghost use Rattle.pmd_driver.specs.Halted.{Halted, all_out, is_free_or_out};
ghost use Rattle.pmd_driver.specs.Stopping.{Stops, StopFails};
ghost use Rattle.pmd_driver.specs.Blocks.{KeepsBlocks};
ghost use Rattle.pmd_driver.specs.Bursts.{IsReceiveBurst, IsSendBurst};
ghost use Rattle.pmd_driver.specs.DriverCalls.{IsReceiveCall, IsSendCall, IsReapCall};
ghost use Rattle.pmd_driver.specs.Counts.{outstanding_of, vacant_of};
ghost use Rattle.pmd_driver.specs.Filled.{IsMadeOf};
ghost use Rattle.pmd_driver.specs.Life.{KeepsHalves, RunsOn};
ghost use Rattle.pmd_driver.specs.Driver.{arena_of, handed_of, accepted_of, goes_back_to, with_arena, halted_of};
ghost use Rattle.pmd_driver.specs.Driver.{WhereUp, IsDown};
ghost use Rattle.pmd_access.specs.Refusals.{CanFail};

use crate::bytes::with_bytes;
use crate::halted::Halted;
use crate::home::{Home, StopFailed};
use crate::running::Running;
use pmd_access::{Nic, Packet, PmdFault, Queue, Record};
use pmd_tx::{Reaped, TxAnswer, TxFault};
use std::alloc::Global;
use std::collections::VecDeque;
use std::marker::Model;

/// A driver's rings.
pub(crate) enum Rings {
    /// Both rings are up; the driver is running.
    Up(Running),
    /// The driver isn't running; its rings are being taken down.
    Down(Halted),
}

/// The driver of one queue. A `Pmd` can't be dropped; `stop` ends it.
pub struct Pmd {
    queue: Queue,
    rings: Rings,
}

impl Model for Pmd {
    ghost use Rattle.pmd_driver.specs.Driver.{Driver};

    ghost Value = { Driver };

    ghost view = { λ p. record { queue = p.queue; rings = p.rings } };
}

/// A stop that was refused.
pub struct StopRefused {
    /// Why the stop was refused.
    pub fault: PmdFault,
    /// The driver, which is no longer running. You can call `stop` again.
    pub pmd: Pmd,
}

impl Pmd {
    /// Creates the driver for this queue with these rings.
    pub(crate) fn of(queue: Queue, rings: Rings) -> Pmd
        ensures { result ≡ record { queue = queue; rings = rings } }
    {
        Pmd { queue, rings }
    }

    /// Returns the records of the packets handed out so far, oldest first.
    pub fn handed(&self) -> &[Record]
        ensures { result.now ≡ handed_of self.now.rings }
    {
        match &self.rings {
            Rings::Up(running) => running.handed(),
            Rings::Down(halted) => halted.handed(),
        }
    }

    /// Returns the records of the packets accepted so far, oldest first.
    pub fn accepted(&self) -> &[Record]
        ensures { result.now ≡ accepted_of self.now.rings }
    {
        match &self.rings {
            Rings::Up(running) => running.accepted(),
            Rings::Down(halted) => halted.accepted(),
        }
    }

    /// Returns the number of free blocks in the driver's arena.
    pub fn free_blocks(&self) -> u32
        ensures { result ≡ free_count (arena_of self.now.rings) }
    {
        match &self.rings {
            Rings::Up(running) => running.free_blocks(),
            Rings::Down(halted) => halted.free_blocks(),
        }
    }

    /// Returns the number of transmit descriptors that can still be filled, or 0 if the driver isn't running. A packet
    /// takes one descriptor for every 2,048 bytes or part thereof.
    pub fn vacant(&self) -> u16
        ensures { result ≡ vacant_of self.now.rings }
    {
        match &self.rings {
            Rings::Up(running) => running.vacant(),
            Rings::Down(_) => 0,
        }
    }

    /// Returns the number of packets accepted but not yet reaped, or 0 if the driver isn't running.
    pub fn outstanding(&self) -> u16
        ensures { result ≡ outstanding_of self.now.rings }
    {
        match &self.rings {
            Rings::Up(running) => running.outstanding(),
            Rings::Down(_) => 0,
        }
    }
}

impl Pmd {
    /// Receives the next packet, in order. Returns `None` while a slot of that packet isn't done.
    ///
    /// Fails with `NoBuffer` if a packet is waiting and too few blocks are free for it; with `DeviceFault` if a reply
    /// is one that a healthy queue never sends; with `Call` if a call was refused, or if there was no memory for the
    /// packet's record. After a failure, the driver keeps its position in the ring, and the next call continues from
    /// there. If the driver isn't running, `rx` returns `DeviceFault` without causing any event.
    pub fn rx<N: Nic>(&mut self, alloc: Global, nic: &mut N) -> Result<Option<Packet>, PmdFault>
        ensures drives { RunsOn (N.made nic.old) self.old.rings (N.made nic.new) self.new.rings }
        ensures received { WhereUp self.old.rings self.new.rings (λ r s.
            IsReceiveCall result (N.made nic.old) r (N.made nic.new) s) }
        ensures blocks { KeepsBlocks self.old.rings [] self.new.rings (handed_blocks result) }
        ensures home { IfOk result (λ out. IfSome out (λ packet.
            goes_back_to self.new.rings packet ≡ true)) }
        ensures given { IfOk result (λ out. IfSome out (λ packet.
            handed_of self.new.rings ≡ handed_of self.old.rings ++ kept_of packet ∷ [])) }
        ensures down { IsDown self.old.rings → (result ≡ Err PmdFault.DeviceFault)
            × (N.made nic.new ≡ N.made nic.old) × (self.new ≡ self.old) }
        ensures queue { self.new.queue ≡ self.old.queue }
        ensures began { BeganAs N.began nic.old nic.new }
        ensures refuses { N.refuses nic.new ≡ N.refuses nic.old }
        ensures refusal { IfErr result (λ f. CanFail (N.refuses nic.new) f) }
    {
        match &mut self.rings {
            Rings::Up(running) => running.rx(alloc, nic),
            Rings::Down(_) => Err(PmdFault::DeviceFault),
        }
    }

    /// Sends a packet, zero-padded to 60 bytes if it is shorter. It fills one descriptor for each `Buf` that contains
    /// bytes of the packet.
    ///
    /// It checks the packet before any event. Fails with `BadSize` if the packet's length is 0, above the frame limit
    /// less 4, or above the capacity of its Bufs; with `ForeignBlock` if `release` would refuse the packet; with
    /// `RingFull` if the outstanding descriptors and the packet's descriptors together would leave no slot of the ring
    /// vacant.
    ///
    /// After that, it fails with `DeviceFault` if the device sends a reply that a healthy queue can't send; with `Call`
    /// if a call was refused, or if there was no memory for the record. If none of the packet's blocks was lent yet,
    /// the error returns the packet. After `DeviceFault`, the contract promises only that the returned packet's blocks
    /// have the same numbers. If a block was already lent, the packet is accepted, and the next call continues with it.
    /// If the driver isn't running, `tx` returns `DeviceFault` and the packet without causing any event.
    pub fn tx<N: Nic>(
        &mut self,
        alloc: Global,
        nic: &mut N,
        packet: Packet,
    ) -> Result<TxAnswer, TxFault>
        ensures drives { RunsOn (N.made nic.old) self.old.rings (N.made nic.new) self.new.rings }
        ensures sent { WhereUp self.old.rings self.new.rings (λ r s.
            IsSendCall packet result (N.made nic.old) r (N.made nic.new) s) }
        ensures blocks { KeepsBlocks self.old.rings (numbers_of packet.bufs) self.new.rings
            (numbers_in (returned result)) }
        ensures handed { handed_of self.new.rings ≡ handed_of self.old.rings }
        ensures down { IsDown self.old.rings
            → (result ≡ Err (record { fault = PmdFault.DeviceFault; packet = Some packet }))
            × (N.made nic.new ≡ N.made nic.old) × (self.new ≡ self.old) }
        ensures queue { self.new.queue ≡ self.old.queue }
        ensures began { BeganAs N.began nic.old nic.new }
        ensures refuses { N.refuses nic.new ≡ N.refuses nic.old }
        ensures refusal { IfErr result (λ failed. CanFail (N.refuses nic.new) failed.fault) }
    {
        match &mut self.rings {
            Rings::Up(running) => running.tx(alloc, nic, packet),
            Rings::Down(_) => Err(TxFault {
                fault: PmdFault::DeviceFault,
                packet: Some(packet),
            }),
        }
    }

    /// Frees the blocks of sent packets, oldest first. If an earlier call left a packet unfinished, `reap` first
    /// continues with that packet. If `reap` returns without a fault, its clauses promise that the tail has passed both
    /// the freed packets and the oldest remaining packet.
    ///
    /// Fails with `DeviceFault` if the device sends a reply that a healthy queue can't send, or with `Call` if a call
    /// was refused. Blocks already freed stay free. If the driver isn't running, `reap` returns `DeviceFault` without
    /// causing any event.
    pub fn reap<N: Nic>(&mut self, alloc: Global, nic: &mut N) -> Result<Reaped, PmdFault>
        ensures drives { RunsOn (N.made nic.old) self.old.rings (N.made nic.new) self.new.rings }
        ensures reaped { WhereUp self.old.rings self.new.rings (λ r s.
            IsReapCall result (N.made nic.old) r (N.made nic.new) s) }
        ensures blocks { KeepsBlocks self.old.rings [] self.new.rings [] }
        ensures handed { handed_of self.new.rings ≡ handed_of self.old.rings }
        ensures down { IsDown self.old.rings → (result ≡ Err PmdFault.DeviceFault)
            × (N.made nic.new ≡ N.made nic.old) × (self.new ≡ self.old) }
        ensures queue { self.new.queue ≡ self.old.queue }
        ensures began { BeganAs N.began nic.old nic.new }
        ensures refuses { N.refuses nic.new ≡ N.refuses nic.old }
        ensures refusal { IfErr result (λ f. CanFail (N.refuses nic.new) f) }
    {
        match &mut self.rings {
            Rings::Up(running) => running.reap(alloc, nic),
            Rings::Down(_) => Err(PmdFault::DeviceFault),
        }
    }
}

impl Pmd {
    /// Receives the next packets in order, up to `most`. Before it appends them to `packets`, it replaces their blocks
    /// in the ring and advances the tail past the new blocks. Returns the number of packets received. This number is 0
    /// only if `most` is 0, or if the slot after those already found done isn't done. Otherwise, the contract doesn't
    /// specify how many packets, from 1 to `most`, the call returns.
    ///
    /// It fails for the same reasons as `rx`, and only if it returns no packet. The next call continues where the
    /// failed call stopped. It also returns `Call` if there is no memory to append the packets. If the driver isn't
    /// running, `rx_burst` returns `DeviceFault` without causing any event.
    pub fn rx_burst<N: Nic>(
        &mut self,
        alloc: Global,
        nic: &mut N,
        most: u16,
        packets: &mut VecDeque<Packet>,
    ) -> Result<u16, PmdFault>
        ensures drives { RunsOn (N.made nic.old) self.old.rings (N.made nic.new) self.new.rings }
        ensures received { WhereUp self.old.rings self.new.rings (λ r s. IsReceiveBurst most packets.old.items
            packets.new.items result (N.made nic.old) r (N.made nic.new) s) }
        ensures blocks { KeepsBlocks self.old.rings (numbers_of_all packets.old.items) self.new.rings
            (numbers_of_all packets.new.items) }
        ensures home { All (λ p. goes_back_to self.new.rings p ≡ true)
            (drop (length packets.old.items) packets.new.items) }
        ensures given { handed_of self.new.rings ≡ handed_of self.old.rings
            ++ records_of (drop (length packets.old.items) packets.new.items) }
        ensures down { IsDown self.old.rings → (result ≡ Err PmdFault.DeviceFault)
            × (packets.new.items ≡ packets.old.items) × (N.made nic.new ≡ N.made nic.old) × (self.new ≡ self.old) }
        ensures queue { self.new.queue ≡ self.old.queue }
        ensures began { BeganAs N.began nic.old nic.new }
        ensures refuses { N.refuses nic.new ≡ N.refuses nic.old }
        ensures refusal { IfErr result (λ f. CanFail (N.refuses nic.new) f) }
    {
        match &mut self.rings {
            Rings::Up(running) => running.rx_burst(alloc, nic, most, packets),
            Rings::Down(_) => Err(PmdFault::DeviceFault),
        }
    }

    /// Sends packets from the front of the list, as many as fit, with one tail write after the last packet. If fewer
    /// than `vacant` slots in the ring are vacant, it first frees the blocks of sent packets, as `reap` does. If
    /// `vacant` is 0, it therefore never frees blocks first; if `vacant` is above 1,023, it always does. It stops at
    /// the first packet that doesn't fit, is refused, or meets a fault. Returns the number of packets accepted. The
    /// accepted packets are removed from the list, and the others stay in it, in order.
    ///
    /// If no packet was accepted, it returns the fault that prevented this, if any. This is the fault met while reaping
    /// or while continuing with earlier packets, or the fault that `tx` would return for the first packet. It also
    /// returns a fault if it accepted packets but couldn't write the tail after them. The accepted packets are then no
    /// longer in the list, and the next call continues with them. If the driver isn't running, it returns `DeviceFault`
    /// without causing any event, and all packets stay in the list.
    pub fn tx_burst<N: Nic>(
        &mut self,
        alloc: Global,
        nic: &mut N,
        vacant: u16,
        packets: &mut VecDeque<Packet>,
    ) -> Result<u16, PmdFault>
        ensures drives { RunsOn (N.made nic.old) self.old.rings (N.made nic.new) self.new.rings }
        ensures sent { WhereUp self.old.rings self.new.rings (λ r s. IsSendBurst vacant packets.old.items
            packets.new.items result (N.made nic.old) r (N.made nic.new) s) }
        ensures blocks { KeepsBlocks self.old.rings (numbers_of_all packets.old.items) self.new.rings
            (numbers_of_all packets.new.items) }
        ensures handed { handed_of self.new.rings ≡ handed_of self.old.rings }
        ensures down { IsDown self.old.rings → (result ≡ Err PmdFault.DeviceFault)
            × (packets.new.items ≡ packets.old.items) × (N.made nic.new ≡ N.made nic.old) × (self.new ≡ self.old) }
        ensures queue { self.new.queue ≡ self.old.queue }
        ensures began { BeganAs N.began nic.old nic.new }
        ensures refuses { N.refuses nic.new ≡ N.refuses nic.old }
        ensures refusal { IfErr result (λ f. CanFail (N.refuses nic.new) f) }
    {
        match &mut self.rings {
            Rings::Up(running) => running.tx_burst(alloc, nic, vacant, packets),
            Rings::Down(_) => Err(PmdFault::DeviceFault),
        }
    }
}

impl Pmd {
    /// Creates a packet of `len` zero bytes in free blocks. Returns `None` and takes no block if too few blocks are
    /// free or the length is above 10,240.
    pub fn packet(&mut self, len: u16) -> Option<Packet>
        ensures none { IsNone result ↔ ((10240 < len) ⊎ (free_count (arena_of self.old.rings) < bufs_for len)) }
        ensures made { IsFresh (arena_of self.old.rings) len result (arena_of self.new.rings) }
        // The rings are unchanged; only the arena may differ.
        ensures rings { self.new.rings ≡ with_arena self.old.rings (arena_of self.new.rings) }
        ensures blocks { KeepsBlocks self.old.rings [] self.new.rings (numbers_in result) }
        ensures halves { KeepsHalves self.old.rings self.new.rings }
        // The driver's queue is unchanged.
        ensures queue { self.new.queue ≡ self.old.queue }
    {
        match &mut self.rings {
            Rings::Up(running) => running.packet(len),
            Rings::Down(halted) => halted.packet(len),
        }
    }

    /// Creates a packet of these bytes in free blocks. Returns `None` and takes no block if too few blocks are free or
    /// `bytes` is longer than 10,240 bytes.
    pub fn packet_of(&mut self, bytes: &[u8]) -> Option<Packet>
        ensures none { IsNone result ↔ ((10240 < length bytes.now)
            ⊎ (free_count (arena_of self.old.rings) < bufs_for (length bytes.now))) }
        ensures made { IsMadeOf (arena_of self.old.rings) bytes.now result (arena_of self.new.rings) }
        // The rings are unchanged; only the arena may differ.
        ensures rings { self.new.rings ≡ with_arena self.old.rings (arena_of self.new.rings) }
        ensures blocks { KeepsBlocks self.old.rings [] self.new.rings (numbers_in result) }
        ensures halves { KeepsHalves self.old.rings self.new.rings }
        // The driver's queue is unchanged.
        ensures queue { self.new.queue ≡ self.old.queue }
    {
        if bytes.len() > 10_240 {
            return None;
        }
        match self.packet(bytes.len() as u16) {
            Some(packet) => Some(with_bytes(packet, bytes)),
            None => None,
        }
    }

    /// Returns a packet's blocks to the arena. If one of the blocks can't go back to the arena, the caller gets the
    /// packet back instead. A block can't go back if the arena doesn't own its number, or if the block is already free.
    /// Nor can it go back if it occurs twice in the packet, or if this driver still has it in use.
    pub fn release(&mut self, packet: Packet) -> Result<(), Packet>
        ensures ok { IsOk result ↔ (goes_back_to self.old.rings packet ≡ true) }
        // The packet's blocks are free in the arena.
        ensures released { OnOk result (self.new.rings
            ≡ with_arena self.old.rings (with_all_free (arena_of self.old.rings) (numbers_of packet.bufs))) }
        ensures blocks { OnOk result (KeepsBlocks self.old.rings (numbers_of packet.bufs) self.new.rings []) }
        ensures back { IfErr result (λ back. back ≡ packet) }
        // A refused release changes nothing.
        ensures kept { OnErr result (self.new.rings ≡ self.old.rings) }
        ensures halves { KeepsHalves self.old.rings self.new.rings }
        // The driver's queue is unchanged.
        ensures queue { self.new.queue ≡ self.old.queue }
    {
        match &mut self.rings {
            Rings::Up(running) => running.release(packet),
            Rings::Down(halted) => halted.release(packet),
        }
    }

    /// Ends the driver: disables both sides of the queue and takes back all blocks that the driver has lent.
    ///
    /// It fails for the same reasons as `Halted::stop`; the error contains the driver, which is no longer running.
    pub fn stop<N: Nic>(self, alloc: Global, nic: &mut N) -> Result<Home, StopRefused>
        ensures home { IfOk result (λ home.
            Stops self.queue (N.made nic.old) (halted_of self.rings) (N.made nic.new) home) }
        ensures owns { IfOk result (λ home. (n : ℕ) → is_own home.arena n ≡ is_own (halted_of self.rings).arena n) }
        ensures free { IfOk result (λ home. home.lost ≡ 0 → (n : ℕ) → is_free home.arena n
            ≡ is_free_or_out (halted_of self.rings).arena (all_out (halted_of self.rings)) n) }
        ensures refused { IfErr result (λ refused. (h : Halted)
            × (refused.pmd ≡ record { queue = self.queue; rings = Rings.Down h })
            × StopFails refused.fault self.queue (N.made nic.old) (halted_of self.rings) (N.made nic.new) h) }
        ensures began { BeganAs N.began nic.old nic.new }
        ensures refuses { N.refuses nic.new ≡ N.refuses nic.old }
        ensures refusal { IfErr result (λ refused. CanFail (N.refuses nic.new) refused.fault) }
    {
        let Pmd { queue, rings } = self;
        let halted = halt(rings);
        match halted.stop(alloc, nic, &queue) {
            Ok(home) => Ok(home),
            Err(failed) => {
                let StopFailed { fault, halted } = failed;
                Err(StopRefused {
                    fault,
                    pmd: Pmd::of(queue, Rings::Down(halted)),
                })
            }
        }
    }
}

/// Turns the rings of a driver, running or not, into a driver that isn't running.
fn halt(rings: Rings) -> Halted
    ensures { result ≡ halted_of rings }
{
    match rings {
        Rings::Up(running) => {
            let (arena, receive, transmit) = running.into_parts();
            Halted::of_rings(arena, receive, transmit)
        }
        Rings::Down(halted) => halted,
    }
}
