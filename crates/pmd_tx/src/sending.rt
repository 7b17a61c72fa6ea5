//! Sends packets: lends their blocks, writes their descriptors, and advances the tail, after each packet or once after
//! several.

ghost use Rattle.std.specs.Prelude.{◌≡◌, ◌==◌, ◌&&◌, not, ◌<◌, ◌≤◌, ◌+◌, ℕ, List, None, All, drop, length, IfOk, IfErr, OnOk, OnErr, IfSome, IfNone};
ghost use Rattle.std.specs.List.{list_any};
ghost use Rattle.pmd_access.specs.NicDevice.DmaArena.Block.{IsBlock};
ghost use Rattle.pmd_access.specs.NicDevice.DmaArena.Numbers.{is_own, is_free};
ghost use Rattle.pmd_access.specs.Begun.{BeganAs};
ghost use Rattle.pmd_access.specs.Bufs.{numbers_of};
ghost use Rattle.pmd_access.specs.Home.{AreOut};
ghost use Rattle.pmd_access.specs.Refusals.{CanFail};
ghost use Rattle.pmd_access.specs.Asks.{Asks, fault_in, refused_in};
ghost use Rattle.pmd_tx.specs.Acts.{Acts, Continues, Queues, failed_in};
ghost use Rattle.pmd_tx.specs.Plays.{PlaysWith, FaultsBy};
ghost use Rattle.pmd_tx.specs.Sending.{accepted_by, keeps, parts_for};
ghost use Rattle.pmd_tx.specs.Sends.{are_out, gate_of, goes_home, outgoing_of, returned, IsAnswer, IsFullWhereReported, IsShut, IsTried, IsAccepted, IsNoneAccepted, IsBack, IsLate, SendsHome};
ghost use Rattle.pmd_tx.specs.Shown.{MaySend};

use crate::answer::{Gate, TxAnswer, TxFault};
use crate::padding::{pad, start_of, unpad};
use crate::piece::parts_for;
use crate::ring::TransmitRing;
use pmd_access::{Arena, Bufs, Nic, Packet, PmdFault, bytes_in, give_bufs};
use std::alloc::Global;

/// Returns whether these blocks can be returned to the arena: it owns their numbers, none is free there, and no number
/// occurs twice.
pub fn are_out(arena: &Arena, bufs: &Bufs) -> bool
    ensures { result ≡ are_out arena.now (numbers_of bufs.now) }
{
    for number in 0..bufs.count() {
        let block = bufs.get(number).block();
        if !is_out(arena, bufs, number, block) {
            return false;
        }
    }
    true
}

/// Returns whether this Buf's block can be returned to the arena and no later Buf has the same number.
fn is_out(arena: &Arena, bufs: &Bufs, number: usize, block: u32) -> bool
    requires { number < length bufs.now }
    ensures { result ≡ (is_own arena.now block && not (is_free arena.now block)
        && not (list_any (λ b. block == b) (drop (number + 1) (numbers_of bufs.now)))) }
{
    arena.owns(block) && !arena.is_free(block) && !comes_again(bufs, number, block)
}

/// Returns whether a later Buf has the same block number.
fn comes_again(bufs: &Bufs, number: usize, block: u32) -> bool
    requires { number < length bufs.now }
    ensures { result ≡ list_any (λ b. block == b) (drop (number + 1) (numbers_of bufs.now)) }
{
    let count = bufs.count();
    for later in number + 1..count {
        if bufs.get(later).block() == block {
            return true;
        }
    }
    false
}

impl TransmitRing {
    /// Returns whether a packet's blocks can be returned to the arena, and the ring keeps none of them.
    pub fn goes_home(&self, arena: &Arena, packet: &Packet) -> bool
        ensures { result ≡ goes_home self.now arena.now packet.now }
    {
        are_out(arena, &packet.bufs) && !self.keeps_one(&packet.bufs)
    }

    /// Returns whether the ring keeps one of these blocks.
    pub fn keeps_one(&self, bufs: &Bufs) -> bool
        ensures { result ≡ list_any (λ n. keeps self.now n) (numbers_of bufs.now) }
    {
        for number in 0..bufs.count() {
            if self.keeps(bufs.get(number).block()) {
                return true;
            }
        }
        false
    }

    /// Sends a packet of at least 1 byte and at most the limit; a packet shorter than 60 bytes is zero-padded to 60.
    /// The call first continues with a packet that has waited since an earlier call. For each part of the new packet,
    /// it then lends the block and writes the descriptor. Finally it advances the tail past this packet and past those
    /// queued earlier. `elsewhere` says whether another ring of the driver has lent a block with one of the packet's
    /// block numbers.
    ///
    /// The packet is checked before any event. The result is `BadSize` if the packet's length is out of range or above
    /// the capacity of its blocks. It is `ForeignBlock` if the packet's blocks can't be returned to the arena, or if
    /// one of them is lent elsewhere or kept by this ring. It is `RingFull` if the outstanding segments and the
    /// packet's own would together leave no slot of the ring free.
    ///
    /// After the check, the result is `DeviceFault` if the device sends a reply that a healthy queue can't send. It is
    /// `Call` if a call was refused, or if there was no memory for the record. If none of the packet's blocks was lent
    /// yet, the packet is returned; after `DeviceFault`, its blocks have the same numbers. Otherwise the packet is
    /// accepted, and the next call continues with it. Blocks that contain no bytes of an accepted packet return to the
    /// arena.
    pub fn send<N: Nic>(
        &mut self,
        alloc: Global,
        nic: &mut N,
        arena: &mut Arena,
        elsewhere: bool,
        packet: Packet,
    ) -> Result<TxAnswer, TxFault>
        ensures plays { PlaysWith (outgoing_of packet).blocks (N.made nic.old) self.old (N.made nic.new) self.new }
        ensures answer { IsAnswer (gate_of self.old arena.old elsewhere packet) packet result }
        ensures full { IsFullWhereReported self.old packet result }
        ensures shut { IsShut (gate_of self.old arena.old elsewhere packet)
            → (N.made nic.new ≡ N.made nic.old) × (self.new ≡ self.old) }
        ensures accepted { IfNone (returned result) (IsAccepted self.old packet self.new) }
        ensures kept { IfSome (returned result) (λ back. IsNoneAccepted self.old self.new) }
        ensures home { SendsHome (returned result) packet arena.old arena.new }
        ensures back { IfErr result (λ failed. IfSome failed.packet (λ back. IsBack failed.fault packet back)) }
        ensures settled { result ≡ Ok TxAnswer.Taken → self.new.posted ≡ length self.new.outstanding }
        ensures faults { IfErr result (λ failed.
            FaultsBy failed.fault (outgoing_of packet).blocks (N.made nic.old) self.old (N.made nic.new)) }
        ensures layout { self.new.layout ≡ self.old.layout }
        ensures began { BeganAs N.began nic.old nic.new }
        ensures refuses { N.refuses nic.new ≡ N.refuses nic.old }
        ensures refusal { IfErr result (λ failed. CanFail (N.refuses nic.new) failed.fault) }
    {
        match self.queue(alloc, nic, arena, elsewhere, packet) {
            Ok(TxAnswer::Taken) => self.post_accepted(alloc, nic),
            Ok(TxAnswer::RingFull(packet)) => Ok(TxAnswer::RingFull(packet)),
            Err(failed) => Err(failed),
        }
    }

    /// Does the work of `send` except advancing the tail, which one `flush` can later advance past several packets. The
    /// call first lends the remaining blocks and writes the remaining descriptors of a packet that has waited since an
    /// earlier call. Then, for each part of the new packet, it lends the block and writes the descriptor.
    ///
    /// The call returns what `send` returns. If none of the packet's blocks was lent yet, the packet is returned;
    /// otherwise it is accepted, and the next call continues with it. The device sends an accepted packet after
    /// `flush`, `send` or `reap` has advanced the tail past it.
    pub fn queue<N: Nic>(
        &mut self,
        alloc: Global,
        nic: &mut N,
        arena: &mut Arena,
        elsewhere: bool,
        packet: Packet,
    ) -> Result<TxAnswer, TxFault>
        ensures plays { PlaysWith (outgoing_of packet).blocks (N.made nic.old) self.old (N.made nic.new) self.new }
        ensures answer { IsAnswer (gate_of self.old arena.old elsewhere packet) packet result }
        ensures full { IsFullWhereReported self.old packet result }
        ensures shut { IsShut (gate_of self.old arena.old elsewhere packet)
            → (N.made nic.new ≡ N.made nic.old) × (self.new ≡ self.old) }
        ensures accepted { IfNone (returned result) (IsAccepted self.old packet self.new) }
        ensures kept { IfSome (returned result) (λ back. IsNoneAccepted self.old self.new) }
        ensures home { SendsHome (returned result) packet arena.old arena.new }
        ensures back { IfErr result (λ failed. IfSome failed.packet (λ back. IsBack failed.fault packet back)) }
        ensures asked { result ≡ Ok TxAnswer.Taken → self.new.poked ≡ length self.new.outstanding }
        ensures tail { self.new.posted ≡ self.old.posted }
        ensures faults { IfErr result (λ failed.
            FaultsBy failed.fault (outgoing_of packet).blocks (N.made nic.old) self.old (N.made nic.new)) }
        ensures layout { self.new.layout ≡ self.old.layout }
        ensures began { BeganAs N.began nic.old nic.new }
        ensures refuses { N.refuses nic.new ≡ N.refuses nic.old }
        ensures refusal { IfErr result (λ failed. CanFail (N.refuses nic.new) failed.fault) }
    {
        match self.gate(arena, elsewhere, &packet) {
            Gate::Refused(fault) => Err(TxFault {
                fault,
                packet: Some(packet),
            }),
            Gate::Full => Ok(TxAnswer::RingFull(packet)),
            Gate::Open => self.queue_through(alloc, nic, arena, packet),
        }
    }

    /// Checks a packet before any event.
    fn gate(&self, arena: &Arena, elsewhere: bool, packet: &Packet) -> Gate
        ensures reported { result ≡ gate_of self.now arena.now elsewhere packet.now }
        ensures full { result ≡ Gate.Full
            → self.now.layout.size ≤ length self.now.outstanding + parts_for packet.now.len }
        ensures whole { All (λ b. IsBlock b) packet.now.bufs }
    {
        let room = bytes_in(&packet.bufs);
        if packet.len == 0 || packet.len > self.limit() || usize::from(packet.len) > room {
            return Gate::Refused(PmdFault::BadSize);
        }
        if elsewhere || !self.goes_home(arena, packet) {
            return Gate::Refused(PmdFault::ForeignBlock);
        }
        if self.is_full(parts_for(packet.len)) {
            return Gate::Full;
        }
        Gate::Open
    }

    /// Continues with the waiting packet, then queues `packet`, which passed the check.
    fn queue_through<N: Nic>(
        &mut self,
        alloc: Global,
        nic: &mut N,
        arena: &mut Arena,
        packet: Packet,
    ) -> Result<TxAnswer, TxFault>
        requires may { MaySend self.old packet }
        requires out { AreOut arena.old (numbers_of packet.bufs) }
        ensures asks { Asks N.began N.refuses (failed_in result) nic.old nic.new }
        ensures queued { Queues result packet (N.made nic.old) self.old arena.old (N.made nic.new) self.new arena.new }
    {
        match self.ask_waiting(alloc, nic) {
            Ok(()) => self.accept_and_ask(alloc, nic, arena, packet),
            Err(fault) => Err(TxFault {
                fault,
                packet: Some(packet),
            }),
        }
    }

    /// Queues a packet that passed the check. Earlier packets may wait only for the tail to advance.
    fn accept_and_ask<N: Nic>(
        &mut self,
        alloc: Global,
        nic: &mut N,
        arena: &mut Arena,
        packet: Packet,
    ) -> Result<TxAnswer, TxFault>
        requires may { MaySend self.old packet }
        requires lent { self.old.lent ≡ length self.old.outstanding }
        requires asked { self.old.poked ≡ length self.old.outstanding }
        requires out { AreOut arena.old (numbers_of packet.bufs) }
        ensures asks { Asks N.began N.refuses (failed_in result) nic.old nic.new }
        ensures queued { Queues result packet (N.made nic.old) self.old arena.old (N.made nic.new) self.new arena.new }
    {
        match self.accept_padded(alloc, nic, packet) {
            Ok(rest) => {
                give_bufs(arena, rest);
                match self.ask_waiting(alloc, nic) {
                    Ok(()) => Ok(TxAnswer::Taken),
                    Err(fault) => Err(TxFault {
                        fault,
                        packet: None,
                    }),
                }
            }
            Err((fault, packet)) => Err(TxFault {
                fault,
                packet: Some(packet),
            }),
        }
    }

    /// Advances the tail past the packet just accepted.
    fn post_accepted<N: Nic>(&mut self, alloc: Global, nic: &mut N) -> Result<TxAnswer, TxFault>
        ensures asks { Asks N.began N.refuses (failed_in result) nic.old nic.new }
        ensures continues { Continues (failed_in result) (N.made nic.old) self.old (N.made nic.new) self.new }
        ensures tried { IsTried result }
        ensures none { returned result ≡ None }
        ensures settled { result ≡ Ok TxAnswer.Taken → self.new.posted ≡ length self.new.outstanding }
    {
        match self.flush(alloc, nic) {
            Ok(()) => Ok(TxAnswer::Taken),
            Err(fault) => Err(TxFault {
                fault,
                packet: None,
            }),
        }
    }

    /// Pads a packet and lends its first block. Returns the Bufs that contain none of the packet's bytes. If the first
    /// block can't be lent, undoes the padding and returns the packet.
    fn accept_padded<N: Nic>(
        &mut self,
        alloc: Global,
        nic: &mut N,
        packet: Packet,
    ) -> Result<Bufs, (PmdFault, Packet)>
        requires may { MaySend self.old packet }
        requires lent { self.old.lent ≡ length self.old.outstanding }
        requires asked { self.old.poked ≡ length self.old.outstanding }
        ensures asks { Asks N.began N.refuses (refused_in result) nic.old nic.new }
        ensures acts { Acts (outgoing_of packet).blocks (refused_in result) (N.made nic.old) self.old
            (N.made nic.new) self.new }
        ensures accepted { OnOk result (self.new ≡ accepted_by self.old (outgoing_of packet)) }
        ensures rest { IfOk result (λ rest. numbers_of rest ≡ drop (parts_for packet.len) (numbers_of packet.bufs)) }
        ensures kept { OnErr result (self.new ≡ self.old) }
        ensures back { IfErr result (λ refused. IsBack refused.0 packet refused.1) }
    {
        let _least = self.limit();
        let start = start_of(&packet);
        let len = packet.len;
        match self.accept(alloc, nic, pad(packet)) {
            Ok(rest) => Ok(rest),
            Err((fault, packet)) => Err((fault, unpad(packet, len, &start))),
        }
    }
}

impl TransmitRing {
    /// Continues with the accepted packets that the tail hasn't passed. For the newest of these packets, the call lends
    /// the remaining blocks and writes the remaining descriptors; then it advances the tail past all of them. If there
    /// is no fault, every block is lent and the tail has passed every packet. If the tail had already passed all
    /// packets, no device call is made.
    ///
    /// Fails with `DeviceFault` if the device sends a reply that a healthy queue can't send, or with `Call` if a call
    /// was refused; the next call continues.
    pub fn flush<N: Nic>(&mut self, alloc: Global, nic: &mut N) -> Result<(), PmdFault>
        ensures plays { (blocks : List ℕ) → PlaysWith blocks (N.made nic.old) self.old (N.made nic.new) self.new }
        ensures lent { OnOk result (self.new.lent ≡ length self.new.outstanding) }
        ensures settled { OnOk result (self.new.posted ≡ length self.new.outstanding) }
        ensures still { self.old.posted ≡ length self.old.outstanding
            → (N.made nic.new ≡ N.made nic.old) × (self.new ≡ self.old) × (result ≡ Ok tt) }
        ensures kept { IsNoneAccepted self.old self.new }
        ensures layout { self.new.layout ≡ self.old.layout }
        ensures late { IfErr result (λ fault. IsLate fault) }
        ensures faults { (blocks : List ℕ) → IfErr result (λ fault.
            FaultsBy fault blocks (N.made nic.old) self.old (N.made nic.new)) }
        ensures began { BeganAs N.began nic.old nic.new }
        ensures refuses { N.refuses nic.new ≡ N.refuses nic.old }
        ensures refusal { IfErr result (λ f. CanFail (N.refuses nic.new) f) }
    {
        match self.ask_waiting(alloc, nic) {
            Ok(()) => self.post(alloc, nic),
            Err(fault) => Err(fault),
        }
    }

    /// If a packet is waiting, lends its remaining blocks and writes its remaining descriptors. The tail stays
    /// unchanged.
    fn ask_waiting<N: Nic>(&mut self, alloc: Global, nic: &mut N) -> Result<(), PmdFault>
        ensures asks { Asks N.began N.refuses (fault_in result) nic.old nic.new }
        ensures continues { Continues (fault_in result) (N.made nic.old) self.old (N.made nic.new) self.new }
        ensures lent { OnOk result (self.new.lent ≡ length self.new.outstanding) }
        ensures asked { OnOk result (self.new.poked ≡ length self.new.outstanding) }
        ensures tail { self.new.posted ≡ self.old.posted }
        ensures still { self.old.posted ≡ length self.old.outstanding
            → (N.made nic.new ≡ N.made nic.old) × (self.new ≡ self.old) × (result ≡ Ok tt) }
    {
        for _asked in self.asked()..self.count() {
            match self.ask_next(alloc, nic) {
                Ok(()) => {}
                Err(fault) => return Err(fault),
            }
        }
        let _order = self.asked();
        Ok(())
    }

    /// Lends the block of the next segment, if it isn't lent yet, and writes the segment's descriptor.
    fn ask_next<N: Nic>(&mut self, alloc: Global, nic: &mut N) -> Result<(), PmdFault>
        requires { self.old.poked < length self.old.outstanding }
        ensures asks { Asks N.began N.refuses (fault_in result) nic.old nic.new }
        ensures continues { Continues (fault_in result) (N.made nic.old) self.old (N.made nic.new) self.new }
        ensures asked { OnOk result (self.new.poked ≡ self.old.poked + 1) }
        ensures tail { self.new.posted ≡ self.old.posted }
    {
        match self.lend_waiting(alloc, nic) {
            Ok(()) => self.ask(alloc, nic),
            Err(fault) => Err(fault),
        }
    }

    /// Lends the block of the next segment, if it isn't lent yet.
    fn lend_waiting<N: Nic>(&mut self, alloc: Global, nic: &mut N) -> Result<(), PmdFault>
        requires { self.old.poked < length self.old.outstanding }
        ensures asks { Asks N.began N.refuses (fault_in result) nic.old nic.new }
        ensures continues { Continues (fault_in result) (N.made nic.old) self.old (N.made nic.new) self.new }
        ensures lent { OnOk result (self.new.poked < self.new.lent) }
        ensures poked { self.new.poked ≡ self.old.poked }
        ensures tail { self.new.posted ≡ self.old.posted }
    {
        if self.is_next_lent() {
            return Ok(());
        }
        self.lend_next(alloc, nic)
    }

    /// Advances the tail, unless it has passed all segments.
    fn post<N: Nic>(&mut self, alloc: Global, nic: &mut N) -> Result<(), PmdFault>
        requires { self.old.poked ≡ length self.old.outstanding }
        ensures asks { Asks N.began N.refuses (fault_in result) nic.old nic.new }
        ensures continues { Continues (fault_in result) (N.made nic.old) self.old (N.made nic.new) self.new }
        ensures lent { OnOk result (self.new.lent ≡ length self.new.outstanding) }
        ensures settled { OnOk result (self.new.posted ≡ length self.new.outstanding) }
        ensures still { self.old.posted ≡ length self.old.outstanding
            → (N.made nic.new ≡ N.made nic.old) × (self.new ≡ self.old) × (result ≡ Ok tt) }
    {
        if self.is_settled() {
            return Ok(());
        }
        self.advance(alloc, nic)
    }
}
