//! The driver's transmit ring, with one step for each access that the driver makes to it.

ghost use Rattle.std.specs.Prelude.{[], ◌≡◌, ◌==◌, ◌↔◌, ◌<◌, ◌≤◌, ◌+◌, ◌-◌, ◌++◌, ℕ, None, All, length, take, drop, true, false, Ok, IfOk, IfErr, OnOk, OnErr, OnSome, IfSome, vec_len, if◌then◌else◌, List, not, nat_lt};
ghost use Rattle.pmd_access.specs.Accesses.{IsWritten};
ghost use Rattle.pmd_access.specs.Begun.{BeganAs};
ghost use Rattle.pmd_access.specs.Bufs.{numbers_of};
ghost use Rattle.pmd_access.specs.Made.{AddsSome};
ghost use Rattle.pmd_access.specs.Asks.{Asks, fault_in, refused_in};
ghost use Rattle.pmd_tx.specs.Acts.{Acts, Continues};
ghost use Rattle.pmd_tx.specs.Counted.{packets_in};
ghost use Rattle.pmd_tx.specs.Plays.{LooksLast};
ghost use Rattle.pmd_tx.specs.Leaving.{lent_of, waiting_of};
ghost use Rattle.pmd_tx.specs.Pieces.{first_last, places_of};
ghost use Rattle.pmd_tx.specs.Sending.{at_start, segment_at, slot_at, descriptor_at, first_end, keeps, asking, asked, is_sent, looked, lent_more, advanced, reaped, accepted_by, parts_for};
ghost use Rattle.std.specs.List.{list_any};
ghost use Rattle.pmd_access.specs.NicDevice.DmaRing.Ring.{next_of};
ghost use Rattle.pmd_access.specs.Packet.{Kept};
ghost use Rattle.pmd_access.specs.Slots.{blocks_for, ring_blocks};
ghost use Rattle.std.specs.Vec.{vec_capacity};
ghost use Rattle.std.specs.VecDeque.{deque_len, deque_capacity};
ghost use Rattle.pmd_tx.specs.Sends.{IsBack};
ghost use Rattle.pmd_tx.specs.Shown.{MayStart, sent_as, IsUnlent, LendsFirst, newest_part, newest_parts};
ghost use Rattle.pmd_access.specs.Refusals.{CanRefuse};

use crate::padding::{put_back, repacked, split};
use crate::piece::{Piece, add_pieces, count_ends, first_last, parts_for};
use pmd_access::{
    Buf, Bufs, CallFault, Nic, Packet, PmdFault, Port, Reclaim, Record, blocks_for,
    data_descriptor_word, descriptor_address, is_ring_block, is_sent, lend, next_slot, of_halves,
    peek, poke, second_half, slot_after, take, write,
};
use std::alloc::Global;
use std::collections::VecDeque;
use std::marker::Model;
use std::mem;

/// A driver's transmit ring, with the packets that the ring has accepted.
pub struct TransmitRing {
    port: Port,
    tail: u32,
    ring: u16,
    size: u16,
    next: u16,
    limit: u16,
    pieces: VecDeque<Piece>,
    waiting: Bufs,
    lent: u16,
    poked: u16,
    posted: u16,
    done: u16,
    accepted: Vec<Record>,
}

impl Model for TransmitRing {
    ghost use Rattle.pmd_tx.specs.Sending.{Sender};
    ghost use Rattle.pmd_tx.specs.Shown.{outstanding_of, IsRing};

    ghost Value = { Sender };

    ghost view = { λ r. record {
      layout = record {
        port = r.port;
        tail = r.tail;
        ring = r.ring;
        size = r.size;
        next = r.next;
        limit = r.limit;
      };
      outstanding = outstanding_of r.pieces.items r.accepted.items;
      lent = r.lent;
      poked = r.poked;
      posted = r.posted;
      done = r.done;
      accepted = r.accepted.items;
    } };

    ghost invariant = { λ r. IsRing (record {
      port = r.port;
      tail = r.tail;
      ring = r.ring;
      size = r.size;
      next = r.next;
      limit = r.limit;
    }) r.pieces.items r.waiting r.lent r.poked r.posted r.done r.accepted.items };
}

impl TransmitRing {
    /// Creates a ring of 1 to 1,024 slots for a queue that is being enabled, with nothing outstanding. The ring
    /// occupies consecutive blocks starting at block `ring`, all below 65,536. `tail` is the number of the tail
    /// register at the port; `limit` is the maximum length of a packet, 60 to 10,240 bytes. The call allocates nothing.
    #[tactic(auto, using(crate::proofs::Outstanding::outstanding))]
    pub fn new(
        alloc: Global,
        port: Port,
        tail: u32,
        ring: u32,
        size: u16,
        limit: u16,
    ) -> TransmitRing
        requires some { 0 < size }
        requires few { size ≤ 1024 }
        requires ring { ring + blocks_for size ≤ 65536 }
        requires least { 60 ≤ limit }
        requires limit { limit ≤ 10240 }
        ensures { result ≡ at_start port tail ring size limit }
    {
        TransmitRing {
            port,
            tail,
            ring: ring as u16,
            size,
            next: 0,
            limit,
            pieces: VecDeque::new(alloc),
            waiting: Bufs::none(),
            lent: 0,
            poked: 0,
            posted: 0,
            done: 0,
            accepted: Vec::new(alloc),
        }
    }

    /// Returns the packets accepted so far, oldest first.
    pub fn accepted(&self) -> &[Record]
        ensures { result.now ≡ self.now.accepted }
    {
        self.accepted.as_slice()
    }

    /// Closes the ring. Returns the lent blocks, which must still be taken back; the blocks that still wait to be lent;
    /// and the accepted packets, oldest first. If there is no memory, the call returns the ring unchanged.
    #[tactic(auto, using(crate::proofs::Outstanding::outstanding))]
    pub fn close(self, alloc: Global) -> Result<(Reclaim, Bufs, Vec<Record>), TransmitRing>
        ensures way { IfOk result (λ ends. ends.0 ≡ record { lent = lent_of self; lost = 0 }) }
        ensures waiting { IfOk result (λ ends. numbers_of ends.1 ≡ waiting_of self) }
        ensures records { IfOk result (λ ends. ends.2.items ≡ self.accepted) }
        ensures back { IfErr result (λ ring. ring ≡ self) }
    {
        let room = usize::from(self.lent) + blocks_for(self.size) as usize;
        let Ok(blocks) = VecDeque::with_capacity(alloc, room) else {
            return Err(self);
        };
        let TransmitRing {
            port: _,
            tail: _,
            ring,
            size,
            next: _,
            limit: _,
            pieces,
            waiting,
            lent,
            poked: _,
            posted: _,
            done: _,
            accepted,
        } = self;
        let lent = with_ring(with_pieces(blocks, &pieces, lent), u32::from(ring), size);
        Ok((Reclaim::of(lent), waiting, accepted))
    }

    /// Returns the number of the first block that the ring occupies.
    pub fn ring_block(&self) -> u32
        ensures block { result ≡ self.now.layout.ring }
        // The number is below 65,536.
        ensures small { result < 65536 }
    {
        u32::from(self.ring)
    }

    /// The maximum length of a packet in bytes.
    pub(crate) fn limit(&self) -> u16
        ensures limit { result ≡ self.now.layout.limit }
        ensures least { 60 ≤ result }
        ensures few { result ≤ 10240 }
    {
        self.limit
    }

    /// Returns whether the ring keeps the block with this number: the ring occupies the block, or the block belongs to
    /// an outstanding segment.
    #[tactic(auto, using(crate::proofs::Outstanding::outstanding))]
    pub fn keeps(&self, block: u32) -> bool
        ensures { result ≡ keeps self.now block }
    {
        is_ring_block(self.ring_block(), self.size, block) || holds(&self.pieces, block)
    }

    /// Returns whether the ring has too little room for `more` segments. Outstanding segments may take all slots of the
    /// ring except one.
    #[tactic(auto, using(crate::proofs::Outstanding::outstanding))]
    pub(crate) fn is_full(&self, more: u16) -> bool
        requires { more ≤ 32 }
        ensures { result ≡ not (nat_lt (length self.now.outstanding + more) self.now.layout.size) }
    {
        self.count() + more >= self.size
    }

    /// Returns the number of segments that still fit, 0 to 1,023. Outstanding segments may take all slots of the ring
    /// except one.
    #[tactic(auto, using(crate::proofs::Outstanding::outstanding))]
    pub fn vacant(&self) -> u16
        ensures vacant { result ≡ self.now.layout.size - 1 - length self.now.outstanding }
        ensures few { result < 1024 }
    {
        self.size - 1 - self.count()
    }

    /// The number of outstanding segments.
    #[tactic(auto, using(crate::proofs::Outstanding::outstanding))]
    pub(crate) fn count(&self) -> u16
        ensures count { result ≡ length self.now.outstanding }
        ensures few { result < 1024 }
    {
        self.pieces.len() as u16
    }

    /// Returns the number of packets that are accepted but not yet reaped. This is the number of outstanding segments
    /// that end a packet.
    #[tactic(auto, using(crate::proofs::Counting::counting))]
    pub fn outstanding(&self) -> u16
        ensures packets { result ≡ packets_in self.now.outstanding }
        // The number is below 1,024.
        ensures few { result < 1024 }
    {
        count_ends(&self.pieces) as u16
    }

    /// The number of outstanding segments with a written descriptor.
    #[tactic(auto, using(crate::proofs::Outstanding::outstanding))]
    pub(crate) fn asked(&self) -> u16
        ensures asked { result ≡ self.now.poked }
        ensures posted { self.now.posted ≤ result }
        ensures order { result ≤ self.now.lent }
        ensures lent { self.now.lent ≤ length self.now.outstanding }
    {
        self.poked
    }

    /// Returns whether the block of the next segment to get a descriptor is lent.
    pub(crate) fn is_next_lent(&self) -> bool
        ensures reported { (result ≡ true) ↔ (self.now.poked < self.now.lent) }
        ensures order { self.now.poked ≤ self.now.lent }
    {
        self.poked < self.lent
    }

    /// Returns whether the tail has passed all segments.
    #[tactic(auto, using(crate::proofs::Outstanding::outstanding))]
    pub(crate) fn is_settled(&self) -> bool
        ensures reported { (result ≡ true) ↔ (self.now.posted ≡ length self.now.outstanding) }
        ensures posted { self.now.posted ≤ self.now.poked }
        ensures poked { self.now.poked ≤ self.now.lent }
        ensures lent { self.now.lent ≤ length self.now.outstanding }
    {
        usize::from(self.posted) == self.pieces.len()
    }

    /// Returns whether the oldest segment is known to be done.
    pub(crate) fn has_done(&self) -> bool
        ensures { (result ≡ true) ↔ (0 < self.now.done) }
    {
        self.done > 0
    }

    /// Returns whether the oldest segment ends its packet.
    #[tactic(auto, using(crate::proofs::Outstanding::outstanding))]
    pub(crate) fn oldest_ends(&self) -> bool
        requires { 0 < length self.now.outstanding }
        ensures { result ≡ (segment_at self.now 0).part.last }
    {
        self.pieces[0].last
    }

    /// The slot after the oldest segment's slot.
    fn following(&self) -> u16
        ensures { result ≡ next_of self.now.layout.size self.now.layout.next }
    {
        next_slot(self.size, self.next)
    }

    /// Returns the slot that is `after` slots past the oldest segment's slot.
    fn slot(&self, after: u16) -> u16
        requires { after ≤ self.now.layout.size }
        ensures { result ≡ slot_at self.now.layout after }
    {
        slot_after(self.size, self.next, after)
    }

    /// Returns the bus address of the descriptor that is `after` descriptors past the oldest segment's.
    fn descriptor(&self, after: u16) -> u32
        requires { after ≤ self.now.layout.size }
        ensures { result ≡ descriptor_at self.now.layout after }
    {
        descriptor_address(self.ring_block(), self.slot(after))
    }
}

impl TransmitRing {
    /// Accepts a packet by lending its first block. Returns the Bufs that contain none of the packet's bytes. If the
    /// first block can't be lent, returns the packet.
    ///
    /// Fails with `DeviceFault` if a block with its number is already lent.
    pub(crate) fn accept<N: Nic>(
        &mut self,
        alloc: Global,
        nic: &mut N,
        packet: Packet,
    ) -> Result<Bufs, (PmdFault, Packet)>
        requires { MayStart self.old packet }
        ensures asks { Asks N.began N.refuses (refused_in result) nic.old nic.new }
        ensures acts { Acts (sent_as packet).blocks (refused_in result) (N.made nic.old) self.old (N.made nic.new)
            self.new }
        ensures accepted { OnOk result (self.new ≡ accepted_by self.old (sent_as packet)) }
        ensures rest { IfOk result (λ rest. rest ≡ drop (parts_for packet.len) packet.bufs) }
        ensures kept { OnErr result (self.new ≡ self.old) }
        ensures back { IfErr result (λ refused. IsBack refused.0 packet refused.1) }
    {
        self.lend_first(alloc, nic, packet)
    }

    /// Does the work of `accept`, with a contract that states which device calls are made.
    #[tactic(auto, using(crate::proofs::Outstanding::outstanding))]
    fn lend_first<N: Nic>(
        &mut self,
        alloc: Global,
        nic: &mut N,
        packet: Packet,
    ) -> Result<Bufs, (PmdFault, Packet)>
        requires { MayStart self.old packet }
        ensures asks { Asks N.began N.refuses (refused_in result) nic.old nic.new }
        ensures made { OnOk result (LendsFirst (N.made nic.old) (N.made nic.new) packet.bufs None) }
        ensures accepted { OnOk result (self.new ≡ accepted_by self.old (sent_as packet)) }
        ensures rest { IfOk result (λ rest. rest ≡ drop (parts_for packet.len) packet.bufs) }
        ensures kept { OnErr result (self.new ≡ self.old) }
        ensures failed { IfErr result (λ refused.
            IsUnlent refused.0 (N.made nic.old) (N.made nic.new) packet refused.1) }
    {
        let no_memory = PmdFault::Call(CallFault::OutOfMemory(()));
        let parts = parts_for(packet.len);
        let bytes = packet.record_room();
        let Some(room) = room_for(alloc, &mut self.pieces, parts, &mut self.accepted, bytes) else {
            return Err((no_memory, packet));
        };
        let record = Record::of(&packet, room);
        let Packet {
            bufs,
            len,
            rss,
            hash,
        } = packet;
        let _few = bufs.count();
        let mut others = bufs;
        let first = match others.take_first() {
            Some(first) => first,
            None => unreachable!(),
        };
        let block = first.block();
        match lend(alloc, nic, first) {
            Ok(None) => {
                let (waiting, rest) = split(others, usize::from(parts) - 1);
                add_pieces(&mut self.pieces, block, &waiting, len);
                self.accepted.push_reserved(record);
                self.lent += 1;
                let none = mem::replace(&mut self.waiting, waiting);
                none.finish();
                Ok(rest)
            }
            Ok(Some(first)) => {
                let back = repacked(first, others, len, rss, hash);
                Err((PmdFault::DeviceFault, back))
            }
            Err((fault, first)) => {
                let back = repacked(first, others, len, rss, hash);
                Err((PmdFault::Call(fault), back))
            }
        }
    }
}

impl TransmitRing {
    /// Lends the block of the oldest segment whose block isn't lent yet.
    ///
    /// Fails with `DeviceFault` if a block with its number is already lent.
    pub(crate) fn lend_next<N: Nic>(&mut self, alloc: Global, nic: &mut N) -> Result<(), PmdFault>
        requires { self.old.lent < length self.old.outstanding }
        ensures asks { Asks N.began N.refuses (fault_in result) nic.old nic.new }
        ensures continues { Continues (fault_in result) (N.made nic.old) self.old (N.made nic.new) self.new }
        ensures lent { OnOk result (self.new ≡ lent_more self.old) }
        ensures kept { OnErr result (self.new ≡ self.old) }
    {
        let _few = self.waiting.count();
        let buf = match self.waiting.take_first() {
            Some(buf) => buf,
            None => unreachable!(),
        };
        let _whole = buf.bytes();
        match lend(alloc, nic, buf) {
            Ok(None) => {
                self.lent += 1;
                Ok(())
            }
            Ok(Some(mut buf)) => {
                let left = self.pieces.len() - usize::from(self.lent);
                buf.put(0, newest_part(&self.accepted, left));
                put_back(&mut self.waiting, buf);
                Err(PmdFault::DeviceFault)
            }
            Err((fault, buf)) => {
                put_back(&mut self.waiting, buf);
                Err(PmdFault::Call(fault))
            }
        }
    }
}

impl TransmitRing {
    /// Writes the descriptor of the next segment.
    ///
    /// Fails with `DeviceFault` if the ring is no longer lent.
    pub(crate) fn ask<N: Nic>(&mut self, alloc: Global, nic: &mut N) -> Result<(), PmdFault>
        requires { self.old.poked < self.old.lent }
        ensures asks { Asks N.began N.refuses (fault_in result) nic.old nic.new }
        ensures continues { Continues (fault_in result) (N.made nic.old) self.old (N.made nic.new) self.new }
        ensures asked { OnOk result (self.new ≡ asked self.old) }
        ensures kept { OnErr result (self.new ≡ self.old) }
    {
        let address = self.next_descriptor();
        let bytes = self.asking();
        match poke(alloc, nic, address, bytes) {
            Ok(true) => {
                self.keep_asked();
                Ok(())
            }
            Ok(false) => Err(PmdFault::DeviceFault),
            Err(fault) => Err(PmdFault::Call(fault)),
        }
    }

    /// The bus address of the next segment's descriptor.
    #[tactic(auto, using(crate::proofs::Outstanding::outstanding))]
    fn next_descriptor(&self) -> u32
        ensures { result ≡ descriptor_at self.now.layout self.now.poked }
    {
        self.descriptor(self.poked)
    }

    /// The descriptor that requests the transmission of the next segment.
    #[tactic(auto, using(crate::proofs::Outstanding::outstanding))]
    fn asking(&self) -> [u8; 16]
        requires { self.now.poked < self.now.lent }
        ensures { result ≡ asking (segment_at self.now self.now.poked) }
    {
        let Piece {
            block,
            len,
            whole,
            last,
        } = self.pieces[usize::from(self.poked)];
        of_halves(
            2048 * u64::from(block),
            data_descriptor_word(len, last, u32::from(whole)),
        )
    }

    /// Records that the descriptor is written.
    fn keep_asked(&mut self)
        requires { self.old.poked < self.old.lent }
        ensures { self.new ≡ asked self.old }
    {
        self.poked += 1;
    }

    /// Advances the tail, handing all segments to the device.
    ///
    /// Fails with `DeviceFault` if the port has no register with the tail's number.
    pub(crate) fn advance<N: Nic>(&mut self, alloc: Global, nic: &mut N) -> Result<(), PmdFault>
        requires all { self.old.poked ≡ length self.old.outstanding }
        requires some { self.old.posted < self.old.poked }
        ensures asks { Asks N.began N.refuses (fault_in result) nic.old nic.new }
        ensures continues { Continues (fault_in result) (N.made nic.old) self.old (N.made nic.new) self.new }
        ensures advanced { OnOk result (self.new ≡ advanced self.old) }
        ensures kept { OnErr result (self.new ≡ self.old) }
    {
        let word = self.next_tail();
        match self.write_tail(alloc, nic, word) {
            Ok(true) => {
                self.keep_advanced();
                Ok(())
            }
            Ok(false) => Err(PmdFault::DeviceFault),
            Err(fault) => Err(PmdFault::Call(fault)),
        }
    }

    /// The tail's value after it passes the segments with written descriptors.
    #[tactic(auto, using(crate::proofs::Outstanding::outstanding))]
    fn next_tail(&self) -> u32
        ensures { result ≡ slot_at self.now.layout self.now.poked }
    {
        u32::from(self.slot(self.poked))
    }

    /// Writes the tail register. Returns whether the port has this register.
    fn write_tail<N: Nic>(
        &self,
        alloc: Global,
        nic: &mut N,
        word: u32,
    ) -> Result<bool, CallFault<()>>
        ensures made { IfOk result (λ known.
            IsWritten (N.made nic.old) (N.made nic.new) self.now.layout.port self.now.layout.tail word known) }
        ensures began { BeganAs N.began nic.old nic.new }
        ensures refuses { N.refuses nic.new ≡ N.refuses nic.old }
        ensures refusal { IfErr result (λ refusal. CanRefuse (N.refuses nic.new) refusal) }
        ensures refused { OnErr result (AddsSome (N.made nic.old) (N.made nic.new)) }
    {
        write(alloc, nic, self.port, self.tail, word)
    }

    /// Records that the tail has passed all segments with a written descriptor.
    fn keep_advanced(&mut self)
        ensures { self.new ≡ advanced self.old }
    {
        self.posted = self.poked;
    }
}

impl TransmitRing {
    /// Reads the descriptor that ends the oldest packet. Returns whether the packet was sent.
    ///
    /// Fails with `DeviceFault` if the ring is no longer lent.
    pub(crate) fn look<N: Nic>(&mut self, alloc: Global, nic: &mut N) -> Result<bool, PmdFault>
        requires some { 0 < length self.old.outstanding }
        requires settled { self.old.posted ≡ length self.old.outstanding }
        ensures asks { Asks N.began N.refuses (fault_in result) nic.old nic.new }
        ensures continues { Continues (fault_in result) (N.made nic.old) self.old (N.made nic.new) self.new }
        ensures seen { IfOk result (λ sent.
            self.new ≡ record self.old { done = if sent then first_end self.old.outstanding + 1 else 0 }) }
        ensures waits { result ≡ Ok false → LooksLast (N.made nic.old) self.old (N.made nic.new) self.new }
        ensures kept { OnErr result (self.new ≡ self.old) }
    {
        let end = self.oldest_end();
        let address = self.descriptor(end);
        match peek(alloc, nic, address) {
            Ok(Some(bytes)) => Ok(self.see(end, &bytes)),
            Ok(None) => Err(PmdFault::DeviceFault),
            Err(fault) => Err(PmdFault::Call(fault)),
        }
    }

    /// The index of the oldest packet's last segment.
    #[tactic(auto, using(crate::proofs::Outstanding::outstanding))]
    fn oldest_end(&self) -> u16
        requires { 0 < length self.now.outstanding }
        ensures end { result ≡ first_end self.now.outstanding }
        ensures below { result < length self.now.outstanding }
        ensures slot { result ≤ self.now.layout.size }
        ensures small { result < 1024 }
    {
        first_last(&self.pieces)
    }

    /// Records and returns whether the oldest packet was sent, given the descriptor of its last segment.
    fn see(&mut self, end: u16, bytes: &[u8; 16]) -> bool
        requires end { end ≡ first_end self.old.outstanding }
        requires posted { end < self.old.posted }
        requires small { end < 1024 }
        ensures looked { self.new ≡ looked self.old bytes.now }
        ensures sent { result ≡ is_sent bytes.now }
    {
        let sent = is_sent(second_half(bytes));
        self.done = if sent { end + 1 } else { 0 };
        sent
    }

    /// Takes the block of the oldest segment, which is known to be done. The segment is no longer outstanding.
    ///
    /// Fails with `DeviceFault` if the block is no longer lent.
    pub(crate) fn take_oldest<N: Nic>(
        &mut self,
        alloc: Global,
        nic: &mut N,
    ) -> Result<Buf, PmdFault>
        requires { 0 < self.old.done }
        ensures asks { Asks N.began N.refuses (fault_in result) nic.old nic.new }
        ensures acts { (blocks : List ℕ)
            → Acts blocks (fault_in result) (N.made nic.old) self.old (N.made nic.new) self.new }
        ensures reaped { OnOk result (self.new ≡ reaped self.old) }
        ensures block { IfOk result (λ buf. buf.number ≡ (segment_at self.old 0).block) }
        ensures some { 0 < length self.old.outstanding }
        ensures kept { OnErr result (self.new ≡ self.old) }
    {
        let block = self.oldest_block();
        match take(alloc, nic, block) {
            Ok(Some(buf)) => {
                self.keep_reaped();
                Ok(buf)
            }
            Ok(None) => Err(PmdFault::DeviceFault),
            Err(fault) => Err(PmdFault::Call(fault)),
        }
    }

    /// The block of the oldest segment, which is known to be done.
    #[tactic(auto, using(crate::proofs::Outstanding::outstanding))]
    fn oldest_block(&self) -> u32
        requires { 0 < self.now.done }
        ensures block { result ≡ (segment_at self.now 0).block }
        ensures some { 0 < length self.now.outstanding }
    {
        self.pieces[0].block
    }

    /// Records that the oldest segment is no longer outstanding.
    #[tactic(auto, using(crate::proofs::Outstanding::outstanding))]
    fn keep_reaped(&mut self)
        requires { 0 < self.old.done }
        ensures { self.new ≡ reaped self.old }
    {
        self.next = self.following();
        let _reaped = self.pieces.pop_front();
        self.lent -= 1;
        self.poked -= 1;
        self.posted -= 1;
        self.done -= 1;
    }
}

/// Makes room for `more` pieces, a record, and the bytes that the record keeps. Returns `None` if there is no memory.
fn room_for(
    alloc: Global,
    pieces: &mut VecDeque<Piece>,
    more: u16,
    accepted: &mut Vec<Record>,
    bytes: usize,
) -> Option<Vec<u8>>
    ensures pieces { pieces.new.items ≡ pieces.old.items }
    ensures accepted { accepted.new.items ≡ accepted.old.items }
    ensures more { OnSome result (deque_len pieces.new + more ≤ deque_capacity pieces.new) }
    ensures record { OnSome result (vec_len accepted.new < vec_capacity accepted.new) }
    ensures empty { IfSome result (λ room. room.items ≡ []) }
    ensures bytes { IfSome result (λ room. bytes ≤ vec_capacity room) }
{
    if pieces.reserve(usize::from(more)).is_err() {
        return None;
    }
    if accepted.reserve(1).is_err() {
        return None;
    }
    Vec::with_capacity(alloc, bytes).ok()
}

/// Appends the blocks that a ring occupies to `blocks`, which has room for them.
fn with_ring(blocks: VecDeque<u32>, ring: u32, size: u16) -> VecDeque<u32>
    requires few { size ≤ 1024 }
    requires ring { ring + blocks_for size ≤ 65536 }
    requires room { deque_len blocks + blocks_for size ≤ deque_capacity blocks }
    ensures items { result.items ≡ blocks.items ++ ring_blocks ring size }
    ensures few { length result.items ≤ length blocks.items + 8 }
{
    let mut lent = blocks;
    for at in 0..blocks_for(size) {
        lent.push_back_reserved(ring + at);
    }
    lent
}

/// The bytes of a part of the newest packet: part number `left` from the end, where 1 is the last part.
fn newest_part(accepted: &[Record], left: usize) -> &[u8]
    requires some { 0 < left }
    requires few { left ≤ newest_parts accepted.now }
    requires short { All (λ (kept : Kept). length kept.bytes ≤ 10240) accepted.now }
    ensures { result.now ≡ newest_part accepted.now left }
{
    let bytes = accepted[accepted.len() - 1].bytes();
    let start = 2048 * ((bytes.len() + 2047) / 2048 - left);
    let rest = &bytes[start..];
    &rest[..rest.len().min(2048)]
}

/// Returns whether one of these pieces is in the block.
fn holds(pieces: &VecDeque<Piece>, block: u32) -> bool
    ensures { result ≡ list_any (λ piece. block == piece.block) pieces.now.items }
{
    pieces.iter().any(|piece| block == piece.block)
}

/// Appends the blocks of the first `count` pieces to `blocks`, which has room for them.
fn with_pieces(blocks: VecDeque<u32>, pieces: &VecDeque<Piece>, count: u16) -> VecDeque<u32>
    requires some { count ≤ length pieces.now.items }
    requires room { deque_len blocks + count ≤ deque_capacity blocks }
    ensures items { result.items ≡ blocks.items ++ take count (places_of pieces.now.items) }
    ensures len { deque_len result ≡ deque_len blocks + count }
    ensures capacity { deque_capacity result ≡ deque_capacity blocks }
{
    let mut lent = blocks;
    for number in 0..usize::from(count) {
        lent.push_back_reserved(pieces[number].block);
    }
    lent
}
