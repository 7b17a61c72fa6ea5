//! The driver's receive side: one step for each call that the driver makes. Each step takes the driver from one stage
//! to the next.

ghost use Rattle.std.specs.Prelude.{ℕ, ◌≡◌, ◌<◌, ◌≤◌, ◌+◌, ◌*◌, ◌++◌, length, IsFalse, if◌then◌else◌, Ok, Err, true, false, IfOk, IfErr, OnOk, OnErr, OnSome, IfSome, [], min, vec_len};
ghost use Rattle.std.specs.Vec.{vec_capacity};
ghost use Rattle.std.specs.VecDeque.{deque_len, deque_capacity};
ghost use Rattle.pmd_access.specs.NicDevice.DmaArena.Numbers.{free_count, is_free, with_free};
ghost use Rattle.pmd_access.specs.NicDevice.DmaRing.Receive.{is_done, ends_packet};
ghost use Rattle.pmd_access.specs.Home.{AreOut};
ghost use Rattle.pmd_access.specs.Asks.{Asks, fault_in};
ghost use Rattle.pmd_rx.specs.Acts.{Gathers, GathersAlone};
ghost use Rattle.pmd_rx.specs.Keeping.{blocks_out};
ghost use Rattle.pmd_rx.specs.Receive.{took, lent_one, names, if_any, records_of, is_part, descriptor_at, slot_at, block_at, vacant, reach, naming, CanLend, HasLent};
ghost use Rattle.pmd_rx.specs.Shown.{IsLook, IsRefused, IsNamed, IsUnnamed};
ghost use Rattle.pmd_rx.specs.declared.ring.Stage.TheVariants as stage;

use crate::ring::{ReceiveRing, Reported, Stage, no_packet};
use pmd_access::{
    Arena, BLOCK_BYTES, Buf, CallFault, Nic, Packet, PmdFault, Record, descriptor_address,
    first_half, is_last, is_written_back, lend, next_slot, of_halves, peek, poke, posted_word,
    reported_hash, reported_length, reported_rss, second_half, slot_after, take,
};
use std::alloc::Global;
use std::collections::VecDeque;
use std::mem;

/// The result of looking at a slot.
#[derive(Clone, Copy)]
pub enum Look {
    /// The slot isn't done.
    Nothing,
    /// The slot contains a part of a packet.
    Part,
    /// A state that is impossible in a healthy queue: a part that is too long or too short, one part too many, or a
    /// ring that isn't lent.
    Wrong,
}

/// Classifies a slot by the second half of its descriptor. `before` parts of the packet precede this slot's part; a
/// packet has at most `most` parts.
fn look_reported(most: u16, before: usize, second: u64) -> Look
    requires { before < 65536 }
    ensures nothing { result ≡ Look.Nothing → IsFalse (is_done second) }
    ensures part { result ≡ Look.Part → (is_done second ≡ true) × (is_part most before second ≡ true) }
    ensures wrong { result ≡ Look.Wrong → (is_done second ≡ true) × IsFalse (is_part most before second) }
{
    if !is_written_back(second) {
        return Look::Nothing;
    }
    let len = usize::from(reported_length(second));
    let fits = if is_last(second) {
        len <= BLOCK_BYTES
    } else {
        len == BLOCK_BYTES && before + 1 < usize::from(most)
    };
    if fits { Look::Part } else { Look::Wrong }
}

impl ReceiveRing {
    /// Returns the bus address of the descriptor after those already seen.
    fn next_descriptor(&self) -> u32
        requires { length self.now.seen < length self.now.layout.blocks }
        ensures { result ≡ descriptor_at self.now.layout (length self.now.seen) }
    {
        descriptor_address(self.ring, self.slot(self.seen.len() as u16))
    }

    /// Looks at the slot after those already seen.
    ///
    /// Fails with `Call` if a call was refused, or if there was no memory to keep what the driver saw.
    pub(crate) fn look<N: Nic>(&mut self, alloc: Global, nic: &mut N) -> Result<Look, PmdFault>
        requires some { length self.old.seen < length self.old.layout.blocks }
        requires stage { self.old.stage ≡ stage.Looks }
        ensures asks { Asks N.began N.refuses (fault_in result) nic.old nic.new }
        ensures looked { IfOk result (λ look. IsLook look (N.made nic.old) self.old (N.made nic.new) self.new) }
        ensures unseen { OnErr result (self.new ≡ self.old) }
        ensures refused { IfErr result (λ f. IsRefused f (N.made nic.old) (N.made nic.new)) }
    {
        if self.seen.reserve(1).is_err() {
            return Err(PmdFault::Call(CallFault::OutOfMemory(())));
        }
        let address = self.next_descriptor();
        match peek(alloc, nic, address) {
            Ok(Some(bytes)) => {
                let reported = Reported {
                    first: first_half(&bytes),
                    second: second_half(&bytes),
                };
                let look = look_reported(self.most, self.seen.len(), reported.second);
                if matches!(look, Look::Part) {
                    self.seen.push_back_reserved(reported);
                    self.stage = stage_after(reported.second);
                }
                Ok(look)
            }
            Ok(None) => Ok(Look::Wrong),
            Err(fault) => Err(PmdFault::Call(fault)),
        }
    }

    /// Takes the block in the next slot; the slot's part joins the packet being held.
    ///
    /// Fails with `DeviceFault` if the block is no longer lent.
    pub(crate) fn take_part<N: Nic>(&mut self, alloc: Global, nic: &mut N) -> Result<(), PmdFault>
        requires stage { self.old.stage ≡ stage.Takes }
        requires some { 0 < length self.old.seen }
        ensures asks { Asks N.began N.refuses (fault_in result) nic.old nic.new }
        ensures gathers { GathersAlone (fault_in result) (N.made nic.old) self.old (N.made nic.new) self.new }
        ensures whole { self.new.whole ≡ self.old.whole }
        ensures taken { OnOk result ((self.new.stage ≡ stage.Owes)
            × (length self.new.seen + 1 ≡ length self.old.seen) × (0 < length self.new.held.bufs)) }
    {
        let block = self.next_block();
        match take(alloc, nic, block) {
            Ok(Some(buf)) => {
                self.hold(buf);
                Ok(())
            }
            Ok(None) => Err(PmdFault::DeviceFault),
            Err(fault) => Err(PmdFault::Call(fault)),
        }
    }

    /// Returns the block in the next slot.
    fn next_block(&self) -> u32
        requires { 0 < length self.now.seen }
        ensures block { result ≡ block_at self.now.layout 0 }
        ensures some { 0 < length self.now.layout.blocks }
    {
        self.slots[0]
    }

    /// Consumes the next slot. The slot's part, which is in `buf`, joins the packet being held.
    fn hold(&mut self, buf: Buf)
        requires stage { self.old.stage ≡ stage.Takes }
        requires some { 0 < length self.old.seen }
        ensures { self.new ≡ took self.old self.old.seen buf }
    {
        let Some(reported) = self.seen.pop_front() else {
            unreachable!()
        };
        self.held.bufs.push(buf);
        self.held.len += reported_length(reported.second);
        self.held.rss = reported_rss(reported.first);
        self.held.hash = reported_hash(reported.first);
        self.next = next_slot(self.size, self.next);
        let _consumed = self.slots.pop_front();
        self.posted -= 1;
        self.stage = Stage::Owes;
    }

    /// Returns the slot that is `after` positions past the next slot.
    pub(crate) fn slot(&self, after: u16) -> u16
        requires { after ≤ self.now.layout.size }
        ensures { result ≡ slot_at self.now.layout after }
    {
        slot_after(self.size, self.next, after)
    }

    /// Lends a fresh block from the arena.
    ///
    /// Fails with `NoBuffer` if no block is free, without doing anything. Fails with `DeviceFault` if a block with its
    /// number is already lent.
    pub(crate) fn lend_fresh<N: Nic>(
        &mut self,
        alloc: Global,
        nic: &mut N,
        arena: &mut Arena,
    ) -> Result<(), PmdFault>
        requires stage { CanLend self.old.stage self.old.seen }
        requires room { length (reach self.old).blocks + 1 < self.old.layout.size }
        requires home { AreOut arena.old (blocks_out self.old) }
        ensures asks { Asks N.began N.refuses (fault_in result) nic.old nic.new }
        ensures gathers { Gathers (fault_in result)
            (N.made nic.old) arena.old self.old (N.made nic.new) arena.new self.new }
        ensures lent { OnOk result ((n : ℕ) × (is_free arena.old n ≡ true)
            × (arena.new ≡ with_free arena.old n false) × (self.new ≡ lent_one self.old n)) }
        ensures none { result ≡ Err PmdFault.NoBuffer → free_count arena.old ≡ 0 }
    {
        let Some(buf) = arena.take() else {
            return Err(PmdFault::NoBuffer);
        };
        let _whole = buf.bytes();
        let block = buf.block();
        match lend(alloc, nic, buf) {
            Ok(None) => {
                self.keep_lent(block);
                Ok(())
            }
            Ok(Some(buf)) => {
                arena.give_back(buf);
                Err(PmdFault::DeviceFault)
            }
            Err((fault, buf)) => {
                arena.give_back(buf);
                Err(PmdFault::Call(fault))
            }
        }
    }

    /// Records that the block is lent.
    fn keep_lent(&mut self, block: u32)
        requires stage { CanLend self.old.stage self.old.seen }
        requires room { length (reach self.old).blocks + 1 < self.old.layout.size }
        requires small { block < 65536 }
        ensures { self.new ≡ lent_one self.old block }
    {
        self.stage = Stage::Lent(block);
    }

    /// Names the fresh block in the descriptor of the first vacant slot. If no part of the packet being held remains to
    /// be taken, that packet is then complete.
    ///
    /// Fails with `DeviceFault` if the ring is no longer lent. Fails with `Call` if a call was refused, or if there was
    /// no memory for the block's number or the packet's record.
    pub(crate) fn name_fresh<N: Nic>(&mut self, alloc: Global, nic: &mut N) -> Result<(), PmdFault>
        requires { HasLent self.old.stage }
        ensures asks { Asks N.began N.refuses (fault_in result) nic.old nic.new }
        ensures made { OnOk result (IsNamed (N.made nic.old) (N.made nic.new) self.old true) }
        ensures named { OnOk result (self.new ≡ names self.old) }
        ensures kept { OnErr result (self.new ≡ self.old) }
        ensures failed { IfErr result (λ f. IsUnnamed f (N.made nic.old) (N.made nic.new) self.old) }
    {
        let Stage::Lent(block) = self.stage else {
            unreachable!()
        };
        let no_memory = PmdFault::Call(CallFault::OutOfMemory(()));
        let bytes = self.record_room();
        let Some(room) = room_for_one(
            alloc,
            &mut self.slots,
            &mut self.whole,
            &mut self.records,
            bytes,
        ) else {
            return Err(no_memory);
        };
        match poke(alloc, nic, self.vacant_descriptor(), naming(block)) {
            Ok(true) => {
                self.slots.push_back_reserved(block);
                if !self.seen.is_empty() {
                    self.stage = Stage::Takes;
                    return Ok(());
                }
                self.stage = Stage::Looks;
                let packet = mem::replace(&mut self.held, no_packet());
                keep_whole(packet, &mut self.whole, &mut self.records, room);
                Ok(())
            }
            Ok(false) => Err(PmdFault::DeviceFault),
            Err(fault) => Err(PmdFault::Call(fault)),
        }
    }

    /// The bus address of the first vacant slot's descriptor.
    fn vacant_descriptor(&self) -> u32
        ensures { result ≡ descriptor_at self.now.layout (vacant (reach self.now)) }
    {
        descriptor_address(self.ring, self.slot(self.slots.len() as u16))
    }

    /// Returns the number of bytes that the record of the packet being held needs, if no part of this packet remains to
    /// be taken.
    fn record_room(&self) -> usize
        ensures { length self.now.seen ≡ 0 → min self.now.held.len (2048 * length self.now.held.bufs) ≤ result }
    {
        if self.seen.is_empty() {
            self.held.record_room()
        } else {
            0
        }
    }
}

/// Makes room for a block's number, a complete packet, its record, and the record's bytes. Returns the empty buffer for
/// these bytes, or `None` if there is no memory.
fn room_for_one(
    alloc: Global,
    slots: &mut VecDeque<u32>,
    whole: &mut VecDeque<Packet>,
    records: &mut Vec<Record>,
    bytes: usize,
) -> Option<Vec<u8>>
    ensures slots { slots.new.items ≡ slots.old.items }
    ensures whole { whole.new.items ≡ whole.old.items }
    ensures records { records.new.items ≡ records.old.items }
    ensures slot { OnSome result (deque_len slots.new < deque_capacity slots.new) }
    ensures packet { OnSome result (deque_len whole.new < deque_capacity whole.new) }
    ensures record { OnSome result (vec_len records.new < vec_capacity records.new) }
    ensures empty { IfSome result (λ room. room.items ≡ []) }
    ensures bytes { IfSome result (λ room. bytes ≤ vec_capacity room) }
{
    if slots.reserve(1).is_err() {
        return None;
    }
    if whole.reserve(1).is_err() {
        return None;
    }
    if records.reserve(1).is_err() {
        return None;
    }
    Vec::with_capacity(alloc, bytes).ok()
}

/// Returns the descriptor that names this block.
fn naming(block: u32) -> [u8; 16]
    requires { block < 65536 }
    ensures { result ≡ naming block }
{
    of_halves(posted_word(2048 * u64::from(block)), 0)
}

/// Returns the stage after a look that found a part of a packet; `second` is the second half of the descriptor.
fn stage_after(second: u64) -> Stage
    ensures { result ≡ (if ends_packet second then stage.Takes else stage.Looks) }
{
    if is_last(second) {
        Stage::Takes
    } else {
        Stage::Looks
    }
}

/// Keeps a complete packet and its record. A packet without parts isn't kept.
fn keep_whole(
    packet: Packet,
    whole: &mut VecDeque<Packet>,
    records: &mut Vec<Record>,
    room: Vec<u8>,
)
    requires empty { room.items ≡ [] }
    requires bytes { min packet.len (2048 * length packet.bufs) ≤ vec_capacity room }
    requires packet { deque_len whole.old < deque_capacity whole.old }
    requires record { vec_len records.old < vec_capacity records.old }
    ensures whole { whole.new.items ≡ whole.old.items ++ if_any packet.bufs packet }
    ensures kept { records.new.items ≡ records.old.items ++ records_of (if_any packet.bufs packet) }
{
    if packet.bufs.count() == 0 {
        let Packet {
            bufs,
            len: _,
            rss: _,
            hash: _,
        } = packet;
        bufs.finish();
        return;
    }
    records.push_reserved(Record::of(&packet, room));
    whole.push_back_reserved(packet);
}
