//! The receive ring as the driver keeps it between two calls: its position and its blocks.

ghost use Rattle.std.specs.Prelude.{◌≡◌, ◌<◌, ◌≤◌, ◌+◌, ◌++◌, ◌∷◌, [], ◌↔◌, true, false, length, option_to_list, IfOk, IfErr, OnOk, OnErr};
ghost use Rattle.std.specs.List.{range_with_len};
ghost use Rattle.std.specs.VecDeque.{deque_len, deque_capacity};
ghost use Rattle.pmd_access.specs.Bufs.{numbers_of, with_all_free};
ghost use Rattle.pmd_access.specs.Home.{AreOut};
ghost use Rattle.pmd_access.specs.Slots.{blocks_for, ring_blocks};
ghost use Rattle.pmd_access.specs.NicDevice.DmaArena.Whereabouts.{times_in_hand};
ghost use Rattle.pmd_rx.specs.Keeping.{blocks_out, blocks_held, lent_of, fresh_block, numbers_of_all};
ghost use Rattle.pmd_rx.specs.Receive.{at_start, no_packet, reach};

use pmd_access::{
    Arena, Bufs, Packet, Port, Reclaim, Record, blocks_for, give_packet, is_ring_block,
};
use std::alloc::Global;
use std::collections::VecDeque;
use std::marker::Model;

/// The driver's stage between two of its calls.
#[derive(Clone, Copy)]
pub enum Stage {
    /// The driver looks at a packet's slots, one after the other.
    Looks,
    /// The driver has seen the end of the packet, and will take the block in the next slot.
    Takes,
    /// The driver has taken the slot's block and must lend a fresh one.
    Owes,
    /// The driver has lent this block, but no descriptor names it yet.
    Lent(u32),
}

/// The two halves of a descriptor that reports a part of a packet.
#[derive(Clone, Copy)]
pub struct Reported {
    /// First half: RSS type and hash.
    pub first: u64,
    /// Second half: length, and whether the packet ends with this part.
    pub second: u64,
}

/// A driver's receive ring and the packets it handed out.
///
/// `slots` lists the ring's blocks, starting at the next slot. The first `posted` blocks are posted. The remaining
/// blocks are named in descriptors after the tail. When the tail advances, they are posted, and the complete packets
/// whose blocks they replace are handed out. `records` lists the packets handed out, followed by the complete packets.
pub struct ReceiveRing {
    pub(crate) port: Port,
    pub(crate) tail: u32,
    pub(crate) ring: u32,
    pub(crate) size: u16,
    pub(crate) most: u16,
    pub(crate) next: u16,
    pub(crate) slots: VecDeque<u32>,
    pub(crate) posted: u16,
    pub(crate) records: Vec<Record>,
    pub(crate) handed: usize,
    pub(crate) seen: VecDeque<Reported>,
    pub(crate) held: Packet,
    pub(crate) whole: VecDeque<Packet>,
    pub(crate) stage: Stage,
}

impl Model for ReceiveRing {
    ghost use Rattle.std.specs.Prelude.{take, drop};
    ghost use Rattle.pmd_rx.specs.Receive.{Receive};
    ghost use Rattle.pmd_rx.specs.Shown.{IsSteady, AreRecords};

    ghost Value = { Receive };

    ghost view = { λ r. record {
      layout = record {
        port = r.port;
        tail = r.tail;
        ring = r.ring;
        size = r.size;
        most = r.most;
        next = r.next;
        blocks = take r.posted r.slots.items;
      };
      handed = take r.handed r.records.items;
      seen = r.seen.items;
      held = r.held;
      whole = r.whole.items;
      named = drop r.posted r.slots.items;
      stage = r.stage;
    } };

    ghost invariant = { λ r. IsSteady (record {
      port = r.port;
      tail = r.tail;
      ring = r.ring;
      size = r.size;
      most = r.most;
      next = r.next;
      blocks = r.slots.items;
    }) r.posted r.seen.items r.held r.whole.items r.stage × AreRecords r.handed r.records.items r.whole.items };
}

impl ReceiveRing {
    /// Creates a ring of 8 to 1,024 slots for a queue that is being enabled; no slot is posted. The ring occupies lent
    /// blocks, starting at block `ring`. `tail` is the number of the tail register at the port; `most` is the maximum
    /// number of slots that a packet takes.
    pub fn new(alloc: Global, port: Port, tail: u32, ring: u32, size: u16, most: u16) -> ReceiveRing
        requires some { 8 ≤ size }
        requires few { size ≤ 1024 }
        requires ring { ring + blocks_for size ≤ 65536 }
        requires parts { (1 ≤ most) × (most ≤ 5) }
        ensures { result ≡ at_start port tail ring size most }
    {
        ReceiveRing {
            port,
            tail,
            ring,
            size,
            most,
            next: 0,
            slots: VecDeque::new(alloc),
            posted: 0,
            records: Vec::new(alloc),
            handed: 0,
            seen: VecDeque::new(alloc),
            held: no_packet(),
            whole: VecDeque::new(alloc),
            stage: Stage::Looks,
        }
    }

    /// Returns the records of the packets handed out so far, oldest first.
    pub fn handed(&self) -> &[Record]
        ensures { result.now ≡ self.now.handed }
    {
        &self.records.as_slice()[..self.handed]
    }
}

/// A packet without parts.
pub(crate) fn no_packet() -> Packet
    ensures { result ≡ no_packet }
{
    Packet {
        bufs: Bufs::none(),
        len: 0,
        rss: 0,
        hash: 0,
    }
}

impl ReceiveRing {
    /// Returns whether the ring owns the block with this number. It owns the blocks that its descriptors occupy, the
    /// blocks in its slots, and the blocks that descriptors after the tail name. It also owns a fresh block that is
    /// lent, and the blocks of held parts and complete packets.
    pub fn has(&self, block: u32) -> bool
        ensures { (result ≡ true) ↔ (0 < times_in_hand (blocks_out self.now) block) }
    {
        self.is_in(block)
            || self.stands(block)
            || self.lends(block)
            || self.keeps(block)
            || self.holds(block)
    }

    /// Returns whether the ring occupies the block.
    fn is_in(&self, block: u32) -> bool
        ensures { (result ≡ true) ↔ (0 < times_in_hand
            (ring_blocks self.now.layout.ring self.now.layout.size) block) }
    {
        is_ring_block(self.ring, self.size, block)
    }

    /// Returns whether the block is in one of the ring's slots, or a descriptor after the tail names it.
    fn stands(&self, block: u32) -> bool
        ensures { (result ≡ true) ↔ (0 < times_in_hand (reach self.now).blocks block) }
    {
        self.slots.iter().filter(|slot| **slot == block).count() > 0
    }

    /// Returns whether the block is lent but no descriptor names it yet.
    fn lends(&self, block: u32) -> bool
        ensures { (result ≡ true) ↔ (0 < times_in_hand (fresh_block self.now.stage) block) }
    {
        match self.stage {
            Stage::Lent(fresh) => fresh == block,
            Stage::Looks | Stage::Takes | Stage::Owes => false,
        }
    }

    /// Returns whether the block contains part of a complete packet.
    fn keeps(&self, block: u32) -> bool
        ensures { (result ≡ true) ↔ (0 < times_in_hand (numbers_of_all self.now.whole) block) }
    {
        for at in 0..self.whole.len() {
            if self.whole[at].bufs.has(block) {
                return true;
            }
        }
        false
    }

    /// Returns whether the block contains part of the packet being held.
    fn holds(&self, block: u32) -> bool
        ensures { (result ≡ true) ↔ (0 < times_in_hand (numbers_of self.now.held.bufs) block) }
    {
        self.held.bufs.has(block)
    }
}

impl ReceiveRing {
    /// Closes the ring. Returns its lent blocks, which must still be taken back, and the records of the packets handed
    /// out. The blocks of the complete packets and of the packet being held return to the arena. If there is no memory,
    /// returns the unchanged ring.
    pub fn close(self, arena: &mut Arena) -> Result<(Reclaim, Vec<Record>), ReceiveRing>
        requires { AreOut arena.old (blocks_out self) }
        ensures way { IfOk result (λ ends. ends.0 ≡ record { lent = lent_of self; lost = 0 }) }
        ensures records { IfOk result (λ ends. ends.1.items ≡ self.handed) }
        ensures home { OnOk result (arena.new ≡ with_all_free arena.old (blocks_held self)) }
        ensures out { OnOk result (AreOut arena.new (lent_of self)) }
        ensures back { IfErr result (λ ring. ring ≡ self) }
        // If the ring is returned, the arena is unchanged.
        ensures kept { OnErr result (arena.new ≡ arena.old) }
    {
        let mut ended = self;
        let fresh = ended.fresh();
        let many = blocks_for(ended.size);
        if ended.slots.reserve(many as usize + 1).is_err() {
            return Err(ended);
        }
        let ReceiveRing {
            port: _,
            tail: _,
            ring,
            size: _,
            most: _,
            next: _,
            slots,
            posted: _,
            mut records,
            handed,
            seen: _,
            held,
            whole,
            stage: _,
        } = ended;
        let lent = with_ring(slots, fresh, ring, many);
        records.truncate(handed);
        give_packets(arena, whole);
        give_packet(arena, held);
        Ok((Reclaim::of(lent), records))
    }

    /// Returns the block that is lent but that no descriptor names yet, if there is one.
    fn fresh(&self) -> Option<u32>
        ensures { option_to_list result ≡ fresh_block self.now.stage }
    {
        match self.stage {
            Stage::Lent(fresh) => Some(fresh),
            Stage::Looks | Stage::Takes | Stage::Owes => None,
        }
    }
}

/// Returns the packets' blocks to the arena that they came from.
fn give_packets(arena: &mut Arena, packets: VecDeque<Packet>)
    requires { AreOut arena.old (numbers_of_all packets.items) }
    ensures { arena.new ≡ with_all_free arena.old (numbers_of_all packets.items) }
{
    let mut left = packets;
    for _given in 0..left.len() {
        match left.pop_front() {
            Some(packet) => give_packet(arena, packet),
            None => unreachable!(),
        }
    }
    left.destroy_empty()
}

/// Collects the blocks in a ring's slots, the fresh block if there is one, and the `many` blocks that the ring
/// occupies, starting at block `ring`. `blocks` already has room for all of them.
fn with_ring(blocks: VecDeque<u32>, fresh: Option<u32>, ring: u32, many: u32) -> VecDeque<u32>
    requires many { many ≤ 8 }
    requires ring { ring + many ≤ 65536 }
    requires room { deque_len blocks + many < deque_capacity blocks }
    ensures items { result.items ≡ blocks.items ++ (option_to_list fresh ++ range_with_len ring many) }
    ensures few { length result.items ≤ length blocks.items + 9 }
{
    let mut lent = with_fresh(blocks, fresh);
    for place in 0..many {
        lent.push_back_reserved(ring + place);
    }
    lent
}

/// Collects the blocks in a ring's slots and the fresh block, if there is one. `blocks` already has room for it.
fn with_fresh(blocks: VecDeque<u32>, fresh: Option<u32>) -> VecDeque<u32>
    requires { deque_len blocks < deque_capacity blocks }
    ensures items { result.items ≡ blocks.items ++ option_to_list fresh }
    ensures len { deque_len result ≤ deque_len blocks + 1 }
    ensures capacity { deque_capacity result ≡ deque_capacity blocks }
{
    let mut lent = blocks;
    if let Some(block) = fresh {
        lent.push_back_reserved(block);
    }
    lent
}
