//! Posts blocks to the receive ring and takes packets from it. Each function makes a sequence of calls and may stop
//! after any of them.

ghost use Rattle.std.specs.Prelude.{ℕ, ◌≡◌, ◌≢◌, ◌<◌, ◌≤◌, ◌+◌, [], length, true, false, Ok, Err, IfErr, OnOk, OnErr};
ghost use Rattle.pmd_access.specs.NicDevice.DmaArena.Numbers.{Numbers, free_count, is_free, with_free};
ghost use Rattle.pmd_access.specs.Asks.{Asks, fault_in};
ghost use Rattle.pmd_access.specs.Begun.{BeganAs};
ghost use Rattle.pmd_access.specs.Home.{AreOut};
ghost use Rattle.pmd_rx.specs.Acts.{Gathers, GathersAlone};
ghost use Rattle.pmd_rx.specs.Filling.{Fills, StopsFilling};
ghost use Rattle.pmd_rx.specs.Keeping.{Keeps, IsRunning, Posts, blocks_out};
ghost use Rattle.pmd_rx.specs.Plays.{PlaysFrom, LooksInVain};
ghost use Rattle.pmd_rx.specs.Receive.{no_packet, reach, posts_all, CanLend};
ghost use Rattle.pmd_rx.specs.Shown.{IsOneLess, OneMore, refilled, rounds};
ghost use Rattle.pmd_rx.specs.declared.ring.Stage.TheVariants as stage;
ghost use Rattle.pmd_rx.specs.Wrong.{FailsBy, PacketWaits, wanted};
ghost use Rattle.pmd_access.specs.Refusals.{CanFail};

use crate::receive::Look;
use crate::ring::{ReceiveRing, Stage};
use pmd_access::{Arena, Nic, PmdFault};
use std::alloc::Global;
use std::collections::VecDeque;

impl ReceiveRing {
    /// Lends a fresh block from the arena and names it in a descriptor.
    ///
    /// Fails with `NoBuffer` if no block is free, without doing anything.
    fn lend_and_name<N: Nic>(
        &mut self,
        alloc: Global,
        nic: &mut N,
        arena: &mut Arena,
    ) -> Result<(), PmdFault>
        requires stage { CanLend self.old.stage self.old.seen }
        requires room { length (reach self.old).blocks + 1 < self.old.layout.size }
        requires home { AreOut arena.old (blocks_out self.old) }
        ensures asks { Asks N.began N.refuses (fault_in result) nic.old nic.new }
        ensures gathers { Gathers (fault_in result)
            (N.made nic.old) arena.old self.old (N.made nic.new) arena.new self.new }
        ensures named { OnOk result ((n : ℕ) × (is_free arena.old n ≡ true)
            × (arena.new ≡ with_free arena.old n false) × (self.new ≡ refilled self.old n)) }
        ensures none { result ≡ Err PmdFault.NoBuffer → free_count arena.old ≡ 0 }
    {
        match self.lend_fresh(alloc, nic, arena) {
            Ok(()) => self.name_fresh(alloc, nic),
            Err(fault) => Err(fault),
        }
    }
}

impl ReceiveRing {
    /// Looks at a packet's posted slots until it sees the packet's last part. Returns whether it saw the last part.
    ///
    /// Fails with `DeviceFault` if a slot contains something that a healthy queue never writes.
    pub(crate) fn look_whole<N: Nic>(
        &mut self,
        alloc: Global,
        nic: &mut N,
    ) -> Result<bool, PmdFault>
        requires running { IsRunning self.old }
        ensures asks { Asks N.began N.refuses (fault_in result) nic.old nic.new }
        ensures gathers { GathersAlone (fault_in result) (N.made nic.old) self.old (N.made nic.new) self.new }
        ensures none { result ≡ Ok false → self.old.whole ≡ []
            → LooksInVain (N.made nic.old) self.old (N.made nic.new) self.new }
        ensures whole { result ≡ Ok true → PacketWaits self.new.stage }
        ensures kept { self.new ≡ record self.old { seen = self.new.seen; stage = self.new.stage } }
    {
        for _look in 0..self.most_parts() {
            if self.waits() {
                return Ok(true);
            }
            if !self.has_next() {
                return Ok(false);
            }
            match self.look(alloc, nic) {
                Ok(Look::Nothing) => return Ok(false),
                Ok(Look::Part) => {}
                Ok(Look::Wrong) => return Err(PmdFault::DeviceFault),
                Err(fault) => return Err(fault),
            }
        }
        Ok(true)
    }

    /// The maximum number of parts in a packet.
    fn most_parts(&self) -> u16
        ensures { result ≡ self.now.layout.most }
    {
        self.most
    }

    /// Returns whether a packet is waiting: its end was seen, or some of its parts are taken.
    fn waits(&self) -> bool
        ensures yes { result ≡ true → PacketWaits self.now.stage }
        ensures no { result ≡ false → self.now.stage ≡ stage.Looks }
        ensures none { result ≡ false → self.now.held ≡ no_packet }
    {
        match self.stage {
            Stage::Looks => false,
            Stage::Takes | Stage::Owes | Stage::Lent(_) => true,
        }
    }

    /// Returns whether the slot after those already seen is posted.
    fn has_next(&self) -> bool
        ensures yes { result ≡ true → length self.now.seen < length self.now.layout.blocks }
        ensures no { result ≡ false → length self.now.layout.blocks ≤ length self.now.seen }
    {
        self.seen.len() < usize::from(self.posted)
    }

    /// Performs the next step of a refill: takes the next part, unless an earlier call took it, and names a fresh block
    /// in its place. After the step for a packet's last part, the packet is complete.
    fn refill_next<N: Nic>(
        &mut self,
        alloc: Global,
        nic: &mut N,
        arena: &mut Arena,
    ) -> Result<(), PmdFault>
        requires running { IsRunning self.old }
        requires stage { PacketWaits self.old.stage }
        requires home { AreOut arena.old (blocks_out self.old) }
        requires free { wanted self.old ≤ free_count arena.old }
        ensures asks { Asks N.began N.refuses (fault_in result) nic.old nic.new }
        ensures gathers { Gathers (fault_in result)
            (N.made nic.old) arena.old self.old (N.made nic.new) arena.new self.new }
        ensures enough { result ≢ Err PmdFault.NoBuffer }
        ensures more { OnOk result (IsOneLess arena.old self.old arena.new self.new) }
    {
        match self.stage {
            Stage::Looks => unreachable!(),
            Stage::Takes => match self.take_part(alloc, nic) {
                Ok(()) => self.lend_and_name(alloc, nic, arena),
                Err(fault) => Err(fault),
            },
            Stage::Owes => self.lend_and_name(alloc, nic, arena),
            Stage::Lent(_) => self.name_fresh(alloc, nic),
        }
    }

    /// Takes the parts of a packet whose last part was seen, and names fresh blocks in their place. The packet is then
    /// complete.
    ///
    /// Fails with `NoBuffer` if too few blocks are free to replace the parts, without doing anything.
    pub(crate) fn take_whole<N: Nic>(
        &mut self,
        alloc: Global,
        nic: &mut N,
        arena: &mut Arena,
    ) -> Result<(), PmdFault>
        requires running { IsRunning self.old }
        requires stage { PacketWaits self.old.stage }
        requires home { AreOut arena.old (blocks_out self.old) }
        ensures asks { Asks N.began N.refuses (fault_in result) nic.old nic.new }
        ensures gathers { Gathers (fault_in result)
            (N.made nic.old) arena.old self.old (N.made nic.new) arena.new self.new }
        ensures one { OnOk result (OneMore self.old self.new) }
        ensures same { result ≡ Err PmdFault.NoBuffer → self.new ≡ self.old }
    {
        if (arena.free_blocks() as usize) < self.wanted() {
            return Err(PmdFault::NoBuffer);
        }
        for _part in 0..self.rounds() {
            match self.refill_next(alloc, nic, arena) {
                Ok(()) => {}
                Err(fault) => return Err(fault),
            }
        }
        Ok(())
    }

    /// The number of free blocks needed to complete the waiting packet.
    fn wanted(&self) -> usize
        requires { PacketWaits self.now.stage }
        ensures { result ≡ wanted self.now }
    {
        match self.stage {
            Stage::Owes => self.seen.len() + 1,
            _ => self.seen.len(),
        }
    }

    /// The number of fresh blocks that must still be named before the packet is complete.
    fn rounds(&self) -> usize
        ensures { result ≡ rounds self.now }
    {
        match self.stage {
            Stage::Looks | Stage::Takes => self.seen.len(),
            _ => self.seen.len() + 1,
        }
    }
}

impl ReceiveRing {
    /// Posts a fresh block from the arena in the first vacant slot, which hands the block to the device. One slot
    /// always stays vacant.
    ///
    /// Fails with `NoBuffer` if no block is free, without posting one. Fails with `DeviceFault` if the block is already
    /// lent, the ring isn't lent, or the port has no register with the tail's number. Fails with `Call` if a call was
    /// refused. Steps completed before a fault are kept.
    pub fn post<N: Nic>(
        &mut self,
        alloc: Global,
        nic: &mut N,
        arena: &mut Arena,
    ) -> Result<(), PmdFault>
        requires stage { self.old.stage ≡ stage.Looks }
        requires empty { (self.old.seen ≡ []) × (self.old.held ≡ no_packet) }
        requires idle { (self.old.whole ≡ []) × (self.old.named ≡ []) }
        requires room { length self.old.layout.blocks + 1 < self.old.layout.size }
        requires home { AreOut arena.old (blocks_out self.old) }
        ensures plays { PlaysFrom arena.old (N.made nic.old) self.old (N.made nic.new) self.new }
        ensures posted { OnOk result (Posts arena.old self.old arena.new self.new) }
        ensures none { result ≡ Err PmdFault.NoBuffer → free_count arena.old ≡ 0 }
        ensures handed { self.new.handed ≡ self.old.handed }
        ensures fails { IfErr result (λ f.
            FailsBy f (N.made nic.old) arena.old self.old (N.made nic.new) arena.new self.new) }
        ensures keeps { Keeps arena.old self.old arena.new self.new [] }
        ensures began { BeganAs N.began nic.old nic.new }
        ensures refuses { N.refuses nic.new ≡ N.refuses nic.old }
        ensures refusal { IfErr result (λ f. CanFail (N.refuses nic.new) f) }
    {
        match self.lend_and_name(alloc, nic, arena) {
            Ok(()) => self.post_named(alloc, nic),
            Err(fault) => Err(fault),
        }
    }

    /// Advances the tail over all named blocks. The call requires that no packet is waiting.
    fn post_named<N: Nic>(&mut self, alloc: Global, nic: &mut N) -> Result<(), PmdFault>
        requires some { 0 < length self.old.named }
        requires none { (self.old.whole ≡ []) × (self.old.held ≡ no_packet) }
        ensures asks { Asks N.began N.refuses (fault_in result) nic.old nic.new }
        ensures gathers { GathersAlone (fault_in result) (N.made nic.old) self.old (N.made nic.new) self.new }
        ensures moved { OnOk result (self.new ≡ posts_all self.old) }
    {
        let mut none = VecDeque::new(alloc);
        let answer = self.post_all(alloc, nic, &mut none);
        none.destroy_empty();
        answer
    }

    /// Posts fresh blocks from the arena in all slots except one. The call requires that no slot is posted yet.
    ///
    /// It fails for the same reasons as `post`, but with `NoBuffer` only if fewer blocks are free than it must post.
    /// Blocks already posted stay posted.
    pub fn fill<N: Nic>(
        &mut self,
        alloc: Global,
        nic: &mut N,
        arena: &mut Arena,
    ) -> Result<(), PmdFault>
        requires empty { self.old.layout.blocks ≡ [] }
        requires stage { self.old.stage ≡ stage.Looks }
        requires unseen { (self.old.seen ≡ []) × (self.old.held ≡ no_packet) }
        requires idle { (self.old.whole ≡ []) × (self.old.named ≡ []) }
        requires home { AreOut arena.old (blocks_out self.old) }
        ensures plays { PlaysFrom arena.old (N.made nic.old) self.old (N.made nic.new) self.new }
        ensures filled { OnOk result (Fills arena.old self.old arena.new self.new) }
        ensures running { OnOk result (IsRunning self.new) }
        // The list of packets handed out so far is unchanged.
        ensures handed { self.new.handed ≡ self.old.handed }
        ensures fails { IfErr result (λ f.
            StopsFilling f (N.made nic.old) arena.old self.old (N.made nic.new) arena.new self.new) }
        // `NoBuffer` only if fewer blocks are free than it must post.
        ensures short { result ≡ Err PmdFault.NoBuffer → free_count arena.old + 1 < self.old.layout.size }
        ensures keeps { Keeps arena.old self.old arena.new self.new [] }
        ensures began { BeganAs N.began nic.old nic.new }
        ensures refuses { N.refuses nic.new ≡ N.refuses nic.old }
        ensures refusal { IfErr result (λ f. CanFail (N.refuses nic.new) f) }
    {
        let slots = self.spare_slots();
        for _count in 0..slots {
            self.post(alloc, nic, arena)?;
        }
        Ok(())
    }

    /// The number of slots that can be posted: all except one.
    fn spare_slots(&self) -> u16
        ensures all { result + 1 ≡ self.now.layout.size }
        ensures some { (0 < self.now.layout.most) × (self.now.layout.most < self.now.layout.size) }
    {
        self.size - 1
    }
}
