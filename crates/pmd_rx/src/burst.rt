//! Receives packets one at a time, or several with one tail write.

ghost use Rattle.std.specs.Prelude.{ℕ, ◌≡◌, ◌≢◌, ◌<◌, ◌≤◌, ◌+◌, ◌++◌, ◌∷◌, [], length, true, false, Ok, Err, IfOk, IfErr, IfSome, IfNone, OnErr, None};
ghost use Rattle.pmd_access.specs.NicDevice.DmaArena.Numbers.{Numbers};
ghost use Rattle.pmd_access.specs.Asks.{Asks, fault_in};
ghost use Rattle.pmd_access.specs.Begun.{BeganAs};
ghost use Rattle.pmd_access.specs.Home.{AreOut};
ghost use Rattle.pmd_access.specs.Packet.{kept_of};
ghost use Rattle.pmd_rx.specs.Acts.{ActsAlone, Gathers};
ghost use Rattle.pmd_rx.specs.Burst.{IsBurst};
ghost use Rattle.pmd_rx.specs.Keeping.{Keeps, IsRunning, blocks_out, handed_blocks};
ghost use Rattle.pmd_rx.specs.Plays.{PlaysFrom, LooksInVain};
ghost use Rattle.pmd_rx.specs.Shown.{OneMore};
ghost use Rattle.pmd_rx.specs.Wrong.{AsksNext, FailsBy, PacketWaits};
ghost use Rattle.pmd_access.specs.Refusals.{CanFail};

use crate::ring::ReceiveRing;
use pmd_access::{Arena, CallFault, Nic, Packet, PmdFault};
use std::alloc::Global;
use std::collections::VecDeque;

impl ReceiveRing {
    /// Takes the next received packet if the posted slots contain all of it; the packet is then complete. Returns
    /// whether the call took a packet.
    fn take_next<N: Nic>(
        &mut self,
        alloc: Global,
        nic: &mut N,
        arena: &mut Arena,
    ) -> Result<bool, PmdFault>
        requires running { IsRunning self.old }
        requires home { AreOut arena.old (blocks_out self.old) }
        ensures asks { Asks N.began N.refuses (fault_in result) nic.old nic.new }
        ensures gathers { Gathers (fault_in result)
            (N.made nic.old) arena.old self.old (N.made nic.new) arena.new self.new }
        ensures one { result ≡ Ok true → OneMore self.old self.new }
        ensures none { result ≡ Ok false → self.old.whole ≡ []
            → LooksInVain (N.made nic.old) self.old (N.made nic.new) self.new }
        ensures waits { result ≡ Err PmdFault.NoBuffer → PacketWaits self.new.stage }
    {
        match self.look_whole(alloc, nic) {
            Ok(true) => match self.take_whole(alloc, nic, arena) {
                Ok(()) => Ok(true),
                Err(fault) => Err(fault),
            },
            Ok(false) => Ok(false),
            Err(fault) => Err(fault),
        }
    }

    /// Takes at most `most` further packets. Stops early if no packet remains or a call fails; the next call then meets
    /// the same fault.
    fn take_more<N: Nic>(&mut self, alloc: Global, nic: &mut N, arena: &mut Arena, most: u16)
        requires running { IsRunning self.old }
        requires home { AreOut arena.old (blocks_out self.old) }
        ensures asks { Asks N.began N.refuses None nic.old nic.new }
        ensures gathers { Gathers None (N.made nic.old) arena.old self.old (N.made nic.new) arena.new self.new }
    {
        for _packet in 0..most {
            match self.take_next(alloc, nic, arena) {
                Ok(true) => {}
                Ok(false) => return,
                Err(_fault) => return,
            }
        }
    }

    /// If no complete packet is waiting, takes up to `most` packets. Returns whether a complete packet is waiting
    /// afterwards.
    fn gather<N: Nic>(
        &mut self,
        alloc: Global,
        nic: &mut N,
        arena: &mut Arena,
        most: u16,
    ) -> Result<bool, PmdFault>
        requires running { IsRunning self.old }
        requires home { AreOut arena.old (blocks_out self.old) }
        requires some { 0 < most }
        ensures asks { Asks N.began N.refuses (fault_in result) nic.old nic.new }
        ensures gathers { Gathers (fault_in result)
            (N.made nic.old) arena.old self.old (N.made nic.new) arena.new self.new }
        ensures some { result ≡ Ok true → 0 < length self.new.whole }
        ensures none { result ≡ Ok false → LooksInVain (N.made nic.old) self.old (N.made nic.new) self.new }
        ensures waits { result ≡ Err PmdFault.NoBuffer → PacketWaits self.new.stage }
    {
        if self.has_whole() {
            return Ok(true);
        }
        match self.take_next(alloc, nic, arena) {
            Ok(true) => {
                self.take_more(alloc, nic, arena, most - 1);
                Ok(true)
            }
            Ok(false) => Ok(false),
            Err(fault) => Err(fault),
        }
    }

    /// Returns whether the driver keeps a complete packet.
    fn has_whole(&self) -> bool
        ensures yes { result ≡ true → 0 < length self.now.whole }
        ensures no { result ≡ false → self.now.whole ≡ [] }
    {
        !self.whole.is_empty()
    }
}

impl ReceiveRing {
    /// Receives the next packet, in order; fresh blocks from the arena replace the packet's blocks. Returns `None` if
    /// the slot after those already seen isn't done.
    ///
    /// If a refused call left a packet with only some of its parts taken, `receive` finishes only this packet and looks
    /// at no slot. If packets are already complete, because a tail write was refused, `receive` returns the oldest and
    /// only writes the tail. However, the contract doesn't promise that `receive` then looks at no slot, or that it
    /// causes no other event.
    ///
    /// Fails with `NoBuffer` only if a packet is waiting and too few blocks are free to replace its parts. The driver
    /// is then unchanged except for what it has seen and its stage. Fails with `DeviceFault` if a reply is one that a
    /// healthy queue never sends. Fails with `Call` if a call was refused, or if there was no memory to keep what the
    /// driver saw or the packet's record; the driver keeps its position, and the next call continues from there.
    pub fn receive<N: Nic>(
        &mut self,
        alloc: Global,
        nic: &mut N,
        arena: &mut Arena,
    ) -> Result<Option<Packet>, PmdFault>
        requires running { IsRunning self.old }
        requires home { AreOut arena.old (blocks_out self.old) }
        ensures plays { PlaysFrom arena.old (N.made nic.old) self.old (N.made nic.new) self.new }
        ensures some { IfOk result (λ out. IfSome out (λ packet.
            self.new.handed ≡ self.old.handed ++ kept_of packet ∷ [])) }
        ensures none { IfOk result (λ out. IfNone out (
            LooksInVain (N.made nic.old) self.old (N.made nic.new) self.new)) }
        ensures err { OnErr result (self.new.handed ≡ self.old.handed) }
        ensures fails { IfErr result (λ f.
            FailsBy f (N.made nic.old) arena.old self.old (N.made nic.new) arena.new self.new) }
        ensures waits { result ≡ Err PmdFault.NoBuffer → PacketWaits self.new.stage }
        ensures keeps { Keeps arena.old self.old arena.new self.new (handed_blocks result) }
        ensures began { BeganAs N.began nic.old nic.new }
        ensures refuses { N.refuses nic.new ≡ N.refuses nic.old }
        ensures refusal { IfErr result (λ f. CanFail (N.refuses nic.new) f) }
    {
        match self.gather(alloc, nic, arena, 1) {
            Ok(true) => match self.post_one(alloc, nic) {
                Ok(packet) => Ok(Some(packet)),
                Err(fault) => Err(fault),
            },
            Ok(false) => Ok(None),
            Err(fault) => Err(fault),
        }
    }

    /// Receives the next packets in order, up to `most`. Fresh blocks from the arena replace the packets' blocks and
    /// are posted with one tail write. Appends the packets to `out` and returns their number. This number is 0 only if
    /// `most` is 0 or the slot after those already seen isn't done. The contract doesn't specify how many packets, from
    /// 1 to `most`, the call returns. Nor does it promise that one tail write posts all the blocks, or specify when the
    /// call looks at no slot.
    ///
    /// If a slot isn't done, no posted slot remains, or a device call fails, `receive_burst` stops early and returns
    /// the packets received so far; the next call continues from there. If packets are already complete, because a tail
    /// write was refused, it looks at no slot and returns these packets. If more than `most` packets are complete, or
    /// parts of another packet are already taken, it returns only the oldest complete packet.
    ///
    /// `receive_burst` fails for the same reasons as `receive`, and only if it returns no packet; `out` is then
    /// unchanged. It also fails with `Call` if `out` can't grow for the packets; the packets stay complete, and the
    /// next call returns them.
    pub fn receive_burst<N: Nic>(
        &mut self,
        alloc: Global,
        nic: &mut N,
        arena: &mut Arena,
        most: u16,
        out: &mut VecDeque<Packet>,
    ) -> Result<u16, PmdFault>
        requires running { IsRunning self.old }
        requires home { AreOut arena.old (blocks_out self.old) }
        ensures plays { PlaysFrom arena.old (N.made nic.old) self.old (N.made nic.new) self.new }
        ensures out { IsBurst result most arena.old self.old out.old.items arena.new self.new out.new.items }
        ensures none { result ≡ Ok 0 → 0 < most → LooksInVain (N.made nic.old) self.old (N.made nic.new) self.new }
        ensures fails { IfErr result (λ f.
            FailsBy f (N.made nic.old) arena.old self.old (N.made nic.new) arena.new self.new) }
        ensures waits { result ≡ Err PmdFault.NoBuffer → PacketWaits self.new.stage }
        ensures began { BeganAs N.began nic.old nic.new }
        ensures refuses { N.refuses nic.new ≡ N.refuses nic.old }
        ensures refusal { IfErr result (λ f. CanFail (N.refuses nic.new) f) }
    {
        if most == 0 {
            return Ok(0);
        }
        match self.gather(alloc, nic, arena, most) {
            Ok(true) => self.post_most(alloc, nic, most, out),
            Ok(false) => Ok(0),
            Err(fault) => Err(fault),
        }
    }

    /// Appends complete packets to `out` with one tail write, and returns their number. It hands out all of them if
    /// they are at most `most` and no part of another packet is taken. Otherwise it hands out only the oldest.
    ///
    /// Fails with `DeviceFault` if the port has no register with the tail's number. Also fails with `Call` if `out`
    /// can't grow for the packets.
    fn post_most<N: Nic>(
        &mut self,
        alloc: Global,
        nic: &mut N,
        most: u16,
        out: &mut VecDeque<Packet>,
    ) -> Result<u16, PmdFault>
        requires running { IsRunning self.old }
        requires some { 0 < length self.old.whole }
        requires most { 0 < most }
        ensures asks { Asks N.began N.refuses (fault_in result) nic.old nic.new }
        ensures acts { ActsAlone (fault_in result) (N.made nic.old) self.old (N.made nic.new) self.new }
        ensures out { (a : Numbers) → IsBurst result most a self.old out.old.items a self.new out.new.items }
        ensures some { result ≢ Ok 0 }
    {
        let count = self.count_whole();
        if out.reserve(count).is_err() {
            return Err(PmdFault::Call(CallFault::OutOfMemory(())));
        }
        if self.holds_part() || count > usize::from(most) {
            return match self.post_one(alloc, nic) {
                Ok(packet) => {
                    out.push_back_reserved(packet);
                    Ok(1)
                }
                Err(fault) => Err(fault),
            };
        }
        match self.post_all(alloc, nic, out) {
            Ok(()) => Ok(count as u16),
            Err(fault) => Err(fault),
        }
    }

    /// The number of complete packets.
    fn count_whole(&self) -> usize
        ensures count { result ≡ length self.now.whole }
        ensures named { 0 < result → 0 < length self.now.named }
        ensures asks { (a : Numbers) → 0 < result → AsksNext a self.now }
    {
        self.whole.len()
    }

    /// Returns whether the driver holds part of a packet.
    fn holds_part(&self) -> bool
        ensures { result ≡ false → length self.now.held.bufs ≡ 0 }
    {
        self.held.bufs.count() > 0
    }
}
