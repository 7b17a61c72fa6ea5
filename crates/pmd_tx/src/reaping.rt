//! Frees the blocks of sent packets.

ghost use Rattle.std.specs.Prelude.{[], ◌≡◌, ◌≢◌, ◌<◌, ◌↔◌, ℕ, List, None, length, true, false, Ok, IsTrue, IfOk, IfErr, OnErr};
ghost use Rattle.pmd_access.specs.Begun.{BeganAs};
ghost use Rattle.pmd_access.specs.Home.{AreOut};
ghost use Rattle.pmd_access.specs.Asks.{Asks, fault_in};
ghost use Rattle.pmd_tx.specs.Acts.{Continues, HasReaped, packets_reaped, parts_reaped};
ghost use Rattle.pmd_tx.specs.Plays.{PlaysWith, LooksLast, FaultsBy};
ghost use Rattle.pmd_tx.specs.Sending.{blocks_of};
ghost use Rattle.pmd_tx.specs.Sends.{FreesSome, IsLate};
ghost use Rattle.pmd_access.specs.Refusals.{CanFail};

use crate::answer::Reaped;
use crate::ring::TransmitRing;
use pmd_access::{Arena, Nic, PmdFault};
use std::alloc::Global;

impl TransmitRing {
    /// Frees the blocks of sent packets, oldest first. Before that, the call continues with the packets that have
    /// waited since earlier calls, as `flush` does. If the call returns without a fault, its clauses promise two
    /// things: the tail has passed the freed packets, and it has passed the oldest remaining packet.
    ///
    /// Fails with `DeviceFault` if the device sends a reply that a healthy queue can't send, or with `Call` if a call
    /// was refused. Blocks already freed stay free.
    pub fn reap<N: Nic>(
        &mut self,
        alloc: Global,
        nic: &mut N,
        arena: &mut Arena,
    ) -> Result<Reaped, PmdFault>
        requires { AreOut arena.old (blocks_of self.old.outstanding) }
        // Even if `reap` fails, the device calls that it makes are the ring's moves, in order, with device steps in
        // between.
        ensures plays { (blocks : List ℕ) → PlaysWith blocks (N.made nic.old) self.old (N.made nic.new) self.new }
        // `idle` is set exactly if no packet is outstanding.
        ensures idle { IfOk result (λ done. IsTrue done.idle ↔ (self.new.outstanding ≡ [])) }
        // If `idle` isn't set, the last device call showed that the oldest packet isn't done.
        ensures waits { IfOk result (λ done.
            done.idle ≡ false → LooksLast (N.made nic.old) self.old (N.made nic.new) self.new) }
        ensures freed { IfOk result (λ done. FreesSome self.old self.new arena.old arena.new done.freed) }
        // Before a fault, the call may already have freed the blocks of some packets.
        ensures some { OnErr result ((packets : ℕ) × FreesSome self.old self.new arena.old arena.new packets) }
        ensures out { AreOut arena.new (blocks_of self.new.outstanding) }
        ensures accepted { self.new.accepted ≡ self.old.accepted }
        // In the ring's layout, only `next` changes: the slot of the oldest outstanding segment.
        ensures layout { self.new.layout ≡ record self.old.layout { next = self.new.layout.next } }
        ensures late { IfErr result (λ fault. IsLate fault) }
        // After `DeviceFault`, the last device call was a move of the driver, and the reply to it is one that a healthy
        // queue never sends. After `Call`, the refused event is a move that the driver may make next.
        ensures faults { (blocks : List ℕ) → IfErr result (λ fault.
            FaultsBy fault blocks (N.made nic.old) self.old (N.made nic.new)) }
        ensures began { BeganAs N.began nic.old nic.new }
        ensures refuses { N.refuses nic.new ≡ N.refuses nic.old }
        ensures refusal { IfErr result (λ f. CanFail (N.refuses nic.new) f) }
    {
        match self.flush(alloc, nic) {
            Ok(()) => {}
            Err(fault) => return Err(fault),
        }
        let mut freed = 0;
        for _reaped in 0..self.count() {
            match self.reap_oldest(alloc, nic, arena) {
                Ok(Some(end)) => freed += u16::from(end),
                Ok(None) => return Ok(Reaped { freed, idle: false }),
                Err(fault) => return Err(fault),
            }
        }
        Ok(Reaped { freed, idle: true })
    }
}

impl TransmitRing {
    /// Frees the block of the oldest segment, if its packet was sent, and returns whether the segment ends its packet.
    /// Returns `None` if the packet isn't done.
    fn reap_oldest<N: Nic>(
        &mut self,
        alloc: Global,
        nic: &mut N,
        arena: &mut Arena,
    ) -> Result<Option<bool>, PmdFault>
        requires some { 0 < length self.old.outstanding }
        requires settled { self.old.posted ≡ length self.old.outstanding }
        requires out { AreOut arena.old (blocks_of self.old.outstanding) }
        ensures asks { Asks N.began N.refuses (fault_in result) nic.old nic.new }
        ensures reaped { HasReaped (fault_in result) (N.made nic.old) self.old arena.old (N.made nic.new) self.new
            arena.new (parts_reaped result) (packets_reaped result) }
        ensures waits { result ≡ Ok None → LooksLast (N.made nic.old) self.old (N.made nic.new) self.new }
    {
        match self.see_oldest(alloc, nic) {
            Ok(true) => self.free_oldest(alloc, nic, arena),
            Ok(false) => Ok(None),
            Err(fault) => Err(fault),
        }
    }

    /// Returns whether the oldest packet's segments are done. Unless they are known to be done, it reads the descriptor
    /// that ends the packet.
    fn see_oldest<N: Nic>(&mut self, alloc: Global, nic: &mut N) -> Result<bool, PmdFault>
        requires some { 0 < length self.old.outstanding }
        requires settled { self.old.posted ≡ length self.old.outstanding }
        ensures asks { Asks N.began N.refuses (fault_in result) nic.old nic.new }
        ensures continues { Continues (fault_in result) (N.made nic.old) self.old (N.made nic.new) self.new }
        ensures done { result ≡ Ok true → 0 < self.new.done }
        ensures waits { result ≡ Ok false → LooksLast (N.made nic.old) self.old (N.made nic.new) self.new }
        ensures kept { self.new ≡ record self.old { done = self.new.done } }
    {
        if self.has_done() {
            return Ok(true);
        }
        self.look(alloc, nic)
    }

    /// Takes the block of the oldest segment, which is known to be done, and frees it. Returns whether the segment ends
    /// its packet.
    fn free_oldest<N: Nic>(
        &mut self,
        alloc: Global,
        nic: &mut N,
        arena: &mut Arena,
    ) -> Result<Option<bool>, PmdFault>
        requires done { 0 < self.old.done }
        requires some { 0 < length self.old.outstanding }
        requires settled { self.old.posted ≡ length self.old.outstanding }
        requires out { AreOut arena.old (blocks_of self.old.outstanding) }
        ensures asks { Asks N.began N.refuses (fault_in result) nic.old nic.new }
        ensures reaped { HasReaped (fault_in result) (N.made nic.old) self.old arena.old (N.made nic.new) self.new
            arena.new (parts_reaped result) (packets_reaped result) }
        ensures some { result ≢ Ok None }
    {
        let end = self.oldest_ends();
        match self.take_oldest(alloc, nic) {
            Ok(buf) => {
                arena.give_back(buf);
                Ok(Some(end))
            }
            Err(fault) => Err(fault),
        }
    }
}
