//! Blocks that are being returned to the arena that they were taken from.

ghost use Rattle.std.specs.Prelude.{◌≡◌, ◌<◌, ◌+◌, ◌++◌, ◌∷◌, [], length, ◌↔◌, true, OnOk, OnErr, IfErr};
ghost use Rattle.device_lock.specs.NicDevice.DmaArena.Whereabouts.{times_in_hand};
ghost use Rattle.pmd_access.specs.Begun.{BeganAs};
ghost use Rattle.pmd_access.specs.Home.{AreOut, BringsOne, BringsAll, StopsBringing};
ghost use Rattle.pmd_access.specs.Made.{AddsSome};
ghost use Rattle.pmd_access.specs.Refusals.{CanRefuse};

use crate::accesses::take;
use crate::nic::Nic;
use device_lock::{Arena, CallFault};
use std::alloc::{AllocError, Global};
use std::collections::VecDeque;
use std::marker::Model;

/// Blocks that are being returned to their arena: the numbers of the blocks still lent, and a count of the blocks that
/// the device no longer had.
#[derive(Debug, Drop)]
pub struct Reclaim {
    lent: VecDeque<u32>,
    lost: u32,
}

impl Model for Reclaim {
    ghost use Rattle.std.specs.Prelude.{◌+◌, ◌<◌, length};
    ghost use Rattle.pmd_access.specs.Home.{Homebound};

    ghost Value = { Homebound };

    ghost view = { λ h. record { lent = h.lent.items; lost = h.lost } };

    ghost invariant = { λ h. h.lost + length h.lent.items < 4294967296 };
}

impl Reclaim {
    /// Creates a `Reclaim` with no blocks to return and no lost blocks.
    pub fn new(alloc: Global) -> Reclaim
        ensures { result ≡ record { lent = []; lost = 0 } }
    {
        Reclaim {
            lent: VecDeque::new(alloc),
            lost: 0,
        }
    }

    /// Creates a `Reclaim` from the numbers of lent blocks, fewer than 2^32.
    pub fn of(lent: VecDeque<u32>) -> Reclaim
        requires { length lent.items < 4294967296 }
        ensures { result ≡ record { lent = lent.items; lost = 0 } }
    {
        Reclaim { lent, lost: 0 }
    }

    /// Adds the number of a lent block. If there is no memory, adds nothing.
    pub fn add(&mut self, block: u32) -> Result<(), AllocError>
        requires { self.old.lost + length self.old.lent + 1 < 4294967296 }
        ensures added { OnOk result (self.new ≡ record self.old { lent = self.old.lent ++ block ∷ [] }) }
        ensures kept { OnErr result (self.new ≡ self.old) }
    {
        self.lent.reserve(1)?;
        self.lent.push_back_reserved(block);
        Ok(())
    }

    /// Returns whether the block with this number is still to be returned.
    pub fn has(&self, block: u32) -> bool
        ensures { (result ≡ true) ↔ (0 < times_in_hand self.now.lent block) }
    {
        self.lent.iter().filter(|lent| **lent == block).count() > 0
    }

    /// Returns the number of blocks that the device no longer had when the driver tried to take them back.
    pub fn lost(&self) -> u32
        ensures { result ≡ self.now.lost }
    {
        self.lost
    }

    /// Takes the blocks back in order and returns them to the arena. A block that the device no longer has counts as
    /// lost.
    ///
    /// If a call is refused, the `Reclaim` keeps the remaining blocks, so you can try again.
    pub fn bring<N: Nic>(
        &mut self,
        alloc: Global,
        nic: &mut N,
        arena: &mut Arena,
    ) -> Result<(), CallFault<()>>
        requires { AreOut arena.old self.old.lent }
        ensures all { OnOk result (BringsAll
            (record { made = N.made nic.old; arena = arena.old; way = self.old })
            (record { made = N.made nic.new; arena = arena.new; way = self.new })) }
        ensures stopped { OnErr result (StopsBringing
            (record { made = N.made nic.old; arena = arena.old; way = self.old })
            (record { made = N.made nic.new; arena = arena.new; way = self.new })) }
        ensures out { AreOut arena.new self.new.lent }
        ensures began { BeganAs N.began nic.old nic.new }
        ensures refuses { N.refuses nic.new ≡ N.refuses nic.old }
        ensures refusal { IfErr result (λ refusal. CanRefuse (N.refuses nic.new) refusal) }
    {
        for _count in 0..self.waiting() {
            self.bring_one(alloc, nic, arena)?;
        }
        Ok(())
    }

    /// Returns the number of blocks still to be returned.
    fn waiting(&self) -> usize
        ensures { result ≡ length self.now.lent }
    {
        self.lent.len()
    }

    /// Takes the first of the remaining blocks back from the device and returns it to the arena, or counts it as lost.
    fn bring_one<N: Nic>(
        &mut self,
        alloc: Global,
        nic: &mut N,
        arena: &mut Arena,
    ) -> Result<(), CallFault<()>>
        requires some { 0 < length self.old.lent }
        requires out { AreOut arena.old self.old.lent }
        ensures one { OnOk result (BringsOne
            (record { made = N.made nic.old; arena = arena.old; way = self.old })
            (record { made = N.made nic.new; arena = arena.new; way = self.new })) }
        ensures out { AreOut arena.new self.new.lent }
        ensures same { OnErr result ((self.new ≡ self.old) × (arena.new ≡ arena.old)) }
        ensures refused { OnErr result (AddsSome (N.made nic.old) (N.made nic.new)) }
        ensures began { BeganAs N.began nic.old nic.new }
        ensures refuses { N.refuses nic.new ≡ N.refuses nic.old }
        ensures refusal { IfErr result (λ refusal. CanRefuse (N.refuses nic.new) refusal) }
    {
        let block = self.lent[0];
        match take(alloc, nic, block)? {
            Some(buf) => arena.give_back(buf),
            None => self.lost += 1,
        }
        let _brought = self.lent.pop_front();
        Ok(())
    }
}
