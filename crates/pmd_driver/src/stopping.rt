//! A driver whose rings are closed and whose blocks are being returned.

ghost use Rattle.std.specs.Prelude.{◌++◌, IfOk, IfErr, OnOk, OnErr};
ghost use Rattle.pmd_access.specs.Home.{AreOut, BringsAll, StopsBringing};
ghost use Rattle.pmd_access.specs.Asks.{Asks};
ghost use Rattle.pmd_driver.specs.Faults.{called_in, stopped_in};
ghost use Rattle.pmd_driver.specs.Halted.{IsHalted};
ghost use Rattle.pmd_driver.specs.Leaving.{leaving_as, bringing_both};
ghost use Rattle.pmd_driver.specs.Stopping.{ComesHome, GoesHome, IsLeft, IsLeftDuring};

use crate::halted::Halted;
use crate::home::{Home, StopFailed};
use pmd_access::{Arena, CallFault, Nic, PmdFault, Queue, Reclaim, Record};
use std::alloc::Global;

/// A driver with closed rings, whose blocks are being returned to the arena.
pub(crate) struct Leaving {
    pub(crate) arena: Arena,
    pub(crate) receive: Reclaim,
    pub(crate) transmit: Reclaim,
    pub(crate) handed: Vec<Record>,
    pub(crate) accepted: Vec<Record>,
}

impl Leaving {
    /// Disables both sides of the queue and returns the blocks to the arena.
    pub(crate) fn go_home<N: Nic>(
        self,
        alloc: Global,
        nic: &mut N,
        queue: &Queue,
    ) -> Result<Home, StopFailed>
        requires { IsHalted (leaving_as self) }
        ensures asks { Asks N.began N.refuses (stopped_in result) nic.old nic.new }
        ensures home { IfOk result (λ home.
            GoesHome queue.now (N.made nic.old) (leaving_as self) (N.made nic.new) home) }
        ensures failed { IfErr result (λ failed.
            IsLeft failed.fault queue.now (N.made nic.old) (leaving_as self) (N.made nic.new) failed.halted) }
    {
        match queue.switch_both(alloc, nic, false) {
            Ok(()) => self.bring(alloc, nic),
            Err(fault) => Err(StopFailed {
                fault,
                halted: Halted::of_leaving(self),
            }),
        }
    }

    /// Returns the blocks to the arena.
    fn bring<N: Nic>(self, alloc: Global, nic: &mut N) -> Result<Home, StopFailed>
        requires { IsHalted (leaving_as self) }
        ensures asks { Asks N.began N.refuses (stopped_in result) nic.old nic.new }
        ensures home { IfOk result (λ home. ComesHome (N.made nic.old) (leaving_as self) (N.made nic.new) home) }
        ensures failed { IfErr result (λ failed.
            IsLeftDuring failed.fault (N.made nic.old) (leaving_as self) (N.made nic.new) failed.halted) }
    {
        let Leaving {
            arena,
            receive,
            transmit,
            handed,
            accepted,
        } = self;
        let mut arena = arena;
        let mut receive = receive;
        let mut transmit = transmit;
        match bring_both(alloc, nic, &mut arena, &mut receive, &mut transmit) {
            Ok(()) => Ok(Home {
                arena,
                lost: receive.lost() + transmit.lost(),
                handed,
                accepted,
            }),
            Err(fault) => Err(StopFailed {
                fault: PmdFault::Call(fault),
                halted: Halted::of_leaving(Leaving {
                    arena,
                    receive,
                    transmit,
                    handed,
                    accepted,
                }),
            }),
        }
    }
}

/// Returns the blocks of both rings to the arena, starting with the first ring's.
fn bring_both<N: Nic>(
    alloc: Global,
    nic: &mut N,
    arena: &mut Arena,
    first: &mut Reclaim,
    second: &mut Reclaim,
) -> Result<(), CallFault<()>>
    requires { AreOut arena.old (first.old.lent ++ second.old.lent) }
    ensures asks { Asks N.began N.refuses (called_in result) nic.old nic.new }
    ensures all { OnOk result (BringsAll
        (bringing_both (N.made nic.old) arena.old first.old second.old)
        (bringing_both (N.made nic.new) arena.new first.new second.new)) }
    ensures stopped { OnErr result (StopsBringing
        (bringing_both (N.made nic.old) arena.old first.old second.old)
        (bringing_both (N.made nic.new) arena.new first.new second.new)) }
{
    match first.bring(alloc, nic, arena) {
        Ok(()) => second.bring(alloc, nic, arena),
        Err(fault) => Err(fault),
    }
}
