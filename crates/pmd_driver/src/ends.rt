//! The two halves of a driver that isn't running.

ghost use Rattle.std.specs.Prelude.{◌≡◌, ◌<◌, ◌↔◌, ◌++◌, true, None, IfOk, IfErr, OnOk, OnErr};
ghost use Rattle.pmd_access.specs.NicDevice.DmaArena.Whereabouts.{times_in_hand};
ghost use Rattle.pmd_access.specs.Home.{AreOut};
ghost use Rattle.pmd_access.specs.Bufs.{with_all_free};
ghost use Rattle.pmd_driver.specs.Ends.{received_way, held_of, handed_of, sent_way, waiting_of, accepted_of};

use pmd_access::{Arena, Reclaim, Record, give_bufs};
use pmd_rx::ReceiveRing;
use pmd_tx::TransmitRing;
use std::alloc::Global;

/// The receive half: its ring, or the ring's blocks that are being returned and the records of the packets handed out.
/// The second form is for a ring that is closed or was never created.
pub(crate) enum Receiving {
    Ring(ReceiveRing),
    Leaves(Reclaim, Vec<Record>),
}

/// The transmit half: its ring, or the ring's blocks that are being returned and the records of the packets accepted.
/// The second form is for a ring that is closed or was never created.
pub(crate) enum Sending {
    Ring(TransmitRing),
    Leaves(Reclaim, Vec<Record>),
}

impl Receiving {
    /// Returns the records of the packets handed out so far, oldest first.
    pub(crate) fn handed(&self) -> &[Record]
        ensures { result.now ≡ handed_of self.now }
    {
        match self {
            Receiving::Ring(ring) => ring.handed(),
            Receiving::Leaves(_, handed) => handed.as_slice(),
        }
    }

    /// Returns whether this half still has the block with this number in use.
    pub(crate) fn has(&self, block: u32) -> bool
        ensures { (result ≡ true) ↔
            (0 < times_in_hand ((received_way self.now).lent ++ held_of self.now) block) }
    {
        match self {
            Receiving::Ring(ring) => ring.has(block),
            Receiving::Leaves(way, _) => way.has(block),
        }
    }

    /// Closes the ring, if it isn't closed yet. The blocks of packets that the ring hasn't handed out yet return to the
    /// arena.
    pub(crate) fn close(self, arena: &mut Arena) -> Result<(Reclaim, Vec<Record>), Receiving>
        requires { AreOut arena.old ((received_way self).lent ++ held_of self) }
        ensures way { IfOk result (λ ends. ends.0 ≡ received_way self) }
        ensures records { IfOk result (λ ends. ends.1.items ≡ handed_of self) }
        ensures home { OnOk result (arena.new ≡ with_all_free arena.old (held_of self)) }
        ensures back { IfErr result (λ half. half ≡ self) }
        ensures kept { OnErr result (arena.new ≡ arena.old) }
    {
        match self {
            Receiving::Ring(ring) => match ring.close(arena) {
                Ok(ends) => Ok(ends),
                Err(ring) => Err(Receiving::Ring(ring)),
            },
            Receiving::Leaves(way, handed) => Ok((way, handed)),
        }
    }
}

impl Sending {
    /// Returns the records of the packets accepted so far, oldest first.
    pub(crate) fn accepted(&self) -> &[Record]
        ensures { result.now ≡ accepted_of self.now }
    {
        match self {
            Sending::Ring(ring) => ring.accepted(),
            Sending::Leaves(_, accepted) => accepted.as_slice(),
        }
    }

    /// Returns whether this half still has the block with this number in use.
    pub(crate) fn has(&self, block: u32) -> bool
        ensures { (result ≡ true) ↔
            (0 < times_in_hand ((sent_way self.now).lent ++ waiting_of self.now) block) }
    {
        match self {
            Sending::Ring(ring) => ring.keeps(block),
            Sending::Leaves(way, _) => way.has(block),
        }
    }

    /// Closes the ring, if it isn't closed yet. The blocks of segments that still wait to be lent return to the arena.
    pub(crate) fn close(
        self,
        alloc: Global,
        arena: &mut Arena,
    ) -> Result<(Reclaim, Vec<Record>), Sending>
        requires { AreOut arena.old (waiting_of self) }
        ensures way { IfOk result (λ ends. ends.0 ≡ sent_way self) }
        ensures records { IfOk result (λ ends. ends.1.items ≡ accepted_of self) }
        ensures home { OnOk result (arena.new ≡ with_all_free arena.old (waiting_of self)) }
        ensures back { IfErr result (λ half. half ≡ self) }
        ensures kept { OnErr result (arena.new ≡ arena.old) }
    {
        match self {
            Sending::Ring(ring) => match ring.close(alloc) {
                Ok((way, waiting, accepted)) => {
                    give_bufs(arena, waiting);
                    Ok((way, accepted))
                }
                Err(ring) => Err(Sending::Ring(ring)),
            },
            Sending::Leaves(way, accepted) => Ok((way, accepted)),
        }
    }
}
