ghost use Rattle.std.specs.Prelude.{◌≡◌, ◌≢◌, ◌≤◌, ◌↔◌, ℕ, IsTrue, IsErrAnd, IfOk, IfErr, OnOk, None, Some};
ghost use Rattle.nic_device.specs.State.{new_state};
ghost use Rattle.device_lock.specs.Alone.{LeavesAlone};
ghost use Rattle.device_lock.specs.Closing.{Answers, AreAll, Closes, Differs, IsMissing, IsSurplus};
ghost use Rattle.device_lock.specs.History.{leads_to, IsLegal, AreEvents, AllBelow};
ghost use Rattle.device_lock.specs.Positions.{positions_of};

use crate::alone::{Watched, left_alone};
use crate::compare::{are_all, lowest_mismatch, lowest_missing};
use crate::entry::Entry;
use crate::fault::CloseFault;
use crate::locked::Locked;
use crate::pass::Pass;
use crate::positions::positions;
use crate::shared::{CloseRefused, Shared};
use crate::unlocked::Unlocked;
use nic_device::Device;
use std::alloc::{AllocError, Global};
use std::marker::Model;
use std::sync::Mutex;

/// A device that was shared, with the history of its calls. Each tag in the history is below the number of passes. A
/// `Closed` can't be dropped; you must take the device out.
pub struct Closed<const VFS: u8, const FIFO: u16> {
    unlocked: Unlocked<VFS, FIFO>,
    passes: u8,
}

impl<const VFS: u8, const FIFO: u16> Model for Closed<VFS, FIFO> {
    ghost use Rattle.std.specs.Coded.{codes};
    ghost use Rattle.nic_device.specs.State.{state_code};
    ghost use Rattle.device_lock.specs.Closing.{ClosedValue};
    ghost use Rattle.device_lock.specs.History.{AllBelow};

    ghost Value = { ClosedValue };

    ghost coded = { Prim.hlevel (codes, state_code) };

    ghost view = { λ c. record { device = c.unlocked.device; history = c.unlocked.history; passes = c.passes } };

    ghost invariant = { λ c. AllBelow c.passes c.unlocked.history };
}

impl<const VFS: u8, const FIFO: u16> Closed<VFS, FIFO> {
    /// Returns all calls, oldest first. The history is legal from a new device and leads to the state of the device
    /// stored here. Each call belongs to a pass. Each event is one that a driver can cause.
    pub fn history(&self) -> &[Entry]
        ensures entries { result.now ≡ self.now.history }
        ensures legal { IsLegal (new_state VFS FIFO) self.now.history }
        ensures leads { leads_to (new_state VFS FIFO) self.now.history ≡ self.now.device }
        ensures events { AreEvents self.now.history }
        ensures below { AllBelow self.now.passes self.now.history }
    {
        self.unlocked.history()
    }

    /// Returns the positions, in the history, of the calls made by the pass with this tag. The history's first call is
    /// at position 0.
    pub fn of_pass(&self, alloc: Global, tag: u8) -> Result<Vec<usize>, AllocError>
        ensures { IfOk result (λ places. places.items ≡ positions_of tag self.now.history) }
    {
        positions(alloc, self.unlocked.history(), tag)
    }

    /// Returns whether the history leaves a queue of the device alone. `pass` is the tag of the pass that the queue's
    /// driver has. The function `left_alone` gives the definition. This call never blocks and allocates nothing.
    pub fn left_alone(&self, pass: u8, queue: u16) -> bool
        ensures { IsTrue result ↔ LeavesAlone (record { vfs = VFS; pass = pass; queue = queue }) self.now.history }
    {
        let watched = Watched {
            vfs: VFS,
            pass,
            queue,
        };
        left_alone(watched, self.unlocked.history())
    }

    /// Returns the device, in the state that the history leads to.
    pub fn into_device(self) -> Device
        ensures { result ≡ self.entry.device }
    {
        let Closed {
            unlocked,
            passes: _,
        } = self;
        unlocked.into_device()
    }
}

impl<const VFS: u8, const FIFO: u16> Unlocked<VFS, FIFO> {
    /// Returns why these passes don't close the history, or `None` if they do. The bench has this number and `count`
    /// passes, at most 64.
    ///
    /// The first of these reasons that applies is returned. `MissingPass` contains the lowest tag that no pass of the
    /// bench has. `ForeignPass` means that a pass belongs to another bench, has a tag that isn't one of this bench's,
    /// or has the tag of another pass. `Mismatch` contains the lowest tag for which the entries aren't the calls of its
    /// pass in order, or which has entries but no pass.
    pub fn refusal(&self, bench: u64, count: u8, passes: &[Pass]) -> Option<CloseFault>
        requires { count ≤ 64 }
        ensures answers { Answers bench count self.now.history passes.now result }
        ensures legal { IsLegal (new_state VFS FIFO) self.now.history }
    {
        let history = self.history();
        if let Some(tag) = lowest_missing(bench, count, passes) {
            return Some(CloseFault::MissingPass(tag));
        }
        if !are_all(bench, count, passes) {
            return Some(CloseFault::ForeignPass);
        }
        if let Some(tag) = lowest_mismatch(history, self.counts(), passes) {
            return Some(CloseFault::Mismatch(tag));
        }
        None
    }
}

impl<const VFS: u8, const FIFO: u16> Locked<VFS, FIFO> {
    /// Closes the device and history that were under a lock, for the bench with this number and `count` passes, at most
    /// 64.
    ///
    /// If these passes don't close the history, returns the reason, as `Unlocked::refusal` does, together with the same
    /// device, history and limit.
    pub fn close(
        self,
        bench: u64,
        count: u8,
        passes: &[Pass],
    ) -> Result<Closed<VFS, FIFO>, (CloseFault, Self)>
        requires { count ≤ 64 }
        ensures closes { OnOk result (Answers bench count self.entry.history passes.now None) }
        ensures refused { IfErr result (λ refused.
            Answers bench count self.entry.history passes.now (Some refused.0)) }
        ensures closed { IfOk result (λ closed. closed ≡ record {
          device = self.entry.device;
          history = self.entry.history;
          passes = count;
        }) }
        ensures kept { IfErr result (λ refused. refused.1 ≡ self.entry) }
        ensures legal { IsLegal (new_state VFS FIFO) self.entry.history }
    {
        let unlocked = self.unlock();
        match unlocked.refusal(bench, count, passes) {
            None => Ok(Closed {
                unlocked,
                passes: count,
            }),
            Some(fault) => Err((fault, unlocked.lock())),
        }
    }
}

impl<const VFS: u8, const FIFO: u16> Shared<VFS, FIFO> {
    /// Closes a shared device with its passes. It never blocks.
    ///
    /// Fails with `MissingPass` if and only if a tag is missing, that is, no pass of this bench has the tag. The error
    /// contains the lowest missing tag. If no tag is missing, fails with `ForeignPass` if and only if a pass is
    /// surplus. A surplus pass belongs to another bench, has a tag that isn't one of this bench's, or has another
    /// pass's tag. Any other error is `Mismatch`. It contains the lowest tag for which, in some legal history, the
    /// entries aren't the calls of its pass. Each error returns the shared device and the passes.
    pub fn close(self, passes: Vec<Pass>) -> Result<Closed<VFS, FIFO>, CloseRefused<VFS, FIFO>>
        ensures closed { IfOk result
            (λ closed. Closes self.entry.bench self.entry.passes closed.history passes.items) }
        ensures count { IfOk result (λ closed. closed.passes ≡ self.entry.passes) }
        ensures missing { (tag : ℕ) → IsErrAnd result (λ refused. refused.fault ≡ CloseFault.MissingPass tag)
            ↔ IsMissing self.entry.bench self.entry.passes passes.items tag }
        ensures foreign { IsErrAnd result (λ refused. refused.fault ≡ CloseFault.ForeignPass)
            ↔ IsSurplus self.entry.bench self.entry.passes passes.items }
        // In some legal history, this is the lowest tag for which the entries aren't the calls of its pass, or which
        // has entries but no pass.
        ensures mismatch { (tag : ℕ) → IsErrAnd result (λ refused. refused.fault ≡ CloseFault.Mismatch tag)
            → AreAll self.entry.bench self.entry.passes passes.items × Differs VFS FIFO passes.items tag }
        // Closing never fails for lack of memory.
        ensures memory { IfErr result (λ refused. refused.fault ≢ CloseFault.OutOfMemory) }
        // The shared device is unchanged. No clause says what is under the lock.
        ensures shared { IfErr result (λ refused. refused.shared ≡ self.entry) }
        ensures passes { IfErr result (λ refused. refused.passes.items ≡ passes.items) }
    {
        let Shared {
            lock,
            bench,
            passes: count,
        } = self;
        match lock.into_inner().close(bench, count, passes.as_slice()) {
            Ok(closed) => Ok(closed),
            Err((fault, locked)) => Err(CloseRefused {
                fault,
                shared: Shared {
                    lock: Mutex::new(locked),
                    bench,
                    passes: count,
                },
                passes,
            }),
        }
    }
}
