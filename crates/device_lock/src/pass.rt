ghost use Rattle.std.specs.Prelude.{◌≡◌, ◌≢◌, ◌<◌, true, Err, IfOk, IfErr, OnOk, OnErr, length};
ghost use Rattle.nic_device.specs.Answering.{may_answer};
ghost use Rattle.nic_device.specs.Step.{step_of};
ghost use Rattle.device_lock.specs.Fault.{event_of};
ghost use Rattle.device_lock.specs.Kept.{after_call, IsLed};
ghost use Rattle.device_lock.specs.Pass.{fresh_pass, with_call};

use crate::calls::Calls;
use crate::fault::CallFault;
use crate::locked::Locked;
use nic_device::{Event, Reply};
use std::alloc::Global;
use std::marker::Model;

/// A caller's right to use a shared device, with the calls that the caller has made.
#[derive(Drop)]
pub struct Pass {
    bench: u64,
    pub(crate) tag: u8,
    pub(crate) calls: Calls,
}

impl Model for Pass {
    ghost use Rattle.device_lock.specs.Pass.{PassValue};

    ghost Value = { PassValue };

    ghost view = { λ p. record { bench = p.bench; tag = p.tag; calls = p.calls } };
}

impl Pass {
    /// Creates a pass without calls.
    pub(crate) fn new(alloc: Global, bench: u64, tag: u8) -> Pass
        ensures { result ≡ fresh_pass bench tag }
    {
        Pass {
            bench,
            tag,
            calls: Calls::new(alloc),
        }
    }

    /// Returns the number of the bench that the pass belongs to.
    pub fn bench(&self) -> u64
        ensures { result ≡ self.now.bench }
    {
        self.bench
    }

    /// Returns the pass's tag. The passes from `Shared::new` have tags below 64.
    pub fn tag(&self) -> u8
        ensures { result ≡ self.now.tag }
    {
        self.tag
    }

    /// Returns the calls made by the pass, with their replies, oldest first.
    pub fn calls(&self) -> &Calls
        ensures { result.now ≡ self.now.calls }
    {
        &self.calls
    }

    /// Applies one event under the lock with the pass's tag, and records its call in the pass.
    ///
    /// Fails with `HistoryFull` only if the history is at its limit; any other error is `OutOfMemory`. Both errors
    /// return the event and change nothing.
    pub(crate) fn call<const VFS: u8, const FIFO: u16>(
        &mut self,
        alloc: Global,
        locked: &mut Locked<VFS, FIFO>,
        event: Event,
    ) -> Result<Reply, CallFault>
        requires { self.old.tag < 64 }
        ensures led { IsLed VFS FIFO locked.old }
        ensures reply { IfOk result (λ reply. reply ≡ (step_of locked.old.device event).reply) }
        ensures fits { IfOk result (λ reply. may_answer event reply ≡ true) }
        ensures made { OnOk result (locked.new ≡ after_call locked.old self.old.tag event) }
        ensures noted { IfOk result (λ reply. self.new ≡ with_call self.old event reply) }
        ensures own { result ≢ Err (CallFault.ForeignPass event) }
        ensures full { result ≡ Err (CallFault.HistoryFull event)
            → length locked.old.history ≡ locked.old.limit }
        ensures back { IfErr result (λ fault. event_of fault ≡ event) }
        ensures unchanged { OnErr result ((locked.new ≡ locked.old) × (self.new ≡ self.old)) }
    {
        self.calls.make_locked(alloc, locked, self.tag, event)
    }
}
