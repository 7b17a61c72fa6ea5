ghost use Rattle.std.specs.Prelude.{◌≡◌, ◌↔◌, [], ◌∷◌, true, IsTrue, Err, IfOk, IfErr, OnOk, OnErr};
ghost use Rattle.device_lock.specs.Fault.{event_of};
ghost use Rattle.device_lock.specs.Pass.{call_of};
ghost use Rattle.device_lock.specs.NicDevice.Answering.{may_answer};
ghost use Rattle.pmd_access.specs.Begun.{BeganAs, began_at_lock};
ghost use Rattle.pmd_access.specs.Made.{Adds, AddsSome};
ghost use Rattle.pmd_access.specs.Refusals.{CanRefuse};
ghost use Rattle.pmd_access.specs.Stepped.{StepsAndMakes, StopsStepping, is_foreign, refusals_of};

use crate::nic::Nic;
use device_lock::{CallFault, Calls, Event, Pass, Reply, Shared};
use std::alloc::Global;
use std::marker::Model;
use std::sync::Wait;

/// A pass to a shared device, used under the device's lock. Before each call, the device steps of one queue run: they
/// switch both sides of the queue, then send, then receive. The lock is held during the steps and the call.
pub struct ThroughLock<'a, R: Wait, const VFS: u8, const FIFO: u16> {
    rt: &'a R,
    shared: &'a Shared<VFS, FIFO>,
    pass: Pass,
    queue: u16,
}

impl<'a, R: Wait, const VFS: u8, const FIFO: u16> Model for ThroughLock<'a, R, VFS, FIFO> {
    ghost use Rattle.pmd_access.specs.Refusals.{CanRefuse};
    ghost use Rattle.pmd_access.specs.Stepped.{AtLock};

    ghost Value = { AtLock };

    ghost view = { λ t.
        record { bench = t.shared.now.bench; passes = t.shared.now.passes; queue = t.queue; pass = t.pass } };
}

impl<'a, R: Wait, const VFS: u8, const FIFO: u16> ThroughLock<'a, R, VFS, FIFO> {
    /// Creates a `Nic` for the shared device from this pass. The device steps of this queue run before each call.
    pub fn new(rt: &'a R, shared: &'a Shared<VFS, FIFO>, pass: Pass, queue: u16) -> Self
        ensures { result
            ≡ record { bench = shared.now.bench; passes = shared.now.passes; queue = queue; pass = pass } }
    {
        ThroughLock {
            rt,
            shared,
            pass,
            queue,
        }
    }

    /// Returns the calls made by the pass, with their replies, oldest first.
    pub fn calls(&self) -> &Calls
        ensures { result.now ≡ self.now.pass.calls }
    {
        self.pass.calls()
    }

    /// Returns the pass, with the calls that it made.
    pub fn finish(self) -> Pass
        ensures { result ≡ self.entry.pass }
    {
        let ThroughLock {
            rt: _,
            shared: _,
            pass,
            queue: _,
        } = self;
        pass
    }

    /// Acquires the lock once, runs the device steps, then applies the event. `Nic::call` calls this function, but
    /// doesn't promise that a foreign pass is refused.
    ///
    /// Fails with `ForeignPass` exactly if the pass belongs to another bench or its tag isn't one of this device's;
    /// nothing is then done. Otherwise, if `Shared::call` would refuse a step or the event, fails for the same reason.
    /// The earlier steps have then run, and the event hasn't been applied.
    pub fn step_and_make(&mut self, alloc: Global, event: Event) -> Result<Reply, CallFault>
        ensures exact { IfOk result (λ reply. StepsAndMakes self.old self.new event reply) }
        ensures fits { IfOk result (λ reply. may_answer event reply ≡ true) }
        ensures foreign { IsTrue (is_foreign self.old)
            → (result ≡ Err (CallFault.ForeignPass event)) × (self.new ≡ self.old) }
        ensures only { result ≡ Err (CallFault.ForeignPass event) → IsTrue (is_foreign self.old) }
        ensures back { IfErr result (λ fault. event_of fault ≡ event) }
        ensures during { OnErr result (StopsStepping self.old self.new) }
    {
        self.shared
            .call_stepped(self.rt, alloc, &mut self.pass, self.queue, event)
    }
}

impl<'a, R: Wait, const VFS: u8, const FIFO: u16> Nic for ThroughLock<'a, R, VFS, FIFO> {
    ghost made = { λ t. t.pass.calls };

    ghost began = { began_at_lock };

    ghost refuses = { refusals_of };

    fn call(&mut self, alloc: Global, event: Event) -> Result<Reply, CallFault>
        ensures made { IfOk result (λ reply. Adds self.old.pass.calls self.new.pass.calls event reply) }
        ensures began { BeganAs began_at_lock self.old self.new }
        ensures refuses { refusals_of self.new ≡ refusals_of self.old }
        ensures refusal { IfErr result (λ fault. CanRefuse (refusals_of self.new) fault) }
        ensures fits { IfOk result (λ reply. may_answer event reply ≡ true) }
        ensures refused { IfErr result (λ fault.
            (event_of fault ≡ event) × AddsSome self.old.pass.calls self.new.pass.calls) }
        ensures steps { IfOk result (λ reply. StepsAndMakes self.old self.new event reply) }
        ensures during { OnErr result (StopsStepping self.old self.new) }
    {
        self.step_and_make(alloc, event)
    }
}
