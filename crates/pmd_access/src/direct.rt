ghost use Rattle.std.specs.Prelude.{◌≡◌, ◌<◌, [], true, IfOk, IfErr, OnOk, OnErr};
ghost use Rattle.device_lock.specs.NicDevice.Answering.{may_answer};
ghost use Rattle.device_lock.specs.NicDevice.Step.{step_of};
ghost use Rattle.device_lock.specs.Events.{is_step};
ghost use Rattle.device_lock.specs.Stepping.{steps_of_queue};
ghost use Rattle.pmd_access.specs.Begun.{BeganAs, From, began_in_hand};
ghost use Rattle.pmd_access.specs.Made.{Adds, StopsDuring, after_event, after_events};
ghost use Rattle.pmd_access.specs.Refusals.{memory_alone};

use crate::fault::without_event;
use crate::nic::Nic;
use device_lock::{CallFault, Calls, Device, Dir, Event, OutOfMemory, Reply};
use std::alloc::Global;
use std::marker::Model;

/// A device in hand. Before each call, the device steps of one queue run: they switch both sides of the queue, then
/// send, then receive. A `Direct` can't be dropped, because the device can't.
pub struct Direct {
    device: Device,
    queue: u16,
    calls: Calls,
}

impl Model for Direct {
    ghost use Rattle.std.specs.Coded.{codes};
    ghost use Rattle.device_lock.specs.NicDevice.State.{state_code};
    ghost use Rattle.pmd_access.specs.Made.{InHand};

    ghost Value = { InHand };

    ghost coded = { Prim.hlevel (codes, state_code) };

    ghost view = { λ d. record { device = d.device; queue = d.queue; calls = d.calls } };
}

impl Direct {
    /// Wraps a device so that this queue's device steps run before each call. No calls have been made yet.
    pub fn new(alloc: Global, device: Device, queue: u16) -> Direct
        ensures opened { result ≡ record { device = device; queue = queue; calls = [] } }
        ensures began { began_in_hand result (From device) }
    {
        Direct {
            device,
            queue,
            calls: Calls::new(alloc),
        }
    }

    /// Returns the calls made so far, with their replies, oldest first.
    pub fn calls(&self) -> &Calls
        ensures { result.now ≡ self.now.calls }
    {
        &self.calls
    }

    /// Returns the device, and the calls made so far with their replies.
    pub fn finish(self) -> (Device, Calls)
        ensures device { result.0 ≡ self.device }
        ensures calls { result.1 ≡ self.calls }
    {
        let Direct {
            device,
            queue: _,
            calls,
        } = self;
        (device, calls)
    }

    /// Applies one event and records the call.
    fn make(&mut self, alloc: Global, event: Event) -> Result<Reply, CallFault>
        ensures made { OnOk result (self.new ≡ after_event self.old event) }
        ensures reply { IfOk result (λ reply. reply ≡ (step_of self.old.device event).reply) }
        ensures fits { IfOk result (λ reply. may_answer event reply ≡ true) }
        ensures memory { IfErr result (λ fault. fault ≡ CallFault.OutOfMemory event) }
        ensures unchanged { OnErr result (self.new ≡ self.old) }
    {
        match self.calls.make(alloc, &mut self.device, event) {
            Ok(reply) => Ok(reply),
            Err(OutOfMemory(event)) => Err(CallFault::OutOfMemory(event)),
        }
    }
}

impl Direct {
    /// Runs the queue's device steps. If the queue is at rest and there is memory, all of these steps are idle and
    /// recorded together. Otherwise they run one after the other.
    fn step_on(&mut self, alloc: Global, queue: u16) -> Result<(), CallFault<()>>
        requires { queue ≡ self.old.queue }
        ensures number { self.old.queue < 65536 }
        ensures made { OnOk result (self.new ≡ after_events self.old (steps_of_queue self.old.queue)) }
        ensures refused { OnErr result (StopsDuring self.old self.new) }
    {
        if self.calls.rest(&self.device, queue) {
            return Ok(());
        }
        self.make_step(alloc, Event::QueueStep(Dir::Rx, queue))?;
        self.make_step(alloc, Event::QueueStep(Dir::Tx, queue))?;
        self.make_step(alloc, Event::TxStep(queue))?;
        self.make_step(alloc, Event::RxStep)?;
        Ok(())
    }

    /// Runs one device step. The recorded call contains the step's reply.
    fn make_step(&mut self, alloc: Global, step: Event) -> Result<(), CallFault<()>>
        requires { is_step step ≡ true }
        ensures made { OnOk result (self.new ≡ after_event self.old step) }
        ensures unchanged { OnErr result (self.new ≡ self.old) }
    {
        if self.calls.idle(&self.device, &step) {
            return match step.into_buf() {
                None => Ok(()),
                Some(_buf) => unreachable!(),
            };
        }
        match self.make(alloc, step) {
            Ok(reply) => match reply.into_buf() {
                None => Ok(()),
                Some(_buf) => unreachable!(),
            },
            Err(fault) => Err(without_event(fault)),
        }
    }
}

impl Direct {
    /// Runs the queue's device steps, then applies the event. The steps switch both sides of the queue, then send, then
    /// receive. `Nic::call` calls this function, but promises only what the clauses of `Nic` say.
    ///
    /// Fails with `OutOfMemory` if there is no memory to apply or record a step or the event. The earlier steps have
    /// then run, and the event hasn't been applied.
    pub fn step_and_make(&mut self, alloc: Global, event: Event) -> Result<Reply, CallFault>
        ensures exact { OnOk result
            (self.new ≡ after_event (after_events self.old (steps_of_queue self.old.queue)) event) }
        ensures adds { IfOk result (λ reply. Adds self.old.calls self.new.calls event reply) }
        ensures fits { IfOk result (λ reply. may_answer event reply ≡ true) }
        ensures memory { IfErr result (λ fault. fault ≡ CallFault.OutOfMemory event) }
        ensures during { OnErr result (StopsDuring self.old self.new) }
        ensures began { BeganAs began_in_hand self.old self.new }
    {
        event.is_of_a_driver();
        let queue = self.queue;
        match self.step_on(alloc, queue) {
            Ok(()) => self.make(alloc, event),
            Err(_) => Err(CallFault::OutOfMemory(event)),
        }
    }
}

impl Nic for Direct {
    ghost made = { λ d. d.calls };

    ghost began = { began_in_hand };

    ghost refuses = { λ d. memory_alone };

    fn call(&mut self, alloc: Global, event: Event) -> Result<Reply, CallFault> {
        self.step_and_make(alloc, event)
    }
}
