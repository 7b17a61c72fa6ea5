//! Device steps that a pass runs before its calls, while its thread holds the lock.

ghost use Rattle.std.specs.Prelude.{◌≡◌, ◌≢◌, ◌<◌, ◌↔◌, ◌∷◌, ◌++◌, [], true, Err, IfOk, IfErr, OnOk, OnErr};
ghost use Rattle.nic_device.specs.Answering.{may_answer};
ghost use Rattle.nic_device.specs.Run.{state_after};
ghost use Rattle.nic_device.specs.Step.{step_of};
ghost use Rattle.device_lock.specs.Calling.{IsAnsweredStepped, IsFull, StopsAnswered};
ghost use Rattle.device_lock.specs.Events.{is_step};
ghost use Rattle.device_lock.specs.Fault.{event_of};
ghost use Rattle.device_lock.specs.Kept.{IsLed};
ghost use Rattle.device_lock.specs.Pass.{IsOwn};
ghost use Rattle.device_lock.specs.Stepping.{steps_of_queue, AreMade, StepsAndMakes, StopsMaking, StopsStepping};

use crate::calls::end_event;
use crate::fault::CallFault;
use crate::locked::Locked;
use crate::pass::Pass;
use crate::shared::Shared;
use nic_device::{Dir, Event, Reply};
use std::alloc::Global;
use std::sync::Wait;

impl Pass {
    /// Runs one device step under the lock. The pass records the step's call with the reply.
    fn make_step<const VFS: u8, const FIFO: u16>(
        &mut self,
        alloc: Global,
        locked: &mut Locked<VFS, FIFO>,
        step: Event,
    ) -> Result<(), CallFault<()>>
        requires tag { self.old.tag < 64 }
        requires step { is_step step ≡ true }
        ensures led { IsLed VFS FIFO locked.old }
        ensures made { OnOk result (AreMade locked.old self.old (step ∷ []) locked.new self.new) }
        ensures tag { self.new.tag ≡ self.old.tag }
        ensures own { result ≢ Err (CallFault.ForeignPass tt) }
        ensures full { result ≡ Err (CallFault.HistoryFull tt) → IsFull VFS FIFO }
        ensures unchanged { OnErr result ((locked.new ≡ locked.old) × (self.new ≡ self.old)) }
    {
        if self.calls.idle_locked(locked, self.tag, &step) {
            end_event(step);
            return Ok(());
        }
        match self.call(alloc, locked, step) {
            Ok(reply) => match reply.into_buf() {
                None => Ok(()),
                Some(_buf) => unreachable!(),
            },
            Err(fault) => {
                let (fault, event) = fault.replace(());
                match event.into_buf() {
                    None => Err(fault),
                    Some(_buf) => unreachable!(),
                }
            }
        }
    }

    /// Runs the device steps that precede each call: they switch both sides of a queue, then send, then receive.
    fn step_on<const VFS: u8, const FIFO: u16>(
        &mut self,
        alloc: Global,
        locked: &mut Locked<VFS, FIFO>,
        queue: u16,
    ) -> Result<(), CallFault<()>>
        requires { self.old.tag < 64 }
        ensures led { IsLed VFS FIFO locked.old }
        ensures made { OnOk result (AreMade locked.old self.old (steps_of_queue queue) locked.new self.new) }
        ensures tag { self.new.tag ≡ self.old.tag }
        ensures own { result ≢ Err (CallFault.ForeignPass tt) }
        ensures full { result ≡ Err (CallFault.HistoryFull tt) → IsFull VFS FIFO }
        ensures during { OnErr result (StopsMaking queue locked.old self.old locked.new self.new) }
    {
        if self.calls.rest_locked(locked, self.tag, queue) {
            return Ok(());
        }
        self.make_steps(alloc, locked, queue)
    }

    /// Runs a queue's device steps, one after the other.
    fn make_steps<const VFS: u8, const FIFO: u16>(
        &mut self,
        alloc: Global,
        locked: &mut Locked<VFS, FIFO>,
        queue: u16,
    ) -> Result<(), CallFault<()>>
        requires { self.old.tag < 64 }
        ensures led { IsLed VFS FIFO locked.old }
        ensures made { OnOk result (AreMade locked.old self.old (steps_of_queue queue) locked.new self.new) }
        ensures tag { self.new.tag ≡ self.old.tag }
        ensures own { result ≢ Err (CallFault.ForeignPass tt) }
        ensures full { result ≡ Err (CallFault.HistoryFull tt) → IsFull VFS FIFO }
        ensures during { OnErr result (StopsMaking queue locked.old self.old locked.new self.new) }
    {
        self.make_step(alloc, locked, Event::QueueStep(Dir::Rx, queue))?;
        self.make_step(alloc, locked, Event::QueueStep(Dir::Tx, queue))?;
        self.make_step(alloc, locked, Event::TxStep(queue))?;
        self.make_step(alloc, locked, Event::RxStep)?;
        Ok(())
    }

    /// Runs a queue's device steps, then applies the event.
    fn step_and_call<const VFS: u8, const FIFO: u16>(
        &mut self,
        alloc: Global,
        locked: &mut Locked<VFS, FIFO>,
        queue: u16,
        event: Event,
    ) -> Result<Reply, CallFault>
        requires { self.old.tag < 64 }
        ensures led { IsLed VFS FIFO locked.old }
        ensures made { OnOk result
            (AreMade locked.old self.old (steps_of_queue queue ++ event ∷ []) locked.new self.new) }
        ensures reply { IfOk result (λ reply.
            reply ≡ (step_of (state_after locked.old.device (steps_of_queue queue)) event).reply) }
        ensures fits { IfOk result (λ reply. may_answer event reply ≡ true) }
        ensures own { result ≢ Err (CallFault.ForeignPass event) }
        ensures full { result ≡ Err (CallFault.HistoryFull event) → IsFull VFS FIFO }
        ensures back { IfErr result (λ fault. event_of fault ≡ event) }
        ensures during { OnErr result (StopsMaking queue locked.old self.old locked.new self.new) }
    {
        match self.step_on(alloc, locked, queue) {
            Ok(()) => self.call(alloc, locked, event),
            Err(fault) => Err(fault.replace(event).0),
        }
    }
}

impl<const VFS: u8, const FIFO: u16> Shared<VFS, FIFO> {
    /// Runs a queue's device steps, then applies the event. Each step and the event is a separate call. The thread
    /// waits for the lock once and holds it until all of these calls are done. The steps switch both sides of the
    /// queue, then send, then receive.
    ///
    /// Fails with `ForeignPass` if and only if the pass belongs to another bench, or its tag isn't one of this bench's.
    /// The call then takes no lock and does nothing. Otherwise, if `call` would refuse one of these steps or the event,
    /// fails for the same reason. The steps before the refusal have then run, and the event hasn't been applied. Each
    /// error returns the event. Each reply is the device's, as for `call`.
    pub fn call_stepped<R: Wait>(
        &self,
        rt: &R,
        alloc: Global,
        pass: &mut Pass,
        queue: u16,
        event: Event,
    ) -> Result<Reply, CallFault>
        ensures exact { IfOk result (λ reply. StepsAndMakes queue pass.old pass.new event reply) }
        ensures answered { IfOk result (λ reply. IsAnsweredStepped VFS FIFO queue pass.old pass.new event reply) }
        ensures fits { IfOk result (λ reply. may_answer event reply ≡ true) }
        ensures foreign { (result ≡ Err (CallFault.ForeignPass event))
            ↔ ¬ IsOwn self.now.bench self.now.passes pass.old }
        ensures nothing { ¬ IsOwn self.now.bench self.now.passes pass.old → pass.new ≡ pass.old }
        // The clause says only that some legal history reaches some limit, as for `call`.
        ensures full { result ≡ Err (CallFault.HistoryFull event) → IsFull VFS FIFO }
        ensures back { IfErr result (λ fault. event_of fault ≡ event) }
        ensures during { OnErr result (StopsStepping queue pass.old pass.new) }
        ensures stopped { OnErr result (StopsAnswered VFS FIFO queue pass.old pass.new) }
    {
        if pass.bench() != self.bench || pass.tag() >= self.passes {
            return Err(CallFault::ForeignPass(event));
        }
        let mut locked = self.hold(rt);
        pass.step_and_call(alloc, &mut *locked, queue, event)
    }
}
