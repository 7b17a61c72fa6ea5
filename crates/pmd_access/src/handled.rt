//! A device in hand, with the calls made to it.

ghost use Rattle.std.specs.Prelude.{◌≡◌, ◌<◌, [], ◌∷◌, ◌++◌, length, IfOk, IfErr, OnOk, OnErr, true};
ghost use Rattle.device_lock.specs.NicDevice.Answering.{may_answer};
ghost use Rattle.device_lock.specs.NicDevice.Step.{step_of};
ghost use Rattle.device_lock.specs.Pass.{call_of};
ghost use Rattle.pmd_access.specs.Begun.{BeganAs, began_handled};
ghost use Rattle.pmd_access.specs.Scheduled.{after_own, after_foreign, after_list, made_of, IsMadeTo};

use device_lock::{CallFault, Calls, Device, Event, OutOfMemory, Reply};
use std::alloc::Global;
use std::collections::VecDeque;
use std::marker::Model;

/// A device, the calls made to it, which calls are own, and the replies to the foreign calls.
pub(crate) struct Handled {
    pub(crate) device: Device,
    pub(crate) calls: Calls,
    pub(crate) own: Vec<bool>,
    pub(crate) foreign: Vec<Reply>,
}

impl Model for Handled {
    ghost use Rattle.std.specs.Prelude.{◌≡◌, length};
    ghost use Rattle.std.specs.Coded.{codes};
    ghost use Rattle.device_lock.specs.NicDevice.State.{state_code};
    ghost use Rattle.pmd_access.specs.Scheduled.{Handled as HandledValue};

    ghost Value = { HandledValue };

    ghost coded = { Prim.hlevel (codes, state_code) };

    ghost view = { λ h. record {
      device = h.device;
      calls = h.calls;
      own = h.own.items;
      foreign = h.foreign.items;
    } };

    ghost invariant = { λ h. length h.own.items ≡ length h.calls };
}

impl Handled {
    /// Returns, for each call in order, whether the call is own.
    pub(crate) fn own(&self) -> &[bool]
        ensures own { result.now ≡ self.now.own }
        ensures each { length result.now ≡ length self.now.calls }
    {
        self.own.as_slice()
    }

    /// Applies an event as an own call.
    pub(crate) fn make(&mut self, alloc: Global, event: Event) -> Result<Reply, CallFault>
        ensures made { OnOk result (self.new ≡ after_own self.old event) }
        ensures own { IfOk result (λ reply. made_of self.new ≡ made_of self.old ++ call_of event reply ∷ []) }
        ensures reply { IfOk result (λ reply. reply ≡ (step_of self.old.device event).reply) }
        ensures fits { IfOk result (λ reply. may_answer event reply ≡ true) }
        ensures back { IfErr result (λ fault. fault ≡ CallFault.OutOfMemory event) }
        ensures unchanged { OnErr result (self.new ≡ self.old) }
        ensures began { BeganAs began_handled self.old self.new }
    {
        event.is_of_a_driver();
        if self.own.reserve(1).is_err() {
            return Err(CallFault::OutOfMemory(event));
        }
        match self.calls.make(alloc, &mut self.device, event) {
            Ok(reply) => {
                self.own.push_reserved(true);
                Ok(reply)
            }
            Err(OutOfMemory(event)) => Err(CallFault::OutOfMemory(event)),
        }
    }

    /// Applies a foreign event and keeps the reply.
    fn make_foreign(&mut self, alloc: Global, event: Event) -> Result<(), OutOfMemory<Event>>
        ensures made { OnOk result (self.new ≡ after_foreign self.old event) }
        ensures none { OnOk result (made_of self.new ≡ made_of self.old) }
        ensures back { IfErr result (λ refused. refused.0 ≡ event) }
        ensures unchanged { OnErr result (self.new ≡ self.old) }
        ensures began { BeganAs began_handled self.old self.new }
    {
        event.is_of_a_driver();
        if self.foreign.reserve(1).is_err() || self.own.reserve(1).is_err() {
            return Err(OutOfMemory(event));
        }
        let reply = self.calls.make(alloc, &mut self.device, event)?;
        self.foreign.push_reserved(reply);
        self.own.push_reserved(false);
        Ok(())
    }

    /// Applies foreign events in order, up to the first event that is refused. The refused event and the later ones
    /// stay in the list.
    pub(crate) fn make_list(
        &mut self,
        alloc: Global,
        list: &mut VecDeque<Event>,
    ) -> Result<(), OutOfMemory<()>>
        ensures made { OnOk result (self.new ≡ after_list self.old list.old.items) }
        ensures none { made_of self.new ≡ made_of self.old }
        ensures empty { OnOk result (list.new.items ≡ []) }
        ensures left { OnErr result (0 < length list.new.items) }
        ensures stopped { OnErr result (IsMadeTo self.old list.old.items self.new list.new.items) }
        ensures began { BeganAs began_handled self.old self.new }
    {
        while let Some(event) = list.pop_front() {
            if let Err(OutOfMemory(event)) = self.make_foreign(alloc, event) {
                list.push_front_reserved(event);
                return Err(OutOfMemory(()));
            }
        }
        Ok(())
    }
}
