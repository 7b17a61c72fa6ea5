//! Access to a device to which foreign events are applied between a driver's calls.

ghost use Rattle.std.specs.Prelude.{◌≡◌, [], length, map, true, IfOk, IfErr, OnOk, OnErr};
ghost use Rattle.device_lock.specs.Fault.{event_of};
ghost use Rattle.device_lock.specs.NicDevice.Answering.{may_answer};
ghost use Rattle.device_lock.specs.NicDevice.State.{State};
ghost use Rattle.device_lock.specs.NicDevice.Step.{step_of};
ghost use Rattle.pmd_access.specs.Begun.{BeganAs, From, LeadsTo, began_handled, began_scheduled, marked_entries};
ghost use Rattle.pmd_access.specs.Made.{Adds, AddsSome};
ghost use Rattle.pmd_access.specs.Refusals.{CanRefuse, memory_alone};
ghost use Rattle.pmd_access.specs.Scheduled.{StopsInList, StopsCall, after_call, after_list, made_of, next_list};
ghost use Rattle.pmd_access.specs.Scheduled.{with_list_made};

use crate::handled::Handled;
use crate::nic::Nic;
use device_lock::{CallFault, Calls, Device, Event, OutOfMemory, Reply};
use std::alloc::Global;
use std::collections::VecDeque;
use std::marker::Model;

/// A device in hand with lists of foreign events. Before each call, the events in the next list are applied, if a list
/// remains. An `Interleaved` can't be dropped, because the device can't.
pub struct Interleaved {
    handled: Handled,
    schedule: VecDeque<Vec<Event>>,
}

impl Model for Interleaved {
    ghost use Rattle.std.specs.Prelude.{map};
    ghost use Rattle.std.specs.Coded.{codes};
    ghost use Rattle.device_lock.specs.NicDevice.State.{state_code};
    ghost use Rattle.pmd_access.specs.Scheduled.{Scheduled};

    ghost Value = { Scheduled };

    ghost coded = { Prim.hlevel (codes, state_code) };

    ghost view = { λ i. record { handled = i.handled; lists = map (λ list. list.items) i.schedule.items } };
}

/// The contents of a finished `Interleaved`.
pub struct Finished {
    /// The device, as the calls left it.
    pub device: Device,
    /// All calls made, foreign and own, with their replies, oldest first.
    pub calls: Calls,
    /// For each of these calls, in order, whether the call is own. `marked_history` expects these marks.
    pub own: Vec<bool>,
    /// The replies to the foreign events, oldest first. They may contain blocks.
    pub foreign: Vec<Reply>,
    /// The lists of foreign events not yet applied, next first.
    pub schedule: Vec<Vec<Event>>,
}

impl Interleaved {
    /// Wraps a device and the lists of foreign events; the first list is applied before the first call. No calls have
    /// been made yet.
    pub fn new(alloc: Global, device: Device, schedule: Vec<Vec<Event>>) -> Interleaved
        ensures opened { result ≡ record {
          handled = record { device = device; calls = []; own = []; foreign = [] };
          lists = map (λ list. list.items) schedule.items;
        } }
        ensures began { began_scheduled result (From device) }
    {
        let handled = Handled {
            device,
            calls: Calls::new(alloc),
            own: Vec::new(alloc),
            foreign: Vec::new(alloc),
        };
        Interleaved {
            handled,
            schedule: VecDeque::from_vec(schedule),
        }
    }

    /// All calls made, foreign and own, with their replies, oldest first.
    pub fn calls(&self) -> &Calls
        ensures { result.now ≡ self.now.handled.calls }
    {
        &self.handled.calls
    }

    /// Returns one mark for each of these calls, in order. A mark is true if the call is own, that is, if `Nic::call`
    /// made it for its caller.
    pub fn own(&self) -> &[bool]
        ensures own { result.now ≡ self.now.handled.own }
        ensures each { length result.now ≡ length self.now.handled.calls }
    {
        self.handled.own()
    }

    /// Returns the contents: the device, the calls with their marks, the foreign replies, and the lists not yet
    /// applied. With these marks, the calls are a history that leads from the initial state to the device.
    pub fn finish(self) -> Finished
        ensures device { result.device ≡ self.handled.device }
        ensures calls { result.calls ≡ self.handled.calls }
        // For each call, whether the call is own.
        ensures own { result.own.items ≡ self.handled.own }
        // Each call has a mark.
        ensures each { length result.own.items ≡ length result.calls }
        ensures leads { (s : State) → began_scheduled self (From s)
            → LeadsTo s (marked_entries result.calls result.own.items) result.device }
        // The replies to the foreign events.
        ensures foreign { result.foreign.items ≡ self.handled.foreign }
        // The lists not yet applied.
        ensures schedule { map (λ list. list.items) result.schedule.items ≡ self.lists }
    {
        let Interleaved { handled, schedule } = self;
        let Handled {
            device,
            calls,
            own,
            foreign,
        } = handled;
        Finished {
            device,
            calls,
            own,
            foreign,
            schedule: schedule.into_vec(),
        }
    }

    /// Applies the next list. If an event is refused, that event stays first in its list, followed by the later events.
    fn make_next_list(&mut self, alloc: Global) -> Result<(), OutOfMemory<()>>
        ensures made { OnOk result (self.new ≡ with_list_made self.old) }
        ensures none { made_of self.new.handled ≡ made_of self.old.handled }
        ensures stopped { OnErr result (StopsInList self.old self.new) }
        ensures began { BeganAs began_handled self.old.handled self.new.handled }
    {
        let Some(list) = self.schedule.pop_front() else {
            return Ok(());
        };
        let mut waiting = VecDeque::from_vec(list);
        match self.handled.make_list(alloc, &mut waiting) {
            Ok(()) => {
                waiting.destroy_empty();
                Ok(())
            }
            Err(refused) => {
                self.schedule.push_front_reserved(waiting.into_vec());
                Err(refused)
            }
        }
    }
}

impl Nic for Interleaved {
    ghost made = { λ i. made_of i.handled };

    ghost began = { began_scheduled };

    ghost refuses = { λ i. memory_alone };

    /// Applies the next list of foreign events, then the event.
    ///
    /// Fails with `OutOfMemory` if there is no memory to apply or record one of these events. The earlier events have
    /// then been applied, and the call's own event hasn't. A refused foreign event stays first in its list, followed by
    /// the later events in the list, and the next call applies them. A list is removed when all its events have been
    /// applied.
    fn call(&mut self, alloc: Global, event: Event) -> Result<Reply, CallFault>
        ensures made { IfOk result (λ reply. Adds (made_of self.old.handled) (made_of self.new.handled) event reply) }
        ensures fits { IfOk result (λ reply. may_answer event reply ≡ true) }
        ensures refused { IfErr result (λ fault.
            (event_of fault ≡ event) × AddsSome (made_of self.old.handled) (made_of self.new.handled)) }
        ensures began { BeganAs began_scheduled self.old self.new }
        ensures refusal { IfErr result (λ fault. CanRefuse memory_alone fault) }
        ensures exact { OnOk result (self.new ≡ after_call self.old event) }
        ensures reply { IfOk result (λ reply.
            reply ≡ (step_of (after_list self.old.handled (next_list self.old.lists)).device event).reply) }
        ensures memory { IfErr result (λ fault. fault ≡ CallFault.OutOfMemory event) }
        ensures stopped { OnErr result (StopsCall self.old self.new) }
    {
        match self.make_next_list(alloc) {
            Ok(()) => self.handled.make(alloc, event),
            Err(_refused) => Err(CallFault::OutOfMemory(event)),
        }
    }
}
