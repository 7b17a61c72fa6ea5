//! A queue's idle device steps. Idle steps change nothing, so only which steps ran is stored.

ghost use Rattle.std.specs.Prelude.{◌≡◌, ◌+◌, ◌++◌, ◌∷◌, [], ◌<◌, ◌≤◌, ◌⊎◌, true, IfSome, length};
ghost use Rattle.std.specs.Vec.{vec_len, vec_capacity};
ghost use Rattle.nic_device.specs.declared.event.Reply.TheVariants.{Idle};
ghost use Rattle.device_lock.specs.History.{entry_of};
ghost use Rattle.device_lock.specs.Resting.{idle_calls, idle_entries, step_if, steps_in};
ghost use Rattle.device_lock.specs.Pass.{call_of};
ghost use Rattle.device_lock.specs.Stepping.{steps_of_queue};

use crate::entry::{Call, Entry};
use nic_device::{Dir, Event, EventNote, Reply};

/// The number of a queue's device steps that run before a call.
pub(crate) const STEPS: usize = 4;

/// A queue's idle device steps that ran one after the other.
#[derive(Clone, Copy, Debug)]
pub struct IdleSteps {
    /// The number of the queue.
    pub queue: u8,
    /// Whether the step that switches the queue's receive side ran.
    pub receive_side: bool,
    /// Whether the step that switches the queue's transmit side ran next.
    pub transmit_side: bool,
    /// Whether the queue's send step ran next.
    pub sending: bool,
    /// Whether the device's receive step ran next.
    pub receiving: bool,
}

impl IdleSteps {
    /// Returns an empty set of steps.
    pub(crate) fn none() -> IdleSteps
        ensures { steps_in result ≡ [] }
    {
        IdleSteps {
            queue: 0,
            receive_side: false,
            transmit_side: false,
            sending: false,
            receiving: false,
        }
    }

    /// Returns all of a queue's device steps, or `None` if the queue's number is above 255.
    pub(crate) fn all(queue: u16) -> Option<IdleSteps>
        ensures { IfSome result (λ all. steps_in all ≡ steps_of_queue queue) }
    {
        match u8::try_from(queue) {
            Ok(queue) => Some(IdleSteps {
                queue,
                receive_side: true,
                transmit_side: true,
                sending: true,
                receiving: true,
            }),
            Err(_) => None,
        }
    }

    /// Returns whether there are no steps.
    pub(crate) fn is_none(&self) -> bool
        ensures { result ≡ true → steps_in self.now ≡ [] }
    {
        !(self.receive_side || self.transmit_side || self.sending || self.receiving)
    }

    /// Returns the number of steps.
    pub fn count(&self) -> usize
        ensures { result ≡ length (steps_in self.now) }
    {
        usize::from(self.receive_side)
            + usize::from(self.transmit_side)
            + usize::from(self.sending)
            + usize::from(self.receiving)
    }

    /// Returns these steps followed by this event, if the event is the queue's step that comes after them. Otherwise
    /// returns `None`.
    pub(crate) fn and(&self, event: &EventNote) -> Option<IdleSteps>
        ensures { IfSome result (λ more. steps_in more ≡ steps_in self.now ++ event.now ∷ []) }
    {
        match event {
            Event::QueueStep(Dir::Rx, queue) if self.is_none() => Some(IdleSteps {
                queue: self.queue_as(*queue)?,
                receive_side: true,
                ..*self
            }),
            Event::QueueStep(Dir::Tx, queue)
                if !(self.transmit_side || self.sending || self.receiving) => {
                Some(IdleSteps {
                    queue: self.queue_as(*queue)?,
                    transmit_side: true,
                    ..*self
                })
            }
            Event::TxStep(queue) if !(self.sending || self.receiving) => Some(IdleSteps {
                queue: self.queue_as(*queue)?,
                sending: true,
                ..*self
            }),
            Event::RxStep if !self.receiving => Some(IdleSteps {
                receiving: true,
                ..*self
            }),
            _ => None,
        }
    }

    /// Returns the queue's number as a byte, if these steps belong to that queue or no step has run.
    fn queue_as(&self, queue: u16) -> Option<u8>
        ensures queue { IfSome result (λ number. number ≡ queue) }
        ensures same { IfSome result (λ number. (steps_in self.now ≡ []) ⊎ (number ≡ self.now.queue)) }
    {
        match u8::try_from(queue) {
            Ok(number) if number == self.queue || self.is_none() => Some(number),
            _ => None,
        }
    }
}

/// Returns the call of an idle step.
pub(crate) fn idle_call(event: EventNote) -> Call
    ensures { result ≡ call_of event Idle }
{
    Call {
        event,
        reply: Reply::Idle,
    }
}

/// Appends the calls of idle device steps. The vector has room for all four.
pub(crate) fn keep_idle(calls: &mut Vec<Call>, steps: IdleSteps)
    requires { vec_len calls.old + 4 ≤ vec_capacity calls.old }
    ensures items { calls.new.items ≡ calls.old.items ++ idle_calls (steps_in steps) }
    ensures len { vec_len calls.new ≤ vec_len calls.old + 4 }
    ensures room { vec_capacity calls.new ≡ vec_capacity calls.old }
{
    let queue = u16::from(steps.queue);
    keep_call(calls, steps.receive_side, Event::QueueStep(Dir::Rx, queue));
    keep_call(calls, steps.transmit_side, Event::QueueStep(Dir::Tx, queue));
    keep_call(calls, steps.sending, Event::TxStep(queue));
    keep_call(calls, steps.receiving, Event::RxStep);
}

/// Appends the call of an idle step, if the step ran. The vector has room for the call.
fn keep_call(calls: &mut Vec<Call>, made: bool, event: EventNote)
    requires { vec_len calls.old < vec_capacity calls.old }
    ensures items { calls.new.items ≡ calls.old.items ++ idle_calls (step_if made event) }
    ensures len { vec_len calls.new ≤ vec_len calls.old + 1 }
    ensures room { vec_capacity calls.new ≡ vec_capacity calls.old }
{
    if made {
        calls.push_reserved(idle_call(event));
    }
}

/// Returns the entry of an idle step.
fn idle_entry(pass: u8, event: EventNote) -> Entry
    ensures { result ≡ entry_of pass event Idle }
{
    Entry {
        pass,
        event,
        reply: Reply::Idle,
    }
}

/// Appends the entries of idle device steps. The vector has room for them.
pub(crate) fn keep_entries(history: &mut Vec<Entry>, pass: u8, steps: IdleSteps)
    requires { vec_len history.old + length (idle_entries pass (steps_in steps)) ≤ vec_capacity history.old }
    ensures items { history.new.items ≡ history.old.items ++ idle_entries pass (steps_in steps) }
    ensures room { vec_capacity history.new ≡ vec_capacity history.old }
{
    let queue = u16::from(steps.queue);
    keep_entry(
        history,
        pass,
        steps.receive_side,
        Event::QueueStep(Dir::Rx, queue),
    );
    keep_entry(
        history,
        pass,
        steps.transmit_side,
        Event::QueueStep(Dir::Tx, queue),
    );
    keep_entry(history, pass, steps.sending, Event::TxStep(queue));
    keep_entry(history, pass, steps.receiving, Event::RxStep);
}

/// Appends the entry of an idle step, if the step ran. The vector has room for the entry.
fn keep_entry(history: &mut Vec<Entry>, pass: u8, made: bool, event: EventNote)
    requires { vec_len history.old + length (step_if made event) ≤ vec_capacity history.old }
    ensures items { history.new.items ≡ history.old.items ++ idle_entries pass (step_if made event) }
    ensures room { vec_capacity history.new ≡ vec_capacity history.old }
{
    if made {
        history.push_reserved(idle_entry(pass, event));
    }
}
