//! Whether a queue's device steps would do nothing.

ghost use Rattle.std.specs.Prelude.{◌≡◌, ◌<◌, true, None, IsTrue, IfSome};
ghost use Rattle.nic_device.specs.Answering.{may_answer};
ghost use Rattle.nic_device.specs.Resting.{IsIdle, Rests, is_at_rest, is_settled, none_waits};
ghost use Rattle.nic_device.specs.Step.{lent_block};
ghost use Rattle.nic_device.specs.declared.event.Reply.TheVariants.{Idle};

use crate::device::Device;
use crate::engine::Engine;
use crate::event::{Event, EventNote};
use register_file::QUEUES;
use rx_ring::Dir;

impl Engine {
    /// Whether a side of a queue is in the state that its enable bit requests.
    fn is_settled(&self, dir: Dir, queue: u16) -> bool
        requires { queue < 128 }
        ensures { result ≡ is_settled self.now dir queue }
    {
        self.registers.is_wanted(dir, queue) == self.registers.is_on(dir, queue)
    }

    /// Whether the receive list is empty.
    fn none_waits(&self) -> bool
        ensures { result ≡ none_waits self.now.waiting }
    {
        self.waiting.front().is_none()
    }

    /// Computes `Device::is_at_rest`, with access to the device's parts.
    fn is_at_rest(&self, queue: u16) -> bool
        ensures { result ≡ is_at_rest self.now queue }
    {
        queue < QUEUES
            && self.is_settled(Dir::Rx, queue)
            && self.is_settled(Dir::Tx, queue)
            && self.is_silent(queue)
            && self.none_waits()
    }

    /// Whether a side of a queue is in the state that its enable bit requests. If so, the side's enable step is idle.
    fn is_side_idle(&self, dir: Dir, queue: u16) -> bool
        ensures { IsTrue result → IsIdle self.now (Event.QueueStep dir queue) }
    {
        queue < QUEUES && self.is_settled(dir, queue)
    }

    /// Whether a queue currently can't send. If so, the queue's transmit step is idle.
    fn is_sending_idle(&self, queue: u16) -> bool
        ensures { IsTrue result → IsIdle self.now (Event.TxStep queue) }
    {
        queue < QUEUES && self.is_silent(queue)
    }

    /// Whether the receive list is empty. If so, a receive step is idle.
    fn is_receiving_idle(&self) -> bool
        ensures { IsTrue result → IsIdle self.now Event.RxStep }
    {
        self.none_waits()
    }

    /// Computes `Device::idle_note`, with access to the device's parts.
    fn idle_note(&self, event: &Event) -> Option<EventNote>
        ensures note { IfSome result (λ note. note ≡ event.now) }
        ensures idle { IfSome result (λ note. IsIdle self.now event.now) }
        ensures fits { IfSome result (λ note. may_answer event.now Idle ≡ true) }
        ensures block { IfSome result (λ note. lent_block event.now ≡ None) }
    {
        match event {
            Event::QueueStep(dir, queue) if self.is_side_idle(*dir, *queue) => {
                Some(Event::QueueStep(*dir, *queue))
            }
            Event::TxStep(queue) if self.is_sending_idle(*queue) => Some(Event::TxStep(*queue)),
            Event::RxStep if self.is_receiving_idle() => Some(Event::RxStep),
            _ => None,
        }
    }
}

impl Device {
    /// Whether a queue is at rest. A side's enable bit requests the side's state. A queue is at rest if it is below
    /// 128, both of its sides are in their requested state, it currently can't send, and the receive list is empty. In
    /// that case, an enable step for either side of the queue, the queue's transmit step and a receive step are idle
    /// and change nothing.
    pub fn is_at_rest(&self, queue: u16) -> bool
        ensures reported { result ≡ is_at_rest self.now queue }
        ensures idle { IsTrue result → Rests self.now queue }
    {
        let engine = &self.engine;
        engine.is_at_rest(queue)
    }
    /// Returns the event's note, or `None`. If the result is the note, the event would be idle now, would change
    /// nothing, and lends no block. The result may be `None` even for such an event; no clause states when. In
    /// practice, three kinds of events get a note. These are an enable step for a side that is already in its requested
    /// state, a transmit step for a queue that can't send, and a receive step while the receive list is empty. The call
    /// allocates nothing.
    pub fn idle_note(&self, event: &Event) -> Option<EventNote>
        ensures note { IfSome result (λ note. note ≡ event.now) }
        ensures idle { IfSome result (λ note. IsIdle self.now event.now) }
        ensures fits { IfSome result (λ note. may_answer event.now Idle ≡ true) }
        ensures block { IfSome result (λ note. lent_block event.now ≡ None) }
    {
        let engine = &self.engine;
        engine.idle_note(event)
    }
}
