ghost use Rattle.std.specs.Prelude.{◌≡◌, ◌<◌, IfOk, IfErr, OnOk, List, ◌∷◌, length};
ghost use Rattle.rx_ring.specs.DmaArena.Block.{Block};
ghost use Rattle.nic_device.specs.Run.{replies_of, state_after, IsStop};
ghost use Rattle.nic_device.specs.Step.{TakesMemory};
ghost use Rattle.nic_device.specs.declared.event.Event.{Event};

use crate::device::Device;
use crate::event::{Event, OutOfMemory, Reply};
use std::alloc::Global;

/// A run of events that stopped early because memory ran out.
pub struct RunStop {
    /// The replies to the events that ran, in order.
    pub replies: Vec<Reply>,
    /// The events that didn't run, in order; the list contains at least one event. If any event ran, the first event in
    /// this list needs memory that wasn't available.
    pub rest: Vec<Event>,
}

impl Device {
    /// Runs the events in order and returns their replies. The run stops before the first event for which there is no
    /// memory. If there is no memory for the list of replies, no event runs.
    pub fn run(&mut self, alloc: Global, mut events: Vec<Event>) -> Result<Vec<Reply>, RunStop>
        ensures replies { IfOk result (λ replies. replies.items ≡ replies_of self.old events.items) }
        ensures state { OnOk result (self.new ≡ state_after self.old events.items) }
        ensures stopped { IfErr result
            (λ stop. IsStop self.old events.items stop.replies.items stop.rest.items self.new) }

        // After at least one event has run, the run stops only before an event that needs memory.
        ensures memory { IfErr result (λ stop. (event : Event Block) (rest : List (Event Block)) →
            0 < length stop.replies.items → stop.rest.items ≡ event ∷ rest → TakesMemory self.new event) }
    {
        if events.is_empty() {
            events.destroy_empty();
            return Ok(Vec::new(alloc));
        }
        let Ok(mut replies) = Vec::with_capacity(alloc, events.len()) else {
            return Err(RunStop {
                replies: Vec::new(alloc),
                rest: events,
            });
        };
        // Reverses the list so that `pop` returns the events in order and a refused one can be put back without an
        // allocation.
        events.reverse();
        while let Some(event) = events.pop() {
            match self.step(event) {
                Ok(reply) => {
                    match replies.push(reply) {
                        Ok(()) => {}
                        Err(_refused) => unreachable!(),
                    }
                }
                Err(OutOfMemory(event)) => {
                    match events.push(event) {
                        Ok(()) => {}
                        Err(_refused) => unreachable!(),
                    }
                    events.reverse();
                    return Err(RunStop {
                        replies,
                        rest: events,
                    });
                }
            }
        }
        events.destroy_empty();
        Ok(replies)
    }
}
