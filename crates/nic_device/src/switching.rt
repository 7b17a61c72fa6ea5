//! Steps that enable or disable a side of a queue.

ghost use Rattle.std.specs.Prelude.{◌≡◌, ◌<◌};
ghost use Rattle.nic_device.specs.Switching.{queue_switched, side_switched, emptied, without_part};

use crate::engine::Engine;
use crate::event::Reply;
use crate::waiting::Waiting;
use register_file::QUEUES;
use rx_ring::Dir;
use std::collections::VecDeque;

impl Engine {
    /// Runs an enable step: enables or disables a side of a queue as its enable bit requests.
    #[inline(never)]
    pub(crate) fn switch_queue(&mut self, dir: Dir, queue: u16) -> Reply
        ensures reply { result ≡ (queue_switched self.old dir queue).reply }
        ensures state { self.new ≡ (queue_switched self.old dir queue).state }
    {
        if queue >= QUEUES {
            return Reply::NoQueue;
        }
        if self.registers.is_stopped()
            || self.registers.is_wanted(dir, queue) == self.registers.is_on(dir, queue)
        {
            return Reply::Idle;
        }
        self.switch_side(dir, queue);
        Reply::Done
    }

    /// Puts a side into the state that its enable bit requests.
    fn switch_side(&mut self, dir: Dir, queue: u16)
        requires { queue < 128 }
        ensures { self.new ≡ side_switched self.old dir queue }
    {
        if !self.registers.is_wanted(dir, queue) {
            self.empty_side(dir, queue);
        }
        self.registers.switch(dir, queue);
    }

    /// Drops what a side loses when it is disabled: the partly written frame of a receive side, or the staged bytes of
    /// a transmit side.
    fn empty_side(&mut self, dir: Dir, queue: u16)
        requires { queue < 128 }
        ensures { self.new ≡ emptied self.old dir queue }
    {
        match dir {
            Dir::Rx => drop_part(&mut self.waiting, queue),
            Dir::Tx => self.staged[usize::from(queue)].clear(),
        }
    }
}

/// Drops the first frame of the receive list if it is for this queue and partly written.
fn drop_part(waiting: &mut VecDeque<Waiting>, queue: u16)
    ensures { waiting.new.items ≡ without_part queue waiting.old.items }
{
    let Some(first) = waiting.front() else {
        return;
    };
    if first.queue() == queue && first.is_begun() {
        let _ = waiting.pop_front();
    }
}
