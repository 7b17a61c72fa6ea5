//! The pool reset, which a virtual function's reset requests.

ghost use Rattle.std.specs.Prelude.{◌≡◌, ◌+◌, ◌<◌, ◌≤◌, length};
ghost use Rattle.nic_device.specs.PoolReset.{unstaged, others_waiting, with_pool_reset};

use crate::engine::Engine;
use crate::waiting::Waiting;
use register_file::{Mode, has_queue, queues_of};
use std::collections::VecDeque;
use tx_ring::Staged;

impl Engine {
    /// Resets pool v, below 64: resets the pool's registers, and drops the frames in the receive list for the pool's
    /// queues and the queues' staged bytes.
    #[inline(never)]
    pub(crate) fn reset_pool(&mut self, v: u8)
        requires { v < 64 }
        ensures { self.new ≡ with_pool_reset self.old v }
    {
        let mode = self.registers.mode();
        self.registers.reset_pool(mode, v);
        drop_waiting(&mut self.waiting, mode, v);
        if let Some((first, count)) = queues_of(mode, v) {
            unstage(self.staged.as_mut_slice(), first, count);
        }
    }
}

/// Drops the frames in the receive list that are for a pool's queues. The others keep their order.
fn drop_waiting(waiting: &mut VecDeque<Waiting>, mode: Mode, v: u8)
    ensures { waiting.new.items ≡ others_waiting mode v waiting.old.items }
{
    waiting.retain(|frame| !has_queue(mode, u16::from(v), frame.queue()));
}

/// Drops the staged bytes of `count` queues, starting with queue `first`.
fn unstage(staged: &mut [Staged], first: u8, count: u8)
    requires queues { first + count ≤ 128 }
    requires all { length staged.old ≡ 128 }
    ensures { staged.new ≡ unstaged staged.old first count }
{
    for x in 0..count {
        staged[usize::from(first + x)].clear();
    }
}
