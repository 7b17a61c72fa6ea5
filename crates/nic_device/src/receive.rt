//! Receive steps: each writes one piece of a frame to memory.

ghost use Rattle.std.specs.Prelude.{◌≡◌, ◌<◌, ◌+◌, ◌≤◌, length};
ghost use Rattle.std.specs.VecDeque.{deque_len, deque_capacity};
ghost use Rattle.nic_device.specs.Receive.{received, first_received, is_empty, after_piece, slotless_counted, piece_done};

use crate::engine::Engine;
use crate::event::{Reply, Why};
use crate::interrupt::{count_function, fail_side, function_of_queue, raise_by};
use crate::waiting::Waiting;
use register_file::{RegisterFile, RowId};
use rx_ring::{Dir, Filled, Ring, fill};
use std::collections::VecDeque;

impl Engine {
    /// Runs a receive step: writes one piece of the oldest frame in the receive list.
    #[inline(never)]
    pub(crate) fn receive(&mut self) -> Reply
        ensures reply { result ≡ (received self.old).reply }
        ensures state { self.new ≡ (received self.old).state }
    {
        if self.registers.is_stopped() {
            return Reply::Idle;
        }
        self.receive_first()
    }

    /// Writes a piece of the oldest frame in the receive list, or drops the frame.
    fn receive_first(&mut self) -> Reply
        ensures reply { result ≡ (first_received self.old self.old.waiting).reply }
        ensures state { self.new ≡ (first_received self.old self.old.waiting).state }
    {
        let Some(first) = self.waiting.pop_front() else {
            return Reply::Idle;
        };
        let queue = first.queue();
        if !self.registers.is_on(Dir::Rx, queue) {
            return Reply::Dropped(Why::QueueOff);
        }
        let ring = self.registers.ring(Dir::Rx, queue);
        if is_empty(&ring) {
            if self.registers.drops(queue) && !first.is_begun() {
                count_slotless(&mut self.registers, queue);
                return Reply::Dropped(Why::NoSlot);
            }
            self.waiting.push_front_reserved(first);
            return Reply::Idle;
        }
        let control = self.registers.receive_control(queue);
        match fill(&mut self.memory, &ring, control, &first.item()) {
            Ok(filled) => {
                end_piece(&mut self.registers, self.config.vfs, queue, &filled);
                put_back(&mut self.waiting, first, &filled);
                wrote(queue, &filled)
            }
            Err(fault) => {
                fail_side(&mut self.registers, Dir::Rx, queue);
                Reply::Fault { queue, fault }
            }
        }
    }
}

/// Whether a ring's head and tail are in range and the device owns none of its slots.
pub(crate) fn is_empty(ring: &Ring) -> bool
    ensures { result ≡ is_empty ring.now }
{
    !ring.outside() && ring.head == ring.tail
}

/// Counts a frame that was dropped because its queue had no free descriptor.
fn count_slotless(registers: &mut RegisterFile, queue: u16)
    requires { queue < 128 }
    ensures { registers.new ≡ slotless_counted registers.old queue }
{
    let counter = registers.counter(Dir::Rx, queue);
    registers.count(RowId::Qprdc, counter);
}

/// Completes a written piece: moves the head and, at the frame's end, counts the frame and raises its queue's cause.
fn end_piece(registers: &mut RegisterFile, vfs: u8, queue: u16, filled: &Filled)
    requires { queue < 128 }
    ensures { registers.new ≡ piece_done registers.old vfs queue filled.now }
{
    registers.move_head(Dir::Rx, queue, filled.head);
    if filled.end {
        let counter = registers.counter(Dir::Rx, queue);
        let function = function_of_queue(registers, vfs, queue);
        registers.count(RowId::Qprc, counter);
        count_function(registers, function, RowId::Vfgprc);
        raise_by(registers, vfs, Dir::Rx, queue);
    }
}

/// Returns the reply that reports a written piece.
fn wrote(queue: u16, filled: &Filled) -> Reply
    ensures { result ≡ Reply.Wrote queue filled.now.slot filled.now.end filled.now.desc filled.now.at filled.now.len }
{
    Reply::Wrote {
        queue,
        slot: filled.slot,
        end: filled.end,
        desc: filled.desc,
        at: filled.at,
        len: filled.len,
    }
}

/// Puts a frame back at the front of the receive list after a piece of the frame is written, unless the frame has
/// ended.
fn put_back(waiting: &mut VecDeque<Waiting>, first: Waiting, filled: &Filled)
    requires piece { first.offset + filled.now.len ≤ length first.frame }
    requires room { deque_len waiting.old < deque_capacity waiting.old }
    ensures { waiting.new.items ≡ after_piece first waiting.old.items filled.now }
{
    if !filled.end {
        waiting.push_front_reserved(first.written(filled.len));
    }
}
