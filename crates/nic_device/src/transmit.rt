//! Transmit steps: each fetches one descriptor of a queue.

ghost use Rattle.std.specs.Prelude.{◌≡◌, ◌≢◌, ◌<◌, false, IfSome, IfOk, IfErr, OnOk, OnErr};
ghost use Rattle.std.specs.VecDeque.{deque_len, deque_capacity};
ghost use Rattle.register_laws.specs.Sides.{transmit_queue_of};
ghost use Rattle.nic_device.specs.Transmit.{transmitted, slot_fetched, is_silent, is_muted, is_muted_pool, sending_of, fetched_reply, with_frame, slot_reported};

use crate::engine::Engine;
use crate::event::{Event, OutOfMemory, Reply};
use crate::interrupt::{count_function, fail_side, function_of_queue, raise_by};
use crate::receive::is_empty;
use register_file::{QUEUES, RegisterFile, RowId, pool_of};
use rx_filter::uses_pools;
use rx_ring::{Dir, Octets};
use std::collections::VecDeque;
use tx_ring::{Fetched, Tx, TxRefused, fetch};

impl Engine {
    /// Runs a transmit step of a queue: fetches one descriptor.
    #[inline(never)]
    pub(crate) fn transmit(&mut self, queue: u16) -> Result<Reply, OutOfMemory<Event>>
        ensures reply { IfOk result (λ reply. reply ≡ (transmitted self.old queue).reply) }
        ensures state { OnOk result (self.new ≡ (transmitted self.old queue).state) }
        ensures back { IfErr result (λ refused. refused.0 ≡ Event.TxStep queue) }
        ensures unchanged { OnErr result (self.new ≡ self.old) }
        ensures not_without_queue { OnErr result ((transmitted self.old queue).reply ≢ Reply.NoQueue) }
        ensures not_idle { OnErr result ((transmitted self.old queue).reply ≢ Reply.Idle) }
    {
        if queue >= QUEUES {
            return Ok(Reply::NoQueue);
        }
        if self.is_silent(queue) {
            return Ok(Reply::Idle);
        }
        self.fetch_slot(queue)
    }

    /// Whether a queue currently can't send. If so, the queue's transmit step is idle.
    pub(crate) fn is_silent(&self, queue: u16) -> bool
        requires { queue < 128 }
        ensures { result ≡ is_silent self.now queue (transmit_queue_of self.now.registers queue) }
    {
        self.registers.is_stopped()
            || !self.link
            || !self.registers.can_transmit()
            || !self.registers.is_on(Dir::Tx, queue)
            || is_muted(&self.registers, queue)
            || is_empty(&self.registers.ring(Dir::Tx, queue))
    }

    /// Returns the settings that a queue sends with: the frame limit, padding, and head write-back.
    fn sending(&self, queue: u16) -> Tx
        requires { queue < 128 }
        ensures { result ≡ sending_of self.now.registers (transmit_queue_of self.now.registers queue) }
    {
        Tx {
            limit: usize::from(self.registers.frame_limit()),
            pad: self.registers.pads(),
            writeback: self.registers.writeback(queue),
        }
    }

    /// Fetches the descriptor at a queue's head. Room for the frame that the descriptor may complete is reserved first.
    fn fetch_slot(&mut self, queue: u16) -> Result<Reply, OutOfMemory<Event>>
        requires small { queue < 128 }
        requires loud { is_silent self.old queue (transmit_queue_of self.old.registers queue) ≡ false }
        ensures reply { IfOk result (λ reply. reply
            ≡ (slot_fetched self.old queue (transmit_queue_of self.old.registers queue)).reply) }
        ensures state { OnOk result (self.new
            ≡ (slot_fetched self.old queue (transmit_queue_of self.old.registers queue)).state) }
        ensures back { IfErr result (λ refused. refused.0 ≡ Event.TxStep queue) }
        ensures unchanged { OnErr result (self.new ≡ self.old) }
    {
        if self.out.reserve(1).is_err() {
            return Err(OutOfMemory(Event::TxStep(queue)));
        }
        let ring = self.registers.ring(Dir::Tx, queue);
        let sending = self.sending(queue);
        let staged = &mut self.staged[usize::from(queue)];
        match fetch(self.alloc, &mut self.memory, &ring, &sending, staged) {
            Ok(fetched) => {
                end_slot(&mut self.registers, self.config.vfs, queue, &fetched);
                Ok(send(&mut self.out, queue, fetched))
            }
            Err(TxRefused::Fault(fault)) => {
                self.staged[usize::from(queue)].clear();
                fail_side(&mut self.registers, Dir::Tx, queue);
                Ok(Reply::Fault { queue, fault })
            }
            Err(TxRefused::OutOfMemory) => Err(OutOfMemory(Event::TxStep(queue))),
        }
    }
}

#[tactic(auto, using(crate::proofs::Functions::few_pools), unfolding(crate::specs::Transmit::is_muted))]
/// Whether transmission is disabled for a queue's pool: pools are in use and the pool's VFTE bit is 0.
fn is_muted(registers: &RegisterFile, queue: u16) -> bool
    requires { queue < 128 }
    ensures { result ≡ is_muted registers.now queue }
{
    uses_pools(registers) && is_muted_pool(registers, pool_of(registers.mode(), queue))
}

fn is_muted_pool(registers: &RegisterFile, pool: Option<u8>) -> bool
    requires { IfSome pool (λ pool. pool < 64) }
    ensures { result ≡ is_muted_pool registers.now pool }
{
    match pool {
        Some(pool) => !registers.is_pool_on(Dir::Tx, u16::from(pool)),
        None => false,
    }
}

/// Completes a fetched descriptor: moves the head, counts the frame that is sent, and raises the queue's cause if the
/// descriptor requests a report (RS).
fn end_slot(registers: &mut RegisterFile, vfs: u8, queue: u16, fetched: &Fetched)
    requires { queue < 128 }
    ensures { registers.new ≡ slot_reported registers.old vfs queue fetched.now }
{
    let counter = registers.counter(Dir::Tx, queue);
    let function = function_of_queue(registers, vfs, queue);
    registers.move_head(Dir::Tx, queue, fetched.head);
    if fetched.frame.is_some() {
        registers.count(RowId::Gptc, 0);
        registers.count(RowId::Qptc, counter);
        count_function(registers, function, RowId::Vfgptc);
    }
    if fetched.rs {
        raise_by(registers, vfs, Dir::Tx, queue);
    }
}

/// Sends the frame that a fetched descriptor completes, if any, and returns the reply.
fn send(out: &mut VecDeque<(u8, Octets)>, queue: u16, fetched: Fetched) -> Reply
    requires small { queue < 128 }
    requires room { deque_len out.old < deque_capacity out.old }
    ensures reply { result ≡ fetched_reply queue fetched fetched.frame }
    ensures out { out.new.items ≡ with_frame out.old.items queue fetched.frame }
{
    let Fetched {
        slot,
        head: _,
        back,
        rs: _,
        frame,
    } = fetched;
    match frame {
        Some(frame) => {
            let len = frame.bytes().len();
            out.push_back_reserved((queue as u8, frame));
            Reply::Sent { queue, len, back }
        }
        None => Reply::Advanced { queue, slot, back },
    }
}
