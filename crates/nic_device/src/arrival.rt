//! Frames that arrive from the link.

ghost use Rattle.std.specs.Prelude.{◌≡◌, ◌<◌, Ok, IfOk, IfErr, OnOk, OnErr};
ghost use Rattle.nic_device.specs.Arrival.{arrived, joined, why_unwanted};

use crate::engine::Engine;
use crate::event::{Event, OutOfMemory, Reply, Why};
use crate::interrupt::RECEIVE_MISS;
use crate::waiting::Waiting;
use register_file::{Group, RowId};
use rx_filter::{Target, Unwanted, sort};
use rx_ring::Octets;

/// The minimum length of a frame in bytes, without the frame check sequence.
const SHORTEST_FRAME: usize = 60;

impl Engine {
    /// Receives a frame from the link: drops the frame or appends it to the receive list. Counts a frame that is
    /// accepted, too short, too long, or missed because the list is full.
    #[inline(never)]
    pub(crate) fn arrive(&mut self, frame: Octets) -> Result<Reply, OutOfMemory<Event>>
        ensures reply { IfOk result (λ reply. reply ≡ (arrived self.old frame).reply) }
        ensures state { OnOk result (self.new ≡ (arrived self.old frame).state) }
        ensures back { IfErr result (λ refused. refused.0 ≡ Event.Arrive frame) }
        ensures unchanged { OnErr result (self.new ≡ self.old) }
        ensures memory { OnErr result ((arrived self.old frame).reply ≡ Reply.Done) }
    {
        if !self.link {
            return Ok(Reply::Dropped(Why::LinkDown));
        }
        if !self.registers.can_receive() {
            return Ok(Reply::Dropped(Why::Off));
        }
        let len = frame.bytes().len();
        if len < SHORTEST_FRAME {
            self.registers.count(RowId::Ruc, 0);
            return Ok(Reply::Dropped(Why::Short));
        }
        if len > usize::from(self.registers.frame_limit()) {
            self.registers.count(RowId::Roc, 0);
            return Ok(Reply::Dropped(Why::Long));
        }
        match sort(&self.registers, frame.bytes()) {
            Ok(target) => self.join(frame, target),
            Err(why) => Ok(Reply::Dropped(why_unwanted(why))),
        }
    }

    /// Appends a frame to the receive list. If the list is full, drops the frame and counts it as missed.
    fn join(&mut self, frame: Octets, target: Target) -> Result<Reply, OutOfMemory<Event>>
        requires { target.queue < 128 }
        ensures reply { IfOk result (λ reply. reply ≡ (joined self.old frame target).reply) }
        ensures state { OnOk result (self.new ≡ (joined self.old frame target).state) }
        ensures back { IfErr result (λ refused. refused.0 ≡ Event.Arrive frame) }
        ensures unchanged { OnErr result (self.new ≡ self.old) }
        ensures memory { OnErr result ((joined self.old frame target).reply ≡ Reply.Done) }
    {
        if self.waiting.len() >= usize::from(self.config.fifo) {
            self.registers.count(RowId::Mpc, 0);
            self.registers.raise(Group::Pf, RECEIVE_MISS);
            return Ok(Reply::Dropped(Why::Full));
        }
        if self.waiting.reserve(1).is_err() {
            return Err(OutOfMemory(Event::Arrive(frame)));
        }
        self.registers.count(RowId::Gprc, 0);
        self.waiting
            .push_back_reserved(Waiting::let_in(frame, target));
        Ok(Reply::Done)
    }
}

/// Returns the drop reason for a frame that the filters or pools reject.
fn why_unwanted(why: Unwanted) -> Why
    ensures { result ≡ why_unwanted why }
{
    match why {
        Unwanted::Filter => Why::Filter,
        Unwanted::NoPool => Why::NoPool,
        Unwanted::PoolOff => Why::PoolOff,
    }
}
