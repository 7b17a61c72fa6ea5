//! Sends several packets in one call, with one tail write.

ghost use Rattle.std.specs.Prelude.{◌≡◌, ◌<◌, ◌+◌, ◌==◌, if◌then◌else◌, true, false, None, length, IfErr};
ghost use Rattle.pmd_rx.specs.Keeping.{numbers_of_all};
ghost use Rattle.pmd_access.specs.Asks.{Asks, fault_in};
ghost use Rattle.pmd_driver.specs.Apart.{DrivesRings};
ghost use Rattle.pmd_driver.specs.Blocks.{KeepsUp};
ghost use Rattle.pmd_driver.specs.Bursts.{IsSendBurst};
ghost use Rattle.pmd_driver.specs.Queueing.{HasRoom, Posts, QueuesUpTo};
ghost use Rattle.pmd_access.specs.Begun.{BeganAs};
ghost use Rattle.pmd_access.specs.Refusals.{CanFail};

use crate::running::Running;
use pmd_access::{Nic, Packet, PmdFault};
use pmd_tx::{TxAnswer, TxFault};
use std::alloc::Global;
use std::collections::VecDeque;

/// The number of packets queued, and the fault that stopped the burst, if any. The last queued packet, or the first
/// packet that wasn't queued, met this fault.
pub(crate) struct Queued {
    pub(crate) sent: u16,
    pub(crate) met: Option<PmdFault>,
}

impl Running {
    /// Sends packets from the front of the list, as many as fit, with one tail write after the last packet. If fewer
    /// than `vacant` slots in the ring are vacant, it first frees the blocks of sent packets, as `reap` does. If
    /// `vacant` is 0, it therefore never frees blocks first; if `vacant` is above 1,023, it always does. It stops at
    /// the first packet that doesn't fit, is refused, or meets a fault. Returns the number of packets accepted. The
    /// accepted packets are removed from the list, and the others stay in it, in order.
    ///
    /// If no packet was accepted, it returns the fault that prevented this, if any. This is the fault met while reaping
    /// or while continuing with earlier packets, or the fault that `tx` would return for the first packet. It also
    /// returns a fault if it accepted packets but couldn't write the tail after them. The accepted packets are then no
    /// longer in the list, and the next call continues with them.
    pub fn tx_burst<N: Nic>(
        &mut self,
        alloc: Global,
        nic: &mut N,
        vacant: u16,
        packets: &mut VecDeque<Packet>,
    ) -> Result<u16, PmdFault>
        ensures drives { DrivesRings (N.made nic.old) self.old (N.made nic.new) self.new }
        // As many packets as reported were accepted in order from the front of the list, and removed. The others are
        // unchanged, with one exception. If a wrong reply of the device stopped the burst, the clause promises only the
        // block numbers of the first remaining packet. The tail is advanced only after all accepted packets are queued.
        // If the call returns no fault, the tail has passed all outstanding packets. The burst stops only for one of
        // these reasons: no packet remains, the ring has no room for the next packet, the next packet is refused before
        // any event, or a call met a fault during its events. If the first packet is refused in this way, no event
        // occurs after the call has made room.
        ensures sent { IsSendBurst vacant packets.old.items packets.new.items result (N.made nic.old) self.old
            (N.made nic.new) self.new }
        ensures blocks { KeepsUp self.old (numbers_of_all packets.old.items) self.new
            (numbers_of_all packets.new.items) }
        ensures began { BeganAs N.began nic.old nic.new }
        ensures refuses { N.refuses nic.new ≡ N.refuses nic.old }
        ensures refusal { IfErr result (λ f. CanFail (N.refuses nic.new) f) }
    {
        match self.make_room(alloc, nic, vacant) {
            Ok(()) => self.send_burst(alloc, nic, packets),
            Err(fault) => Err(fault),
        }
    }

    /// Frees the blocks of sent packets if fewer than `vacant` slots are vacant.
    fn make_room<N: Nic>(&mut self, alloc: Global, nic: &mut N, vacant: u16) -> Result<(), PmdFault>
        ensures asks { Asks N.began N.refuses (fault_in result) nic.old nic.new }
        ensures room { HasRoom vacant (fault_in result) (N.made nic.old) self.old (N.made nic.new) self.new }
    {
        if self.vacant() >= vacant {
            return Ok(());
        }
        match self.reap(alloc, nic) {
            Ok(_) => Ok(()),
            Err(fault) => Err(fault),
        }
    }

    /// Accepts packets from the front of the list while slots are vacant, then advances the tail once. `tx_burst` calls
    /// this function after it has made room.
    fn send_burst<N: Nic>(
        &mut self,
        alloc: Global,
        nic: &mut N,
        packets: &mut VecDeque<Packet>,
    ) -> Result<u16, PmdFault>
        ensures asks { Asks N.began N.refuses (fault_in result) nic.old nic.new }
        ensures posts { Posts packets.old.items packets.new.items result (N.made nic.old) self.old
            (N.made nic.new) self.new }
    {
        let Queued { sent, met } = self.queue_burst(alloc, nic, packets);
        match at_first(sent, met) {
            Some(fault) => Err(fault),
            None => match self.flush(alloc, nic) {
                Ok(()) => Ok(sent),
                Err(fault) => Err(fault),
            },
        }
    }

    /// Queues packets from the front of the list, up to the first packet that doesn't fit, is refused, or meets a
    /// fault.
    fn queue_burst<N: Nic>(
        &mut self,
        alloc: Global,
        nic: &mut N,
        packets: &mut VecDeque<Packet>,
    ) -> Queued
        ensures asks { Asks N.began N.refuses result.met nic.old nic.new }
        ensures queues { QueuesUpTo true packets.old.items packets.new.items result.sent result.met (N.made nic.old)
            self.old (N.made nic.new) self.new }
    {
        let _room = self.vacant();
        let mut sent = 0;
        for _first in 0..packets.len() {
            let (Queued { sent: more, met }, ends) = self.queue_first(alloc, nic, packets);
            sent += more;
            if ends {
                return Queued { sent, met };
            }
        }
        Queued { sent, met: None }
    }

    /// Queues the first packet in the list. Returns whether the burst ends with this packet.
    fn queue_first<N: Nic>(
        &mut self,
        alloc: Global,
        nic: &mut N,
        packets: &mut VecDeque<Packet>,
    ) -> (Queued, bool)
        requires { 0 < length packets.old.items }
        ensures asks { Asks N.began N.refuses result.0.met nic.old nic.new }
        ensures queues { QueuesUpTo result.1 packets.old.items packets.new.items result.0.sent result.0.met
            (N.made nic.old) self.old (N.made nic.new) self.new }
        ensures goes_on { result.1 ≡ false → (result.0.met ≡ None)
            × (length packets.new.items + 1 ≡ length packets.old.items) }
    {
        let packet = match packets.pop_front() {
            Some(packet) => packet,
            None => unreachable!(),
        };
        match self.queue_packet(alloc, nic, packet) {
            Ok(TxAnswer::Taken) => (Queued { sent: 1, met: None }, false),
            Ok(TxAnswer::RingFull(full)) => {
                packets.push_front_reserved(full);
                (Queued { sent: 0, met: None }, true)
            }
            Err(failed) => {
                let TxFault { fault, packet } = failed;
                let met = Some(fault);
                match packet {
                    None => (Queued { sent: 1, met }, true),
                    Some(packet) => {
                        packets.push_front_reserved(packet);
                        (Queued { sent: 0, met }, true)
                    }
                }
            }
        }
    }
}

/// Returns the fault that the burst met, if no packet was queued; otherwise returns `None`.
fn at_first(sent: u16, met: Option<PmdFault>) -> Option<PmdFault>
    ensures { result ≡ (if sent == 0 then met else None) }
{
    if sent == 0 { met } else { None }
}
