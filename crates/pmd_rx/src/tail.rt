//! The receive ring's tail. When the tail advances, named blocks are posted and complete packets are handed out.

ghost use Rattle.std.specs.Prelude.{◌≡◌, ◌<◌, ◌≤◌, ◌+◌, ◌++◌, ◌∷◌, [], length, take, true, All, OnOk, OnErr, IfOk, IfErr};
ghost use Rattle.std.specs.VecDeque.{deque_len, deque_capacity};
ghost use Rattle.pmd_access.specs.Asks.{Asks, fault_in};
ghost use Rattle.pmd_rx.specs.Acts.{ActsAlone};
ghost use Rattle.pmd_rx.specs.Burst.{HasPart};
ghost use Rattle.pmd_rx.specs.Keeping.{numbers_of_all};
ghost use Rattle.pmd_rx.specs.Receive.{parts_first, posts_one, posts_all};
ghost use Rattle.pmd_rx.specs.Shown.{HandsOne, HandsAll, IsTailWritten, IsUnwritten};

use crate::ring::ReceiveRing;
use pmd_access::{Nic, Packet, PmdFault, write};
use std::alloc::Global;
use std::collections::VecDeque;

impl ReceiveRing {
    /// Advances the tail by `more` slots.
    ///
    /// Fails with `DeviceFault` if the port has no register with the tail's number.
    fn write_tail<N: Nic>(&self, alloc: Global, nic: &mut N, more: u16) -> Result<(), PmdFault>
        requires { length self.now.layout.blocks + more ≤ self.now.layout.size }
        ensures asks { Asks N.began N.refuses (fault_in result) nic.old nic.new }
        ensures made { OnOk result (IsTailWritten (N.made nic.old) (N.made nic.new) self.now.layout more true) }
        ensures failed { IfErr result (λ f.
            IsUnwritten f (N.made nic.old) (N.made nic.new) self.now.layout more) }
    {
        let word = u32::from(self.slot(self.posted + more));
        match write(alloc, nic, self.port, self.tail, word) {
            Ok(true) => Ok(()),
            Ok(false) => Err(PmdFault::DeviceFault),
            Err(fault) => Err(PmdFault::Call(fault)),
        }
    }

    /// Advances the tail over the blocks that replace the oldest complete packet, and hands that packet out.
    ///
    /// Fails with `DeviceFault` if the port has no register with the tail's number.
    pub(crate) fn post_one<N: Nic>(
        &mut self,
        alloc: Global,
        nic: &mut N,
    ) -> Result<Packet, PmdFault>
        requires { 0 < length self.old.whole }
        ensures asks { Asks N.began N.refuses (fault_in result) nic.old nic.new }
        ensures acts { ActsAlone (fault_in result) (N.made nic.old) self.old (N.made nic.new) self.new }
        ensures hands { IfOk result (λ packet. HandsOne self.old self.new packet) }
        ensures kept { OnErr result (self.new ≡ self.old) }
    {
        let parts = self.first_parts();
        match self.write_tail(alloc, nic, parts) {
            Ok(()) => Ok(self.hand_one()),
            Err(fault) => Err(fault),
        }
    }

    /// Returns the number of parts in the oldest complete packet.
    fn first_parts(&self) -> u16
        requires { 0 < length self.now.whole }
        ensures parts { result ≡ parts_first self.now.whole }
        ensures few { result ≤ length self.now.named }
        ensures room { length self.now.layout.blocks + length self.now.named < self.now.layout.size }
        ensures some { All HasPart self.now.whole }
        ensures one { 0 < result }
    {
        self.whole[0].bufs.count() as u16
    }

    /// Hands out the oldest complete packet. The blocks that replace this packet's blocks have just been posted.
    fn hand_one(&mut self) -> Packet
        requires { 0 < length self.old.whole }
        ensures left { self.new ≡ posts_one self.old }
        ensures packet { take 1 self.old.whole ≡ result ∷ [] }
    {
        let Some(packet) = self.whole.pop_front() else {
            unreachable!()
        };
        self.posted += packet.bufs.count() as u16;
        self.handed += 1;
        packet
    }

    /// Advances the tail over all named blocks. The driver must not hold a part of a packet. Appends the complete
    /// packets to `out`, which has room for them.
    ///
    /// Fails with `DeviceFault` if the port has no register with the tail's number.
    pub(crate) fn post_all<N: Nic>(
        &mut self,
        alloc: Global,
        nic: &mut N,
        out: &mut VecDeque<Packet>,
    ) -> Result<(), PmdFault>
        requires some { 0 < length self.old.named }
        requires none { length self.old.held.bufs ≡ 0 }
        requires room { length self.old.whole + deque_len out.old ≤ deque_capacity out.old }
        ensures asks { Asks N.began N.refuses (fault_in result) nic.old nic.new }
        ensures acts { ActsAlone (fault_in result) (N.made nic.old) self.old (N.made nic.new) self.new }
        ensures moved { OnOk result (self.new ≡ posts_all self.old) }
        ensures out { OnOk result (out.new.items ≡ out.old.items ++ self.old.whole) }
        ensures hands { OnOk result (HandsAll self.old self.new) }
        ensures kept { OnErr result (self.new ≡ self.old) }
        ensures same { OnErr result (out.new.items ≡ out.old.items) }
    {
        let named = self.named();
        match self.write_tail(alloc, nic, named) {
            Ok(()) => {
                self.hand_all(out);
                Ok(())
            }
            Err(fault) => Err(fault),
        }
    }

    /// Returns the number of blocks that descriptors after the tail name.
    fn named(&self) -> u16
        ensures named { result ≡ length self.now.named }
        ensures room { length self.now.layout.blocks + result < self.now.layout.size }
        ensures next { self.now.layout.next < self.now.layout.size }
        ensures some { All HasPart self.now.whole }
        ensures replaced { length (numbers_of_all self.now.whole) ≤ result }
    {
        self.slots.len() as u16 - self.posted
    }

    /// Hands out the complete packets. All named blocks have just been posted.
    fn hand_all(&mut self, out: &mut VecDeque<Packet>)
        requires none { length self.old.held.bufs ≡ 0 }
        requires room { length self.old.whole + deque_len out.old ≤ deque_capacity out.old }
        ensures left { self.new ≡ posts_all self.old }
        ensures out { out.new.items ≡ out.old.items ++ self.old.whole }
    {
        hand_over(&mut self.whole, out);
        self.posted = self.slots.len() as u16;
        self.handed = self.records.len();
    }
}

/// Moves all packets to the end of `out`, in order. `out` has room for them.
fn hand_over(packets: &mut VecDeque<Packet>, out: &mut VecDeque<Packet>)
    requires { length packets.old.items + deque_len out.old ≤ deque_capacity out.old }
    ensures out { out.new.items ≡ out.old.items ++ packets.old.items }
    ensures none { packets.new.items ≡ [] }
{
    for _packet in 0..packets.len() {
        match packets.pop_front() {
            Some(packet) => out.push_back_reserved(packet),
            None => unreachable!(),
        }
    }
}
