//! An owned device and a driver of one of its queues, as one value.

use crate::bench::{
    arrive, end, frame_of, holds_bytes, in_hand, opened, reap, received, send, started_with, stops,
};
use crate::outcome::{Hand, some};
use nic_device::Octets;
use pmd::{Direct, Packet, Pmd};

/// A device and its started driver.
pub struct Rig {
    /// The device, which the test owns.
    pub direct: Direct,
    /// The driver of the device's queue.
    pub pmd: Pmd,
}

impl Rig {
    /// Creates a promiscuous device, and a driver of its queue 0 with rings of this size. The driver's blocks are given
    /// as first and count.
    pub fn new(rt: &impl Hand, size: u16, blocks: (u32, u32)) -> Rig {
        let mut direct = opened(rt, 64, 0);
        let pmd = started_with(rt, &mut direct, size, blocks);
        Rig { direct, pmd }
    }

    /// Delivers a frame from the link.
    pub fn arrive(&mut self, rt: &impl Hand, bytes: Vec<u8>) {
        arrive(rt, &mut self.direct, bytes);
    }

    /// The next packet, if one is waiting.
    pub fn received(&mut self, rt: &impl Hand) -> Option<Packet> {
        received(rt, &mut self.direct, &mut self.pmd)
    }

    /// Sends a packet. The ring must have room for it.
    pub fn send(&mut self, rt: &impl Hand, packet: Packet) {
        send(rt, &mut self.direct, &mut self.pmd, packet);
    }

    /// Reaps until no packet is outstanding.
    pub fn reap(&mut self, rt: &impl Hand) {
        reap(rt, &mut self.direct, &mut self.pmd);
    }

    /// Receives the next packet, checks its bytes, and sends it back.
    pub fn echo(&mut self, rt: &impl Hand, frame: &[u8]) {
        let packet = some(rt, self.received(rt));
        holds_bytes(rt, &packet, frame);
        self.send(rt, packet);
    }

    /// Delivers five frames, numbered starting at `first`, checks that they are returned in order, and sends them back.
    fn five_frames(&mut self, rt: &impl Hand, first: u16) {
        for number in first..first.saturating_add(5) {
            self.arrive(rt, frame_of(rt, number));
        }
        for number in first..first.saturating_add(5) {
            self.echo(rt, frame_of(rt, number).as_slice());
        }
        self.reap(rt);
    }

    /// Receives and sends back the frames with numbers below `count`, five at a time.
    pub fn frames(&mut self, rt: &impl Hand, count: u16) {
        for first in (0..count).step_by(5) {
            self.five_frames(rt, first);
        }
    }

    /// Stops the driver. Checks that all its blocks were returned, and checks its numbers of returned and accepted
    /// packets. Returns the transmitted frames.
    pub fn end(self, rt: &impl Hand, packets: (usize, usize)) -> Vec<(u8, Octets)> {
        let Rig { mut direct, pmd } = self;
        stops(rt, &mut direct, pmd, packets);
        end(rt, in_hand(direct))
    }
}
