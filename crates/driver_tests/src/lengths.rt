//! Which packet lengths a driver sends, and how many packets a reap counts.

use crate::bench::{PLAIN, Why, end, in_hand, release, set_up, stops};
use crate::driver::unsent;
use crate::outcome::{Hand, done, fail, same, some};
use crate::rig::Rig;
use nic_device::{Arena, Port};
use pmd::{Packet, Pmd, Reaped, Setup};

/// A device and a driver of queue 0 for frames of up to `frame` bytes, including the frame check sequence.
fn rig_for(rt: &impl Hand, frame: u16) -> Rig {
    let mut direct = set_up(rt, 64, 0, &Setup { frame, ..PLAIN });
    let arena = done(rt, Arena::new(rt.alloc(), 4, 64));
    let start = Pmd::start(rt.alloc(), &mut direct, Port::Pf, 0, 16, frame, arena);
    let pmd = done(rt, start);
    Rig { direct, pmd }
}

/// Stops the driver and closes the device. Checks that `count` packets were accepted and as many frames transmitted.
fn ends_after(rt: &impl Hand, rig: Rig, count: usize) {
    let Rig { mut direct, pmd } = rig;
    stops(rt, &mut direct, pmd, (0, count));
    same(rt, end(rt, in_hand(direct)).len(), count);
}

/// A packet of this many bytes.
fn packet_of(rt: &impl Hand, rig: &mut Rig, len: u16) -> Packet {
    some(rt, rig.pmd.packet(len))
}

/// A packet with Bufs for `held` bytes that claims to be `more` bytes longer.
fn claiming(rt: &impl Hand, rig: &mut Rig, held: u16, more: u16) -> Packet {
    let mut packet = packet_of(rt, rig, held);
    packet.len = held.saturating_add(more);
    packet
}

/// The maximum frame length of a driver, and the length of the longest packet that it sends. A packet that is one byte
/// longer isn't sent.
const LONGEST: [(u16, u16); 4] = [(1518, 1514), (1519, 1515), (4100, 4096), (9728, 9724)];

/// Checks that a packet of the longest length is sent, and that a longer packet is returned.
fn is_the_longest(rt: &impl Hand, (frame, longest): (u16, u16)) {
    let mut rig = rig_for(rt, frame);
    let packet = packet_of(rt, &mut rig, longest);
    rig.send(rt, packet);
    rig.reap(rt);
    let packet = packet_of(rt, &mut rig, longest.saturating_add(1));
    let packet = unsent(rt, &mut rig.direct, &mut rig.pmd, packet, Why::BadSize);
    release(rt, &mut rig.pmd, packet);
    ends_after(rt, rig, 1);
}

/// Four bytes of the maximum frame length are reserved for the frame check sequence.
#[test]
fn the_longest_packet_is_sent_and_no_longer_one(rt: HostRuntime) {
    for row in LONGEST {
        is_the_longest(&rt, row);
    }
}

/// Checks that a 2,048-byte packet is sent from one Buf, and that a 2,049-byte packet isn't.
fn sends_what_its_bufs_hold(rt: &impl Hand) {
    let mut rig = rig_for(rt, 9728);
    let packet = claiming(rt, &mut rig, 2000, 48);
    rig.send(rt, packet);
    rig.reap(rt);
    let packet = claiming(rt, &mut rig, 2000, 49);
    let packet = unsent(rt, &mut rig.direct, &mut rig.pmd, packet, Why::BadSize);
    release(rt, &mut rig.pmd, packet);
    ends_after(rt, rig, 1);
}

#[test]
fn a_packet_is_as_long_as_its_bufs(rt: HostRuntime) {
    sends_what_its_bufs_hold(&rt);
}

/// The total number of packets that reaps count until no packet is outstanding.
fn all_freed(rt: &impl Hand, rig: &mut Rig) -> u16 {
    let mut all: u16 = 0;
    for _turn in 0..20 {
        let Reaped { freed, idle } = done(rt, rig.pmd.reap(rt.alloc(), &mut rig.direct));
        all = all.saturating_add(freed);
        if idle {
            return all;
        }
    }
    fail(rt, "packets stay outstanding")
}

/// Sends packets of three, one and five Bufs, which count as three packets.
fn counts_packets(rt: &impl Hand) {
    let mut rig = rig_for(rt, 9728);
    for len in [5000, 60, 9000] {
        let packet = packet_of(rt, &mut rig, len);
        rig.send(rt, packet);
    }
    same(rt, usize::from(all_freed(rt, &mut rig)), 3);
    ends_after(rt, rig, 3);
}

#[test]
fn reaps_count_packets_and_not_their_bufs(rt: HostRuntime) {
    counts_packets(&rt);
}
