//! A driver that receives and sends several packets at once.

use crate::bench::{
    are_first_frames, arrive, end, frame_of, holds_frame, in_hand, opened, reap, started_with,
    stops,
};
use crate::outcome::{Hand, done, same};
use device_lock::Calls;
use nic_device::{Event, Octets, Port};
use pmd::{Direct, Packet, Pmd};
use std::collections::VecDeque;

/// The tail registers of queue 0. Writing one hands descriptors to the device.
const RDT: u32 = 0x1018;

const TDT: u32 = 0x6018;

/// The number of calls that wrote this register through the physical function.
fn writes(calls: &Calls, register: u32) -> usize {
    let (made, _rested) = calls.kept();
    let mut writes: usize = 0;
    for it in made {
        if matches!(it.call.event, Event::Write(Port::Pf, number, _) if number == register) {
            writes = writes.saturating_add(1);
        }
    }
    writes
}

/// A device, a driver of its queue 0, and the received packets that haven't been sent yet.
struct Bursts {
    direct: Direct,
    pmd: Pmd,
    packets: VecDeque<Packet>,
}

impl Bursts {
    /// Creates a device and a driver with rings of this size and `count` blocks starting at block 4.
    fn new(rt: &impl Hand, size: u16, count: u32) -> Bursts {
        let mut direct = opened(rt, 64, 0);
        let pmd = started_with(rt, &mut direct, size, (4, count));
        Bursts {
            direct,
            pmd,
            packets: VecDeque::new(rt.alloc()),
        }
    }

    /// Delivers the frames with numbers `first` to `after` - 1.
    fn arrive(&mut self, rt: &impl Hand, first: u16, after: u16) {
        for number in first..after {
            arrive(rt, &mut self.direct, frame_of(rt, number));
        }
    }

    /// Receives a burst of at most `most` packets and appends them. Returns their number.
    fn received(&mut self, rt: &impl Hand, most: u16) -> u16 {
        done(
            rt,
            self.pmd
                .rx_burst(rt.alloc(), &mut self.direct, most, &mut self.packets),
        )
    }

    /// Sends the packets in a burst, which frees sent packets if fewer than `vacant` slots are free. Returns the number
    /// of packets accepted.
    fn sent(&mut self, rt: &impl Hand, vacant: u16) -> u16 {
        done(
            rt,
            self.pmd
                .tx_burst(rt.alloc(), &mut self.direct, vacant, &mut self.packets),
        )
    }

    /// The number of calls so far that wrote a register through the physical function.
    fn writes(&self, register: u32) -> usize {
        writes(self.direct.calls(), register)
    }

    /// Checks that the packets are the frames with numbers 0 to `count` - 1.
    fn are_frames(&self, rt: &impl Hand, count: u16) {
        let mut number: u16 = 0;
        for packet in self.packets.iter() {
            holds_frame(rt, packet, number);
            number = number.saturating_add(1);
        }
        same(rt, usize::from(number), usize::from(count));
    }

    /// Stops the driver and closes the device after all packets were sent. Checks that `count` packets were returned
    /// and accepted. Returns the transmitted frames.
    fn end(self, rt: &impl Hand, count: usize) -> Vec<(u8, Octets)> {
        let Bursts {
            mut direct,
            mut pmd,
            packets,
        } = self;
        assert!(rt; packets.is_empty());
        packets.destroy_empty();
        reap(rt, &mut direct, &mut pmd);
        stops(rt, &mut direct, pmd, (count, count));
        let frames = end(rt, in_hand(direct));
        same(rt, frames.len(), count);
        frames
    }
}

/// Receives the first 40 packets in bursts of at most 32. Each burst that returns packets writes the tail once.
fn forty_come(rt: &impl Hand, bursts: &mut Bursts) {
    bursts.arrive(rt, 0, 40);
    let before = bursts.writes(RDT);
    same(rt, usize::from(bursts.received(rt, 32)), 32);
    same(rt, bursts.writes(RDT), before.saturating_add(1));
    same(rt, usize::from(bursts.received(rt, 32)), 8);
    same(rt, usize::from(bursts.received(rt, 32)), 0);
    same(rt, bursts.writes(RDT), before.saturating_add(2));
}

/// Receives forty packets in bursts and sends them in one burst.
fn forty_come_and_go(rt: &impl Hand) {
    let mut bursts = Bursts::new(rt, 64, 128);
    forty_come(rt, &mut bursts);
    bursts.are_frames(rt, 40);
    let before = bursts.writes(TDT);
    same(rt, usize::from(bursts.sent(rt, 0)), 40);
    same(rt, bursts.writes(TDT), before.saturating_add(1));
    are_first_frames(rt, bursts.end(rt, 40).as_slice(), 40);
}

#[test]
fn packets_come_and_go_by_bursts_with_one_tail_write_each(rt: HostRuntime) {
    forty_come_and_go(&rt);
}

/// A step of the test. Frames arrive, with numbers from the first number up to the one before the second. Or a burst
/// receives at most this many packets. Or a burst sends packets, and frees sent packets if fewer than this many slots
/// are free.
#[derive(Clone, Copy)]
enum Step {
    Arrive(u16, u16),
    Receive(u16),
    Send(u16),
}

/// The steps, and the number of packets that each burst reports.
const STEPS: [(Step, u16); 8] = [
    (Step::Arrive(0, 3), 0),
    (Step::Receive(7), 3),
    (Step::Send(0), 3),
    (Step::Arrive(3, 9), 0),
    (Step::Receive(7), 6),
    (Step::Send(0), 4),
    (Step::Send(0), 0),
    (Step::Send(1), 2),
];

/// Runs a step. Returns the number of packets that the burst reports.
fn make_step(rt: &impl Hand, bursts: &mut Bursts, step: Step) -> u16 {
    match step {
        Step::Arrive(first, after) => {
            bursts.arrive(rt, first, after);
            0
        }
        Step::Receive(most) => bursts.received(rt, most),
        Step::Send(vacant) => bursts.sent(rt, vacant),
    }
}

/// Runs these steps with rings of 8 slots, through which nine packets are received and sent.
fn make_steps(rt: &impl Hand, steps: &[(Step, u16)]) {
    let mut bursts = Bursts::new(rt, 8, 32);
    for (step, wanted) in steps {
        let reported = make_step(rt, &mut bursts, *step);
        same(rt, usize::from(reported), usize::from(*wanted));
    }
    bursts.end(rt, 9);
}

/// With rings of 8 slots, at most seven packets can be outstanding. While the blocks of three transmitted packets
/// aren't freed, a burst sends four more. Only a burst that frees these blocks sends the last two.
#[test]
fn a_burst_frees_what_was_sent_where_too_few_slots_are_vacant(rt: HostRuntime) {
    make_steps(&rt, &STEPS);
}
