//! A driver among random foreign events, none of which touches its queue.

use crate::bench::{
    close, opened, reap, reap_once, received, release, started, stepped, stopped, taken_apart,
};
use crate::history::{DRIVER, OTHERS, add_entries, finished, is_left_alone};
use crate::interleaved::during;
use crate::others::{Others, Random};
use crate::outcome::{Hand, done, empty, fail, push, same, sees, some};
use crate::schedule::{Left, all_home, finish, take_all};
use device_lock::Entry;
use nic_device::{Buf, Device, Event, LentMemory, Octets, Reply};
use pmd::{Direct, Home, Nic, Packet, Pmd, Record, TxAnswer};
use std::collections::VecDeque;

/// The seeds of the schedules.
#[rattlefmt::skip]
pub const SEEDS: [u32; 20] = [
    1, 2, 3, 5, 7, 11, 82_599, 1_000_003, 0x2021_1123, 0x1234_5678,
    0x5555_5555, 0x7FFF_FFFF, 0x8000_0000, 0x8086_10FB, 0x9E37_79B9,
    0xAAAA_AAAA, 0xC0DE_CAFE, 0xDEAD_BEEF, 0xFFFF_0000, 0xFFFF_FFFF,
];

/// What a history says about queue 0: the waiting frames, the written frames, the numbers of arrived and transmitted
/// frames, and the collected frames.
#[derive(Drop)]
struct Tally<'a> {
    waiting: VecDeque<&'a [u8]>,
    written: Vec<&'a [u8]>,
    arrived: u32,
    sent: u32,
    collected: Vec<&'a [u8]>,
}

impl<'a> Tally<'a> {
    /// The tally of an empty history.
    fn new(rt: &impl Hand) -> Self {
        Tally {
            waiting: VecDeque::new(rt.alloc()),
            written: empty(rt),
            arrived: 0,
            sent: 0,
            collected: empty(rt),
        }
    }

    /// Adds one entry of the history.
    fn add(&mut self, rt: &impl Hand, entry: &'a Entry) {
        match (&entry.event, &entry.reply) {
            (Event::Arrive(frame), Reply::Done) => {
                self.arrived = self.arrived.saturating_add(1);
                done(rt, self.waiting.push_back(frame.bytes()));
            }
            (Event::RxStep, Reply::Wrote { end, len, .. }) => {
                let frame = some(rt, self.waiting.pop_front());
                sees(rt, *end && frame.len() == *len);
                push(rt, &mut self.written, frame);
            }
            (Event::RxStep, Reply::Dropped(_)) => {
                let _frame = some(rt, self.waiting.pop_front());
            }
            (Event::TxStep(_), Reply::Sent { .. }) => self.sent = self.sent.saturating_add(1),
            (Event::Collect, Reply::Frame { bytes, .. }) => {
                push(rt, &mut self.collected, bytes.bytes());
            }
            _other => {}
        }
    }

    /// Adds these further entries.
    fn add_all(&mut self, rt: &impl Hand, history: &'a [Entry]) {
        for entry in history {
            self.add(rt, entry);
        }
    }
}

/// Whether the records are the first of these frames, in order.
fn are_first(records: &[Record], frames: &[&[u8]]) -> bool {
    let mut number: usize = 0;
    for record in records {
        match frames.get(number) {
            Some(frame) if record.bytes() == *frame => number = number.saturating_add(1),
            _other => return false,
        }
    }
    true
}

/// Sends a packet. If the ring is full, releases the packet.
fn offer<N: Nic>(rt: &impl Hand, nic: &mut N, pmd: &mut Pmd, packet: Packet) {
    match done(rt, pmd.tx(rt.alloc(), nic, packet)) {
        TxAnswer::Taken => {}
        TxAnswer::RingFull(packet) => release(rt, pmd, packet),
    }
}

/// Runs the driver for this many rounds. Each round sends back a received packet, sometimes sends one of the driver's
/// own packets, and sometimes reaps.
fn drive<N: Nic>(rt: &impl Hand, random: &mut Random, nic: &mut N, pmd: &mut Pmd, rounds: usize) {
    for _round in 0..rounds {
        match received(rt, nic, pmd) {
            Some(packet) => offer(rt, nic, pmd, packet),
            None => {}
        }
        if random.byte() % 4 == 0 {
            let packet = some(rt, pmd.packet(1 + u16::from(random.byte())));
            offer(rt, nic, pmd, packet);
        }
        if random.byte() % 2 == 0 {
            reap_once(rt, nic, pmd);
        }
    }
}

/// A driver among random events, what remains of its `Interleaved`, and the history of the calls made earlier.
struct During {
    pmd: Pmd,
    left: Left,
    history: Vec<Entry>,
}

/// Starts a driver among random events, and runs it.
fn driven(rt: &impl Hand, others: &mut Others) -> During {
    let lists = others.lists(rt, 2500);
    let mut history = empty(rt);
    let device = finished(rt, &mut history, OTHERS, opened(rt, 64, 0));
    let mut nic = during(rt, device, lists);
    let mut pmd = started(rt, &mut nic);
    drive(rt, &mut others.random, &mut nic, &mut pmd, 190);
    let left = finish(rt, nic);
    During { pmd, left, history }
}

/// Checks that the returned packets are the first frames that were written for queue 0 in a history, and that no more
/// packets were transmitted than accepted. The history must leave queue 0 alone.
fn is_well(rt: &impl Hand, history: &[Entry], pmd: &Pmd) {
    sees(rt, is_left_alone(history));
    let mut tally = Tally::new(rt);
    tally.add_all(rt, history);
    sees(rt, are_first(pmd.handed(), tally.written.as_slice()));
    sees(rt, tally.sent as usize <= pmd.accepted().len());
}

/// Brings the link up and runs only the steps of the driver's queue before each call. The driver returns all waiting
/// frames, and all accepted packets are transmitted.
fn settle(rt: &impl Hand, others: &mut Others, nic: &mut Direct, pmd: &mut Pmd) {
    match done(rt, nic.call(rt.alloc(), Event::Link(true))) {
        Reply::Done | Reply::Idle => {}
        _other => fail(rt, "the link"),
    }
    drive(rt, &mut others.random, nic, pmd, 100);
    reap(rt, nic, pmd);
}

/// The value of a device's register.
fn word(rt: &impl Hand, device: &Device, address: u32) -> usize {
    some(rt, device.peek_register(address)) as usize
}

/// Checks that the counters agree with the history.
fn counts_agree(rt: &impl Hand, device: &Device, tally: &Tally<'_>) {
    same(rt, word(rt, device, 0x04074), tally.arrived as usize); // GPRC
    same(rt, word(rt, device, 0x01030), tally.written.len()); // QPRC
    same(rt, word(rt, device, 0x06030), tally.sent as usize); // QPTC
}

/// Checks that the records are exactly these frames.
fn are_all(rt: &impl Hand, records: &[Record], frames: &[&[u8]]) {
    same(rt, records.len(), frames.len());
    sees(rt, are_first(records, frames));
}

/// Checks that all written frames were returned, and that these transmitted frames are all accepted packets.
fn all_agree(rt: &impl Hand, home: Home, tally: &Tally<'_>, out: &[&[u8]]) {
    are_all(rt, home.handed.as_slice(), tally.written.as_slice());
    are_all(rt, home.accepted.as_slice(), out);
    let (_handed, accepted) = close(rt, home);
    same(rt, accepted, tally.sent as usize);
}

/// The end of a run among random events: the driver is stopped, the test owns the device, and the history is complete.
struct Settled {
    home: Home,
    device: Device,
    history: Vec<Entry>,
    bufs: Vec<Buf>,
    foreign: usize,
}

/// Runs a driver among random events and checks it. Lets it settle, stops it, and checks that its queue was left alone.
fn driven_and_stopped(rt: &impl Hand, others: &mut Others) -> Settled {
    let During {
        mut pmd,
        left,
        mut history,
    } = driven(rt, others);
    let Left {
        device,
        history: later,
        foreign,
        bufs,
    } = left;
    add_entries(rt, &mut history, later);
    is_well(rt, history.as_slice(), &pmd);
    let mut direct = stepped(rt, device);
    settle(rt, others, &mut direct, &mut pmd);
    let home = stopped(rt, &mut direct, pmd);
    let device = finished(rt, &mut history, DRIVER, direct);
    sees(rt, is_left_alone(history.as_slice()));
    Settled {
        home,
        device,
        history,
        bufs,
        foreign,
    }
}

/// All transmitted frames, the collected ones first.
fn out<'a>(rt: &impl Hand, collected: &[&'a [u8]], frames: &'a [(u8, Octets)]) -> Vec<&'a [u8]> {
    let mut out: Vec<&[u8]> = empty(rt);
    for frame in collected {
        push(rt, &mut out, *frame);
    }
    for (_queue, frame) in frames {
        push(rt, &mut out, frame.bytes());
    }
    out
}

/// Checks that the counters, the driver's returned and accepted packets, and the transmitted frames agree with the
/// history. Returns the memory that is lent to the device.
fn tally_agrees(rt: &impl Hand, device: Device, home: Home, history: &[Entry]) -> LentMemory {
    let mut tally = Tally::new(rt);
    tally.add_all(rt, history);
    counts_agree(rt, &device, &tally);
    let (memory, frames) = taken_apart(device);
    let out = out(rt, tally.collected.as_slice(), frames.as_slice());
    all_agree(rt, home, &tally, out.as_slice());
    memory
}

/// Runs a schedule from a seed. Returns the number of foreign events.
fn among_events_of(rt: &impl Hand, seed: u32) -> usize {
    let mut others = Others::new(rt, seed);
    let Settled {
        home,
        device,
        history,
        mut bufs,
        foreign,
    } = driven_and_stopped(rt, &mut others);
    let memory = tally_agrees(rt, device, home, history.as_slice());
    take_all(rt, &mut bufs, memory);
    let arenas = done(rt, Vec::from_array(rt.alloc(), others.into_arenas()));
    let _away = all_home(rt, bufs, arenas);
    foreign
}

/// In total, 100,000 foreign events occur, none of which touches the driver's queue. The driver returns the first of
/// the frames written for its queue, and in the end all of them. The device transmits the first of the packets that the
/// driver accepted, and in the end all of them.
#[test]
fn a_driver_is_well_among_random_events(rt: HostRuntime) {
    let mut made: usize = 0;
    for seed in SEEDS {
        made = made.saturating_add(among_events_of(&rt, seed));
    }
    sees(&rt, made >= 100_000);
}
