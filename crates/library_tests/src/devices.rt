//! An event on an owned device, and a run of several events, with allocations that fail.

use crate::outcome::{done, none, put, some};
use crate::sums::{START, end_device, with, with_device, with_event};
use crate::trial::{Trial, tried};
use nic_device::{Arena, Config, Device, Dir, Event, Octets, OutOfMemory, Port, Reply, RunStop};
use std::alloc::Global;
use std::process::Abort;
use std::sync::Wait;

/// Register writes, by address and word, that enable reception and give queue 0 a ring of eight slots in each
/// direction. The receive ring is at byte 0 of block 0, and the transmit ring at byte 1,024 of that block. Slot 0 of
/// each ring belongs to the device.
#[rattlefmt::skip]
const WRITES: [(u32, u32); 11] = [
    (0x03000, 1),            // RXCTRL
    (0x05080, 0x700),        // FCTRL
    (0x01008, 128),          // RDLEN
    (0x01014, 0x0200_0002),  // SRRCTL
    (0x01028, 0x0200_0000),  // RXDCTL
    (0x01018, 1),            // RDT
    (0x04A80, 0x8100_0001),  // DMATXCTL
    (0x06000, 0x400),        // TDBAL
    (0x06008, 128),          // TDLEN
    (0x06028, 0x0200_0000),  // TXDCTL
    (0x06018, 1),            // TDT
];

/// A receive descriptor with block 1 as its buffer.
const POSTED: [u8; 16] = [0, 8, 0, 0, 0, 0, 0, 0, 0, 0, 0, 0, 0, 0, 0, 0];

/// A transmit descriptor of a 60-byte frame in block 2, with report status set.
const OUTGOING: [u8; 16] = [0, 16, 0, 0, 0, 0, 0, 0, 60, 0, 0x30, 0x2B, 0, 0, 15, 0];

/// Returns a 60-byte frame.
pub fn frame<R: Abort>(rt: &R, alloc: Global) -> Octets {
    let mut bytes = Vec::new(alloc);
    for number in 0..60u8 {
        bytes.push(number).expect(rt, "memory");
    }
    Octets::of(bytes)
}

/// Runs an event and checks that the reply is `Done`.
fn make<R: Abort>(rt: &R, device: &mut Device, event: Event) {
    match done(rt, device.step(event)) {
        Reply::Done => {}
        _other => panic!(rt; "not done"),
    }
}

/// Returns a device with a ready queue 0, and an arena whose blocks 0 to 2 are lent to the device.
pub fn ready<R: Abort>(rt: &R, alloc: Global) -> (Device, Arena) {
    let mut device = done(rt, Device::new(alloc, Config { vfs: 0, fifo: 64 }));
    let mut arena = done(rt, Arena::new(alloc, 0, 24));
    for block in 0..3 {
        make(rt, &mut device, Event::Lend(some(rt, arena.take_at(block))));
    }
    make(rt, &mut device, Event::Poke16(0, POSTED));
    make(rt, &mut device, Event::Poke16(0x400, OUTGOING));
    for (address, word) in WRITES {
        make(rt, &mut device, Event::Write(Port::Pf, address, word));
    }
    make(rt, &mut device, Event::QueueStep(Dir::Rx, 0));
    make(rt, &mut device, Event::QueueStep(Dir::Tx, 0));
    (device, arena)
}

/// Returns the event that lends block 3, which has contents.
pub fn to_lend<R: Abort>(rt: &R, arena: &mut Arena) -> Event {
    lending(rt, arena, 3)
}

/// Returns the event that lends a block, which has contents.
fn lending<R: Abort>(rt: &R, arena: &mut Arena, block: u32) -> Event {
    let mut buf = some(rt, arena.take_at(block));
    buf.bytes_mut()[100] = 0xA5;
    Event::Lend(buf)
}

/// Returns a checksum of the reply to an event.
pub fn number_of<R: Abort>(rt: &R, reply: Reply) -> u64 {
    match reply {
        Reply::Done => 1,
        Reply::Idle => 2,
        Reply::Word(word) => with(3, u64::from(word)),
        Reply::Sent { queue: _, len, .. } => with(4, len as u64),
        Reply::Wrote { queue: _, len, .. } => with(5, len as u64),
        _other => panic!(rt; "another reply"),
    }
}

/// An event for a device to run.
struct Stepping {
    device: Device,
    arena: Arena,
    event: Option<Event>,
    sum: u64,
}

impl Stepping {
    /// Creates the event, on a device that is ready for it. The default event lends block 23, for which the table of
    /// lent blocks has no entry yet.
    fn new<R: Abort>(rt: &R, alloc: Global, event: Option<Event>) -> Stepping {
        let (device, mut arena) = ready(rt, alloc);
        let event = match event {
            Some(event) => event,
            None => lending(rt, &mut arena, 23),
        };
        Stepping {
            device,
            arena,
            event: Some(event),
            sum: START,
        }
    }
}

impl Trial for Stepping {
    fn call<R: Abort + Wait>(&mut self, rt: &R, _alloc: Global) -> bool {
        match self.device.step(some(rt, self.event.take())) {
            Ok(reply) => {
                self.sum = with(self.sum, number_of(rt, reply));
                true
            }
            Err(OutOfMemory(event)) => {
                put(rt, &mut self.event, event);
                false
            }
        }
    }

    fn picture<R: Abort>(&mut self, rt: &R) -> u64 {
        with_device(rt, with_event(self.sum, &self.event), &mut self.device)
    }

    fn end<R: Abort + Wait>(self, rt: &R, _alloc: Global) -> u64 {
        let Stepping {
            mut device,
            arena,
            event,
            mut sum,
        } = self;
        none(rt, event);
        for _step in 0..2 {
            sum = with(sum, number_of(rt, done(rt, device.step(Event::RxStep))));
        }
        end_device(rt, sum, device, arena)
    }
}

#[test]
fn a_block_is_lent_to_a_device(rt: HostRuntime) {
    let alloc = rt.alloc();
    let subject = Stepping::new(&rt, alloc, None);
    let calm = Stepping::new(&rt, alloc, None);
    tried(&rt, alloc, subject, calm);
}

#[test]
fn a_frame_arrives(rt: HostRuntime) {
    let alloc = rt.alloc();
    let subject = Stepping::new(&rt, alloc, Some(Event::Arrive(frame(&rt, alloc))));
    let calm = Stepping::new(&rt, alloc, Some(Event::Arrive(frame(&rt, alloc))));
    tried(&rt, alloc, subject, calm);
}

#[test]
fn a_frame_is_sent(rt: HostRuntime) {
    let alloc = rt.alloc();
    let subject = Stepping::new(&rt, alloc, Some(Event::TxStep(0)));
    let calm = Stepping::new(&rt, alloc, Some(Event::TxStep(0)));
    tried(&rt, alloc, subject, calm);
}

/// Events for a device to run. After a refusal, the events that already ran aren't undone.
struct Running {
    device: Device,
    arena: Arena,
    events: Option<Vec<Event>>,
    sum: u64,
}

impl Running {
    /// Creates five events: a block is lent, a frame arrives and is written, a frame is sent, and a register is read.
    fn new<R: Abort>(rt: &R, alloc: Global) -> Running {
        let (device, mut arena) = ready(rt, alloc);
        let list = [
            to_lend(rt, &mut arena),
            Event::Arrive(frame(rt, alloc)),
            Event::RxStep,
            Event::TxStep(0),
            Event::Read(Port::Pf, 0x04074),
        ];
        let events = match Vec::from_array(alloc, list) {
            Ok(events) => events,
            Err(_refused) => panic!(rt; "memory"),
        };
        Running {
            device,
            arena,
            events: Some(events),
            sum: START,
        }
    }

    /// Adds replies to the running checksum.
    fn note<R: Abort>(&mut self, rt: &R, replies: Vec<Reply>) {
        let mut replies = replies;
        replies.reverse();
        for _reply in 0..replies.len() {
            let reply = some(rt, replies.pop());
            self.sum = with(self.sum, number_of(rt, reply));
        }
        assert!(rt; replies.is_empty());
        replies.destroy_empty();
    }
}

impl Trial for Running {
    fn call<R: Abort + Wait>(&mut self, rt: &R, alloc: Global) -> bool {
        match self.device.run(alloc, some(rt, self.events.take())) {
            Ok(replies) => {
                self.note(rt, replies);
                true
            }
            Err(RunStop { replies, rest }) => {
                self.note(rt, replies);
                put(rt, &mut self.events, rest);
                false
            }
        }
    }

    fn picture<R: Abort>(&mut self, _rt: &R) -> u64 {
        0
    }

    fn end<R: Abort + Wait>(self, rt: &R, _alloc: Global) -> u64 {
        let Running {
            device,
            arena,
            events,
            sum,
        } = self;
        none(rt, events);
        end_device(rt, sum, device, arena)
    }
}

#[test]
fn a_list_of_events_is_run(rt: HostRuntime) {
    let alloc = rt.alloc();
    let subject = Running::new(&rt, alloc);
    let calm = Running::new(&rt, alloc);
    tried(&rt, alloc, subject, calm);
}
