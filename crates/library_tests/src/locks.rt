//! A device that several passes share.

use crate::devices::{frame, number_of, to_lend};
use crate::outcome::{done, none, put, some};
use crate::sums::{START, end_device, with, with_event};
use crate::trial::{Trial, tried};
use device_lock::{CallFault, Closed, Entry, Locked, NewFault, Pass, Shared};
use nic_device::{Arena, Event, Port, Reply};
use std::alloc::Global;
use std::process::Abort;
use std::sync::Wait;

/// A shared device without virtual functions.
pub type Bench = Shared<0, 64>;

/// A shared device with a single pass.
pub struct Opened {
    /// The shared device.
    pub bench: Bench,
    /// The only pass of the device.
    pub pass: Pass,
    /// The blocks for the pass's calls.
    pub arena: Arena,
}

/// Register writes, by address and word, that enable reception.
const ACCEPTING: [(u32, u32); 2] = [(0x03000, 1), (0x05080, 0x700)];

/// Opens a shared device that accepts frames.
pub fn open_bench<R: Abort + Wait>(rt: &R, alloc: Global) -> Opened {
    let (bench, mut passes) = done(rt, Bench::new(alloc, 7, 1, 100));
    let mut pass = some(rt, passes.pop());
    for (address, word) in ACCEPTING {
        let event = Event::Write(Port::Pf, address, word);
        let _number = number_of(rt, done(rt, bench.call(rt, alloc, &mut pass, event)));
    }
    let arena = done(rt, Arena::new(alloc, 0, 8));
    Opened { bench, pass, arena }
}

/// Closes a shared device with its pass.
pub fn closed<R: Abort>(rt: &R, alloc: Global, bench: Bench, pass: Pass) -> Closed<0, 64> {
    let mut passes = Vec::new(alloc);
    passes.push(pass).expect(rt, "memory");
    done(rt, bench.close(passes))
}

/// Adds a history to a checksum: its number of entries, the numbers of lent blocks, and the lengths of the frames that
/// arrived.
pub fn with_history(sum: u64, history: &[Entry]) -> u64 {
    let mut sum = with(sum, history.len() as u64);
    for entry in history {
        match &entry.event {
            Event::Lend(note) => sum = with(sum, u64::from(note.number())),
            Event::Arrive(frame) => sum = with(sum, frame.bytes().len() as u64),
            _other => {}
        }
    }
    sum
}

/// Returns the number of entries in a history that lend a block.
pub fn lends_in(closed: &Closed<0, 64>) -> u64 {
    let mut lends: u64 = 0;
    for entry in closed.history() {
        if let Event::Lend(_note) = &entry.event {
            lends = lends.saturating_add(1);
        }
    }
    lends
}

/// Returns the event to run: a frame arrives, or a block is lent.
fn event_of<R: Abort>(rt: &R, alloc: Global, arena: &mut Arena, arrives: bool) -> Event {
    if arrives {
        Event::Arrive(frame(rt, alloc))
    } else {
        to_lend(rt, arena)
    }
}

/// Returns the checksum of the reply if the event ran. If the event was refused for lack of memory, puts the event
/// back.
fn answered<R: Abort>(
    rt: &R,
    answer: Result<Reply, CallFault>,
    event: &mut Option<Event>,
) -> Option<u64> {
    match answer {
        Ok(reply) => Some(number_of(rt, reply)),
        Err(CallFault::OutOfMemory(back)) => {
            put(rt, event, back);
            None
        }
        Err(CallFault::ForeignPass(_) | CallFault::HistoryFull(_)) => {
            panic!(rt; "another refusal")
        }
    }
}

/// A call for a pass to make.
struct Calling {
    opened: Opened,
    event: Option<Event>,
    sum: u64,
}

impl Calling {
    fn new<R: Abort + Wait>(rt: &R, alloc: Global, arrives: bool) -> Calling {
        let mut opened = open_bench(rt, alloc);
        let event = event_of(rt, alloc, &mut opened.arena, arrives);
        Calling {
            opened,
            event: Some(event),
            sum: START,
        }
    }
}

impl Trial for Calling {
    fn call<R: Abort + Wait>(&mut self, rt: &R, alloc: Global) -> bool {
        let Opened {
            bench,
            pass,
            arena: _,
        } = &mut self.opened;
        let answer = bench.call(rt, alloc, pass, some(rt, self.event.take()));
        match answered(rt, answer, &mut self.event) {
            Some(number) => {
                self.sum = with(self.sum, number);
                true
            }
            None => false,
        }
    }

    fn picture<R: Abort>(&mut self, _rt: &R) -> u64 {
        with_event(self.opened.pass.calls().kept().0.len() as u64, &self.event)
    }

    fn end<R: Abort + Wait>(self, rt: &R, alloc: Global) -> u64 {
        let Calling {
            opened: Opened { bench, pass, arena },
            event,
            sum,
        } = self;
        none(rt, event);
        let closed = closed(rt, alloc, bench, pass);
        let sum = with_history(sum, closed.history());
        end_device(rt, sum, closed.into_device(), arena)
    }
}

/// Tests a pass's call.
fn calls<R: Abort + Wait + Print>(rt: &R, alloc: Global, arrives: bool) {
    let subject = Calling::new(rt, alloc, arrives);
    let calm = Calling::new(rt, alloc, arrives);
    tried(rt, alloc, subject, calm);
}

#[test]
fn a_pass_lends_a_block(rt: HostRuntime) {
    calls(&rt, rt.alloc(), false);
}

#[test]
fn a_frame_arrives_by_a_pass(rt: HostRuntime) {
    calls(&rt, rt.alloc(), true);
}

/// An event to run on the locked part of a shared device, outside the lock.
struct Stepping {
    locked: Locked<0, 64>,
    arena: Arena,
    event: Option<Event>,
    sum: u64,
}

impl Stepping {
    fn new<R: Abort>(rt: &R, alloc: Global, arrives: bool) -> Stepping {
        let mut locked = done(rt, Locked::new(alloc, 100));
        for (address, word) in ACCEPTING {
            let event = Event::Write(Port::Pf, address, word);
            let _number = number_of(rt, done(rt, locked.step(alloc, 0, event)));
        }
        let mut arena = done(rt, Arena::new(alloc, 0, 8));
        let event = event_of(rt, alloc, &mut arena, arrives);
        Stepping {
            locked,
            arena,
            event: Some(event),
            sum: START,
        }
    }
}

impl Trial for Stepping {
    fn call<R: Abort + Wait>(&mut self, rt: &R, alloc: Global) -> bool {
        let answer = self.locked.step(alloc, 0, some(rt, self.event.take()));
        match answered(rt, answer, &mut self.event) {
            Some(number) => {
                self.sum = with(self.sum, number);
                true
            }
            None => false,
        }
    }

    fn picture<R: Abort>(&mut self, _rt: &R) -> u64 {
        with_event(u64::from(self.locked.entries_of(0)), &self.event)
    }

    fn end<R: Abort + Wait>(self, rt: &R, _alloc: Global) -> u64 {
        let Stepping {
            locked,
            arena,
            event,
            sum,
        } = self;
        none(rt, event);
        let unlocked = locked.unlock();
        let sum = with_history(sum, unlocked.history());
        end_device(rt, sum, unlocked.into_device(), arena)
    }
}

/// Tests a step of the locked part.
fn steps<R: Abort + Wait + Print>(rt: &R, alloc: Global, arrives: bool) {
    let subject = Stepping::new(rt, alloc, arrives);
    let calm = Stepping::new(rt, alloc, arrives);
    tried(rt, alloc, subject, calm);
}

#[test]
fn a_step_under_the_lock_lends_a_block(rt: HostRuntime) {
    steps(&rt, rt.alloc(), false);
}

#[test]
fn a_frame_arrives_by_a_step_under_the_lock(rt: HostRuntime) {
    steps(&rt, rt.alloc(), true);
}

/// A shared device to create.
struct Opening {
    made: Option<(Bench, Vec<Pass>)>,
}

impl Trial for Opening {
    fn call<R: Abort + Wait>(&mut self, rt: &R, alloc: Global) -> bool {
        match Bench::new(alloc, 7, 3, 100) {
            Ok(made) => {
                put(rt, &mut self.made, made);
                true
            }
            Err(NewFault::OutOfMemory) => false,
            Err(NewFault::Passes | NewFault::Limit) => panic!(rt; "another refusal"),
        }
    }

    fn picture<R: Abort>(&mut self, _rt: &R) -> u64 {
        0
    }

    fn end<R: Abort + Wait>(self, rt: &R, alloc: Global) -> u64 {
        let Opening { made } = self;
        let (bench, passes) = some(rt, made);
        let count = passes.len() as u64;
        let closed = done(rt, bench.close(passes));
        let arena = done(rt, Arena::new(alloc, 0, 1));
        end_device(
            rt,
            with_history(count, closed.history()),
            closed.into_device(),
            arena,
        )
    }
}

#[test]
fn a_shared_device_is_made(rt: HostRuntime) {
    tried(
        &rt,
        rt.alloc(),
        Opening { made: None },
        Opening { made: None },
    );
}

/// The positions of a pass's entries in a closed history.
struct Positions {
    closed: Closed<0, 64>,
    arena: Arena,
    found: u64,
}

impl Positions {
    fn new<R: Abort + Wait>(rt: &R, alloc: Global) -> Positions {
        let Opened { bench, pass, arena } = open_bench(rt, alloc);
        Positions {
            closed: closed(rt, alloc, bench, pass),
            arena,
            found: 0,
        }
    }
}

impl Trial for Positions {
    fn call<R: Abort + Wait>(&mut self, _rt: &R, alloc: Global) -> bool {
        match self.closed.of_pass(alloc, 0) {
            Ok(positions) => {
                self.found = positions.len() as u64;
                true
            }
            Err(_) => false,
        }
    }

    fn picture<R: Abort>(&mut self, _rt: &R) -> u64 {
        with_history(START, self.closed.history())
    }

    fn end<R: Abort + Wait>(self, rt: &R, _alloc: Global) -> u64 {
        let Positions {
            closed,
            arena,
            found,
        } = self;
        assert!(rt; found == 2);
        end_device(
            rt,
            with_history(found, closed.history()),
            closed.into_device(),
            arena,
        )
    }
}

#[test]
fn the_calls_of_a_pass_are_found(rt: HostRuntime) {
    let alloc = rt.alloc();
    let subject = Positions::new(&rt, alloc);
    let calm = Positions::new(&rt, alloc);
    tried(&rt, alloc, subject, calm);
}
