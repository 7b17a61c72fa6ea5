//! The calls made on an owned device, listed one by one and as a history.

use crate::devices::number_of;
use crate::outcome::{done, none, put, some};
use crate::sums::{START, end_device, with};
use crate::trial::{Trial, tried};
use device_lock::{Call, Calls, Entry};
use nic_device::{Arena, Config, Device, Event, Port, Reply};
use pmd::{history_of, marked_history};
use std::alloc::Global;
use std::process::Abort;
use std::sync::Wait;

/// The queue with idle steps between the calls.
const QUEUE: u16 = 5;

/// Calls to list one by one, and the device on which they were made.
struct Listing {
    device: Device,
    arena: Arena,
    calls: Option<Calls>,
    listed: Option<Vec<Call>>,
}

/// Adds a call to a checksum.
fn with_call(sum: u64, call: &Call) -> u64 {
    let sum = match &call.event {
        Event::Write(_port, address, word) => {
            with(with(with(sum, 1), u64::from(*address)), u64::from(*word))
        }
        Event::QueueStep(_dir, queue) => with(with(sum, 2), u64::from(*queue)),
        Event::TxStep(queue) => with(with(sum, 3), u64::from(*queue)),
        Event::RxStep => with(sum, 4),
        _other => with(sum, 5),
    };
    match &call.reply {
        Reply::Done => with(sum, 1),
        Reply::Idle => with(sum, 2),
        _other => with(sum, 3),
    }
}

/// Adds calls to a checksum, in their stored form.
fn with_calls(sum: u64, calls: &Calls) -> u64 {
    let (made, rested) = calls.kept();
    let mut sum = with(with(sum, made.len() as u64), rested.count() as u64);
    for it in made {
        sum = with_call(with(sum, it.rested.count() as u64), &it.call);
    }
    sum
}

impl Listing {
    /// Creates the calls of three writes, with idle steps before each and after the last.
    fn new<R: Abort>(rt: &R, alloc: Global) -> Listing {
        let mut device = done(rt, Device::new(alloc, Config { vfs: 0, fifo: 64 }));
        let mut calls = Calls::new(alloc);
        for word in 1..4u32 {
            assert!(rt; calls.rest(&device, QUEUE), "the steps aren't idle");
            let event = Event::Write(Port::Pf, 0x05400, word);
            let _number = number_of(rt, done(rt, calls.make(alloc, &mut device, event)));
        }
        assert!(rt; calls.rest(&device, QUEUE), "the steps aren't idle");
        Listing {
            device,
            arena: done(rt, Arena::new(alloc, 0, 1)),
            calls: Some(calls),
            listed: None,
        }
    }
}

impl Trial for Listing {
    fn call<R: Abort + Wait>(&mut self, rt: &R, alloc: Global) -> bool {
        match some(rt, self.calls.take()).into_vec(alloc) {
            Ok(listed) => {
                put(rt, &mut self.listed, listed);
                true
            }
            Err(calls) => {
                put(rt, &mut self.calls, calls);
                false
            }
        }
    }

    fn picture<R: Abort>(&mut self, _rt: &R) -> u64 {
        match &self.calls {
            Some(calls) => with_calls(START, calls),
            None => 0,
        }
    }

    fn end<R: Abort + Wait>(self, rt: &R, _alloc: Global) -> u64 {
        let Listing {
            device,
            arena,
            calls,
            listed,
        } = self;
        none(rt, calls);
        let listed = some(rt, listed);
        let mut sum = with(START, listed.len() as u64);
        for call in &listed {
            sum = with_call(sum, call);
        }
        assert!(rt; listed.len() == 19, "calls are absent");
        end_device(rt, sum, device, arena)
    }
}

#[test]
fn the_calls_are_listed(rt: HostRuntime) {
    let alloc = rt.alloc();
    let subject = Listing::new(&rt, alloc);
    let calm = Listing::new(&rt, alloc);
    tried(&rt, alloc, subject, calm);
}

/// Calls to return as a history, either all of one pass or split by marks.
struct Telling {
    is_marked: bool,
    calls: Option<Vec<Call>>,
    reported: Option<Vec<Entry>>,
}

/// Marks which of three calls are the driver's own.
const MARKS: [bool; 3] = [true, false, true];

impl Telling {
    /// Creates the calls of three writes.
    fn new<R: Abort>(rt: &R, alloc: Global, is_marked: bool) -> Telling {
        let mut calls = Vec::new(alloc);
        for word in 1..4u32 {
            let call = Call {
                event: Event::Write(Port::Pf, 0x05400, word),
                reply: Reply::Done,
            };
            done(rt, calls.push(call));
        }
        Telling {
            is_marked,
            calls: Some(calls),
            reported: None,
        }
    }
}

impl Trial for Telling {
    fn call<R: Abort + Wait>(&mut self, rt: &R, alloc: Global) -> bool {
        let calls = some(rt, self.calls.take());
        let reported = if self.is_marked {
            marked_history(alloc, calls, &MARKS)
        } else {
            history_of(alloc, calls)
        };
        match reported {
            Ok(reported) => {
                put(rt, &mut self.reported, reported);
                true
            }
            Err(calls) => {
                put(rt, &mut self.calls, calls);
                false
            }
        }
    }

    fn picture<R: Abort>(&mut self, _rt: &R) -> u64 {
        let mut sum = START;
        if let Some(calls) = &self.calls {
            for call in calls {
                sum = with_call(sum, call);
            }
        }
        sum
    }

    fn end<R: Abort + Wait>(self, rt: &R, _alloc: Global) -> u64 {
        let Telling {
            is_marked,
            calls,
            reported,
        } = self;
        none(rt, calls);
        let reported = some(rt, reported);
        let foreign = reported.iter().filter(|it| it.pass == 1).count();
        assert!(rt; reported.len() == 3, "calls are absent");
        assert!(rt;
            foreign == usize::from(is_marked),
            "a call is of another pass"
        );
        foreign as u64
    }
}

#[test]
fn calls_of_a_device_in_hand_are_reported_as_a_history(rt: HostRuntime) {
    let alloc = rt.alloc();
    let subject = Telling::new(&rt, alloc, false);
    let calm = Telling::new(&rt, alloc, false);
    tried(&rt, alloc, subject, calm);
}

#[test]
fn marked_calls_are_reported_as_a_history(rt: HostRuntime) {
    let alloc = rt.alloc();
    let subject = Telling::new(&rt, alloc, true);
    let calm = Telling::new(&rt, alloc, true);
    tried(&rt, alloc, subject, calm);
}
