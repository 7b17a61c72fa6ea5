//! Calls through each kind of access to a device (`Nic`), with allocations that fail.

use crate::devices::{frame, number_of, ready, to_lend};
use crate::locks::{Bench, Opened, closed, lends_in, open_bench};
use crate::outcome::{done, none, put, some};
use crate::sums::{START, end_device, with, with_event};
use crate::trial::{Trial, tried};
use device_lock::{CallFault, Pass};
use nic_device::{Arena, Device, Event};
use pmd::{Direct, Finished, Interleaved, Nic, ThroughLock};
use std::alloc::Global;
use std::process::Abort;
use std::sync::Wait;

/// Runs the event of a call through a `Nic`, and adds the reply to a checksum. If the call was refused for lack of
/// memory, returns `false` and puts the event back.
fn called<R: Abort, N: Nic>(
    rt: &R,
    alloc: Global,
    nic: &mut N,
    event: &mut Option<Event>,
    sum: &mut u64,
) -> bool {
    match nic.call(alloc, some(rt, event.take())) {
        Ok(reply) => {
            *sum = with(*sum, number_of(rt, reply));
            true
        }
        Err(CallFault::OutOfMemory(back)) => {
            put(rt, event, back);
            false
        }
        Err(CallFault::ForeignPass(_) | CallFault::HistoryFull(_)) => panic!(rt; "another refusal"),
    }
}

/// Access to an owned device.
trait Ends: Nic {
    /// Returns the device, and a checksum with the other replies added.
    fn ended<R: Abort>(self, rt: &R, sum: u64) -> (Device, u64);
}

/// An event to run on an owned device through a `Nic`.
struct InHand<N> {
    nic: N,
    arena: Arena,
    event: Option<Event>,
    sum: u64,
}

impl<N: Ends> Trial for InHand<N> {
    fn call<R: Abort + Wait>(&mut self, rt: &R, alloc: Global) -> bool {
        called(rt, alloc, &mut self.nic, &mut self.event, &mut self.sum)
    }

    fn picture<R: Abort>(&mut self, _rt: &R) -> u64 {
        with_event(self.sum, &self.event)
    }

    fn end<R: Abort + Wait>(self, rt: &R, _alloc: Global) -> u64 {
        let InHand {
            nic,
            arena,
            event,
            sum,
        } = self;
        none(rt, event);
        let (device, sum) = nic.ended(rt, sum);
        end_device(rt, sum, device, arena)
    }
}

impl Ends for Direct {
    fn ended<R: Abort>(self, _rt: &R, sum: u64) -> (Device, u64) {
        let (device, _calls) = self.finish();
        (device, sum)
    }
}

/// Creates a case that lends a block to an owned device.
fn direct<R: Abort>(rt: &R, alloc: Global) -> InHand<Direct> {
    let (device, mut arena) = ready(rt, alloc);
    let event = Some(to_lend(rt, &mut arena));
    InHand {
        nic: Direct::new(alloc, device, 0),
        arena,
        event,
        sum: START,
    }
}

#[test]
fn a_call_to_a_device_in_hand(rt: HostRuntime) {
    let alloc = rt.alloc();
    tried(&rt, alloc, direct(&rt, alloc), direct(&rt, alloc));
}

impl Ends for Interleaved {
    fn ended<R: Abort>(self, rt: &R, sum: u64) -> (Device, u64) {
        let Finished {
            device,
            calls,
            own,
            mut foreign,
            schedule,
        } = self.finish();
        let mut sum = with(sum, calls.kept().0.len() as u64);
        assert!(rt; own.len() == calls.kept().0.len());
        assert!(rt; foreign.len() == 3 && schedule.is_empty());
        schedule.destroy_empty();
        for _reply in 0..3 {
            sum = with(sum, number_of(rt, some(rt, foreign.pop())));
        }
        assert!(rt; foreign.is_empty());
        foreign.destroy_empty();
        (device, sum)
    }
}

/// Creates a case in which a frame arrives among foreign events, one of which lends a block.
fn during<R: Abort>(rt: &R, alloc: Global) -> InHand<Interleaved> {
    let (device, mut arena) = ready(rt, alloc);
    let foreign = [Event::RxStep, to_lend(rt, &mut arena), Event::TxStep(0)];
    let list = match Vec::from_array(alloc, foreign) {
        Ok(list) => list,
        Err(_refused) => panic!(rt; "memory"),
    };
    let schedule = match Vec::from_array(alloc, [list]) {
        Ok(schedule) => schedule,
        Err(_refused) => panic!(rt; "memory"),
    };
    InHand {
        nic: Interleaved::new(alloc, device, schedule),
        arena,
        event: Some(Event::Arrive(frame(rt, alloc))),
        sum: START,
    }
}

#[test]
fn a_call_during_foreign_events(rt: HostRuntime) {
    let alloc = rt.alloc();
    tried(&rt, alloc, during(&rt, alloc), during(&rt, alloc));
}

/// A block to lend through a pass to a shared device.
struct OverPass {
    bench: Bench,
    pass: Option<Pass>,
    arena: Arena,
    event: Option<Event>,
    sum: u64,
}

impl OverPass {
    fn new<R: Abort + Wait>(rt: &R, alloc: Global) -> OverPass {
        let Opened {
            bench,
            pass,
            mut arena,
        } = open_bench(rt, alloc);
        let event = Some(to_lend(rt, &mut arena));
        OverPass {
            bench,
            pass: Some(pass),
            arena,
            event,
            sum: START,
        }
    }
}

impl Trial for OverPass {
    fn call<R: Abort + Wait>(&mut self, rt: &R, alloc: Global) -> bool {
        let mut nic = ThroughLock::new(rt, &self.bench, some(rt, self.pass.take()), 0);
        let made = called(rt, alloc, &mut nic, &mut self.event, &mut self.sum);
        self.pass = Some(nic.finish());
        made
    }

    fn picture<R: Abort>(&mut self, _rt: &R) -> u64 {
        with_event(self.sum, &self.event)
    }

    fn end<R: Abort + Wait>(self, rt: &R, alloc: Global) -> u64 {
        let OverPass {
            bench,
            pass,
            arena,
            event,
            sum,
        } = self;
        none(rt, event);
        let closed = closed(rt, alloc, bench, some(rt, pass));
        let sum = with(sum, lends_in(&closed));
        end_device(rt, sum, closed.into_device(), arena)
    }
}

#[test]
fn a_call_by_a_pass(rt: HostRuntime) {
    let alloc = rt.alloc();
    let subject = OverPass::new(&rt, alloc);
    let calm = OverPass::new(&rt, alloc);
    tried(&rt, alloc, subject, calm);
}
