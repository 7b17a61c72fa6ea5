//! The run of one worker: its state when it reaches its last point, and its outcome after that.

use crate::bench::{PLAIN, close, end, word_in};
use crate::outcome::{
    Hand, done, emptied, empty, fail, push, same, same_bytes, same_pair, sees, some,
};
use device_lock::{Pass, Shared};
use nic_device::{Arena, Event, Octets, Port, Reply};
use pmd::{Gate, Job, Lockstep, Ran, Rest, Setup, ThroughLock, WorkerEnd, pf_setup, run_workers};
use std::alloc::AllocGlobal;
use std::process::Abort;
use std::sync::{Mutex, Wait};

/// The runtime of a gate that makes calls on a shared device.
trait Caller: Abort + Wait + AllocGlobal {}

impl<R: Abort + Wait + AllocGlobal> Caller for R {}

/// A shared device without virtual functions.
type Bench = Shared<0, 64>;

/// The setup for the longest frames.
const LONG: Setup = Setup {
    frame: 9728,
    ..PLAIN
};

/// What the gate saw of the device: whether both sides of queue 0 are enabled, and the transmitted frame, which is
/// empty if there is none.
struct Seen {
    is_on: bool,
    frame: Octets,
}

/// A gate at which a worker and the calling thread meet. When the worker reaches point 2, the gate looks at the device
/// through its own pass.
struct Looking<'a, R> {
    rt: &'a R,
    bench: &'a Bench,
    meeting: Lockstep<'a, R>,
    pass: Mutex<Pass>,
    seen: Mutex<Vec<Seen>>,
}

/// Makes a call through a pass. Returns its reply.
fn reply(rt: &impl Caller, bench: &Bench, pass: &mut Pass, event: Event) -> Reply {
    done(rt, bench.call(rt, rt.alloc(), pass, event))
}

/// Whether the side of queue 0 with this control register is enabled.
fn is_on(rt: &impl Caller, bench: &Bench, pass: &mut Pass, register: u32) -> bool {
    let word = word_in(rt, reply(rt, bench, pass, Event::Read(Port::Pf, register)));
    word & 0x0200_0000 != 0
}

/// The oldest transmitted frame, or an empty one if there is none.
fn collected(rt: &impl Caller, bench: &Bench, pass: &mut Pass) -> Octets {
    match reply(rt, bench, pass, Event::Collect) {
        Reply::Frame { bytes, .. } => bytes,
        Reply::Idle => Octets::of(Vec::new(rt.alloc())),
        _other => fail(rt, "another reply"),
    }
}

/// Looks at the device.
fn look(rt: &impl Caller, bench: &Bench, pass: &mut Pass) -> Seen {
    let receives = is_on(rt, bench, pass, 0x01028); // RXDCTL
    let sends = is_on(rt, bench, pass, 0x06028); // TXDCTL
    Seen {
        is_on: receives && sends,
        frame: collected(rt, bench, pass),
    }
}

impl<'a, R: Caller> Gate for Looking<'a, R> {
    fn pass(&self, worker: usize, point: u8) -> bool {
        if worker == 0 && point == 2 {
            let seen = {
                let mut pass = self.pass.lock(self.rt);
                look(self.rt, self.bench, &mut *pass)
            };
            push(self.rt, &mut *self.seen.lock(self.rt), seen);
        }
        self.meeting.pass(worker, point)
    }

    fn leave(&self, worker: usize) {
        self.meeting.leave(worker);
    }
}

/// A 9,000-byte broadcast frame, which takes five Bufs.
fn frame(rt: &impl Hand) -> Vec<u8> {
    let mut bytes = done(rt, Vec::from_array(rt.alloc(), [0xFF; 6]));
    for number in 6..9000_u16 {
        push(rt, &mut bytes, (number % 251) as u8);
    }
    bytes
}

/// A 59-byte frame, which is too short to be accepted, followed by the long frame.
fn frames(rt: &impl Hand) -> Vec<Vec<u8>> {
    let short = done(rt, Vec::from_array(rt.alloc(), [0xFF; 59]));
    done(rt, Vec::from_array(rt.alloc(), [short, frame(rt)]))
}

/// Sets the device up for the longest frames.
fn set_up(rt: &impl Hand, bench: &Bench, pass: Pass) -> Pass {
    let mut nic = ThroughLock::new(rt, bench, pass, 0);
    done(rt, pf_setup(rt.alloc(), &mut nic, &LONG));
    nic.finish()
}

/// A job on queue 0 that polls once for a packet.
fn job(rt: &impl Hand, pass: Pass) -> Vec<Job> {
    let job = Job {
        pass,
        port: Port::Pf,
        queue: 0,
        pf_queue: 0,
        size: 16,
        frame: 9728,
        arena: done(rt, Arena::new(rt.alloc(), 0, 32)),
        rounds: 1,
    };
    let mut jobs = empty(rt);
    push(rt, &mut jobs, job);
    jobs
}

/// Runs the job while both frames arrive. Checks that one frame is accepted. Returns the worker's outcome.
fn run<G: Gate + Sync>(
    rt: &impl Hand,
    gate: &G,
    bench: &Bench,
    jobs: Vec<Job>,
    host: &mut Pass,
) -> WorkerEnd {
    let Ran { mut ends, fed } = done(
        rt,
        run_workers(rt, rt.alloc(), gate, bench, jobs, host, frames(rt)),
    );
    same(rt, fed, 1);
    let end = some(rt, ends.pop());
    emptied(rt, ends);
    end
}

/// Checks that the worker received one packet, sent it, and got all blocks back. Returns its pass.
fn has_echoed(rt: &impl Hand, end: WorkerEnd) -> Pass {
    let WorkerEnd {
        pass,
        rest,
        reports,
        fault,
    } = end;
    sees(rt, fault.is_none());
    same(rt, reports.len(), 1);
    match rest {
        Rest::Home(home) => same_pair(rt, close(rt, home), (1, 1)),
        Rest::Running(_pmd) => fail(rt, "the driver runs on"),
    }
    pass
}

/// Runs the job at a `Looking` gate. Returns the passes of the calling thread, the worker and the gate, and what the
/// gate saw.
fn watched(rt: &impl Hand, bench: &Bench, passes: Vec<Pass>) -> (Vec<Pass>, Vec<Seen>) {
    let mut passes = passes;
    let mut host = set_up(rt, bench, some(rt, passes.pop()));
    let jobs = job(rt, some(rt, passes.pop()));
    let gate = Looking {
        rt,
        bench,
        meeting: Lockstep::new(rt, 2),
        pass: Mutex::new(some(rt, passes.pop())),
        seen: Mutex::new(empty(rt)),
    };
    emptied(rt, passes);
    let pass = has_echoed(rt, run(rt, &gate, bench, jobs, &mut host));
    let Looking {
        rt: _,
        bench: _,
        meeting: _,
        pass: own,
        seen,
    } = gate;
    let passes = done(
        rt,
        Vec::from_array(rt.alloc(), [own.into_inner(), pass, host]),
    );
    (passes, seen.into_inner())
}

/// Checks that the worker reached its last point once, with its queue enabled and the frame transmitted.
fn saw_it_done(rt: &impl Hand, seen: Vec<Seen>) {
    let mut seen = seen;
    let Seen { is_on, frame: out } = some(rt, seen.pop());
    sees(rt, is_on);
    same_bytes(rt, out.bytes(), frame(rt).as_slice());
    emptied(rt, seen);
}

/// Runs one worker and closes the device.
fn run_one(rt: &impl Hand) {
    let (bench, passes) = done(rt, Bench::new(rt.alloc(), 1, 3, 100_000));
    let (passes, seen) = watched(rt, &bench, passes);
    saw_it_done(rt, seen);
    let closed = done(rt, bench.close(passes));
    same(rt, end(rt, closed.into_device()).len(), 0);
}

/// A worker polls once for a packet, then reaps until the packet's five descriptors are done, which takes one call
/// each. Therefore the frame is already transmitted when the worker reaches its last point. The worker stops its driver
/// only after that point.
#[test]
fn a_worker_reaps_all_before_its_last_point_and_stops_after_it(rt: HostRuntime) {
    run_one(&rt);
}
