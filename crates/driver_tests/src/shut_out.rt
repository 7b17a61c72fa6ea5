//! A worker ends early for one reason, and then its driver fails to stop for another reason. The first reason is
//! reported.

use crate::bench::{end, in_hand, make, stepped, stops};
use crate::outcome::{Hand, done, emptied, empty, fail, push, same, sees, some};
use device_lock::{Pass, Shared};
use nic_device::{Arena, Event, Port, Reply};
use pmd::{Gate, Job, Pmd, Ran, Rest, WorkerEnd, WorkerFault, run_workers};
use std::alloc::AllocGlobal;
use std::process::Abort;
use std::sync::{Mutex, Wait};

/// The runtime of a gate that makes calls on a shared device.
trait Caller: Abort + Wait + AllocGlobal {}

impl<R: Abort + Wait + AllocGlobal> Caller for R {}

/// A shared device without virtual functions.
type Bench = Shared<0, 64>;

/// A gate that lets nobody pass. When the worker arrives, the gate stops all steps of the device through bit 2 of CTRL.
struct Shutting<'a, R> {
    rt: &'a R,
    bench: &'a Bench,
    pass: Mutex<Pass>,
}

/// A write through a pass.
fn write(rt: &impl Caller, bench: &Bench, pass: &mut Pass, address: u32, word: u32) {
    let event = Event::Write(Port::Pf, address, word);
    match done(rt, bench.call(rt, rt.alloc(), pass, event)) {
        Reply::Done => {}
        _other => fail(rt, "another reply"),
    }
}

impl<'a, R: Caller> Gate for Shutting<'a, R> {
    fn pass(&self, worker: usize, _point: u8) -> bool {
        if worker == 0 {
            let mut pass = self.pass.lock(self.rt);
            write(self.rt, self.bench, &mut *pass, 0x00000, 0x0000_0004); // CTRL
        }
        false
    }

    fn leave(&self, _worker: usize) {}
}

/// A job on queue 0.
fn job(rt: &impl Hand, pass: Pass) -> Vec<Job> {
    let job = Job {
        pass,
        port: Port::Pf,
        queue: 0,
        pf_queue: 0,
        size: 8,
        frame: 1518,
        arena: done(rt, Arena::new(rt.alloc(), 4, 32)),
        rounds: 1,
    };
    let mut jobs = empty(rt);
    push(rt, &mut jobs, job);
    jobs
}

/// Runs the job at a gate, without frames. Returns the worker's outcome.
fn run<G: Gate + Sync>(
    rt: &impl Hand,
    gate: &G,
    bench: &Bench,
    jobs: Vec<Job>,
    host: &mut Pass,
) -> WorkerEnd {
    let Ran { mut ends, fed } = done(
        rt,
        run_workers(rt, rt.alloc(), gate, bench, jobs, host, empty(rt)),
    );
    same(rt, fed, 0);
    let end = some(rt, ends.pop());
    emptied(rt, ends);
    end
}

/// Runs the job at a gate that shuts the worker out. Returns the worker's outcome, and the passes of the gate and of
/// the calling thread.
fn ended(rt: &impl Hand, bench: &Bench, passes: Vec<Pass>) -> (WorkerEnd, Vec<Pass>) {
    let mut passes = passes;
    let mut host = some(rt, passes.pop());
    let jobs = job(rt, some(rt, passes.pop()));
    let gate = Shutting {
        rt,
        bench,
        pass: Mutex::new(some(rt, passes.pop())),
    };
    emptied(rt, passes);
    let end = run(rt, &gate, bench, jobs, &mut host);
    let Shutting {
        rt: _,
        bench: _,
        pass: own,
    } = gate;
    let passes = done(rt, Vec::from_array(rt.alloc(), [own.into_inner(), host]));
    (end, passes)
}

/// Checks that the worker was shut out and its driver couldn't be stopped, because no side is disabled while no device
/// steps run. Returns the pass and the driver.
fn is_shut_out(rt: &impl Hand, end: WorkerEnd) -> (Pass, Pmd) {
    let WorkerEnd {
        pass,
        rest,
        reports,
        fault,
    } = end;
    sees(rt, matches!(fault, Some(WorkerFault::GateShut)));
    same(rt, reports.len(), 0);
    match rest {
        Rest::Home(_home) => fail(rt, "the driver has stopped"),
        Rest::Running(pmd) => (pass, pmd),
    }
}

/// Runs one worker, closes the device, and stops the driver after device steps run again.
fn shut_one_out(rt: &impl Hand) {
    let (bench, passes) = done(rt, Bench::new(rt.alloc(), 1, 3, 100_000));
    let (ended, passes) = ended(rt, &bench, passes);
    let (pass, pmd) = is_shut_out(rt, ended);
    let mut passes = passes;
    push(rt, &mut passes, pass);
    let closed = done(rt, bench.close(passes));
    let mut direct = stepped(rt, closed.into_device());
    make(rt, &mut direct, Event::Write(Port::Pf, 0x00000, 0)); // CTRL
    stops(rt, &mut direct, pmd, (0, 0));
    same(rt, end(rt, in_hand(direct)).len(), 0);
}

/// If the gate shuts the worker out and stopping the driver then times out, the outcome reports the shut gate.
#[test]
fn the_first_fault_of_a_worker_is_reported(rt: HostRuntime) {
    shut_one_out(&rt);
}
