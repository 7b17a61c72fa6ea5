//! Workers that run on threads.

use crate::devices::frame;
use crate::drivers::{PLAIN, arena_of};
use crate::locks::Bench;
use crate::outcome::{done, some};
use device_lock::{CallFault, Pass};
use nic_device::{Arena, Parts, Port};
use pmd::{
    Job, Lockstep, PmdFault, Ran, Rest, RunFault, RunRefused, Setup, ThroughLock, WorkerEnd,
    WorkerFault, pf_setup, run_workers,
};
use std::alloc::Global;
use std::process::Abort;
use std::sync::Wait;
use std::thread::Threads;

/// The setup with hashing. Frames of an unknown kind go to queue 0.
const SETUP: Setup = Setup { mrqc: 1, ..PLAIN };

/// Returns two workers' jobs, on queues 0 and 1.
fn jobs<R: Abort>(rt: &R, alloc: Global, passes: Vec<Pass>) -> Vec<Job> {
    let mut jobs = Vec::new(alloc);
    for pass in passes {
        let queue = u16::from(pass.tag() % 2);
        let job = Job {
            pass,
            port: Port::Pf,
            queue,
            pf_queue: queue,
            size: 8,
            frame: 1518,
            arena: done(rt, Arena::new(alloc, 32 * u32::from(queue), 32)),
            rounds: 4,
        };
        match jobs.push(job) {
            Ok(()) => {}
            Err(_refused) => panic!(rt; "memory"),
        }
    }
    jobs
}

/// Returns the two frames that arrive.
fn frames<R: Abort>(rt: &R, alloc: Global) -> Vec<Vec<u8>> {
    let mut frames = Vec::new(alloc);
    for _frame in 0..2 {
        frames
            .push(frame(rt, alloc).into_vec())
            .expect(rt, "memory");
    }
    frames
}

/// Runs the workers. If the run is refused, checks that all jobs and frames were returned, and runs the workers again.
fn run_team<R: Abort + Threads + Wait + Sync + Print>(
    rt: &R,
    alloc: Global,
    bench: &Bench,
    host: &mut Pass,
    jobs: Vec<Job>,
) -> Ran {
    let gate = Lockstep::new(rt, 3);
    let frames = frames(rt, alloc);
    let _reported = println!(rt; "call");
    let ran = run_workers(rt, alloc, &gate, bench, jobs, host, frames);
    let _reported = println!(rt; "end");
    match ran {
        Ok(ran) => ran,
        Err(
            RunRefused {
                fault,
                jobs,
                frames,
            },
        ) => {
            assert!(rt; fault == RunFault::OutOfMemory && jobs.len() == 2 && frames.len() == 2);
            done(rt, run_workers(rt, alloc, &gate, bench, jobs, host, frames))
        }
    }
}

/// Whether a worker completed its job. If it didn't, the reason must be lack of memory or lack of a thread.
fn is_whole<R: Abort>(rt: &R, fault: Option<WorkerFault>) -> bool {
    match fault {
        None => true,
        Some(WorkerFault::NoThread) => false,
        Some(WorkerFault::Pmd(PmdFault::Call(CallFault::OutOfMemory(())))) => false,
        Some(_other) => panic!(rt; "another fault"),
    }
}

/// Stops a worker's driver, and checks that no block is lost.
fn bring_home<R: Abort + Wait>(
    rt: &R,
    alloc: Global,
    bench: &Bench,
    pass: Pass,
    rest: Rest,
) -> Pass {
    let (home, pass) = match rest {
        Rest::Home(home) => (home, pass),
        Rest::Running(pmd) => {
            let queue = u16::from(pass.tag() % 2);
            let mut nic = ThroughLock::new(rt, bench, pass, queue);
            let home = done(rt, pmd.stop(alloc, &mut nic));
            (home, nic.finish())
        }
    };
    done(rt, arena_of(rt, home).close());
    pass
}

/// Checks the workers' outcomes, and closes the shared device.
fn settle<R: Abort + Wait>(rt: &R, alloc: Global, bench: Bench, ran: Ran, host: Pass) {
    let Ran { mut ends, fed } = ran;
    let (mut passes, mut all, mut packets) = (Vec::new(alloc), true, 0);
    for _end in 0..ends.len() {
        let WorkerEnd {
            pass,
            rest,
            reports,
            fault,
        } = some(rt, ends.pop());
        all = is_whole(rt, fault) && all;
        packets = reports.len().max(packets);
        passes
            .push(bring_home(rt, alloc, &bench, pass, rest))
            .expect(rt, "memory");
    }
    assert!(rt; ends.is_empty() && fed <= 2 && (!all || packets == fed));
    ends.destroy_empty();
    passes.push(host).expect(rt, "memory");
    let Parts {
        memory,
        frames: _,
        image: _,
    } = done(rt, bench.close(passes)).into_device().dismantle();
    done(rt, memory.finish());
}

/// Whichever allocation of the run fails, both workers return their passes and blocks, and the history closes.
#[test]
fn workers_run(rt: HostRuntime) {
    let alloc = rt.alloc();
    let (bench, mut passes) = done(&rt, Bench::new(alloc, 1, 3, 100_000));
    let mut nic = ThroughLock::new(&rt, &bench, some(&rt, passes.pop()), 0);
    done(&rt, pf_setup(alloc, &mut nic, &SETUP));
    let mut host = nic.finish();
    let jobs = jobs(&rt, alloc, passes);
    let ran = run_team(&rt, alloc, &bench, &mut host, jobs);
    settle(&rt, alloc, bench, ran, host);
}
