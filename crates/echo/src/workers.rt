//! Two workers, each with its own thread and queue, send back what they receive. Then the history is checked for each
//! worker.

use nic_device::{Arena, Mode, Parts, Port};
use pmd::{
    CloseRefused, Closed, Doubt, Driven, Given, Home, Job, Lockstep, Pass, PmdFault, Ran, Rest,
    RunFault, RunRefused, Setup, Shared, ThroughLock, Watched, WorkerEnd, WorkerFault, leave,
};
use std::alloc::{AllocError, Global};
use std::sync::Wait;
use std::thread::Threads;
use thiserror::Error;

/// Why the program fails.
#[derive(Debug, Drop, Error)]
pub enum Failure {
    #[error("there was no memory for a device, blocks or frames")]
    NoMemory(#[from] AllocError),
    #[error("the device wasn't set up: {0:?}")]
    Driver(#[from] PmdFault),
    #[error("no worker started: {0:?}")]
    NoRun(RunFault),
    #[error("a worker ended early: {0:?}")]
    Worker(WorkerFault),
    #[error("the history has this against a worker's driver: {0:?}")]
    Doubted(Doubt),
    #[error("a block isn't home, or a pass is missing")]
    Away,
    #[error("no line was written")]
    Unwritten(#[from] std::io::Error),
}

type Done = Result<(), Failure>;
/// A device without virtual functions and with room for 64 waiting frames.
type Bench = Shared<0, 64>;

/// The number of blocks of each worker, and the maximum length of a frame in bytes with its check sequence.
const BLOCKS: u32 = 128;

const FRAME: u16 = 1518;

/// A TCP segment over IPv4. Its source port, at bytes 34 and 35, determines the flow.
const SEGMENT: [u8; 60] =
    *b"\x02\x00\x00\x00\x00\x01\x02\x00\x00\x00\x00\x02\x08\x00\x45\x00\x00\x28\x00\x00\
\x00\x00\x40\x06\x00\x00\x42\x09\x95\xbb\xa1\x8e\x64\x50\x0a\xea\x06\xe6\x00\x00\
\x00\x00\x00\x00\x00\x00\x50\x10\x00\x00\x00\x00\x00\x00\x00\x00\x00\x00\x00\x00";

/// Runs the program.
pub fn run<R: Print + Threads + Wait + Sync>(rt: &R, alloc: Global) -> Done {
    let made = Bench::new(alloc, 1, 3, 100_000);
    let (bench, passes) = made.map_err(|_| Failure::NoMemory(AllocError))?;
    match drive(rt, alloc, &bench, passes) {
        Ok(passes) => close(bench, passes)?,
        Err(failure) => return Err(leave(bench, failure)),
    }
    Ok(println!(rt; "the history left both queues alone")?)
}

/// Sets up the device through the third pass, and runs a worker with each other pass. While the workers run, delivers
/// frames through the third pass.
fn drive<R: Print + Threads + Wait + Sync>(
    rt: &R,
    alloc: Global,
    bench: &Bench,
    passes: Vec<Pass>,
) -> Result<Vec<Pass>, Failure> {
    let mut passes = passes;
    let third = passes.pop().ok_or(Failure::Away)?;
    let mut nic = ThroughLock::new(rt, bench, third, 0);
    let set_up = pmd::pf_setup(alloc, &mut nic, &setup());
    let mut third = nic.finish();
    set_up?;
    let frames = frames(alloc)?;
    let jobs = jobs(alloc, passes)?;
    let gate = Lockstep::new(rt, 3);
    match pmd::run_workers(rt, alloc, &gate, bench, jobs, &mut third, frames) {
        Ok(Ran { ends, fed: _ }) => {
            let mut passes = tell(rt, alloc, ends)?;
            passes
                .push(third)
                .map_err(|_| Failure::NoMemory(AllocError))?;
            Ok(passes)
        }
        Err(
            RunRefused {
                fault,
                jobs,
                frames: _,
            },
        ) => Err(leave(jobs, Failure::NoRun(fault))),
    }
}

/// Accepts frames to any address. RSS distributes the frames with TCP over IPv4 among the queues: entry i of the
/// redirection table names queue i mod 2.
fn setup() -> Setup {
    let mut reta = [0; 128];
    for entry in 0..128u8 {
        reta[usize::from(entry)] = entry % 2;
    }
    Setup {
        mode: Mode::Off,
        mrqc: 0x0001_0001,
        key: [0x6D; 40],
        reta,
        promiscuous: true,
        frame: FRAME,
    }
}

/// Creates 40 frames, each in a different flow.
fn frames(alloc: Global) -> Result<Vec<Vec<u8>>, Failure> {
    let mut frames = Vec::new(alloc);
    for port in 0..40u8 {
        let mut frame = SEGMENT;
        frame[35] = port;
        frames
            .push(frame.to_vec(alloc)?)
            .map_err(|_| Failure::NoMemory(AllocError))?;
    }
    Ok(frames)
}

/// Returns the first block of the worker with this number.
fn first_of(number: u8) -> u32 {
    BLOCKS * u32::from(number)
}

/// Creates a job for each pass: the driver of the queue with the pass's number, polling for packets 100 times.
fn jobs(alloc: Global, passes: Vec<Pass>) -> Result<Vec<Job>, Failure> {
    let mut jobs = Vec::new(alloc);
    let mut number = 0;
    for pass in passes {
        let Ok(arena) = Arena::new(alloc, first_of(number), BLOCKS) else {
            return Err(leave(jobs, Failure::NoMemory(AllocError)));
        };
        let job = Job {
            pass,
            port: Port::Pf,
            queue: u16::from(number),
            pf_queue: u16::from(number),
            size: 64,
            frame: FRAME,
            arena,
            rounds: 100,
        };
        if let Err(job) = jobs.push(job) {
            return Err(leave((jobs, job), Failure::NoMemory(AllocError)));
        }
        number = number.saturating_add(1);
    }
    Ok(jobs)
}

/// Prints how many packets each worker reported, disposes of the worker's driver, and returns the passes.
fn tell<R: Print>(rt: &R, alloc: Global, ends: Vec<WorkerEnd>) -> Result<Vec<Pass>, Failure> {
    let mut ends = ends;
    let mut passes = Vec::new(alloc);
    let mut done = Ok(());
    ends.reverse();
    while let Some(
        WorkerEnd {
            pass,
            rest,
            reports,
            fault,
        },
    ) = ends.pop()
    {
        let reported = println!(rt; "queue {}: {} packets", passes.len(), reports.len());
        done = done
            .and(end(rest, fault))
            .and(reported.map_err(Failure::Unwritten));
        if passes.push(pass).is_err() {
            done = Err(Failure::NoMemory(AllocError));
        }
    }
    ends.destroy_empty();
    done?;
    Ok(passes)
}

/// Disposes of a worker's driver or of its arena. Unless the driver couldn't be stopped, all blocks are back in the
/// arena.
fn end(rest: Rest, fault: Option<WorkerFault>) -> Done {
    match rest {
        Rest::Home(
            Home {
                arena,
                lost: _,
                handed: _,
                accepted: _,
            },
        ) => {
            arena.close().map_err(|it| leave(it, Failure::Away))?;
        }
        Rest::Running(pmd) => return Err(leave(pmd, Failure::Away)),
    }
    fault.map_or(Ok(()), |it| Err(Failure::Worker(it)))
}

/// Closes the history and uses it to judge both workers' drivers.
fn close(bench: Bench, passes: Vec<Pass>) -> Done {
    let closed = match bench.close(passes) {
        Ok(closed) => closed,
        Err(
            CloseRefused {
                fault: _,
                shared,
                passes: _,
            },
        ) => return Err(leave(shared, Failure::Away)),
    };
    let asked = ask(&closed, 0).and(ask(&closed, 1));
    let Parts {
        memory,
        frames: _,
        image: _,
    } = closed.into_device().dismantle();
    memory.finish().map_err(|it| leave(it, Failure::Away))?;
    asked
}

/// Checks whether the laws apply to a worker's driver, given this history. If they apply, the driver's packets are in
/// order, and none is lost.
fn ask(closed: &Closed<0, 64>, number: u8) -> Done {
    let queue = u16::from(number);
    let watched = Watched {
        vfs: 0,
        pass: number,
        queue,
    };
    let given = Given {
        port: Port::Pf,
        queue,
        frame: FRAME,
    };
    let driven = Driven {
        watched,
        from: 0,
        given,
        first: first_of(number),
        count: BLOCKS,
    };
    pmd::judge(&driven, closed.history()).map_err(Failure::Doubted)
}
