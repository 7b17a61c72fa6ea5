//! Runs the workers, from the options to the exit status.

ghost use Rattle.std.specs.Prelude.{◌≡◌, ◌≢◌, ◌+◌, ◌≤◌, ◌<◌, ◌⊎◌, ◌↔◌, IsTrue, IfOk, true, vec_len};
ghost use Rattle.bench.specs.Summary.{HasItsQueue, HaveTheirQueues, IsReported, Tells};

use crate::ending::{end_device, end_jobs};
use crate::frames::frames;
use crate::gathered::{Gathered, gather};
use crate::jobs::{FRAME, jobs, setup};
use crate::refused::Refused;
use crate::summary::{Summary, sent_in, write_summary};
use bench_commands::{DONE, FAILED, Output};
use nic_device::{Port, leave};
use pmd::{
    CloseRefused, Closed, Given, Lockstep, Pass, RunRefused, Shared, ThroughLock, Watched,
    begins_well, pf_setup, run_workers,
};
use std::alloc::Global;
use std::io::Write;
use std::sync::Wait;
use std::thread::Threads;

/// The device that the workers share.
type Bench = Shared<0, 64>;

/// The maximum number of entries in the device's history.
const LIMIT: u32 = 1_000_000;

/// The maximum number of workers.
const MAX_WORKERS: u8 = 8;

/// Sets the device up through a pass, with the steps of queue 0.
fn set_up<R: Wait>(
    rt: &R,
    alloc: Global,
    bench: &Bench,
    pass: Pass,
    workers: u8,
) -> Result<Pass, Refused> {
    let mut nic = ThroughLock::new(rt, bench, pass, 0);
    let done = pf_setup(alloc, &mut nic, &setup(workers));
    let pass = nic.finish();
    match done {
        Ok(()) => Ok(pass),
        Err(fault) => Err(Refused::from(fault)),
    }
}

/// Sets the device up through the last pass, and runs a worker with each other pass while frames arrive. Returns all of
/// the passes.
#[tactic(auto, using(crate::proofs::Counting::ends_count))]
fn drive<R: Threads + Wait + Sync>(
    rt: &R,
    alloc: Global,
    bench: &Bench,
    passes: Vec<Pass>,
    workers: u8,
    count: u8,
) -> Result<Gathered, Refused>
    requires few { workers ≤ 8 }
    requires passes { vec_len passes ≡ workers + 1 }
    ensures { IfOk result (λ g. vec_len g.reports ≡ workers) }
{
    let mut passes = passes;
    let Some(pass) = passes.pop() else {
        unreachable!();
    };
    let mut pass = set_up(rt, alloc, bench, pass, workers)?;
    let arriving = frames(alloc, count)?;
    let jobs = jobs(alloc, passes, count)?;
    let gate = Lockstep::new(rt, usize::from(workers) + 1);
    match run_workers(rt, alloc, &gate, bench, jobs, &mut pass, arriving) {
        Ok(ran) => {
            let mut gathered = gather(alloc, ran, count)?;
            match gathered.passes.push(pass) {
                Ok(()) => Ok(gathered),
                Err(_) => Err(Refused::OutOfMemory),
            }
        }
        Err(
            RunRefused {
                fault,
                jobs,
                frames: _,
            },
        ) => {
            end_jobs(jobs);
            Err(Refused::from(fault))
        }
    }
}

/// Whether a history leaves a worker's queue alone, and the worker's driver starts from a clean state in this history.
/// Worker `k` has queue `k` and the pass with tag `k`, which made no call before the driver's start.
fn has_its_queue(closed: &Closed<0, 64>, worker: u8) -> bool
    ensures { IsTrue result ↔ HasItsQueue worker closed.now.history }
{
    let queue = u16::from(worker);
    let watched = Watched {
        vfs: 0,
        pass: worker,
        queue,
    };
    let given = Given {
        port: Port::Pf,
        queue,
        frame: FRAME,
    };
    closed.left_alone(worker, queue) && begins_well(watched, 0, given, closed.history())
}

/// Whether `has_its_queue` holds for every worker below `workers`.
fn have_their_queues(closed: &Closed<0, 64>, workers: u8) -> bool
    ensures { IsTrue result ↔ HaveTheirQueues workers closed.now.history }
{
    for worker in 0..workers {
        if !has_its_queue(closed, worker) {
            return false;
        }
    }
    true
}

/// Closes the history, and returns the number of frames transmitted in it. Refused if the history doesn't leave the
/// workers' queues alone, or if a driver doesn't start from a clean state.
fn close(bench: Bench, passes: Vec<Pass>, workers: u8) -> Result<usize, Refused>
    ensures { IfOk result (λ sent. IsReported workers sent) }
{
    match bench.close(passes) {
        Ok(closed) => {
            let theirs = have_their_queues(&closed, workers);
            let sent = sent_in(closed.history());
            end_device(closed.into_device())?;
            if !theirs {
                return Err(Refused::Other);
            }
            Ok(sent)
        }
        Err(
            CloseRefused {
                fault,
                shared,
                passes: _,
            },
        ) => Err(leave(shared, Refused::from(fault))),
    }
}

/// Runs the workers while frames arrive, and returns the summary.
fn run<R: Threads + Wait + Sync>(
    rt: &R,
    alloc: Global,
    workers: u8,
    count: u8,
) -> Result<Summary, Refused>
    requires { workers ≤ 8 }
    ensures { IfOk result (λ s. (vec_len s.reports ≡ workers) × IsReported workers s.sent) }
{
    let (bench, passes) = Bench::new(alloc, 0, workers + 1, LIMIT)?;
    match drive(rt, alloc, &bench, passes, workers, count) {
        Ok(Gathered { passes, reports }) => {
            let sent = close(bench, passes, workers)?;
            Ok(Summary { reports, sent })
        }
        Err(refused) => Err(leave(bench, refused)),
    }
}

/// Runs workers on a shared device, one on each queue below `workers`, while this many frames arrive. The frames
/// alternate between TCP over IPv4 and over IPv6, and RSS distributes them among the queues. Each worker sends back the
/// packets that it receives. Then a summary is written. For each queue, it has a line with the numbers of packets and
/// bytes that the queue's worker received; then come the number of transmitted frames and the line `history legal`. If
/// the status is 0, the summary was written and the device's history is legal. It leaves each worker's queue alone
/// (`left_alone`), and each worker's driver started from a clean state (`begins_well`).
///
/// The clauses state the format of the output, and that the printed number of transmitted frames is the number in such
/// a history. The clauses state neither which frames arrive nor that a worker sends back the packets that it receives.
/// Nor do they state that the packets and bytes in a line are the ones that the worker received in this history. By the
/// clause `order` of `pmd::run_workers`, in each such history the worker's packets are a prefix of those delivered on
/// its queue. The frames transmitted there are a prefix of those that its driver accepted.
///
/// The call waits for locks and for the threads. Nothing is written if something is refused, a worker ends with a
/// fault, its queue isn't left alone, its driver doesn't start from a clean state, or some frames don't arrive. In
/// these cases, the status is 2 or 4; 4 is meant for lack of memory and for missing frames. The contract doesn't
/// specify which of the two is returned. `workers` must be 1 to 8; otherwise the status is 2. If a write fails, the
/// status is 2.
pub fn bench_threads<R: Threads + Wait + Sync, W: Write>(
    rt: &R,
    alloc: Global,
    output: &mut Output<W>,
    workers: u8,
    frames: u8,
) -> u8
    ensures status { (result ≡ 0) ⊎ ((result ≡ 2) ⊎ (result ≡ 4)) }
    // The pass of each queue's worker has the queue's number as its tag, and made no call before its driver's start.
    // The driver begins well.
    ensures reported { result ≡ 0 → Tells workers (W.contents output.old.writer) (W.contents output.new.writer) }
    ensures silent { result ≢ 0 → (output.new ≡ output.old) ⊎ (output.new.has_failed ≡ true) }
    ensures memory { result ≡ 4 → output.new ≡ output.old }
    ensures number { ((workers ≡ 0) ⊎ (8 < workers)) → (result ≡ 2) × (output.new ≡ output.old) }
{
    if workers == 0 || workers > MAX_WORKERS {
        return FAILED;
    }
    match run(rt, alloc, workers, frames) {
        Ok(summary) => match write_summary(output, &summary) {
            Ok(()) => DONE,
            Err(_) => FAILED,
        },
        Err(refused) => refused.status(),
    }
}
