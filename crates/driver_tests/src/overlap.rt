//! Teams of workers that don't start, because there are too few or too many jobs, or because their arenas share a
//! block.

use crate::bench::end;
use crate::outcome::{Hand, done, emptied, empty, holds, push, refused, some};
use device_lock::{Pass, Shared};
use nic_device::{Arena, Port};
use pmd::{Job, Lockstep, RunFault, RunRefused, run_workers};

/// A shared device without virtual functions.
type Bench = Shared<0, 64>;

/// A refused team: its name, the blocks of each job as first and count, and the reason.
type Team<'a> = (&'a str, &'a [(u32, u32)], RunFault);

/// Seventeen jobs with one block each.
#[rattlefmt::skip]
const SEVENTEEN: [(u32, u32); 17] = [
    (0, 1), (1, 1), (2, 1), (3, 1), (4, 1), (5, 1), (6, 1), (7, 1), (8, 1), (9, 1), (10, 1), (11, 1), (12, 1), (13, 1),
    (14, 1), (15, 1), (16, 1),
];

/// The reported job is the first one that shares a block with an earlier job. The earlier job isn't reported.
#[rattlefmt::skip]
const TEAMS: [Team<'static>; 9] = [
    ("no jobs", &[], RunFault::NoJobs),
    ("seventeen jobs", &SEVENTEEN, RunFault::NoJobs),
    ("both have block 31", &[(0, 32), (31, 32)], RunFault::Overlap(1)),
    ("both have block 31, the lower one second", &[(31, 32), (0, 32)], RunFault::Overlap(1)),
    ("the second is within the first", &[(0, 32), (8, 8)], RunFault::Overlap(1)),
    ("the third shares with the first", &[(0, 32), (32, 32), (31, 1)], RunFault::Overlap(2)),
    ("the third shares with the second", &[(0, 32), (32, 32), (63, 2)], RunFault::Overlap(2)),
    ("the second shares, and the third too", &[(0, 32), (31, 32), (0, 1)], RunFault::Overlap(1)),
    ("the fourth shares with the first, and the fifth with the second",
        &[(0, 8), (8, 8), (16, 8), (7, 1), (15, 1)], RunFault::Overlap(3)),
];

/// The jobs of a team, each with a pass.
fn jobs_of(rt: &impl Hand, passes: &mut Vec<Pass>, blocks: &[(u32, u32)]) -> Vec<Job> {
    let mut jobs = empty(rt);
    for (first, count) in blocks {
        let job = Job {
            pass: some(rt, passes.pop()),
            port: Port::Pf,
            queue: 0,
            pf_queue: 0,
            size: 8,
            frame: 1518,
            arena: done(rt, Arena::new(rt.alloc(), *first, *count)),
            rounds: 1,
        };
        push(rt, &mut jobs, job);
    }
    jobs
}

/// Closes the arena of a job, which must have all of its blocks. Returns the job's pass.
fn pass_of(rt: &impl Hand, job: Job) -> Pass {
    let Job {
        pass,
        port: _,
        queue: _,
        pf_queue: _,
        size: _,
        frame: _,
        arena,
        rounds: _,
    } = job;
    done(rt, arena.close());
    pass
}

/// Why the jobs are refused. Checks that they are returned, and collects their passes.
fn refusal_of(
    rt: &impl Hand,
    bench: &Bench,
    jobs: Vec<Job>,
    host: &mut Pass,
    passes: &mut Vec<Pass>,
) -> RunFault {
    let gate = Lockstep::new(rt, 1);
    let ran = run_workers(rt, rt.alloc(), &gate, bench, jobs, host, empty(rt));
    let RunRefused {
        fault,
        mut jobs,
        frames,
    } = refused(rt, ran);
    emptied(rt, frames);
    for _job in 0..jobs.len() {
        push(rt, passes, pass_of(rt, some(rt, jobs.pop())));
    }
    emptied(rt, jobs);
    fault
}

/// Checks that a team is refused as its row says, that no worker starts, and that all passes are returned.
fn check_team(rt: &impl Hand, (name, blocks, wanted): Team<'_>) {
    let (bench, passes) = done(rt, Bench::new(rt.alloc(), 1, 18, 1_000));
    let mut passes = passes;
    let mut host = some(rt, passes.pop());
    let jobs = jobs_of(rt, &mut passes, blocks);
    let fault = refusal_of(rt, &bench, jobs, &mut host, &mut passes);
    holds(rt, name, "refused", fault == wanted);
    push(rt, &mut passes, host);
    let closed = done(rt, bench.close(passes));
    holds(rt, name, "no call", closed.history().is_empty());
    holds(
        rt,
        name,
        "no frame",
        end(rt, closed.into_device()).is_empty(),
    );
}

/// Checks that each of these teams is refused as its row says.
fn check_teams(rt: &impl Hand, rows: &[Team<'_>]) {
    for row in rows {
        check_team(rt, *row);
    }
}

#[test]
fn the_first_job_that_shares_a_block_is_named(rt: HostRuntime) {
    check_teams(&rt, &TEAMS);
}
