//! Tasks that meet at a shared counter, and workers that meet point by point.

use crate::outcome::{Hand, fail, same, sees};
use pmd::{Gate, Lockstep, Start, Task, TaskCell, run};
use std::sync::atomic::{AtomicU64, Ordering};
use std::sync::{Mutex, Wait};
use std::thread;

/// How many times a task looks for another task that is sure to arrive: enough to outlast any test. Other threads may
/// run after each look.
pub const PATIENT: u32 = u32::MAX;
/// How many times a task looks for another task that arrives only later.
pub const SHORT: u32 = 1_000;

/// The number of points in a worker's run.
const POINTS: u8 = 200;

/// A task that adds itself to the count, and waits until the count is two. Each look takes the lock and releases it.
#[derive(Drop)]
struct Meet<'a, R: Wait> {
    rt: &'a R,
    come: &'a Mutex<u64>,
}

/// Adds the caller to the count. Returns whether the count reaches two within this many looks.
pub fn meets<R: Wait>(rt: &R, come: &Mutex<u64>, looks: u32) -> bool {
    {
        let mut come = come.lock(rt);
        *come = come.wrapping_add(1);
    }
    for _look in 0..looks {
        if *come.lock(rt) >= 2 {
            return true;
        }
        thread::yield_now();
    }
    false
}

impl<'a, R: Wait> Task<bool> for Meet<'a, R> {
    ghost use Rattle.std.specs.Prelude.{◌≡◌};

    ghost ends = { λ task end. Unit {0} };

    fn run(self) -> bool {
        let Meet { rt, come } = self;
        meets(rt, come, PATIENT)
    }

    fn give_up(self) -> bool {
        let Meet { rt: _, come: _ } = self;
        false
    }
}

/// The number of tasks without a thread.
fn count_missing(starts: &[Start]) -> u32 {
    let mut missing: u32 = 0;
    for start in starts {
        if start.is_missing() {
            missing = missing.saturating_add(1);
        }
    }
    missing
}

/// Checks that a task has met the other task.
fn has_met<R: Hand>(rt: &R, cell: TaskCell<Meet<'_, R>, bool>) {
    match cell {
        TaskCell::Ended(met) => sees(rt, met),
        TaskCell::Waits(Meet { rt: _, come: _ }) => fail(rt, "a task that wasn't done"),
        TaskCell::Empty => fail(rt, "no end"),
    }
}

#[test]
fn two_tasks_meet(rt: HostRuntime) {
    let come = Mutex::new(0);
    let starts = Vec::from_array(rt.alloc(), [Start::new(), Start::new()]).expect(&rt, "memory");
    let first = TaskCell::Waits(Meet {
        rt: &rt,
        come: &come,
    });
    let second = TaskCell::Waits(Meet {
        rt: &rt,
        come: &come,
    });
    let mut cells = Vec::from_array(rt.alloc(), [first, second]).expect(&rt, "memory");
    let mut missing = 0u32;
    run(
        &rt,
        &starts,
        &mut || missing = missing.saturating_add(count_missing(&starts)),
        &mut cells,
    );
    for cell in cells {
        has_met(&rt, cell);
    }
    same(&rt, missing as usize, 0);
}

/// Passes the points one after the other. After each point, checks that every worker has reached that point.
fn go_through<G: Gate>(
    rt: &impl Hand,
    gate: &G,
    worker: usize,
    own: &AtomicU64,
    all: &[AtomicU64],
) {
    for point in 0..POINTS {
        own.store(u64::from(point), Ordering::SeqCst);
        sees(rt, gate.pass(worker, point));
        for at in all {
            sees(rt, at.load(Ordering::SeqCst) >= u64::from(point));
        }
    }
    gate.leave(worker);
}

#[test]
fn three_workers_meet_at_each_point(rt: HostRuntime) {
    let lockstep = Lockstep::new(&rt, 3);
    let points = [AtomicU64::new(0), AtomicU64::new(0), AtomicU64::new(0)];
    let (runtime, gate, all) = (&rt, &lockstep, &points[..]);
    thread::scope(thread::scope_env(), runtime, |scope| {
        for (worker, own) in all.iter().enumerate() {
            if scope
                .spawn(move || go_through(runtime, gate, worker, own, all))
                .is_err()
            {
                fail(runtime, "no thread");
            }
        }
    });
}

/// A member at a later point also counts as being at each earlier point. No member waits for a member that has left.
#[test]
fn no_one_waits_for_who_is_ahead_or_left(rt: HostRuntime) {
    let gate = Lockstep::new(&rt, 2);
    gate.leave(1);
    sees(&rt, gate.pass(0, 7));
    sees(&rt, gate.pass(0, 3));
    sees(&rt, gate.pass(1, 5));
    gate.leave(2);
    sees(&rt, !gate.pass(2, 0));
}
