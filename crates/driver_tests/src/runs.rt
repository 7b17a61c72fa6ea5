//! Runs of two workers: with special gates, under a limit of entries, and among other programs' events.

use crate::meeting::{PATIENT, SHORT, meets};
use crate::outcome::{Hand, holds, same, sees};
use crate::stranger::{Beside, How, LEAST};
use crate::team::{Came, Order, run_team};
use pmd::{Gate, Lockstep};
use std::sync::atomic::{AtomicU64, Ordering};
use std::sync::{Mutex, Wait};

/// A gate whose first point lets a worker pass only while both workers are at that point. At the first point, each
/// worker looks for the other worker a limited number of times. All other points are open, and everyone except the
/// workers may also pass the first point.
#[derive(Drop)]
struct Meeting<'a, R> {
    rt: &'a R,
    come: Mutex<u64>,
    looks: u32,
}

impl<'a, R: Wait> Gate for Meeting<'a, R> {
    fn pass(&self, worker: usize, point: u8) -> bool {
        worker >= 2 || point != 0 || meets(self.rt, &self.come, self.looks)
    }

    fn leave(&self, _worker: usize) {}
}

/// A `Meeting` gate at which the second worker arrives only after the first has left, so they run one after the other.
#[derive(Drop)]
struct InTurn<'a, R> {
    meeting: Meeting<'a, R>,
    left: AtomicU64,
}

impl<'a, R: Wait> Gate for InTurn<'a, R> {
    fn pass(&self, worker: usize, point: u8) -> bool {
        if worker == 1 && point == 0 {
            for _look in self.meeting.rt.forever() {
                if self.left.load(Ordering::SeqCst) == 1 {
                    break;
                }
            }
        }
        self.meeting.pass(worker, point)
    }

    fn leave(&self, worker: usize) {
        if worker == 0 {
            self.left.store(1, Ordering::SeqCst);
        }
    }
}

/// A gate with one point that is shut to one worker.
#[derive(Drop)]
struct ShutAt {
    worker: usize,
    point: u8,
}

impl Gate for ShutAt {
    fn pass(&self, worker: usize, point: u8) -> bool {
        worker != self.worker || point != self.point
    }

    fn leave(&self, _worker: usize) {}
}

/// A gate that lets nobody pass.
#[derive(Drop)]
struct Shut;

impl Gate for Shut {
    fn pass(&self, _worker: usize, _point: u8) -> bool {
        false
    }

    fn leave(&self, _worker: usize) {}
}

/// One frame, for which each worker polls twice.
const ONE_FRAME: Order = Order {
    limit: 100_000,
    rounds: 2,
    frames: 1,
};

/// Runs two workers without other events. Checks that no worker ended for any other reason than a shut gate or a full
/// history, and that no block was lost.
fn alone<G: Gate + Sync>(rt: &impl Hand, gate: &G, order: Order) -> Came {
    let came = run_team(rt, gate, order, Beside::new(rt, How::Nothing, 1));
    sees(rt, came.failed == 0 && came.lost == [0, 0]);
    came
}

/// Checks the numbers of accepted frames, of workers that a shut gate ended, and of workers that a full history ended.
fn is_counted(rt: &impl Hand, came: &Came, (fed, shut, full): (usize, u32, u32)) {
    same(rt, came.fed, fed);
    same(rt, came.shut as usize, shut as usize);
    same(rt, came.full as usize, full as usize);
}

/// Two workers run at the same time: each finds the other at the first point.
#[test]
fn two_workers_stand_at_one_point(rt: HostRuntime) {
    let gate = Meeting {
        rt: &rt,
        come: Mutex::new(0),
        looks: PATIENT,
    };
    let came = alone(&rt, &gate, ONE_FRAME);
    is_counted(&rt, &came, (1, 0, 0));
}

/// If one worker runs after the other, the first finds nobody at the first point and is shut out. Both workers get all
/// blocks back.
#[test]
fn workers_one_after_the_other_do_not_meet(rt: HostRuntime) {
    let gate = InTurn {
        meeting: Meeting {
            rt: &rt,
            come: Mutex::new(0),
            looks: SHORT,
        },
        left: AtomicU64::new(0),
    };
    let came = alone(&rt, &gate, ONE_FRAME);
    is_counted(&rt, &came, (1, 1, 0));
}

/// A gate may shut a single point to one worker. The other worker continues, and the frame still arrives.
#[test]
fn a_point_is_shut_to_one_worker(rt: HostRuntime) {
    for point in 0..3u8 {
        let came = alone(&rt, &ShutAt { worker: 1, point }, ONE_FRAME);
        is_counted(&rt, &came, (1, 1, 0));
    }
}

/// If a gate lets no worker pass, both workers report the shut gate and get all blocks back, and no frame arrives.
#[test]
fn a_gate_that_is_shut_ends_both_workers(rt: HostRuntime) {
    let came = alone(&rt, &Shut, ONE_FRAME);
    is_counted(&rt, &came, (0, 2, 0));
}

/// Runs two workers with ten frames under a limit of entries. Returns whether the limit was reached.
fn limited(rt: &impl Hand, limit: u32) -> bool {
    let order = Order {
        limit,
        rounds: 22,
        frames: 10,
    };
    let came = alone(rt, &Lockstep::new(rt, 3), order);
    let met = came.full > 0 || came.fed < 10;
    sees(rt, came.shut == 0 && (met || came.packets == 10));
    let made = came.made;
    sees(
        rt,
        made <= limit as usize && (!met || made == limit as usize),
    );
    met
}

/// Limits range from just above the entries of the setup to enough for both workers. With each of these limits, every
/// call returns, the history closes with at most that many entries, and all blocks are returned.
#[test]
fn a_full_history_ends_both_workers(rt: HostRuntime) {
    sees(&rt, limited(&rt, 300));
    for step in 1..40u32 {
        let _met = limited(&rt, 300 + 50 * step);
    }
    sees(&rt, !limited(&rt, 2_300));
}

/// A neighbour's visits, by name: the number of blocks that each worker loses, and whether each queue is left alone.
/// The last field is the number of arenas that don't close before those blocks are returned.
#[rattlefmt::skip]
const VISITS: [(&str, How, [u32; 2], [bool; 2], usize); 2] = [
    ("taken blocks are counted and come home", How::Takes, [2, 0], [false, true], 1),
    ("a frame goes into the neighbour's block", How::Redirects, [0, 0], [false, false], 0),
];

/// Runs two workers while a neighbour visits them.
fn visited(rt: &impl Hand, how: How) -> Came {
    let order = Order {
        limit: 100_000,
        rounds: 20,
        frames: 4,
    };
    run_team(rt, &Lockstep::new(rt, 4), order, Beside::new(rt, how, 1))
}

#[test]
fn a_neighbour_visits_two_workers(rt: HostRuntime) {
    let rt = &rt;
    for (name, how, lost, alone, away) in VISITS {
        let came = visited(rt, how);
        let is_so = came.fed == 4 && came.lost == lost;
        holds(rt, name, "lost", is_so);
        let is_so = came.alone == alone && came.away == away;
        holds(rt, name, "left alone", is_so);
    }
}

/// Runs two workers while a stranger makes events. Checks that the stranger makes at least the minimum number of
/// events.
fn end_beside(rt: &impl Hand, order: Order, seed: u32) {
    let beside = Beside::new(rt, How::Meddles, seed);
    let came = run_team(rt, &Lockstep::new(rt, 3), order, beside);
    sees(rt, came.beside >= LEAST as usize);
}

/// However the threads are scheduled, every call returns and nothing is lost. A worker may end with a fault.
#[test]
fn workers_end_beside_a_stranger(rt: HostRuntime) {
    let order = Order {
        limit: 1_000_000,
        rounds: 60,
        frames: 40,
    };
    for seed in [1, 82_599, 0x2021_1123, 0xFFFF_FFFF] {
        end_beside(&rt, order, seed);
    }
}
