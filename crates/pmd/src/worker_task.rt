//! A worker's task on its thread.

ghost use Rattle.std.specs.Prelude.{◌≡◌};
ghost use Rattle.pmd.specs.Ends.{IsBack};

use crate::assignment::{Assignment, Back};
use crate::cell::Task;
use crate::driving::{Order, run_worker};
use crate::fault::WorkerFault;
use crate::gate::Gate;
use crate::job::Job;
use pmd_driver::{Home, Rest, Shared, ThroughLock};
use std::alloc::Global;
use std::marker::Model;
use std::sync::Wait;

/// A worker's assignment with the gate and the shared device that the worker uses. Contracts describe a `WorkerTask` by
/// its assignment.
pub(crate) struct WorkerTask<'a, R: Wait, G: Gate, const VFS: u8, const FIFO: u16> {
    rt: &'a R,
    alloc: Global,
    gate: &'a G,
    shared: &'a Shared<VFS, FIFO>,
    assignment: Assignment,
}

impl<'a, R: Wait, G: Gate, const VFS: u8, const FIFO: u16> Model
    for WorkerTask<'a, R, G, VFS, FIFO> {
    ghost use Rattle.pmd.specs.declared.assignment.Assignment.{Assignment};

    ghost Value = { Assignment };

    ghost view = { λ l. l.assignment };
}

impl<'a, R: Wait, G: Gate, const VFS: u8, const FIFO: u16> WorkerTask<'a, R, G, VFS, FIFO> {
    /// Creates the task for an assignment, with this gate and this device.
    pub(crate) fn new(
        rt: &'a R,
        alloc: Global,
        gate: &'a G,
        shared: &'a Shared<VFS, FIFO>,
        assignment: Assignment,
    ) -> Self
        ensures { result ≡ assignment }
    {
        WorkerTask {
            rt,
            alloc,
            gate,
            shared,
            assignment,
        }
    }
}

impl<'a, R: Wait, G: Gate, const VFS: u8, const FIFO: u16> Task<Back>
    for WorkerTask<'a, R, G, VFS, FIFO> {
    ghost ends = { IsBack };

    fn run(self) -> Back {
        let WorkerTask {
            rt,
            alloc,
            gate,
            shared,
            assignment,
        } = self;
        let Assignment {
            worker,
            job,
            mut producer,
        } = assignment;
        let Job {
            pass,
            port,
            queue,
            pf_queue,
            size,
            frame,
            arena,
            rounds,
        } = job;
        let mut nic = ThroughLock::new(rt, shared, pass, pf_queue);
        let order = Order {
            worker,
            port,
            queue,
            size,
            frame,
            rounds,
        };
        let (rest, fault) = run_worker(alloc, &mut nic, gate, order, arena, &mut producer);
        Back {
            pass: nic.finish(),
            rest,
            fault,
            producer,
        }
    }

    /// Leaves the gate. The arena is returned unused.
    fn give_up(self) -> Back {
        let WorkerTask {
            rt: _,
            alloc,
            gate,
            shared: _,
            assignment,
        } = self;
        let Assignment {
            worker,
            job,
            producer,
        } = assignment;
        let Job {
            pass,
            port: _,
            queue: _,
            pf_queue: _,
            size: _,
            frame: _,
            arena,
            rounds: _,
        } = job;
        gate.leave(worker);
        Back {
            pass,
            rest: Rest::Home(Home {
                arena,
                lost: 0,
                handed: Vec::new(alloc),
                accepted: Vec::new(alloc),
            }),
            fault: Some(WorkerFault::NoThread),
            producer,
        }
    }
}
