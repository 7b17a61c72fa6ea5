//! How workers end, and why a run starts none.

ghost use Rattle.std.specs.Prelude.{◌≡◌, [], ◌≤◌, length, vec_len, vec_capacity};
ghost use Rattle.pmd.specs.Coming.{HasCome, HaveCome, IsMade, AreMade};

use crate::assignment::Back;
use crate::cell::TaskCell;
use crate::fault::WorkerFault;
use crate::job::Job;
use crate::reports::{Collector, Report};
use pmd_driver::{Pass, Rest};

/// The result of a worker. A `WorkerEnd` can't be dropped.
pub struct WorkerEnd {
    /// The worker's pass, with the calls that the worker made.
    pub pass: Pass,
    /// Its driver's arena and records, or the driver if it couldn't be stopped.
    pub rest: Rest,
    /// Its reports of the packets that it received, in order.
    pub reports: Vec<Report>,
    /// Why the worker ended early, or why its driver didn't stop; `None` otherwise.
    pub fault: Option<WorkerFault>,
}

/// The result of a run. A `Ran` can't be dropped.
pub struct Ran {
    /// The result of each job, in the order of the jobs.
    pub ends: Vec<WorkerEnd>,
    /// The number of frames that the device accepted.
    pub fed: usize,
}

/// Why no worker starts.
#[derive(Clone, Copy, PartialEq, Eq, Debug)]
pub enum RunFault {
    /// There are no jobs, or more than 16.
    NoJobs,
    /// The arena of this job shares a block number with an earlier job's arena. This job is the first for which this is
    /// true.
    Overlap(usize),
    /// Memory ran out.
    OutOfMemory,
}

/// A refused run: the reason, and what was passed in. A `RunRefused` can't be dropped.
pub struct RunRefused {
    /// Why the run was refused.
    pub fault: RunFault,
    /// The jobs passed in, unchanged.
    pub jobs: Vec<Job>,
    /// The frames passed in, unchanged.
    pub frames: Vec<Vec<u8>>,
}

/// Returns the result of a worker after its thread was joined, with all its reports.
fn end_of<T>(cell: TaskCell<T, Back>, collector: Collector) -> WorkerEnd
    requires { HasCome cell collector }
    ensures { IsMade cell result }
{
    match cell {
        TaskCell::Ended(back) => {
            let Back {
                pass,
                rest,
                fault,
                producer,
            } = back;
            WorkerEnd {
                pass,
                rest,
                reports: collector.finish(producer),
                fault,
            }
        }
        TaskCell::Waits(_task) => unreachable!(),
        TaskCell::Empty => unreachable!(),
    }
}

/// Collects the results of all workers, in order. `room` has room for them.
pub(crate) fn gather<T>(
    cells: Vec<TaskCell<T, Back>>,
    collectors: Vec<Collector>,
    room: Vec<WorkerEnd>,
) -> Vec<WorkerEnd>
    requires come { HaveCome cells.items collectors.items }
    requires empty { room.items ≡ [] }
    requires room { vec_len cells ≤ vec_capacity room }
    ensures { AreMade cells.items result.items }
{
    let mut cells = cells;
    let mut collectors = collectors;
    let mut ends = room;
    for _ in 0..cells.len() {
        let cell = cells.remove(0);
        let collector = collectors.remove(0);
        ends.push_reserved(end_of(cell, collector));
    }
    cells.destroy_empty();
    ends
}
