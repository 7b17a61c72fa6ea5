//! The memory allocated before a thread starts.

ghost use Rattle.std.specs.Prelude.{◌≡◌, ◌≤◌, [], IfOk, IfSome, length, vec_len, vec_capacity};
ghost use Rattle.pmd.specs.Coming.{AreWays, AllSit};

use crate::assignment::{Assignment, Back};
use crate::cell::TaskCell;
use crate::ends::WorkerEnd;
use crate::gate::Gate;
use crate::job::Job;
use crate::reports::{Collector, Report};
use crate::start::Start;
use crate::worker_task::WorkerTask;
use pmd_driver::Shared;
use rtrb::Producer;
use std::alloc::{AllocError, Global};
use std::sync::Wait;

/// The droppable values that the jobs need: a start for each thread, and both ends of each ring for reports.
#[derive(Drop)]
pub(crate) struct Room {
    pub(crate) starts: Vec<Start>,
    pub(crate) producers: Vec<Producer<Report>>,
    pub(crate) collectors: Vec<Collector>,
}

/// Allocates room for everything that the jobs' workers can report.
fn make_room(alloc: Global, jobs: &[Job]) -> Result<Room, AllocError>
    ensures starts { IfOk result (λ room. vec_len room.starts ≡ length jobs.now) }
    ensures ways { IfOk result (λ room. AreWays jobs.now room.producers.items room.collectors.items) }
{
    let mut starts = Vec::new(alloc);
    let mut producers = Vec::new(alloc);
    let mut collectors = Vec::new(alloc);
    for job in jobs {
        let (producer, collector) = Collector::with_room(alloc, job.rounds)?;
        starts.push(Start::new())?;
        producers.push(producer)?;
        collectors.push(collector)?;
    }
    Ok(Room {
        starts,
        producers,
        collectors,
    })
}

/// Allocates room for a whole run: all reports from the jobs' workers, a task for each job, and a result for each job.
/// Returns `None` if there is no memory.
pub(crate) fn make_all_room<T>(
    alloc: Global,
    jobs: &[Job],
) -> Option<(Room, Vec<T>, Vec<WorkerEnd>)>
    ensures starts { IfSome result (λ all. vec_len all.0.starts ≡ length jobs.now) }
    ensures ways { IfSome result (λ all. AreWays jobs.now all.0.producers.items all.0.collectors.items) }
    ensures cells { IfSome result (λ all. (all.1.items ≡ []) × (length jobs.now ≤ vec_capacity all.1)) }
    ensures ends { IfSome result (λ all. (all.2.items ≡ []) × (length jobs.now ≤ vec_capacity all.2)) }
{
    let Ok(room) = make_room(alloc, jobs) else {
        return None;
    };
    let Ok(cells) = Vec::with_capacity(alloc, jobs.len()) else {
        return None;
    };
    let Ok(ends) = Vec::with_capacity(alloc, jobs.len()) else {
        cells.destroy_empty();
        return None;
    };
    Some((room, cells, ends))
}

/// Puts each job in a cell, with the worker's end of its ring for reports. `room` has room for the cells.
pub(crate) fn sit<'a, R: Wait, G: Gate, const VFS: u8, const FIFO: u16>(
    rt: &'a R,
    alloc: Global,
    gate: &'a G,
    shared: &'a Shared<VFS, FIFO>,
    jobs: Vec<Job>,
    producers: Vec<Producer<Report>>,
    collectors: &[Collector],
    room: Vec<TaskCell<WorkerTask<'a, R, G, VFS, FIFO>, Back>>,
) -> Vec<TaskCell<WorkerTask<'a, R, G, VFS, FIFO>, Back>>
    requires ways { AreWays jobs.items producers.items collectors.now }
    requires empty { room.items ≡ [] }
    requires room { vec_len jobs ≤ vec_capacity room }
    ensures { AllSit jobs.items result.items collectors.now }
{
    let mut jobs = jobs;
    let mut producers = producers;
    let mut cells = room;
    for worker in 0..jobs.len() {
        let assignment = Assignment {
            worker,
            job: jobs.remove(0),
            producer: producers.remove(0),
        };
        cells.push_reserved(TaskCell::Waits(WorkerTask::new(rt, alloc, gate, shared, assignment)));
    }
    jobs.destroy_empty();
    cells
}
