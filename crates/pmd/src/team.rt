//! A run of workers.

ghost use Rattle.std.specs.Prelude.{◌≡◌, ◌≤◌, [], All, length, map, vec_len, vec_capacity, true, IfOk, IfErr, IfSome, IfNone, OnOk, OnErr};
ghost use Rattle.pmd.specs.TaskCells.{waits, EachEnded};
ghost use Rattle.pmd.specs.Feeding.{AreFed, done_in, gained};
ghost use Rattle.pmd.specs.Coming.{AreDrained, AreWays};
ghost use Rattle.pmd.specs.Ends.{AreEnds, IsBack};
ghost use Rattle.pmd.specs.Order.{AreInOrder};
ghost use Rattle.pmd.specs.Refusing.{IsTeam, IsWhy, is_certain, is_team_size};

use crate::assignment::Back;
use crate::cell::TaskCell;
use crate::ends::{Ran, RunFault, RunRefused, WorkerEnd, gather};
use crate::gate::Gate;
use crate::host::host;
use crate::hosted::run;
use crate::job::{Job, overlap};
use crate::reports::Collector;
use crate::room::{Room, make_all_room, sit};
use crate::start::Start;
use crate::worker_task::WorkerTask;
use pmd_driver::{Pass, Shared};
use std::alloc::Global;
use std::mem;
use std::sync::Wait;
use std::thread::Threads;

/// The maximum number of jobs.
const MAX_JOBS: usize = 16;

/// Returns whether this number of jobs is permitted.
fn is_team_size(count: usize) -> bool
    ensures { result ≡ is_team_size count }
{
    1 <= count && count <= MAX_JOBS
}

/// Returns why the jobs can't run, regardless of memory, or `None` if they can.
fn refusal(jobs: &[Job]) -> Option<RunFault>
    ensures some { IfSome result (λ fault. IsWhy jobs.now fault) }
    ensures certain { IfSome result (λ fault. is_certain fault ≡ true) }
    ensures none { IfNone result (IsTeam jobs.now) }
{
    if !is_team_size(jobs.len()) {
        return Some(RunFault::NoJobs);
    }
    match overlap(jobs) {
        Some(at) => Some(RunFault::Overlap(at)),
        None => None,
    }
}

/// Runs the tasks in their cells, each on its own thread, and does the calling thread's work in the meantime. Returns
/// the number of frames accepted.
fn run_cells<R: Threads + Wait + Sync, G: Gate + Sync, const VFS: u8, const FIFO: u16>(
    rt: &R,
    alloc: Global,
    gate: &G,
    shared: &Shared<VFS, FIFO>,
    starts: &[Start],
    pass: &mut Pass,
    frames: Vec<Vec<u8>>,
    collectors: &mut [Collector],
    cells: &mut Vec<TaskCell<WorkerTask<'_, R, G, VFS, FIFO>, Back>>,
) -> usize
    requires waits { All (λ s. waits s ≡ true) cells.old.items }
    requires starts { length starts.now ≡ vec_len cells.old }
    ensures ended { EachEnded IsBack cells.old.items cells.new.items }
    ensures same { vec_len cells.new ≡ vec_len cells.old }
    ensures fed { AreFed (map (λ frame. frame.items) frames.items) pass.old pass.new }
    ensures count { result ≡ done_in (gained pass.old pass.new) }
    ensures drained { AreDrained collectors.old collectors.new }
{
    let mut frames = frames;
    let mut fed = 0;
    run(
        rt,
        starts,
        &mut || -> ()
            ensures fed { AreFed (map (λ frame. frame.items) frames.entry.items) pass.entry.now pass.exit.now }
            ensures count { fed.exit ≡ done_in (gained pass.entry.now pass.exit.now) }
            ensures drained { AreDrained collectors.entry.now collectors.exit.now }
        {
            let frames = mem::replace(&mut frames, Vec::new(alloc));
            fed = host(
                rt,
                alloc,
                gate,
                shared,
                starts.len(),
                pass,
                frames,
                collectors,
            );
        },
        cells,
    );
    fed
}

/// Runs the jobs. All room for them has been allocated.
fn run_in<R: Threads + Wait + Sync, G: Gate + Sync, const VFS: u8, const FIFO: u16>(
    rt: &R,
    alloc: Global,
    gate: &G,
    shared: &Shared<VFS, FIFO>,
    jobs: Vec<Job>,
    pass: &mut Pass,
    frames: Vec<Vec<u8>>,
    room: Room,
    cells: Vec<TaskCell<WorkerTask<'_, R, G, VFS, FIFO>, Back>>,
    ends: Vec<WorkerEnd>,
) -> Ran
    requires starts { vec_len room.starts ≡ vec_len jobs }
    requires ways { AreWays jobs.items room.producers.items room.collectors.items }
    requires cells { (cells.items ≡ []) × (vec_len jobs ≤ vec_capacity cells) }
    requires ends { (ends.items ≡ []) × (vec_len jobs ≤ vec_capacity ends) }
    ensures ends { AreEnds jobs.items result.ends.items }
    ensures fed { AreFed (map (λ frame. frame.items) frames.items) pass.old pass.new }
    ensures count { result.fed ≡ done_in (gained pass.old pass.new) }
{
    let Room {
        starts,
        producers,
        mut collectors,
    } = room;
    let mut cells = sit(rt, alloc, gate, shared, jobs, producers, &collectors, cells);
    let fed = run_cells(
        rt,
        alloc,
        gate,
        shared,
        &starts,
        pass,
        frames,
        &mut collectors,
        &mut cells,
    );
    Ran {
        ends: gather(cells, collectors, ends),
        fed,
    }
}

/// Runs jobs on a shared device, each on its own thread, while frames arrive through the calling thread's pass.
///
/// Each worker starts a driver of its queue, passes points 0 and 1 of the gate, and looks for a packet `rounds` times.
/// It reports each packet that it receives and sends it again. Then it reaps, passes point 2, and stops the driver.
///
/// The calling thread's number at the gate is the number of jobs. It passes point 0, delivers the frames up to the
/// first that is refused, passes point 1, and leaves. If the gate doesn't let it pass point 0, it delivers no frame.
/// Then it takes the workers' reports and joins the workers. A worker that ends early leaves the gate. A worker for
/// which no thread can be created leaves before another worker waits for it, and ends with `NoThread`. The run waits
/// for each thread that was created, however long the thread takes to begin.
///
/// Take a job with its result, and a history of the device that leaves the job's queue alone and in which the job's
/// driver begins well. If the result has a fault, both sides of the queue must also be off just before the driver's
/// first event, with no enable request pending. The result is then in order over this history, up to the last call made
/// by the result's pass.
///
/// "In order" means two facts. The packets that the driver handed out are a prefix of those delivered on the queue. The
/// frames sent on the queue are a prefix of those that the driver accepted. Delivered and sent frames are counted since
/// the sides were enabled after the driver's first event.
///
/// When you close the shared device with its passes, you get one such history if `left_alone` and `begins_well` are
/// true of the result's pass and the job. If the result has a fault, `never_asked_on` must be true too. The result is
/// then in order over the returned history.
///
/// A job isn't refused just because its `pf_queue` isn't the queue that its port and queue number identify. Which queue
/// they identify depends on the device's mode when the job's worker starts, and others may run steps that serve that
/// queue. If nobody does, the worker ends with `StartTimeout` after 1,000 polls that show a side off. If port and queue
/// number identify no queue, the worker ends with `DeviceFault`. `Job::steps_its_queue` checks this in advance.
///
/// The contract doesn't specify how often a worker looks, what it sends, which points it passes, or why the last frames
/// don't arrive; tests check these facts.
///
/// It fails with the first of these errors that applies: `NoJobs` if there are no jobs or more than 16, `Overlap` if
/// two arenas share a block number, or `OutOfMemory`. Each error returns the jobs and frames, and nothing is done.
pub fn run_workers<R: Threads + Wait + Sync, G: Gate + Sync, const VFS: u8, const FIFO: u16>(
    rt: &R,
    alloc: Global,
    gate: &G,
    shared: &Shared<VFS, FIFO>,
    jobs: Vec<Job>,
    pass: &mut Pass,
    frames: Vec<Vec<u8>>,
) -> Result<Ran, RunRefused>
    ensures team { OnOk result (IsTeam jobs.items) }
    ensures ends { IfOk result (λ ran. AreEnds jobs.items ran.ends.items) }
    ensures order { IfOk result (λ ran. AreInOrder jobs.items ran.ends.items) }
    ensures fed { OnOk result (AreFed (map (λ frame. frame.items) frames.items) pass.old pass.new) }
    ensures count { IfOk result (λ ran. ran.fed ≡ done_in (gained pass.old pass.new)) }
    ensures refused { IfErr result (λ refused. IsWhy jobs.items refused.fault) }
    ensures back { IfErr result (λ refused. (refused.jobs ≡ jobs) × (refused.frames ≡ frames)) }
    ensures unchanged { OnErr result (pass.new ≡ pass.old) }
{
    if let Some(fault) = refusal(&jobs) {
        return Err(RunRefused {
            fault,
            jobs,
            frames,
        });
    }
    let Some((room, cells, ends)) = make_all_room(alloc, &jobs) else {
        return Err(RunRefused {
            fault: RunFault::OutOfMemory,
            jobs,
            frames,
        });
    };
    Ok(run_in(
        rt, alloc, gate, shared, jobs, pass, frames, room, cells, ends,
    ))
}
