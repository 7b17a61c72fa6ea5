//! The poll-mode driver: the driver of one queue, the access to a device, and workers that drive queues of one device
//! on their own threads.
//!
//! This crate contains the workers, and the checks of a driver against a closed history. It re-exports the driver of
//! one queue with its device access, setup and packets (`pmd_driver`), and the device shared by threads with its passes
//! and history (`device_lock`).
//!
//! `run_workers` runs the jobs while the calling thread delivers frames to the device and collects the workers'
//! reports. `run_worker` runs one worker, through any `Nic`.
//!
//! Tasks on threads: a `TaskCell` holds a task, then the task's result. If no thread can be created for a task, the
//! task gives up so that nobody waits for it, and its `Start` says so. Meeting points: the trait `Gate` states what a
//! worker requires of a gate; `Lockstep` is a gate at which all members that haven't left wait for one another.
//!
//! A worker: `job.rt` describes its work, `reports.rt` the ring of its reports, and `feeding.rt` the frames that arrive
//! in the meantime. `turns.rt` receives one packet, reports it and sends it again; `driving.rt` contains a worker's
//! whole run, including the points at which the worker meets the others.
//!
//! The team: `assignment.rt` contains what a worker's thread receives and returns, and `worker_task.rt` the worker's
//! task on that thread. `room.rt` allocates memory before a thread starts, `host.rt` contains the calling thread's
//! work, `ends.rt` how workers end, and `team.rt` a run of all workers.
//!
//! Checks of a driver against a closed history: `before.rt` walks the entries up to the driver's first entry.
//! `beginning.rt` decides which queue a port addresses and whether the driver begins well there. `quiet.rt` checks that
//! nothing tried to enable the driver's queue before, `lending.rt` that nobody else lends the driver's blocks, and
//! `fitting.rt` that the frames accepted earlier fit the driver's packets. `verdict.rt` checks all of this, and that
//! the queue was left alone, in one call.
#![tactic(auto)]

mod assignment;
mod before;
mod beginning;
mod cell;
mod driving;
mod ends;
mod fault;
mod feeding;
mod fitting;
mod gate;
mod host;
mod hosted;
mod job;
pub mod laws;
mod lending;
mod meeting;
mod quiet;
mod reports;
mod room;
mod standing;
mod start;
mod team;
mod turns;
mod verdict;
mod worker_task;

pub use beginning::{Given, begins_well, queue_at};
pub use cell::{Task, TaskCell};
pub use driving::{Order, run_worker};
pub use ends::{Ran, RunFault, RunRefused, WorkerEnd};
pub use fault::WorkerFault;
pub use feeding::{Fed, feed};
pub use fitting::frames_fit;
pub use gate::Gate;
pub use hosted::run;
pub use job::{Job, overlap};
pub use lending::others_lend_none;
pub use meeting::{Lockstep, MAX_MEMBERS};
pub use pmd_driver::{
    Arrived, Bufs, Call, CallFault, Calls, CloseFault, CloseRefused, Closed, Direct, Entry,
    Finished, Home, Interleaved, LONGEST_FRAME, Made, NewFault, Nic, POLLS, Packet, Pass, Pmd,
    PmdFault, Queue, Reaped, Record, Rest, SHORTEST_FRAME, Settings, Setup, Shared, StartRefused,
    StopRefused, ThroughLock, TxAnswer, TxFault, Watched, arrive, history_of, leave, left_alone,
    marked_history, pf_setup,
};
pub use quiet::never_asked_on;
pub use reports::{Collector, Report};
pub use start::Start;
pub use team::run_workers;
pub use verdict::{Doubt, Driven, judge};
