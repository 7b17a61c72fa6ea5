//! The workers' jobs.

ghost use Rattle.std.specs.Prelude.{ℕ, ◌≡◌, ◌<◌, ◌↔◌, Some, IsTrue, IfSome, IfNone, length};
ghost use Rattle.pmd.specs.Overlap.{Share, SharesEarlier, IsFirstToShare};
ghost use Rattle.pmd.specs.Queues.{queue_at};

use crate::beginning::queue_at;
use pmd_driver::{Arena, Mode, Pass, Port};

/// A worker's job. A `Job` can't be dropped.
pub struct Job {
    /// The pass that the worker's calls use.
    pub pass: Pass,
    /// The port through which the worker reaches its queue.
    pub port: Port,
    /// The number of the worker's queue at that port.
    pub queue: u16,
    /// The device queue, below 128, whose device steps run before each of the worker's calls. It should be the queue
    /// that `port` and `queue` identify when the worker starts (`queue_at`).
    pub pf_queue: u16,
    /// The number of descriptors in each ring: a multiple of 8 from 8 to 1,024.
    pub size: u16,
    /// The maximum length of a frame in bytes, including its frame check sequence: 1,518 to 9,728.
    pub frame: u16,
    /// The blocks for the worker's driver.
    pub arena: Arena,
    /// How many times the worker looks for a packet.
    pub rounds: u32,
}

impl Job {
    /// Returns whether the device steps before the worker's calls serve the worker's own queue. They do if `pf_queue`
    /// is the queue that `port` and `queue` identify, in this pool mode and with `vfs` virtual functions. If they
    /// don't, the worker's queue is enabled only if somebody else runs the device steps that serve it.
    pub fn steps_its_queue(&self, mode: Mode, vfs: u8) -> bool
        ensures { IsTrue result ↔ (queue_at mode vfs self.now.port self.now.queue ≡ Some self.now.pf_queue) }
    {
        match queue_at(mode, vfs, self.port, self.queue) {
            Some(queue) => queue == self.pf_queue,
            None => false,
        }
    }
}

/// Returns whether two arenas share a block number.
fn share(a: &Arena, b: &Arena) -> bool
    ensures { IsTrue result ↔ Share a.now b.now }
{
    let begins_there = a.owns(b.first());
    let begins_here = b.owns(a.first());
    begins_there || begins_here
}

/// Returns whether a job's arena shares a block number with an earlier job's arena.
fn shares_earlier(jobs: &[Job], at: usize) -> bool
    requires { at < length jobs.now }
    ensures { IsTrue result ↔ SharesEarlier jobs.now at }
{
    for earlier in 0..at {
        if share(&jobs[earlier].arena, &jobs[at].arena) {
            return true;
        }
    }
    false
}

/// Returns the first job whose arena shares a block number with an earlier job's arena, or `None` if there is no such
/// job.
pub fn overlap(jobs: &[Job]) -> Option<usize>
    ensures some { IfSome result (λ n. IsFirstToShare jobs.now n) }
    ensures none { IfNone result ((n : ℕ) → ¬ SharesEarlier jobs.now n) }
{
    for at in 0..jobs.len() {
        if shares_earlier(jobs, at) {
            return Some(at);
        }
    }
    None
}
