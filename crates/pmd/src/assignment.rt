//! What a worker's thread receives, and what it returns.

ghost use Rattle.std.specs.Prelude.{◌≡◌, ◌≤◌, []};
ghost use Rattle.rtrb.specs.Ring.{sent, known_free};

use crate::fault::WorkerFault;
use crate::job::Job;
use crate::reports::Report;
use pmd_driver::{Pass, Rest};
use rtrb::Producer;

/// A worker's job, and its end of the ring for its reports, which has room for all of them.
pub(crate) struct Assignment {
    pub(crate) worker: usize,
    pub(crate) job: Job,
    pub(crate) producer: Producer<Report>,
    pub(crate) ghost fresh: { sent producer ≡ [] },
    pub(crate) ghost room: { job.rounds ≤ known_free producer },
}

/// What a worker's thread returns.
pub(crate) struct Back {
    pub(crate) pass: Pass,
    pub(crate) rest: Rest,
    pub(crate) fault: Option<WorkerFault>,
    pub(crate) producer: Producer<Report>,
}
