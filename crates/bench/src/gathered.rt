//! Collects the results of the workers.

ghost use Rattle.std.specs.Prelude.{◌≡◌, ◌+◌, IfOk, OnOk, vec_len};

use crate::ending::end_rest;
use crate::refused::{Refused, both};
use pmd::{Pass, Ran, Report, WorkerEnd};
use std::alloc::Global;

/// The results of all workers.
#[derive(Drop)]
pub(crate) struct Gathered {
    /// The workers' passes to the device, which must still be closed.
    pub(crate) passes: Vec<Pass>,
    /// Each worker's reports, in the order of the workers.
    pub(crate) reports: Vec<Vec<Report>>,
}

impl Gathered {
    /// Adds the result of one worker. Refused if the worker ended with a fault, or if some of its blocks aren't free
    /// after the run.
    fn take(&mut self, end: WorkerEnd) -> Result<(), Refused>
        ensures { OnOk result (vec_len self.new.reports ≡ vec_len self.old.reports + 1) }
    {
        let WorkerEnd {
            pass,
            rest,
            reports,
            fault,
        } = end;
        let ended = end_rest(rest);
        if let Some(fault) = fault {
            return Err(Refused::from(fault));
        }
        ended?;
        if self.passes.push(pass).is_err() || self.reports.push(reports).is_err() {
            return Err(Refused::OutOfMemory);
        }
        Ok(())
    }
}

/// Collects the results of all workers. Refused if a worker ended with a fault, or if some frames didn't arrive.
pub(crate) fn gather(alloc: Global, ran: Ran, frames: u8) -> Result<Gathered, Refused>
    ensures { IfOk result (λ g. vec_len g.reports ≡ vec_len ran.ends) }
{
    let Ran { mut ends, fed } = ran;
    let mut gathered = Gathered {
        passes: Vec::new(alloc),
        reports: Vec::new(alloc),
    };
    let mut done = if fed < usize::from(frames) {
        Err(Refused::OutOfMemory)
    } else {
        Ok(())
    };
    ends.reverse();
    while let Some(end) = ends.pop() {
        done = both(done, gathered.take(end));
    }
    ends.destroy_empty();
    match done {
        Ok(()) => Ok(gathered),
        Err(refused) => Err(refused),
    }
}
