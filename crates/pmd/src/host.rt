//! The calling thread's work: it delivers frames for the workers and collects their reports.

ghost use Rattle.std.specs.Prelude.{◌≡◌, map};
ghost use Rattle.pmd.specs.Feeding.{AreFed, done_in, gained};
ghost use Rattle.pmd.specs.Coming.{AreDrained};

use crate::feeding::feed;
use crate::gate::Gate;
use crate::reports::Collector;
use pmd_driver::{Pass, Shared};
use std::alloc::Global;
use std::sync::Wait;

/// Takes the reports that each worker has sent so far.
fn drain_all(collectors: &mut [Collector])
    ensures { AreDrained collectors.old collectors.new }
{
    for collector in collectors.iter_mut() {
        collector.drain();
    }
}

/// Delivers the frames if the gate lets the calling thread pass. Returns the number of frames accepted.
fn feed_at<R: Wait, G: Gate, const VFS: u8, const FIFO: u16>(
    rt: &R,
    alloc: Global,
    gate: &G,
    shared: &Shared<VFS, FIFO>,
    worker: usize,
    pass: &mut Pass,
    frames: Vec<Vec<u8>>,
) -> usize
    ensures fed { AreFed (map (λ frame. frame.items) frames.items) pass.old pass.new }
    ensures count { result ≡ done_in (gained pass.old pass.new) }
{
    if gate.pass(worker, 0) {
        feed(rt, alloc, shared, pass, frames).done
    } else {
        0
    }
}

/// Does the calling thread's work while the workers run. The calling thread's number at the gate follows the workers'
/// numbers. It passes point 0, delivers the frames, passes point 1, and leaves; then it takes the reports that the
/// workers have sent so far. Returns the number of frames accepted.
pub(crate) fn host<R: Wait, G: Gate, const VFS: u8, const FIFO: u16>(
    rt: &R,
    alloc: Global,
    gate: &G,
    shared: &Shared<VFS, FIFO>,
    worker: usize,
    pass: &mut Pass,
    frames: Vec<Vec<u8>>,
    collectors: &mut [Collector],
) -> usize
    ensures fed { AreFed (map (λ frame. frame.items) frames.items) pass.old pass.new }
    ensures count { result ≡ done_in (gained pass.old pass.new) }
    ensures drained { AreDrained collectors.old collectors.new }
{
    let fed = feed_at(rt, alloc, gate, shared, worker, pass, frames);
    gate.pass(worker, 1);
    gate.leave(worker);
    drain_all(collectors);
    fed
}
