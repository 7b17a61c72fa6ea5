//! Snapshots of a machine, which let a debugger go back.

ghost use Rattle.std.specs.Prelude.{◌≡◌, ◌-◌, ◌*◌, ◌^◌, ◌<◌, ◌≤◌, [], IfSome};
ghost use Rattle.debugger.specs.Snapshots.{AreOf, IsBefore, StayOf};
ghost use Rattle.machine.specs.Course.{Course};

use machine::{Machine, MachineSnapshot};
use std::alloc::Global;

/// The distance in steps between permanent snapshots.
const SNAPSHOT_STEPS: u64 = 256;

/// The number of permanent snapshots.
const SNAPSHOT_LIMIT: usize = 64;

/// The step of the last permanent snapshot.
const FIRST_STEPS: u64 = SNAPSHOT_LIMIT as u64 * SNAPSHOT_STEPS;

/// Snapshots of one machine, earliest first: the permanent snapshots, then a temporary snapshot, which later snapshots
/// replace.
#[derive(Drop)]
pub(crate) struct Snapshots {
    pub(crate) kept: Vec<MachineSnapshot>,
    /// The step at which the next snapshot is due.
    next: u64,
}

impl Snapshots {
    /// Returns an empty list of snapshots. The first snapshot is due at the first multiple of `SNAPSHOT_STEPS`.
    pub(crate) fn new(alloc: Global) -> Snapshots
        ensures { result.kept.items ≡ [] }
    {
        Snapshots {
            kept: Vec::new(alloc),
            next: SNAPSHOT_STEPS,
        }
    }

    /// Returns an empty list of snapshots. No snapshot is due before the last step that a machine can count.
    pub(crate) fn none(alloc: Global) -> Snapshots
        ensures { result.kept.items ≡ [] }
    {
        Snapshots {
            kept: Vec::new(alloc),
            next: u64::MAX,
        }
    }

    /// Takes a snapshot if one is due; the new snapshot replaces the temporary snapshot. If there isn't enough memory,
    /// skips the snapshot.
    pub(crate) fn keep(&mut self, machine: &Machine)
        ensures { StayOf machine.now self.old.kept.items self.new.kept.items }
    {
        let steps = machine.steps();
        if steps != self.next {
            return;
        }
        self.next = next_after(steps);
        let Ok(snapshot) = machine.snapshot() else {
            return;
        };
        self.kept.truncate(SNAPSHOT_LIMIT);
        let _ = self.kept.push(snapshot);
    }

    /// Returns the last snapshot at or before this step, or `None` if there is none.
    pub(crate) fn before(&self, steps: u64) -> Option<&MachineSnapshot>
        ensures { IfSome result (λ snapshot. (machine : Course) →
            AreOf machine self.now.kept.items → IsBefore machine snapshot.now steps) }
    {
        let kept = self.kept.as_slice();
        let mut at = kept.len();
        'each: while at > 0 {
            at -= 1;
            let snapshot = &kept[at];
            if snapshot.steps() <= steps {
                return Some(snapshot);
            }
        }
        None
    }
}

/// Returns the step at which the next snapshot is due, after a snapshot at this step. Below `FIRST_STEPS`, the result
/// is the next multiple of `SNAPSHOT_STEPS`. From `FIRST_STEPS` on, it is the last multiple that is at most 1.5 times
/// this step. So going back from the furthest step that was reached replays less than a third of the steps.
fn next_after(steps: u64) -> u64
    ensures later { steps < 2 ^ 64 - 1 → steps < result }
    ensures near { FIRST_STEPS ≤ steps → 2 * result ≤ 3 * steps }
{
    if steps < FIRST_STEPS {
        steps + SNAPSHOT_STEPS
    } else {
        steps.saturating_add(steps / (2 * SNAPSHOT_STEPS) * SNAPSHOT_STEPS)
    }
}
