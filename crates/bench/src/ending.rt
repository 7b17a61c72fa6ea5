//! Frees the resources of a run: arenas, jobs, drivers and the device.

use crate::refused::Refused;
use nic_device::{Arena, Device, Parts, leave};
use pmd::{Home, Job, Rest};

/// Closes an arena. An arena with a block that isn't free is leaked.
pub(crate) fn end_arena(arena: Arena) -> Result<(), Refused> {
    match arena.close() {
        Ok(()) => Ok(()),
        Err(arena) => Err(leave(arena, Refused::Other)),
    }
}

/// Frees jobs that weren't run.
pub(crate) fn end_jobs(jobs: Vec<Job>) {
    let mut jobs = jobs;
    while let Some(job) = jobs.pop() {
        let Job {
            pass: _,
            port: _,
            queue: _,
            pf_queue: _,
            size: _,
            frame: _,
            arena,
            rounds: _,
        } = job;
        let _ended = end_arena(arena);
    }
    jobs.destroy_empty();
}

/// Frees a driver's resources. A driver that didn't stop is leaked.
pub(crate) fn end_rest(rest: Rest) -> Result<(), Refused> {
    match rest {
        Rest::Home(home) => {
            let Home {
                arena,
                lost: _,
                handed: _,
                accepted: _,
            } = home;
            end_arena(arena)
        }
        Rest::Running(pmd) => Err(leave(pmd, Refused::Other)),
    }
}

/// Closes a device. Memory that is still lent to it is leaked.
pub(crate) fn end_device(device: Device) -> Result<(), Refused> {
    let Parts {
        memory,
        frames: _,
        image: _,
    } = device.dismantle();
    match memory.finish() {
        Ok(()) => Ok(()),
        Err(memory) => Err(leave(memory, Refused::Other)),
    }
}
