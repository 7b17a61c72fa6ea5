//! The configuration of the device, and the jobs of the workers.

ghost use Rattle.std.specs.Prelude.{◌≡◌, ◌≤◌, IfOk, vec_len};

use crate::ending::end_jobs;
use crate::refused::Refused;
use nic_device::{Arena, Mode, Port};
use pmd::{Job, Pass, Setup};
use std::alloc::{AllocError, Global};

/// MRQC: RSS with the redirection table, for TCP over IPv4 and over IPv6.
const RSS_OF_TCP: u32 = 0x0021_0001;

/// The RSS key of the published test vectors.
pub const KEY: [u8; 40] = [
    0x6D, 0x5A, 0x56, 0xDA, 0x25, 0x5B, 0x0E, 0xC2, 0x41, 0x67, 0x25, 0x3D, 0x43, 0xA3, 0x8F, 0xB0,
    0xD0, 0xCA, 0x2B, 0xCB, 0xAE, 0x7B, 0x30, 0xB4, 0x77, 0xCB, 0x2D, 0xA3, 0x80, 0x30, 0xF2, 0x0C,
    0x6A, 0x42, 0xB7, 0x3B, 0xBE, 0xAC, 0x01, 0xFA,
];

/// The number of blocks of each worker.
const BLOCKS: u32 = 256;

/// The number of descriptors in each ring.
const SIZE: u16 = 64;

/// The longest frame in bytes, including the frame check sequence.
pub(crate) const FRAME: u16 = 1518;

/// Returns the setup of a promiscuous device without pools. Entry i of the redirection table sends a TCP segment to
/// queue i mod `workers`.
pub(crate) fn setup(workers: u8) -> Setup {
    let mut reta = [0; 128];
    for entry in 0..128u8 {
        reta[usize::from(entry)] = entry.checked_rem(workers).unwrap_or(0);
    }
    Setup {
        mode: Mode::Off,
        mrqc: RSS_OF_TCP,
        key: KEY,
        reta,
        promiscuous: true,
        frame: FRAME,
    }
}

/// Returns a worker's job on the queue with the worker's number. The job polls twice per frame, plus two more times.
fn job(alloc: Global, pass: Pass, worker: u8, frames: u8) -> Result<Job, AllocError> {
    let Ok(arena) = Arena::new(alloc, BLOCKS * u32::from(worker), BLOCKS) else {
        return Err(AllocError);
    };
    Ok(Job {
        pass,
        port: Port::Pf,
        queue: u16::from(worker),
        pf_queue: u16::from(worker),
        size: SIZE,
        frame: FRAME,
        arena,
        rounds: 2 * u32::from(frames) + 2,
    })
}

/// Returns a job for each pass, in order.
pub(crate) fn jobs(alloc: Global, passes: Vec<Pass>, frames: u8) -> Result<Vec<Job>, Refused>
    requires { vec_len passes ≤ 8 }
    ensures { IfOk result (λ jobs. vec_len jobs ≡ vec_len passes) }
{
    let mut jobs = Vec::with_capacity(alloc, passes.len())?;
    let mut worker = 0;
    for pass in passes {
        match job(alloc, pass, worker, frames) {
            Ok(job) => jobs.push_reserved(job),
            Err(refused) => {
                end_jobs(jobs);
                return Err(Refused::from(refused));
            }
        }
        worker += 1;
    }
    Ok(jobs)
}
