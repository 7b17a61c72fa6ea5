//! Three programs that send back what they receive. They run one after the other: a driver of one queue, a driver that
//! is started repeatedly, and two workers on threads. Each program is in a separate file, for you to copy.
#![tactic(auto)]

mod again;
mod frame;
mod workers;

use thiserror::Error;

/// Which of the programs failed, and why.
#[derive(Debug, Drop, Error)]
enum Failure {
    #[error("the driver of one queue: {0}")]
    Frame(#[from] frame::Failure),
    #[error("the driver that is started again: {0}")]
    Again(#[from] again::Failure),
    #[error("the workers: {0}")]
    Workers(#[from] workers::Failure),
}

fn main(rt: HostRuntime) -> Result<(), Failure> {
    frame::run(&rt)?;
    again::run(&rt)?;
    workers::run(&rt, rt.alloc())?;
    Ok(())
}
