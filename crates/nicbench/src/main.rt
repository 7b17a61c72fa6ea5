//! The program `nicbench`, which reads standard input and writes to standard output.
#![tactic(auto)]

use bench::{FAILED, Input, NO_MEMORY, Outcome, Output, REFUSED_WORDS, bench, bench_threads};
use std::alloc::Global;
use std::env;
use std::io::{self, BufWriter, ErrorKind};
use std::process::ExitCode;
use std::sync::Wait;
use std::thread::Threads;

fn main(rt: HostRuntime) -> ExitCode {
    let status = match run(&rt) {
        Ok(Outcome::Ended(status)) => status,
        Ok(Outcome::Threads { workers, frames }) => run_threads(&rt, rt.alloc(), workers, frames),
        Err(error) => match error.kind() {
            ErrorKind::OutOfMemory => refused_for_memory(&rt),
            ErrorKind::InvalidData => REFUSED_WORDS,
            _ => FAILED,
        },
    };
    ExitCode::from(status)
}

/// Reports that memory ran out for the arguments or the writer, and returns the exit status.
fn refused_for_memory<R: Print>(rt: &R) -> u8 {
    match println!(rt; "refused OutOfMemory") {
        Ok(()) => NO_MEMORY,
        Err(_) => FAILED,
    }
}

/// Runs the bench on the process's arguments, standard input and standard output, and returns how the bench ended.
/// After a failed write, nothing more is written, not even buffered output.
fn run(rt: &HostRuntime) -> io::Result<Outcome> {
    let alloc = rt.alloc();
    let words: Vec<String> = env::args(rt)?.collect(alloc)?;
    let mut writer = BufWriter::new(alloc, rt.stdout())?;
    let mut input = Input::of(rt.stdin());
    let mut output = Output::of(&mut writer);
    match bench(alloc, &mut input, &mut output, words.as_slice()) {
        Outcome::Ended(status) => Ok(Outcome::Ended(output.flush(status))),
        Outcome::Threads { workers, frames } => Ok(Outcome::Threads { workers, frames }),
    }
}

/// Runs workers on threads, prints their summary on standard output, and returns the exit status.
fn run_threads<R: Print + Threads + Wait + Sync>(
    rt: &R,
    alloc: Global,
    workers: u8,
    frames: u8,
) -> u8 {
    let Ok(mut writer) = BufWriter::new(alloc, io::writer(rt)) else {
        return refused_for_memory(rt);
    };
    let mut output = Output::of(&mut writer);
    let status = bench_threads(rt, alloc, &mut output, workers, frames);
    if output.has_failed() {
        return output.failed_status();
    }
    output.flush(status)
}
