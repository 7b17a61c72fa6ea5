//! Workers that drive queues of one controller on threads, run by the program.

use crate::fakes::FailingWriter;
use crate::input::ran;
use crate::outcome::{Hand, holds, same};
use bench::{Outcome, Output, bench_threads};
use std::io::ErrorKind;
use std::sync::Wait;
use std::thread::Threads;

/// A test's runtime that can also start threads.
trait Team: Hand + Threads + Wait + Sync {}

impl<R: Hand + Threads + Wait + Sync> Team for R {}

/// Returns the exit status of a run with this many workers and frames, and its output.
fn run(rt: &impl Team, workers: u8, frames: u8) -> (u8, Vec<u8>) {
    let mut written = Vec::new(rt.alloc());
    let mut output = Output::of(&mut written);
    let status = bench_threads(rt, rt.alloc(), &mut output, workers, frames);
    (status, written)
}

/// Checks the output for this many workers and frames.
fn prints(rt: &impl Team, workers: u8, frames: u8, text: &str) {
    let (status, written) = run(rt, workers, frames);
    holds(rt, text, written.as_slice() == text.as_bytes());
    same(rt, u64::from(status), 0);
}

#[test]
fn two_workers_part_ten_frames(rt: HostRuntime) {
    let text = "queue 0 packets 5 bytes 300\nqueue 1 packets 5 bytes 370\nsent 10\nhistory legal\n";
    prints(&rt, 2, 10, text);
}

/// A single worker gets all frames. A run with no frames is allowed.
#[test]
fn one_worker_has_all_frames(rt: HostRuntime) {
    prints(
        &rt,
        1,
        0,
        "queue 0 packets 0 bytes 0\nsent 0\nhistory legal\n",
    );
    prints(
        &rt,
        1,
        3,
        "queue 0 packets 3 bytes 194\nsent 3\nhistory legal\n",
    );
}

/// The IPv4 frames use entry 120 of the redirection table, and the IPv6 frames entry 61.
#[test]
fn two_of_eight_workers_have_sixty_frames(rt: HostRuntime) {
    let text =
        "queue 0 packets 30 bytes 1800\nqueue 1 packets 0 bytes 0\nqueue 2 packets 0 bytes 0\n\
queue 3 packets 0 bytes 0\nqueue 4 packets 0 bytes 0\nqueue 5 packets 30 bytes 2220\n\
queue 6 packets 0 bytes 0\nqueue 7 packets 0 bytes 0\nsent 60\nhistory legal\n";
    prints(&rt, 8, 60, text);
}

/// Zero and nine workers are refused without output.
#[test]
fn no_worker_and_nine_print_nothing(rt: HostRuntime) {
    for workers in [0, 9] {
        let (status, written) = run(&rt, workers, 1);
        same(&rt, u64::from(status), 2);
        holds(&rt, "nothing is written", written.is_empty());
    }
}

/// Runs one worker with one frame. This many writes succeed, and the next one fails.
fn summary_fails(rt: &impl Team, taken: u32) {
    let mut writer = FailingWriter {
        taken,
        kind: ErrorKind::BrokenPipe,
        has_failed: false,
        later: 0,
    };
    let mut output = Output::of(&mut writer);
    let status = bench_threads(rt, rt.alloc(), &mut output, 1, 1);
    same(rt, u64::from(status), 2);
    same(rt, u64::from(output.flush(2)), 2);
    holds(rt, "it has failed", writer.has_failed);
    same(rt, u64::from(writer.later), 0);
}

/// If a write of the summary fails, the status is 2, and no write follows.
#[test]
fn a_failed_write_ends_the_summary(rt: HostRuntime) {
    for taken in 0..4 {
        summary_fails(&rt, taken);
    }
}

/// Checks the outcome of a command line that reads no input and writes at most a message about its words.
fn ends(rt: &impl Team, words: &[&str], wanted: Outcome) {
    let (written, outcome) = ran(rt.alloc(), words, &mut &b""[..]);
    holds(rt, "how they end", outcome == wanted);
    let is_left = matches!(outcome, Outcome::Threads { .. });
    holds(rt, "what is written", written.is_empty() == is_left);
}

/// Checks that this many workers and frames are refused.
fn is_refused(rt: &impl Team, workers: &str, frames: &str) {
    let words = [
        "nicbench",
        "threads",
        "--workers",
        workers,
        "--frames",
        frames,
    ];
    ends(rt, &words, Outcome::Ended(3));
}

#[test]
fn workers_and_frames_are_in_range(rt: HostRuntime) {
    let rt = &rt;
    is_refused(rt, "0", "1");
    is_refused(rt, "9", "1");
    is_refused(rt, "1", "61");
    is_refused(rt, "-1", "1");
    is_refused(rt, "1", "-1");
    is_refused(rt, "two", "1");
    ends(
        rt,
        &["nicbench", "threads", "--workers", "1"],
        Outcome::Ended(3),
    );
    ends(
        rt,
        &["nicbench", "threads", "--frames", "1"],
        Outcome::Ended(3),
    );
    let wanted = Outcome::Threads {
        workers: 8,
        frames: 60,
    };
    ends(
        rt,
        &["nicbench", "threads", "--frames=60", "--workers", "8"],
        wanted,
    );
}
