//! Frames that arrive through a pass, up to the first refused frame.

use crate::locks::{Opened, closed, open_bench};
use crate::sums::{START, end_device};
use device_lock::{CallFault, Pass};
use nic_device::Event;
use pmd::{Fed, feed};
use std::alloc::Global;
use std::process::Abort;

/// The number of frames.
const FRAMES: usize = 3;

/// The length of the first frame in bytes. Each later frame is a byte longer.
const SHORTEST: usize = 60;

/// Returns a frame of `len` zero bytes.
fn frame_of<R: Abort>(rt: &R, alloc: Global, len: usize) -> Vec<u8> {
    let mut bytes = Vec::new(alloc);
    for _byte in 0..len {
        bytes.push(0).expect(rt, "memory");
    }
    bytes
}

/// Returns the frames, shortest first.
fn frames<R: Abort>(rt: &R, alloc: Global) -> Vec<Vec<u8>> {
    let mut frames = Vec::new(alloc);
    for number in 0..FRAMES {
        let frame = frame_of(rt, alloc, SHORTEST + number);
        frames.push(frame).expect(rt, "memory");
    }
    frames
}

/// Returns the number of frames that arrived through a pass. Checks that each is a byte longer than the one before.
fn arrived<R: Abort>(rt: &R, pass: &Pass) -> usize {
    let mut count: usize = 0;
    for made in pass.calls().kept().0 {
        if let Event::Arrive(frame) = &made.call.event {
            let wanted = SHORTEST.saturating_add(count);
            assert!(rt; frame.bytes().len() == wanted, "a frame was left out");
            count = count.saturating_add(1);
        }
    }
    count
}

/// Whether feeding stopped for lack of memory. Any other reason fails the test.
fn is_refused<R: Abort>(rt: &R, refused: Option<CallFault<()>>) -> bool {
    match refused {
        None => false,
        Some(CallFault::OutOfMemory(())) => true,
        Some(CallFault::ForeignPass(()) | CallFault::HistoryFull(())) => {
            panic!(rt; "another refusal")
        }
    }
}

/// Whichever allocation fails, no frame arrives after the first refused frame, and the reported count is the number of
/// frames that arrived.
#[test]
fn feeding_ends_at_the_first_refused_frame(rt: HostRuntime) {
    let alloc = rt.alloc();
    let Opened {
        bench,
        mut pass,
        arena,
    } = open_bench(&rt, alloc);
    let frames = frames(&rt, alloc);
    let _reported = println!(rt; "call");
    let Fed {
        done: count,
        refused,
    } = feed(&rt, alloc, &bench, &mut pass, frames);
    let _reported = println!(rt; "end");
    assert!(rt;
        arrived(&rt, &pass) == count,
        "another number of frames arrived"
    );
    assert!(rt;
        is_refused(&rt, refused) == (count < FRAMES),
        "the feeding ended early"
    );
    let device = closed(&rt, alloc, bench, pass).into_device();
    let _sum = end_device(&rt, START, device, arena);
}
