//! A shared device doesn't close with the wrong passes. After such a refusal, the history is unchanged and accepts
//! further calls up to its limit, and the device closes with the right passes.

use crate::bench::{count_calls, end};
use crate::outcome::{Hand, done, push, refused, same, same_pair, sees, some};
use crate::shared::{
    Bench, closed, counted, is_full, passes_of, refused_step, shared, three_steps, write_and_read,
};
use device_lock::{CloseFault, CloseRefused, Pass};

/// A shared device with room for 16 calls in its history. Pass 0 has made ten calls, and pass 1 three.
fn called(rt: &impl Hand) -> (Bench, Vec<Pass>) {
    let (bench, mut passes) = shared(rt, 1, 2, 16);
    let mut second = some(rt, passes.pop());
    three_steps(rt, &bench, &mut second);
    let first = write_and_read(rt, &bench, some(rt, passes.pop()));
    (bench, passes_of(rt, [first, second]))
}

/// Checks that a shared device doesn't close with these passes, for this reason. Returns the device and the passes.
fn stays_open(
    rt: &impl Hand,
    bench: Bench,
    passes: Vec<Pass>,
    wanted: CloseFault,
) -> (Bench, Vec<Pass>) {
    let count = passes.len();
    let CloseRefused {
        fault,
        shared,
        passes,
    } = refused(rt, bench.close(passes));
    sees(rt, fault == wanted);
    same(rt, passes.len(), count);
    (shared, passes)
}

/// Makes three more calls with pass 1, after which the history is full. Then closes the device with both passes and
/// checks that the history contains all 16 calls, ten of pass 0 and six of pass 1.
fn goes_on(rt: &impl Hand, bench: Bench, passes: Vec<Pass>) {
    let mut passes = passes;
    let mut second = some(rt, passes.pop());
    let first = some(rt, passes.pop());
    three_steps(rt, &bench, &mut second);
    is_full(rt, refused_step(rt, &bench, &mut second));
    same(rt, count_calls(first.calls()), 10);
    let passes = passes_of(rt, [first, second]);
    same_pair(rt, counted(rt, bench, passes, 1), (16, 6));
}

/// Tries to close the device without pass 1, which made calls.
fn withhold_a_pass(rt: &impl Hand) {
    let (bench, mut passes) = called(rt);
    let withheld = some(rt, passes.pop());
    let (bench, mut passes) = stays_open(rt, bench, passes, CloseFault::MissingPass(1));
    push(rt, &mut passes, withheld);
    goes_on(rt, bench, passes);
}

#[test]
fn a_close_without_a_pass_keeps_the_history(rt: HostRuntime) {
    withhold_a_pass(&rt);
}

/// Tries to close the device with an additional third pass, which belongs to another shared device.
fn add_a_foreign_pass(rt: &impl Hand) {
    let (bench, mut passes) = called(rt);
    let (other, mut others) = shared(rt, 2, 1, 16);
    push(rt, &mut passes, some(rt, others.pop()));
    let (bench, mut passes) = stays_open(rt, bench, passes, CloseFault::ForeignPass);
    push(rt, &mut others, some(rt, passes.pop()));
    goes_on(rt, bench, passes);
    same(rt, closed(rt, other, others), 0);
}

#[test]
fn a_close_with_a_foreign_pass_keeps_the_history(rt: HostRuntime) {
    add_a_foreign_pass(&rt);
}

/// Tries to close the device with pass 1 of another shared device with the same number. That pass made no call.
fn put_a_namesakes_pass(rt: &impl Hand) {
    let (bench, mut passes) = called(rt);
    let (other, mut others) = shared(rt, 1, 2, 16);
    let own = some(rt, passes.pop());
    push(rt, &mut passes, some(rt, others.pop()));
    let (bench, mut passes) = stays_open(rt, bench, passes, CloseFault::Mismatch(1));
    push(rt, &mut others, some(rt, passes.pop()));
    push(rt, &mut passes, own);
    goes_on(rt, bench, passes);
    same(rt, closed(rt, other, others), 0);
}

#[test]
fn a_close_with_a_namesakes_pass_keeps_the_history(rt: HostRuntime) {
    put_a_namesakes_pass(&rt);
}

/// Tries to close the device without pass 1 but with a pass of another shared device. The missing pass is reported.
fn swap_a_pass(rt: &impl Hand) {
    let (bench, mut passes) = called(rt);
    let (other, mut others) = shared(rt, 2, 2, 16);
    let own = some(rt, passes.pop());
    push(rt, &mut passes, some(rt, others.pop()));
    let (bench, mut passes) = stays_open(rt, bench, passes, CloseFault::MissingPass(1));
    push(rt, &mut others, some(rt, passes.pop()));
    push(rt, &mut passes, own);
    goes_on(rt, bench, passes);
    same(rt, closed(rt, other, others), 0);
}

#[test]
fn a_missing_pass_is_reported_before_a_foreign_one(rt: HostRuntime) {
    swap_a_pass(&rt);
}

/// Checks the positions of the calls of pass 1 and of pass 0 in the history. The first three calls belong to pass 1,
/// and the next ten to pass 0.
fn look_for_calls(rt: &impl Hand) {
    let (bench, passes) = called(rt);
    let closed = done(rt, bench.close(passes));
    let first = done(rt, closed.of_pass(rt.alloc(), 1));
    let second = done(rt, closed.of_pass(rt.alloc(), 0));
    let third = done(rt, closed.of_pass(rt.alloc(), 2));
    sees(rt, first.as_slice() == [0, 1, 2].as_slice());
    sees(
        rt,
        second.as_slice() == [3, 4, 5, 6, 7, 8, 9, 10, 11, 12].as_slice(),
    );
    sees(rt, third.is_empty());
    same(rt, end(rt, closed.into_device()).len(), 0);
}

#[test]
fn positions_of_a_pass_are_those_of_its_calls(rt: HostRuntime) {
    look_for_calls(&rt);
}
