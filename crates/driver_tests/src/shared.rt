//! Calls that several passes make on a shared device: the replies, the refusals and the history.

use crate::bench::{count_calls, end, is_done, word_in};
use crate::outcome::{
    Hand, done, emptied, empty, fail, push, refused, same, same_pair, sees, some,
};
use device_lock::{CallFault, CloseFault, CloseRefused, Closed, Pass, Shared};
use nic_device::{Dir, Event, Port, Reply};
use pmd::{Nic, POLLS, Queue, ThroughLock};
use std::thread::join_mut;

/// A shared device without virtual functions.
pub type Bench = Shared<0, 64>;

/// Makes a call through a pass. Returns its reply.
fn reply(rt: &impl Hand, bench: &Bench, pass: &mut Pass, event: Event) -> Reply {
    done(rt, bench.call(rt, rt.alloc(), pass, event))
}

/// Why a receive step was refused. Checks that the event was returned.
fn why(rt: &impl Hand, fault: CallFault) -> CallFault<()> {
    let (why, event) = match fault {
        CallFault::ForeignPass(event) => (CallFault::ForeignPass(()), event),
        CallFault::HistoryFull(event) => (CallFault::HistoryFull(()), event),
        CallFault::OutOfMemory(event) => (CallFault::OutOfMemory(()), event),
    };
    match event {
        Event::RxStep => why,
        _other => fail(rt, "another event came back"),
    }
}

/// Checks that a call was refused because the history is full.
pub fn is_full(rt: &impl Hand, why: CallFault<()>) {
    sees(rt, matches!(why, CallFault::HistoryFull(())));
}

/// Closes a shared device with its passes.
fn close(rt: &impl Hand, bench: Bench, passes: Vec<Pass>) -> Closed<0, 64> {
    done(rt, bench.close(passes))
}

/// Creates a shared device with this number, this many passes, and a limit on the entries of its history.
pub fn shared(rt: &impl Hand, bench: u64, passes: u8, limit: u32) -> (Bench, Vec<Pass>) {
    done(rt, Bench::new(rt.alloc(), bench, passes, limit))
}

/// Runs a receive step through a pass, which must be refused. Returns why.
pub fn refused_step(rt: &impl Hand, bench: &Bench, pass: &mut Pass) -> CallFault<()> {
    why(
        rt,
        refused(rt, bench.call(rt, rt.alloc(), pass, Event::RxStep)),
    )
}

/// Closes a shared device without lent memory and transmitted frames. Returns the number of calls in its history, and
/// how many of them belong to the pass with this tag.
pub fn counted(rt: &impl Hand, bench: Bench, passes: Vec<Pass>, tag: u8) -> (usize, usize) {
    let closed = close(rt, bench, passes);
    let counts = (
        closed.history().len(),
        done(rt, closed.of_pass(rt.alloc(), tag)).len(),
    );
    same(rt, end(rt, closed.into_device()).len(), 0);
    counts
}

/// Closes a shared device without lent memory and transmitted frames. Returns the number of calls in its history.
pub fn closed(rt: &impl Hand, bench: Bench, passes: Vec<Pass>) -> usize {
    let (made, _own) = counted(rt, bench, passes, 0);
    made
}

/// A list of two passes.
pub fn passes_of(rt: &impl Hand, passes: [Pass; 2]) -> Vec<Pass> {
    done(rt, Vec::from_array(rt.alloc(), passes))
}

/// Writes a register through a pass.
fn write(rt: &impl Hand, bench: &Bench, pass: &mut Pass, address: u32, word: u32) {
    is_done(
        rt,
        reply(rt, bench, pass, Event::Write(Port::Pf, address, word)),
    );
}

/// Reads a register through a pass.
fn read(rt: &impl Hand, bench: &Bench, pass: &mut Pass, address: u32) -> u32 {
    word_in(rt, reply(rt, bench, pass, Event::Read(Port::Pf, address)))
}

/// Writes a register and checks that the value reads back.
fn write_and_see(rt: &impl Hand, bench: &Bench, pass: &mut Pass, address: u32, word: u32) {
    write(rt, bench, pass, address, word);
    let reported = read(rt, bench, pass, address);
    same(rt, reported as usize, word as usize);
}

/// Alternately writes a pass's EITR register and reads it back, ten calls in total.
pub fn write_and_read(rt: &impl Hand, bench: &Bench, pass: Pass) -> Pass {
    let mut pass = pass;
    let tag = u32::from(pass.tag());
    for turn in 0..5u32 {
        write_and_see(rt, bench, &mut pass, 0x00820 + 4 * tag, 100 * turn + tag);
    }
    pass
}

/// Enables and disables a side of a queue through the lock. Each change takes a write and a poll. Each of these four
/// calls follows four device steps.
pub fn switch(rt: &impl Hand, bench: &Bench, pass: Pass, queue: u16) -> Pass {
    let mut nic = ThroughLock::new(rt, bench, pass, queue);
    let at = some(rt, Queue::new(Port::Pf, queue));
    for on in [true, false] {
        done(rt, at.ask(rt.alloc(), &mut nic, Dir::Rx, on));
        done(rt, at.poll(rt.alloc(), &mut nic, Dir::Rx, on, POLLS));
    }
    nic.finish()
}

/// A thread's work with its pass: the thread writes and reads a register, or it enables and disables queue 5 or 6.
#[derive(Clone, Copy)]
enum Deed {
    Words,
    Switches,
}

/// Makes the calls of a thread.
fn work(rt: &impl Hand, bench: &Bench, pass: Pass, work: Deed) -> Pass {
    match work {
        Deed::Words => write_and_read(rt, bench, pass),
        Deed::Switches => {
            let queue = 5 + u16::from(pass.tag() % 2);
            switch(rt, bench, pass, queue)
        }
    }
}

/// Does this work with two passes, each on its own thread.
fn both_work(rt: &impl Hand, bench: &Bench, passes: Vec<Pass>, what: Deed) -> Vec<Pass> {
    let mut passes = passes;
    let mut second = passes.pop();
    let mut first = passes.pop();
    join_mut(
        rt,
        &mut || first = Some(work(rt, bench, some(rt, first.take()), what)),
        &mut || second = Some(work(rt, bench, some(rt, second.take()), what)),
    );
    passes_of(rt, [some(rt, first), some(rt, second)])
}

/// Runs two threads that work on one device. Checks the total number of calls, and the number of one pass's calls.
fn two_threads(rt: &impl Hand, what: Deed, tag: u8, calls: (usize, usize)) {
    let (bench, passes) = shared(rt, 1, 2, 1000);
    let passes = both_work(rt, &bench, passes, what);
    same_pair(rt, counted(rt, bench, passes, tag), calls);
}

#[test]
fn two_threads_read_what_they_wrote(rt: HostRuntime) {
    two_threads(&rt, Deed::Words, 0, (20, 10));
}

#[test]
fn two_threads_switch_queues_of_one_device(rt: HostRuntime) {
    two_threads(&rt, Deed::Switches, 1, (40, 20));
}

/// Each of 64 passes enables and disables one queue with 20 calls. The queue's number is twice the pass's number plus
/// one, so the last queue is 127.
fn switch_64_queues(rt: &impl Hand) {
    let (bench, mut passes) = shared(rt, 1, 64, 1280);
    let mut back = empty(rt);
    for _pass in 0..64u32 {
        let pass = some(rt, passes.pop());
        let queue = 2 * u16::from(pass.tag() % 64) + 1;
        push(rt, &mut back, switch(rt, &bench, pass, queue));
    }
    emptied(rt, passes);
    same_pair(rt, counted(rt, bench, back, 63), (1280, 20));
}

#[test]
fn queues_up_to_the_last_are_stepped_through_the_lock(rt: HostRuntime) {
    switch_64_queues(&rt);
}

/// Reads HLREG0 through a `Nic` and checks its value.
fn read_hlreg0<N: Nic>(rt: &impl Hand, nic: &mut N) {
    let reported = done(rt, nic.call(rt.alloc(), Event::Read(Port::Pf, 0x04240)));
    same(rt, word_in(rt, reported) as usize, 0x403);
}

/// Why a receive step is refused.
fn refused_at<N: Nic>(rt: &impl Hand, nic: &mut N) -> CallFault<()> {
    why(rt, refused(rt, nic.call(rt.alloc(), Event::RxStep)))
}

/// Reads through the lock, then runs a step, which a full history refuses. Checks that five calls were made before the
/// step, and seven in the end. Returns the pass.
fn five_and_seven(rt: &impl Hand, bench: &Bench, pass: Pass) -> Pass {
    let mut nic = ThroughLock::new(rt, bench, pass, 9);
    read_hlreg0(rt, &mut nic);
    same(rt, count_calls(nic.calls()), 5);
    is_full(rt, refused_at(rt, &mut nic));
    let pass = nic.finish();
    same(rt, count_calls(pass.calls()), 7);
    pass
}

/// One pass makes calls, each of which follows device steps, until the history is full.
fn call_after_steps(rt: &impl Hand) {
    let (bench, mut passes) = shared(rt, 1, 1, 7);
    let pass = five_and_seven(rt, &bench, some(rt, passes.pop()));
    push(rt, &mut passes, pass);
    same(rt, closed(rt, bench, passes), 7);
}

#[test]
fn a_call_is_after_the_steps_of_its_queue(rt: HostRuntime) {
    call_after_steps(&rt);
}

/// Tries to close a shared device without one of its passes, and then closes it with that pass.
fn withhold_a_pass(rt: &impl Hand) {
    let (bench, mut passes) = shared(rt, 1, 2, 100);
    let withheld = some(rt, passes.pop());
    let CloseRefused {
        fault,
        shared,
        mut passes,
    } = refused(rt, bench.close(passes));
    sees(rt, fault == CloseFault::MissingPass(1));
    push(rt, &mut passes, withheld);
    same(rt, closed(rt, shared, passes), 0);
}

#[test]
fn a_withheld_pass_is_missing(rt: HostRuntime) {
    withhold_a_pass(&rt);
}

/// Checks that a pass of another shared device is refused.
fn call_by_a_foreign_pass(rt: &impl Hand) {
    let (bench, passes) = shared(rt, 1, 2, 100);
    let (other, mut others) = shared(rt, 2, 2, 100);
    let mut foreign = some(rt, others.pop());
    let why = refused_step(rt, &bench, &mut foreign);
    sees(rt, matches!(why, CallFault::ForeignPass(())));
    same(rt, closed(rt, bench, passes), 0);
    push(rt, &mut others, foreign);
    same(rt, closed(rt, other, others), 0);
}

#[test]
fn a_pass_of_another_bench_is_foreign(rt: HostRuntime) {
    call_by_a_foreign_pass(&rt);
}

/// Runs three receive steps through a pass, all of which are idle.
pub fn three_steps(rt: &impl Hand, bench: &Bench, pass: &mut Pass) {
    for _call in 0..3u32 {
        match reply(rt, bench, pass, Event::RxStep) {
            Reply::Idle => {}
            _other => fail(rt, "one of three calls"),
        }
    }
}

/// Runs three receive steps, then one that a full history refuses. Returns the pass.
fn three_and_no_more(rt: &impl Hand, bench: &Bench, pass: Pass) -> Pass {
    let mut pass = pass;
    three_steps(rt, bench, &mut pass);
    is_full(rt, refused_step(rt, bench, &mut pass));
    pass
}

/// Checks that a history with a limit of three calls accepts no more.
fn fill_a_history(rt: &impl Hand) {
    let (bench, mut passes) = shared(rt, 1, 1, 3);
    let pass = three_and_no_more(rt, &bench, some(rt, passes.pop()));
    push(rt, &mut passes, pass);
    same(rt, closed(rt, bench, passes), 3);
}

#[test]
fn a_full_history_takes_no_call(rt: HostRuntime) {
    fill_a_history(&rt);
}

/// Checks that a shared device doesn't close with these passes, because the calls of the pass with this tag aren't in
/// its history. Returns the device and the passes.
fn differs(rt: &impl Hand, bench: Bench, passes: Vec<Pass>, tag: u8) -> (Bench, Vec<Pass>) {
    let CloseRefused {
        fault,
        shared,
        passes,
    } = refused(rt, bench.close(passes));
    sees(rt, fault == CloseFault::Mismatch(tag));
    (shared, passes)
}

/// Swaps pass 1 between two shared devices with the same number. Each device treats the other device's pass as its own,
/// and refuses it because it has too many calls or too few. Each then closes with its own pass.
fn swap_passes_of_namesakes(rt: &impl Hand) {
    let (bench, mut passes) = shared(rt, 1, 2, 100);
    let (namesake, mut others) = shared(rt, 1, 2, 100);
    let mut own = some(rt, passes.pop());
    three_steps(rt, &bench, &mut own);
    push(rt, &mut passes, some(rt, others.pop()));
    push(rt, &mut others, own);
    let (bench, mut passes) = differs(rt, bench, passes, 1);
    let (namesake, mut others) = differs(rt, namesake, others, 1);
    let foreign = some(rt, passes.pop());
    push(rt, &mut passes, some(rt, others.pop()));
    push(rt, &mut others, foreign);
    same(rt, closed(rt, bench, passes), 3);
    same(rt, closed(rt, namesake, others), 0);
}

#[test]
fn passes_of_a_namesake_differ(rt: HostRuntime) {
    swap_passes_of_namesakes(&rt);
}
