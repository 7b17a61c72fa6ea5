//! Runs two workers, on queues 0 and 1 of a shared device, and another program on its own thread, then stops everything
//! and checks it.

use crate::bench::{TCP_FRAME, TCP6_FRAME, count_calls, taken_apart};
use crate::hostile::stopped_again;
use crate::outcome::{Hand, done, emptied, empty, none, push, put, same, sees, some};
use crate::schedule::{all_home, take_all};
use crate::stranger::Beside;
use device_lock::{CallFault, Closed, Entry, Pass, Shared};
use nic_device::{Arena, Buf, Device, Mode, Octets, Port, ReplyNote};
use pmd::{
    Direct, Gate, Home, Job, Pmd, PmdFault, Ran, Rest, Setup, ThroughLock, WorkerEnd, WorkerFault,
    pf_setup, run_workers,
};
use std::collections::VecDeque;
use std::sync::atomic::{AtomicU64, Ordering};
use std::thread::join_mut;

/// A shared device with one virtual function.
pub type Bench = Shared<1, 64>;

/// The number of blocks of each worker. The workers' blocks start at block 0 and at block 32.
pub const BLOCKS: u32 = 32;

/// The number of entries in a history after the setup: 54 writes, each after four steps.
const SET_UP: usize = 270;

/// The parameters of a run of two workers: the limit of entries in the history, the number of polls of each worker, and
/// the number of arriving frames.
#[derive(Clone, Copy)]
pub struct Order {
    /// The maximum number of entries in the history.
    pub limit: u32,
    /// The number of polls of each worker.
    pub rounds: u32,
    /// The number of frames, which alternate between TCP over IPv4 and over IPv6.
    pub frames: u8,
}

/// A setup that distributes TCP segments over IPv4 between queues 0 and 1.
pub fn parting(mode: Mode, mrqc: u32) -> Setup {
    let mut reta = [0; 128];
    for entry in 0..64usize {
        reta[2 * entry] = 1;
    }
    Setup {
        mode,
        mrqc,
        key: [0x6D; 40],
        reta,
        promiscuous: true,
        frame: 1518,
    }
}

/// The key of the published test vectors of the RSS hash.
const KEY: [u8; 40] = [
    0x6D, 0x5A, 0x56, 0xDA, 0x25, 0x5B, 0x0E, 0xC2, 0x41, 0x67, 0x25, 0x3D, 0x43, 0xA3, 0x8F, 0xB0,
    0xD0, 0xCA, 0x2B, 0xCB, 0xAE, 0x7B, 0x30, 0xB4, 0x77, 0xCB, 0x2D, 0xA3, 0x80, 0x30, 0xF2, 0x0C,
    0x6A, 0x42, 0xB7, 0x3B, 0xBE, 0xAC, 0x01, 0xFA,
];

/// The setup of `nicbench threads` for two workers: its IPv4 frames go to queue 0, and its IPv6 frames to queue 1.
fn setup_of_threads() -> Setup {
    let mut reta = [0; 128];
    for entry in 0..64usize {
        reta[2 * entry + 1] = 1;
    }
    Setup {
        mode: Mode::Off,
        mrqc: 0x0021_0001,
        key: KEY,
        reta,
        promiscuous: true,
        frame: 1518,
    }
}

/// The frame with this number in the sequence of `nicbench threads`.
fn frame_of_threads(rt: &impl Hand, number: u8) -> Vec<u8> {
    if number % 2 == 0 {
        done(rt, Vec::from_array(rt.alloc(), TCP_FRAME))
    } else {
        done(rt, Vec::from_array(rt.alloc(), TCP6_FRAME))
    }
}

/// Sets the device up.
pub fn set_up(rt: &impl Hand, bench: &Bench, pass: Pass, setup: &Setup) -> Pass {
    let mut nic = ThroughLock::new(rt, bench, pass, 0);
    done(rt, pf_setup(rt.alloc(), &mut nic, setup));
    nic.finish()
}

/// The arena of a queue's worker, with all blocks free.
pub fn blocks_of(rt: &impl Hand, queue: u16) -> Arena {
    done(
        rt,
        Arena::new(rt.alloc(), BLOCKS * u32::from(queue), BLOCKS),
    )
}

/// A job for each of two passes, on the queue that the pass's tag determines.
fn jobs(rt: &impl Hand, passes: Vec<Pass>, rounds: u32) -> Vec<Job> {
    let mut jobs = empty(rt);
    for pass in passes {
        let queue = u16::from(pass.tag() % 2);
        let job = Job {
            pass,
            port: Port::Pf,
            queue,
            pf_queue: queue,
            size: 8,
            frame: 1518,
            arena: blocks_of(rt, queue),
            rounds,
        };
        push(rt, &mut jobs, job);
    }
    jobs
}

/// Runs the workers. Sets `ended` afterwards.
fn work<G: Gate + Sync>(
    rt: &impl Hand,
    gate: &G,
    bench: &Bench,
    jobs: Vec<Job>,
    host: &mut Pass,
    count: u8,
    ended: &AtomicU64,
) -> Ran {
    let mut frames = empty(rt);
    for number in 0..count {
        push(rt, &mut frames, frame_of_threads(rt, number));
    }
    let ran = run_workers(rt, rt.alloc(), gate, bench, jobs, host, frames);
    ended.store(1, Ordering::SeqCst);
    done(rt, ran)
}

/// Runs two workers at a gate, and the other program. Returns the workers' outcomes, and the passes of the calling
/// thread and of the other program.
fn run_beside<G: Gate + Sync>(
    rt: &impl Hand,
    gate: &G,
    bench: &Bench,
    mut passes: Vec<Pass>,
    order: Order,
    beside: &mut Beside,
) -> (Ran, Pass, Pass) {
    let mut other = some(rt, passes.pop());
    let mut host = set_up(rt, bench, some(rt, passes.pop()), &setup_of_threads());
    same(rt, count_calls(host.calls()), SET_UP);
    let mut jobs = Some(jobs(rt, passes, order.rounds));
    let mut ran = None;
    let ended = AtomicU64::new(0);
    join_mut(
        rt,
        &mut || {
            let jobs = some(rt, jobs.take());
            let done = work(rt, gate, bench, jobs, &mut host, order.frames, &ended);
            put(rt, &mut ran, done);
        },
        &mut || beside.act(rt, gate, bench, &mut other, &ended),
    );
    none(rt, jobs);
    (some(rt, ran), host, other)
}

/// The outcome of a run after all blocks were returned.
#[derive(Drop)]
pub struct Came {
    /// The number of accepted frames.
    pub fed: usize,
    /// The number of returned packets.
    pub packets: usize,
    /// The number of entries in the history.
    pub made: usize,
    /// The number of entries made by the other program.
    pub beside: usize,
    /// The number of workers that a full history ended.
    pub full: u32,
    /// The number of workers that the gate shut out.
    pub shut: u32,
    /// The number of workers that ended for any other reason.
    pub failed: u32,
    /// The number of blocks that each worker lost.
    pub lost: [u32; 2],
    /// Whether the history leaves each queue alone.
    pub alone: [bool; 2],
    /// The number of arenas that didn't close before all blocks were returned.
    pub away: usize,
}

/// The outcome so far, and what must still be stopped and closed: the running drivers with their queues, and the
/// arenas.
struct Ending {
    came: Came,
    running: Vec<(u16, Pmd)>,
    arenas: Vec<Arena>,
}

impl Ending {
    /// Starts the outcome of a run with this many accepted frames, and this many calls made by the other program.
    fn new(rt: &impl Hand, fed: usize, beside: usize) -> Ending {
        let came = Came {
            fed,
            packets: 0,
            made: 0,
            beside,
            full: 0,
            shut: 0,
            failed: 0,
            lost: [0, 0],
            alone: [false, false],
            away: 0,
        };
        Ending {
            came,
            running: empty(rt),
            arenas: empty(rt),
        }
    }

    /// Counts why a worker ended early.
    fn add_fault(&mut self, fault: Option<WorkerFault>) {
        let came = &mut self.came;
        match fault {
            None => {}
            Some(WorkerFault::Pmd(PmdFault::Call(CallFault::HistoryFull(())))) => {
                came.full = came.full.saturating_add(1);
            }
            Some(WorkerFault::GateShut) => came.shut = came.shut.saturating_add(1),
            Some(_other) => came.failed = came.failed.saturating_add(1),
        }
    }

    /// Adds what remains of a queue's driver. Checks that each of its blocks is free or counted as lost.
    fn add_home(&mut self, rt: &impl Hand, queue: u16, home: Home) {
        let Home {
            arena,
            lost,
            handed: _,
            accepted: _,
        } = home;
        sees(rt, arena.free_blocks().saturating_add(lost) == BLOCKS);
        self.came.lost[usize::from(queue % 2)] = lost;
        push(rt, &mut self.arenas, arena);
    }

    /// Adds one worker's outcome. Returns its pass.
    fn add(&mut self, rt: &impl Hand, end: WorkerEnd) -> Pass {
        let WorkerEnd {
            pass,
            rest,
            reports,
            fault,
        } = end;
        let queue = u16::from(pass.tag() % 2);
        self.add_fault(fault);
        self.came.packets = self.came.packets.saturating_add(reports.len());
        match rest {
            Rest::Home(home) => self.add_home(rt, queue, home),
            Rest::Running(pmd) => done(rt, self.running.push((queue, pmd))),
        }
        pass
    }

    /// Adds to the outcome what the history shows.
    fn look(&mut self, rt: &impl Hand, closed: &Closed<1, 64>) {
        self.came.made = closed.history().len();
        self.came.alone = [closed.left_alone(0, 0), closed.left_alone(1, 1)];
        let beside = done(rt, closed.of_pass(rt.alloc(), 3));
        same(rt, beside.len(), self.came.beside);
    }

    /// Stops the running drivers on the owned device. Frames that are transmitted meanwhile are appended to `sent`.
    fn stop_all(&mut self, rt: &impl Hand, device: Device, sent: &mut Sent) -> Device {
        let mut device = device;
        for _driver in 0..self.running.len() {
            let (queue, pmd) = some(rt, self.running.pop());
            let mut direct = Direct::new(rt.alloc(), device, queue);
            let home = stopped_again(rt, &mut direct, pmd);
            self.add_home(rt, queue, home);
            let (stopped, calls) = direct.finish();
            let calls = done(rt, calls.into_vec(rt.alloc()));
            for call in &calls {
                add_sent(rt, sent, &call.reply);
            }
            device = stopped;
        }
        device
    }
}

/// The transmitted frames that weren't collected, as queue and length, in order.
pub type Sent = VecDeque<(u16, usize)>;

/// Adds the frame that a reply reports as transmitted, or removes the frame that it reports as collected.
fn add_sent(rt: &impl Hand, sent: &mut Sent, reply: &ReplyNote) {
    match reply {
        ReplyNote::Sent { queue, len, .. } => done(rt, sent.push_back((*queue, *len))),
        ReplyNote::Frame { .. } => {
            let _collected = some(rt, sent.pop_front());
        }
        _other => {}
    }
}

/// The transmitted frames of a history that weren't collected.
pub fn sent_in(rt: &impl Hand, history: &[Entry]) -> Sent {
    let mut sent = VecDeque::new(rt.alloc());
    for entry in history {
        add_sent(rt, &mut sent, &entry.reply);
    }
    sent
}

/// Checks that the reported frame has this queue and length.
fn is_sent(rt: &impl Hand, reported: Option<&(u16, usize)>, queue: u16, len: usize) {
    let (of, bytes) = some(rt, reported);
    sees(rt, *of == queue && *bytes == len);
}

/// Checks that the transmitted frames are the reported ones, in order.
fn are_sent(rt: &impl Hand, sent: &Sent, frames: &[(u8, Octets)]) {
    same(rt, sent.len(), frames.len());
    let mut number: usize = 0;
    for (queue, bytes) in frames {
        is_sent(rt, sent.get(number), u16::from(*queue), bytes.bytes().len());
        number = number.saturating_add(1);
    }
}

/// Closes a device. Checks that the transmitted frames agree with the history, and that each block is free again.
/// Returns the number of arenas that didn't close before the blocks were returned.
pub fn apart(
    rt: &impl Hand,
    device: Device,
    sent: &Sent,
    mut bufs: Vec<Buf>,
    arenas: Vec<Arena>,
) -> usize {
    let (memory, frames) = taken_apart(device);
    are_sent(rt, sent, frames.as_slice());
    take_all(rt, &mut bufs, memory);
    all_home(rt, bufs, arenas)
}

/// Collects the outcomes of all workers. Returns what must still be stopped and closed, and all passes.
fn begin_ending(rt: &impl Hand, ran: Ran, host: Pass, other: Pass) -> (Ending, Vec<Pass>) {
    let Ran { mut ends, fed } = ran;
    let mut ending = Ending::new(rt, fed, count_calls(other.calls()));
    let mut passes = done(rt, Vec::from_array(rt.alloc(), [host, other]));
    for _end in 0..ends.len() {
        let pass = ending.add(rt, some(rt, ends.pop()));
        push(rt, &mut passes, pass);
    }
    emptied(rt, ends);
    (ending, passes)
}

/// Stops the running drivers on the device of a closed history, and closes the device.
fn end_all(rt: &impl Hand, ending: Ending, closed: Closed<1, 64>, beside: Beside) -> Came {
    let mut ending = ending;
    ending.look(rt, &closed);
    let mut sent = sent_in(rt, closed.history());
    let device = ending.stop_all(rt, closed.into_device(), &mut sent);
    let Ending {
        mut came,
        running,
        mut arenas,
    } = ending;
    emptied(rt, running);
    let bufs = beside.leave(rt, &mut arenas);
    came.away = apart(rt, device, &sent, bufs, arenas);
    came
}

/// Runs two workers at a gate with the other program, and stops and closes everything.
pub fn run_team<G: Gate + Sync>(
    rt: &impl Hand,
    gate: &G,
    order: Order,
    mut beside: Beside,
) -> Came {
    let (bench, passes) = done(rt, Bench::new(rt.alloc(), 1, 4, order.limit));
    let (ran, host, other) = run_beside(rt, gate, &bench, passes, order, &mut beside);
    let (ending, passes) = begin_ending(rt, ran, host, other);
    let closed = done(rt, bench.close(passes));
    end_all(rt, ending, closed, beside)
}
