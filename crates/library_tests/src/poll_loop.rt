//! A driver's poll loop on each of two threads that share a controller.

use crate::outcome::{done, holds, same, some};
use bench::{KEY, OVER_IPV4, OVER_IPV6};
use device_lock::{Pass, Shared};
use nic_device::{Arena, Event, Mode, Octets, Parts, Port, Reply};
use pmd::{Home, Nic, Packet, Pmd, Setup, ThroughLock, TxAnswer, pf_setup};
use std::alloc::Global;
use std::process::Abort;
use std::sync::Wait;
use std::thread::join_mut;

type Bench = Shared<0, 64>;

/// The number of frames that arrive for each driver.
const FRAMES: usize = 5;

/// The maximum number of polls in a loop.
const LOOKS: u32 = 10_000;

/// Returns a redirection table with i mod 2 in entry i.
fn in_turn() -> [u8; 128] {
    let mut reta = [0; 128];
    let mut queue = 0;
    for entry in reta.iter_mut() {
        *entry = queue;
        queue ^= 1;
    }
    reta
}

/// The hash of a TCP frame selects queue 0 or 1: entry i of the redirection table contains i mod 2.
fn two_queues() -> Setup {
    Setup {
        mode: Mode::Off,
        mrqc: 0x0021_0001,
        key: KEY,
        reta: in_turn(),
        promiscuous: true,
        frame: 1518,
    }
}

/// Starts a driver of a queue with its own 16 blocks.
fn started<N: Nic>(rt: &impl Abort, alloc: Global, nic: &mut N, queue: u16) -> Pmd {
    let arena = done(rt, Arena::new(alloc, 16 * u32::from(queue), 16));
    done(rt, Pmd::start(alloc, nic, Port::Pf, queue, 8, 1518, arena))
}

/// Delivers a frame from the link.
fn arrive<N: Nic>(rt: &impl Abort, alloc: Global, nic: &mut N, frame: &[u8]) {
    let bytes = done(rt, frame.to_vec(alloc));
    match done(rt, nic.call(alloc, Event::Arrive(Octets::of(bytes)))) {
        Reply::Done => {}
        _other => panic!(rt; "the frame was dropped"),
    }
}

/// Whether a driver received all its frames and no packet is outstanding.
fn is_idle<N: Nic>(rt: &impl Abort, alloc: Global, nic: &mut N, pmd: &mut Pmd) -> bool {
    pmd.handed().len() == FRAMES && done(rt, pmd.reap(alloc, nic)).idle
}

/// Sends a received packet. If the ring is full, the packet is released.
fn send<N: Nic>(rt: &impl Abort, alloc: Global, nic: &mut N, pmd: &mut Pmd, packet: Packet) {
    match done(rt, pmd.tx(alloc, nic, packet)) {
        TxAnswer::Taken => {}
        TxAnswer::RingFull(packet) => done(rt, pmd.release(packet)),
    }
}

/// Polls until the driver is idle, and sends each received packet.
fn poll<N: Nic>(rt: &impl Abort, alloc: Global, nic: &mut N, pmd: &mut Pmd) {
    for _look in 0..LOOKS {
        if is_idle(rt, alloc, nic, pmd) {
            break;
        }
        if let Some(packet) = done(rt, pmd.rx(alloc, nic)) {
            send(rt, alloc, nic, pmd, packet);
        }
    }
}

/// Starts a driver, delivers frames for its queue, sends each received packet, and stops the driver.
fn drive<R: Abort + Wait>(
    rt: &R,
    alloc: Global,
    bench: &Bench,
    pass: Pass,
    queue: u16,
    frame: &[u8],
) -> Pass {
    let mut nic = ThroughLock::new(rt, bench, pass, queue);
    let mut pmd = started(rt, alloc, &mut nic, queue);
    for _frame in 0..FRAMES {
        arrive(rt, alloc, &mut nic, frame);
    }
    poll(rt, alloc, &mut nic, &mut pmd);
    close(rt, done(rt, pmd.stop(alloc, &mut nic)), frame);
    nic.finish()
}

/// Checks that a driver received and sent its frames, and that all its blocks were returned.
fn close(rt: &impl Abort, home: Home, frame: &[u8]) {
    let Home {
        arena,
        lost,
        handed,
        accepted,
    } = home;
    same(rt, u64::from(lost), 0);
    same(rt, accepted.len() as u64, FRAMES as u64);
    same(rt, handed.len() as u64, FRAMES as u64);
    for record in &handed {
        holds(rt, "the frame", record.bytes() == frame);
    }
    done(rt, arena.close());
}

/// Returns a shared device with three passes, set up through the last one.
fn opened<R: Abort + Wait>(rt: &R, alloc: Global) -> (Bench, Vec<Pass>, Pass) {
    let (bench, mut passes) = done(rt, Bench::new(alloc, 0, 3, 100_000));
    let mut nic = ThroughLock::new(rt, &bench, some(rt, passes.pop()), 0);
    done(rt, pf_setup(alloc, &mut nic, &two_queues()));
    let set_up = nic.finish();
    (bench, passes, set_up)
}

/// Closes the device with its passes. Checks that each driver's queue was left alone, and that all frames were
/// transmitted.
fn judge(rt: &impl Abort, bench: Bench, passes: Vec<Pass>) {
    let closed = done(rt, bench.close(passes));
    holds(rt, "queue 0 is left alone", closed.left_alone(0, 0));
    holds(rt, "queue 1 is left alone", closed.left_alone(1, 1));
    let Parts {
        memory,
        frames,
        image: _,
    } = closed.into_device().dismantle();
    same(rt, frames.len() as u64, 2 * FRAMES as u64);
    done(rt, memory.finish());
}

#[test]
fn two_drivers_poll_on_two_threads(rt: HostRuntime) {
    let alloc = rt.alloc();
    let (bench, mut passes, set_up) = opened(&rt, alloc);
    let mut second = passes.pop();
    let mut first = passes.pop();
    join_mut(
        &rt,
        &mut || {
            let pass = some(&rt, first.take());
            first = Some(drive(&rt, alloc, &bench, pass, 0, OVER_IPV4));
        },
        &mut || {
            let pass = some(&rt, second.take());
            second = Some(drive(&rt, alloc, &bench, pass, 1, OVER_IPV6));
        },
    );
    for pass in [some(&rt, first), some(&rt, second), set_up] {
        done(&rt, passes.push(pass));
    }
    judge(&rt, bench, passes);
}
