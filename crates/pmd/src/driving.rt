//! A worker's run, from its start to its stop.

ghost use Rattle.std.specs.Prelude.{ℕ, ◌≡◌, ◌≤◌, List, [], length, true, false, IfErr, IfSome, IfNone, OnErr};
ghost use Rattle.rtrb.specs.Ring.{sent, known_free, SameProducer};
ghost use Rattle.pmd_driver.specs.NicDevice.DmaArena.Numbers.{Numbers};
ghost use Rattle.pmd_driver.specs.DeviceLock.declared.entry.Call.{Call};
ghost use Rattle.pmd_driver.specs.PmdAccess.Begun.{BeganAs};
ghost use Rattle.pmd_driver.specs.PmdAccess.Named.{AtPort};
ghost use Rattle.pmd_driver.specs.Blocks.{HasAll, LosesNone, IsWhole};
ghost use Rattle.pmd_driver.specs.Driver.{accepted_of, handed_of, halted_of};
ghost use Rattle.pmd_driver.specs.Life.{ComesDown, IsStopped, RunsOn};
ghost use Rattle.pmd_driver.specs.Started.{left_accepted, left_handed, HasStarted};
ghost use Rattle.pmd.specs.Ended.{first_fault, is_home, is_shut_out, is_threadless};
ghost use Rattle.pmd.specs.Kept.{KeepsAll};
ghost use Rattle.pmd.specs.Lived.{HasRun};
ghost use Rattle.pmd.specs.Reported.{reports_of};

use crate::fault::WorkerFault;
use crate::gate::Gate;
use crate::reports::Report;
use crate::turns::{do_rounds, reap_all};
use pmd_driver::{Arena, Nic, Pmd, PmdFault, Port, Rest, StartRefused, StopRefused};
use rtrb::Producer;
use std::alloc::Global;

/// What a worker must do.
#[derive(Clone, Copy)]
pub struct Order {
    /// The worker's number at the gate.
    pub worker: usize,
    /// The port of its queue.
    pub port: Port,
    /// The number of its queue at that port.
    pub queue: u16,
    /// The number of descriptors in each ring: a multiple of 8 from 8 to 1,024.
    pub size: u16,
    /// The maximum length of a frame in bytes, including its frame check sequence: 1,518 to 9,728.
    pub frame: u16,
    /// How many times the worker looks for a packet.
    pub rounds: u32,
}

/// Waits at a point until the gate lets the worker pass.
fn meet<G: Gate>(gate: &G, worker: usize, point: u8) -> Result<(), WorkerFault>
    ensures fault { IfErr result (λ fault. is_threadless fault ≡ false) }
    ensures shut { OnErr result (G.shuts gate.now worker) }
{
    if gate.pass(worker, point) {
        Ok(())
    } else {
        Err(WorkerFault::GateShut)
    }
}

/// Waits for the other members, runs the worker's rounds, reaps the packets it sent, and waits again.
fn work<G: Gate, N: Nic>(
    alloc: Global,
    nic: &mut N,
    gate: &G,
    order: Order,
    pmd: &mut Pmd,
    producer: &mut Producer<Report>,
) -> Result<(), WorkerFault>
    requires reported { sent producer.old ≡ reports_of order.queue (handed_of pmd.old.rings) }
    requires none { handed_of pmd.old.rings ≡ [] }
    requires room { order.rounds ≤ known_free producer.old }
    ensures reported { sent producer.new ≡ reports_of order.queue (handed_of pmd.new.rings) }
    ensures ring { SameProducer producer.old producer.new }
    ensures few { length (handed_of pmd.new.rings) ≤ order.rounds }
    ensures blocks { KeepsAll pmd.old.rings [] pmd.new.rings [] }
    ensures fault { IfErr result (λ fault. is_threadless fault ≡ false) }
    ensures drives { RunsOn (N.made nic.old) pmd.old.rings (N.made nic.new) pmd.new.rings }
    ensures queue { pmd.new.queue ≡ pmd.old.queue }
    ensures shut { IfErr result (λ fault. is_shut_out fault ≡ true → G.shuts gate.now order.worker) }
    ensures began { BeganAs N.began nic.old nic.new }
{
    meet(gate, order.worker, 0)?;
    meet(gate, order.worker, 1)?;
    do_rounds(alloc, nic, order.queue, order.rounds, pmd, producer)?;
    reap_all(alloc, nic, pmd)?;
    meet(gate, order.worker, 2)
}

/// Tries once to stop a driver. If the stop is refused, returns the driver.
fn take_home<N: Nic>(alloc: Global, nic: &mut N, pmd: Pmd) -> (Rest, Option<PmdFault>)
    ensures stopped { IsStopped pmd.queue (N.made nic.old) (halted_of pmd.rings) (N.made nic.new) result.0
        result.1 }
    ensures handed { left_handed result.0 ≡ handed_of pmd.rings }
    ensures accepted { left_accepted result.0 ≡ accepted_of pmd.rings }
    ensures home { IfNone result.1 (is_home result.0 ≡ true) }
    ensures whole { (a : Numbers) → LosesNone a (halted_of pmd.rings) → IsWhole a result.0 }
    ensures began { BeganAs N.began nic.old nic.new }
{
    match pmd.stop(alloc, nic) {
        Ok(home) => (Rest::Home(home), None),
        Err(StopRefused { fault, pmd }) => (Rest::Running(pmd), Some(fault)),
    }
}

/// Tries once to stop the driver that a refused start returned, if it returned one.
fn end<N: Nic>(alloc: Global, nic: &mut N, rest: Rest) -> Rest
    ensures down { ComesDown (N.made nic.old) rest (N.made nic.new) result }
    ensures handed { left_handed result ≡ left_handed rest }
    ensures accepted { left_accepted result ≡ left_accepted rest }
    ensures whole { (a : Numbers) → IsWhole a rest → IsWhole a result }
    ensures began { BeganAs N.began nic.old nic.new }
{
    match rest {
        Rest::Home(home) => Rest::Home(home),
        Rest::Running(pmd) => {
            let (left, _late) = take_home(alloc, nic, pmd);
            left
        }
    }
}

/// Returns the fault that ended the worker's rounds early. If there is none, returns the fault with which the stop
/// failed, if any.
fn first_fault(worked: Result<(), WorkerFault>, late: Option<PmdFault>) -> Option<WorkerFault>
    ensures { result ≡ first_fault worked late }
{
    match worked {
        Err(fault) => Some(fault),
        Ok(()) => match late {
            Some(fault) => Some(WorkerFault::Pmd(fault)),
            None => None,
        },
    }
}

/// Works with a started driver, then stops it. A worker that ends early leaves the gate first.
fn drive<G: Gate, N: Nic>(
    alloc: Global,
    nic: &mut N,
    gate: &G,
    order: Order,
    pmd: Pmd,
    producer: &mut Producer<Report>,
) -> (Rest, Option<WorkerFault>)
    requires fresh { sent producer.old ≡ [] }
    requires none { handed_of pmd.rings ≡ [] }
    requires room { order.rounds ≤ known_free producer.old }
    ensures lived { (q : AtPort) (size frame : ℕ) (old : List Call) (arena : Numbers)
        → HasStarted q size frame old arena (N.made nic.old) pmd
        → HasRun q size frame old arena (N.made nic.new) result.0 result.1 }
    ensures reported { sent producer.new ≡ reports_of order.queue (left_handed result.0) }
    ensures few { length (sent producer.new) ≤ order.rounds }
    ensures ring { SameProducer producer.old producer.new }
    ensures home { IfNone result.1 (is_home result.0 ≡ true) }
    ensures fault { IfSome result.1 (λ fault. is_threadless fault ≡ false) }
    ensures shut { IfSome result.1 (λ fault. is_shut_out fault ≡ true → G.shuts gate.now order.worker) }
    ensures whole { (a : Numbers) → HasAll a (halted_of pmd.rings) [] → IsWhole a result.0 }
    ensures began { BeganAs N.began nic.old nic.new }
{
    let mut pmd = pmd;
    let worked = work(alloc, nic, gate, order, &mut pmd, producer);
    if worked.is_err() {
        gate.leave(order.worker);
    }
    let (rest, late) = take_home(alloc, nic, pmd);
    (rest, first_fault(worked, late))
}

/// Runs one worker. It starts a driver for a queue with the blocks in an arena, passes points 0 and 1 of the gate, and
/// looks for a packet `rounds` times. It reports each packet that it receives and sends it again. Then it reaps the
/// packets it sent, passes point 2, and stops the driver.
///
/// If a driver call fails or the gate is shut, it leaves the gate, tries once to stop the driver, and returns the
/// reason. It sends one report for each packet that its driver handed out, in order, numbered from 0. Apart from the
/// device steps that the `Nic` adds, all calls made are those of this one driver, from its start to its stop. The
/// contract doesn't specify how often the worker looks, what it sends, or that it passes and leaves the gate; tests
/// check these facts.
pub fn run_worker<G: Gate, N: Nic>(
    alloc: Global,
    nic: &mut N,
    gate: &G,
    order: Order,
    arena: Arena,
    producer: &mut Producer<Report>,
) -> (Rest, Option<WorkerFault>)
    requires fresh { sent producer.old ≡ [] }
    requires room { order.rounds ≤ known_free producer.old }
    ensures lived { HasRun (record { port = order.port; queue = order.queue }) order.size order.frame
        (N.made nic.old) arena (N.made nic.new) result.0 result.1 }
    ensures reported { sent producer.new ≡ reports_of order.queue (left_handed result.0) }
    // It sends at most `rounds` reports.
    ensures few { length (sent producer.new) ≤ order.rounds }
    ensures ring { SameProducer producer.old producer.new }
    ensures home { IfNone result.1 (is_home result.0 ≡ true) }
    ensures fault { IfSome result.1 (λ fault. is_threadless fault ≡ false) }
    ensures shut { IfSome result.1 (λ fault. is_shut_out fault ≡ true → G.shuts gate.now order.worker) }
    ensures whole { IsWhole arena result.0 }
    ensures began { BeganAs N.began nic.old nic.new }
{
    match Pmd::start(
        alloc,
        nic,
        order.port,
        order.queue,
        order.size,
        order.frame,
        arena,
    ) {
        Ok(pmd) => drive(alloc, nic, gate, order, pmd, producer),
        Err(StartRefused { fault, rest }) => {
            gate.leave(order.worker);
            (end(alloc, nic, rest), Some(WorkerFault::Pmd(fault)))
        }
    }
}
