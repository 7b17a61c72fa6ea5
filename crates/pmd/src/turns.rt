//! Receives one packet after another, reports each packet, and sends it again.

ghost use Rattle.std.specs.Prelude.{◌≡◌, ◌+◌, ◌<◌, ◌≤◌, ◌++◌, ◌∷◌, [], length, true, IfOk, IfSome, IfNone, OnErr};
ghost use Rattle.rtrb.specs.Ring.{sent, known_free, SameProducer};
ghost use Rattle.pmd_driver.specs.PmdAccess.Begun.{BeganAs};
ghost use Rattle.pmd_driver.specs.PmdAccess.Bufs.{numbers_of};
ghost use Rattle.pmd_driver.specs.PmdAccess.Packet.{kept_of};
ghost use Rattle.pmd_driver.specs.Driver.{handed_of, goes_back_to};
ghost use Rattle.pmd_driver.specs.Life.{KeepsHalves, RunsOn};
ghost use Rattle.pmd_driver.specs.PmdRx.Keeping.{handed_blocks, numbers_in};
ghost use Rattle.pmd.specs.Kept.{KeepsAll};
ghost use Rattle.pmd.specs.Reported.{report_of, reports_of};

use crate::reports::Report;
use pmd_driver::{Nic, Packet, Pmd, PmdFault, Reaped, TxAnswer, TxFault, bytes_in};
use rtrb::Producer;
use std::alloc::Global;

/// The maximum number of times that `reap_all` reaps.
const REAPS: u32 = 1_000;

/// Receives the next packet, if one has arrived.
fn receive<N: Nic>(alloc: Global, nic: &mut N, pmd: &mut Pmd) -> Result<Option<Packet>, PmdFault>
    ensures given { IfOk result (λ out. IfSome out (λ packet.
        handed_of pmd.new.rings ≡ handed_of pmd.old.rings ++ kept_of packet ∷ [])) }
    ensures home { IfOk result (λ out. IfSome out (λ packet.
        goes_back_to pmd.new.rings packet ≡ true)) }
    ensures none { IfOk result (λ out. IfNone out (handed_of pmd.new.rings ≡ handed_of pmd.old.rings)) }
    ensures err { OnErr result (handed_of pmd.new.rings ≡ handed_of pmd.old.rings) }
    ensures drives { RunsOn (N.made nic.old) pmd.old.rings (N.made nic.new) pmd.new.rings }
    ensures queue { pmd.new.queue ≡ pmd.old.queue }
    ensures blocks { KeepsAll pmd.old.rings [] pmd.new.rings (handed_blocks result) }
    ensures began { BeganAs N.began nic.old nic.new }
{
    pmd.rx(alloc, nic)
}

/// Reports a packet that the worker received; `number` packets came before it.
fn tell(queue: u16, number: u32, packet: &Packet, producer: &mut Producer<Report>)
    requires { 0 < known_free producer.old }
    ensures sent { sent producer.new ≡ sent producer.old ++ report_of queue number (kept_of packet.now) ∷ [] }
    ensures ring { SameProducer producer.old producer.new }
    ensures room { known_free producer.old ≡ known_free producer.new + 1 }
{
    let len = usize::from(packet.len).min(bytes_in(&packet.bufs));
    producer.push_reserved(Report {
        queue,
        number,
        len: len as u16,
        hash: packet.hash,
    });
}

/// Sends a packet with blocks that can be returned to the arena. Returns the packet if it isn't accepted.
fn send<N: Nic>(
    alloc: Global,
    nic: &mut N,
    pmd: &mut Pmd,
    packet: Packet,
) -> (Option<Packet>, Result<(), PmdFault>)
    requires { goes_back_to pmd.old.rings packet ≡ true }
    ensures home { IfSome result.0 (λ back. goes_back_to pmd.new.rings back ≡ true) }
    ensures handed { handed_of pmd.new.rings ≡ handed_of pmd.old.rings }
    ensures drives { RunsOn (N.made nic.old) pmd.old.rings (N.made nic.new) pmd.new.rings }
    ensures queue { pmd.new.queue ≡ pmd.old.queue }
    ensures blocks { KeepsAll pmd.old.rings (numbers_of packet.bufs) pmd.new.rings (numbers_in result.0) }
    ensures began { BeganAs N.began nic.old nic.new }
{
    match pmd.tx(alloc, nic, packet) {
        Ok(TxAnswer::Taken) => (None, Ok(())),
        Ok(TxAnswer::RingFull(back)) => (Some(back), Ok(())),
        Err(TxFault { fault, packet }) => (packet, Err(fault)),
    }
}

/// Returns a packet's blocks to the arena. The packet must be one that the driver can release.
fn release(pmd: &mut Pmd, packet: Packet)
    requires { goes_back_to pmd.old.rings packet ≡ true }
    ensures handed { handed_of pmd.new.rings ≡ handed_of pmd.old.rings }
    ensures halves { KeepsHalves pmd.old.rings pmd.new.rings }
    ensures queue { pmd.new.queue ≡ pmd.old.queue }
    ensures blocks { KeepsAll pmd.old.rings (numbers_of packet.bufs) pmd.new.rings [] }
{
    match pmd.release(packet) {
        Ok(()) => {}
        Err(_packet) => unreachable!(),
    }
}

/// Sends a packet with blocks that can be returned to the arena. Releases the packet if it isn't accepted.
fn forward<N: Nic>(
    alloc: Global,
    nic: &mut N,
    pmd: &mut Pmd,
    packet: Packet,
) -> Result<(), PmdFault>
    requires { goes_back_to pmd.old.rings packet ≡ true }
    ensures handed { handed_of pmd.new.rings ≡ handed_of pmd.old.rings }
    ensures drives { RunsOn (N.made nic.old) pmd.old.rings (N.made nic.new) pmd.new.rings }
    ensures queue { pmd.new.queue ≡ pmd.old.queue }
    ensures blocks { KeepsAll pmd.old.rings (numbers_of packet.bufs) pmd.new.rings [] }
    ensures began { BeganAs N.began nic.old nic.new }
{
    let (back, sent) = send(alloc, nic, pmd, packet);
    match back {
        None => {}
        Some(back) => release(pmd, back),
    }
    sent
}

/// Looks once for a packet. If one has arrived, reports it and sends it again.
fn turn<N: Nic>(
    alloc: Global,
    nic: &mut N,
    queue: u16,
    pmd: &mut Pmd,
    producer: &mut Producer<Report>,
) -> Result<(), PmdFault>
    requires reported { sent producer.old ≡ reports_of queue (handed_of pmd.old.rings) }
    requires room { 0 < known_free producer.old }
    requires few { length (handed_of pmd.old.rings) < 4294967296 }
    ensures reported { sent producer.new ≡ reports_of queue (handed_of pmd.new.rings) }
    ensures ring { SameProducer producer.old producer.new }
    ensures room { known_free producer.old ≤ known_free producer.new + 1 }
    ensures few { length (handed_of pmd.new.rings) ≤ length (handed_of pmd.old.rings) + 1 }
    ensures drives { RunsOn (N.made nic.old) pmd.old.rings (N.made nic.new) pmd.new.rings }
    ensures queue { pmd.new.queue ≡ pmd.old.queue }
    ensures blocks { KeepsAll pmd.old.rings [] pmd.new.rings [] }
    ensures began { BeganAs N.began nic.old nic.new }
{
    let number = pmd.handed().len() as u32;
    match receive(alloc, nic, pmd)? {
        None => Ok(()),
        Some(packet) => {
            tell(queue, number, &packet, producer);
            forward(alloc, nic, pmd, packet)
        }
    }
}

/// Frees the blocks of sent packets.
fn reap<N: Nic>(alloc: Global, nic: &mut N, pmd: &mut Pmd) -> Result<Reaped, PmdFault>
    ensures handed { handed_of pmd.new.rings ≡ handed_of pmd.old.rings }
    ensures drives { RunsOn (N.made nic.old) pmd.old.rings (N.made nic.new) pmd.new.rings }
    ensures queue { pmd.new.queue ≡ pmd.old.queue }
    ensures blocks { KeepsAll pmd.old.rings [] pmd.new.rings [] }
    ensures began { BeganAs N.began nic.old nic.new }
{
    pmd.reap(alloc, nic)
}

/// Runs one round: looks for a packet, then reaps.
fn round<N: Nic>(
    alloc: Global,
    nic: &mut N,
    queue: u16,
    pmd: &mut Pmd,
    producer: &mut Producer<Report>,
) -> Result<(), PmdFault>
    requires reported { sent producer.old ≡ reports_of queue (handed_of pmd.old.rings) }
    requires room { 0 < known_free producer.old }
    requires few { length (handed_of pmd.old.rings) < 4294967296 }
    ensures reported { sent producer.new ≡ reports_of queue (handed_of pmd.new.rings) }
    ensures ring { SameProducer producer.old producer.new }
    ensures room { known_free producer.old ≤ known_free producer.new + 1 }
    ensures few { length (handed_of pmd.new.rings) ≤ length (handed_of pmd.old.rings) + 1 }
    ensures drives { RunsOn (N.made nic.old) pmd.old.rings (N.made nic.new) pmd.new.rings }
    ensures queue { pmd.new.queue ≡ pmd.old.queue }
    ensures blocks { KeepsAll pmd.old.rings [] pmd.new.rings [] }
    ensures began { BeganAs N.began nic.old nic.new }
{
    turn(alloc, nic, queue, pmd, producer)?;
    reap(alloc, nic, pmd)?;
    Ok(())
}

/// Runs `rounds` rounds, but stops at the first round that fails.
pub(crate) fn do_rounds<N: Nic>(
    alloc: Global,
    nic: &mut N,
    queue: u16,
    rounds: u32,
    pmd: &mut Pmd,
    producer: &mut Producer<Report>,
) -> Result<(), PmdFault>
    requires reported { sent producer.old ≡ reports_of queue (handed_of pmd.old.rings) }
    requires none { handed_of pmd.old.rings ≡ [] }
    requires room { rounds ≤ known_free producer.old }
    ensures reported { sent producer.new ≡ reports_of queue (handed_of pmd.new.rings) }
    ensures ring { SameProducer producer.old producer.new }
    ensures few { length (handed_of pmd.new.rings) ≤ rounds }
    ensures drives { RunsOn (N.made nic.old) pmd.old.rings (N.made nic.new) pmd.new.rings }
    ensures queue { pmd.new.queue ≡ pmd.old.queue }
    ensures blocks { KeepsAll pmd.old.rings [] pmd.new.rings [] }
    ensures began { BeganAs N.began nic.old nic.new }
{
    for _ in 0..rounds {
        round(alloc, nic, queue, pmd, producer)?;
    }
    Ok(())
}

/// Reaps until no packet is outstanding, at most 1,000 times.
pub(crate) fn reap_all<N: Nic>(alloc: Global, nic: &mut N, pmd: &mut Pmd) -> Result<(), PmdFault>
    ensures handed { handed_of pmd.new.rings ≡ handed_of pmd.old.rings }
    ensures drives { RunsOn (N.made nic.old) pmd.old.rings (N.made nic.new) pmd.new.rings }
    ensures queue { pmd.new.queue ≡ pmd.old.queue }
    ensures blocks { KeepsAll pmd.old.rings [] pmd.new.rings [] }
    ensures began { BeganAs N.began nic.old nic.new }
{
    for _ in 0..REAPS {
        if reap(alloc, nic, pmd)?.idle {
            break;
        }
    }
    Ok(())
}
