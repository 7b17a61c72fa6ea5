//! A driver among foreign events that the test chooses in advance.

use crate::bench::{
    Why, end, frame_of, holds_frame, in_hand, is_done, is_frame, make, opened, reap, reap_once,
    received, release, send, started, stepped, stop_times_out, stops, taken_apart,
};
use crate::driver::{foreign_comes_back, unsent};
use crate::outcome::{Hand, done, emptied, empty, fail, none, push, same, sees, some};
use crate::rig::Rig;
use crate::schedule::{Left, Schedule, all_home, finish, push_switches, take_all};
use nic_device::{Arena, Buf, Device, Dir, Event, Octets, Port, Reply};
use pmd::{Finished, Interleaved, Nic, Packet, Pmd, TxAnswer};

/// A device with these foreign events between the calls.
pub fn during(rt: &impl Hand, device: Device, schedule: Schedule) -> Interleaved {
    Interleaved::new(rt.alloc(), device, schedule)
}

/// A device without foreign events and steps.
pub fn unstepped(rt: &impl Hand, device: Device) -> Interleaved {
    during(rt, device, empty(rt))
}

/// Like `unstepped`, but the steps that turn both sides of queue 0 on or off run before each of the next 200 calls.
fn switched(rt: &impl Hand, device: Device) -> Interleaved {
    let mut schedule = empty(rt);
    for _list in 0..200 {
        let mut list = empty(rt);
        push_switches(rt, &mut list);
        push(rt, &mut schedule, list);
    }
    during(rt, device, schedule)
}

/// Finishes an `Interleaved` and returns its device. The foreign events must not have taken a block.
pub fn without_blocks(rt: &impl Hand, nic: Interleaved) -> Device {
    let Left {
        device,
        history: _,
        foreign: _,
        bufs,
    } = finish(rt, nic);
    emptied(rt, bufs);
    device
}

/// A 60-byte packet in a free block.
fn own_packet(rt: &impl Hand, pmd: &mut Pmd) -> Packet {
    some(rt, pmd.packet(60))
}

/// Checks that a driver's ring accepts no more packets.
fn is_full(rt: &impl Hand, nic: &mut Interleaved, pmd: &mut Pmd) {
    let eighth = own_packet(rt, pmd);
    match done(rt, pmd.tx(rt.alloc(), nic, eighth)) {
        TxAnswer::Taken => fail(rt, "the eighth packet is taken"),
        TxAnswer::RingFull(packet) => release(rt, pmd, packet),
    }
}

/// Checks that a packet without bytes is returned.
fn empty_comes_back(rt: &impl Hand, nic: &mut Interleaved, pmd: &mut Pmd) {
    let mut packet = own_packet(rt, pmd);
    packet.len = 0;
    let packet = unsent(rt, nic, pmd, packet, Why::BadSize);
    release(rt, pmd, packet);
}

/// Sends seven packets, which the ring accepts but which aren't transmitted. Stopping the driver times out. Other
/// faults of a packet are reported before the full ring.
fn seven_are_taken(rt: &impl Hand, nic: &mut Interleaved, pmd: Pmd) -> Pmd {
    let mut pmd = pmd;
    for _packet in 0..7 {
        let packet = own_packet(rt, &mut pmd);
        send(rt, nic, &mut pmd, packet);
    }
    is_full(rt, nic, &mut pmd);
    empty_comes_back(rt, nic, &mut pmd);
    foreign_comes_back(rt, nic, &mut pmd);
    stop_times_out(rt, nic, pmd)
}

/// Fills a ring. Stopping the driver discards the packets in it.
fn fill_a_ring(rt: &impl Hand) {
    let mut nic = switched(rt, in_hand(opened(rt, 64, 0)));
    let pmd = started(rt, &mut nic);
    let mut nic = unstepped(rt, without_blocks(rt, nic));
    let pmd = seven_are_taken(rt, &mut nic, pmd);
    let mut nic = switched(rt, without_blocks(rt, nic));
    stops(rt, &mut nic, pmd, (0, 7));
    same(rt, end(rt, without_blocks(rt, nic)).len(), 0);
}

/// If both sides are enabled at the start and no steps run afterwards, the ring accepts exactly seven packets.
#[test]
fn a_ring_of_eight_takes_seven_packets_that_nobody_sends(rt: HostRuntime) {
    fill_a_ring(&rt);
}

/// Checks that the last of these replies is a fault of queue 0, and that the others are `Done`.
fn last_is_a_fault(rt: &impl Hand, mut replies: Vec<Reply>) {
    match some(rt, replies.pop()) {
        Reply::Fault { queue: 0, .. } => {}
        _other => fail(rt, "no fault"),
    }
    for _reply in 0..replies.len() {
        is_done(rt, some(rt, replies.pop()));
    }
    emptied(rt, replies);
}

/// Lists of foreign events for two calls. Before the first call, a frame arrives and a tail beyond the ring is written;
/// before the second, the device receives.
fn foreign_tail(rt: &impl Hand) -> Schedule {
    let (mut first, mut second) = (empty(rt), empty(rt));
    push(rt, &mut first, Event::Arrive(Octets::of(frame_of(rt, 0))));
    push(rt, &mut first, Event::Write(Port::Pf, 0x01018, 200)); // RDT
    push(rt, &mut second, Event::RxStep);
    done(rt, Vec::from_array(rt.alloc(), [first, second]))
}

/// Marks that identify the driver's calls among five calls. The driver's first call follows two foreign events, and the
/// second follows one.
const OWN: &[bool] = &[false, false, true, false, true];

/// Finishes an `Interleaved` with five calls. The last foreign call must have met a fault.
fn after_a_fault(rt: &impl Hand, nic: Interleaved) -> Device {
    let Finished {
        device,
        calls,
        own,
        foreign,
        schedule,
    } = nic.finish();
    same(rt, calls.kept().0.len(), 5);
    sees(rt, own.as_slice() == OWN);
    last_is_a_fault(rt, foreign);
    emptied(rt, schedule);
    device
}

/// Checks that the driver returns nothing if another program writes a tail beyond its ring.
fn during_a_foreign_tail(rt: &impl Hand, rig: Rig) -> Rig {
    let Rig { direct, mut pmd } = rig;
    let mut nic = during(rt, in_hand(direct), foreign_tail(rt));
    none(rt, received(rt, &mut nic, &mut pmd));
    none(rt, received(rt, &mut nic, &mut pmd));
    let direct = stepped(rt, after_a_fault(rt, nic));
    Rig { direct, pmd }
}

/// If another program writes a tail beyond the driver's ring, the frame meets a fault, which disables the receive side.
/// The driver returns nothing, and all its blocks are free again.
#[test]
fn a_foreign_tail_switches_the_queue_off(rt: HostRuntime) {
    let rt = &rt;
    during_a_foreign_tail(rt, Rig::new(rt, 8, (4, 32))).end(rt, (0, 0));
}

/// Sets up the transmit ring of another queue, with 8 slots in the first of two lent blocks. Each descriptor names 60
/// bytes in the second block.
fn lay_out<N: Nic>(rt: &impl Hand, nic: &mut N, queue: u16, [ring, data]: [Buf; 2]) {
    let (base, [low, middle, high, _]) = (ring.block() * 2048, (data.block() * 2048).to_le_bytes());
    let side = 0x06000 + 0x40 * u32::from(queue);
    make(rt, nic, Event::Lend(ring));
    make(rt, nic, Event::Lend(data));
    for slot in 0..8 {
        let descriptor = [
            low, middle, high, 0, 0, 0, 0, 0, 0x3c, 0, 0x30, 0x2b, 0, 0, 0x0f, 0,
        ];
        make(rt, nic, Event::Poke16(base + 16 * slot, descriptor));
    }
    for (register, word) in [(0x00, base), (0x08, 128), (0x28, 0x0200_0000)] {
        make(rt, nic, Event::Write(Port::Pf, side + register, word));
    }
}

/// Lists in which queues 3 and 6 send alternately, queue 0 sends, and the device receives. The first 200 lists contain
/// the steps that turn these three queues on. After that, a frame arrives in every eighth list.
fn busy(rt: &impl Hand, count: u16) -> Schedule {
    let mut schedule = empty(rt);
    for number in 0..count {
        let (queue, tail) = if number % 2 == 0 {
            (3, 0x060D8)
        } else {
            (6, 0x06198)
        };
        let mut list = empty(rt);
        if number < 200 {
            push(rt, &mut list, Event::QueueStep(Dir::Tx, queue));
            push_switches(rt, &mut list);
        } else if number % 8 == 0 && number < 8200 {
            let frame = frame_of(rt, number / 8 - 25);
            push(rt, &mut list, Event::Arrive(Octets::of(frame)));
        }
        let slot = u32::from(number / 2 % 8);
        push(rt, &mut list, Event::Write(Port::Pf, tail, slot)); // TDT
        push(rt, &mut list, Event::TxStep(queue));
        push(rt, &mut list, Event::TxStep(0));
        push(rt, &mut list, Event::RxStep);
        push(rt, &mut schedule, list);
    }
    schedule
}

/// Checks that the transmitted frames of queue 0 are the first `count`, in order. Other queues must have transmitted
/// too.
fn went_out(rt: &impl Hand, frames: &[(u8, Octets)], count: u16) {
    sees(rt, frames.len() > 5 * usize::from(count));
    let mut number: u16 = 0;
    for (queue, bytes) in frames {
        if *queue == 0 {
            is_frame(rt, bytes, number);
            number = number.saturating_add(1);
        }
    }
    same(rt, usize::from(number), usize::from(count));
}

/// A device on which queues 3 and 6 each have a ring and a buffer, in blocks from an arena.
fn with_two_queues(rt: &impl Hand, others: &mut Arena) -> Device {
    let mut direct = opened(rt, 1024, 0);
    for queue in [3, 6] {
        let two = [some(rt, others.take()), some(rt, others.take())];
        lay_out(rt, &mut direct, queue, two);
    }
    in_hand(direct)
}

/// If a packet is waiting, checks that it contains the frame with this number, and sends the packet. Returns the number
/// of the next frame.
fn next_goes_on(rt: &impl Hand, nic: &mut Interleaved, pmd: &mut Pmd, number: u16) -> u16 {
    match received(rt, nic, pmd) {
        Some(packet) => {
            holds_frame(rt, &packet, number);
            send(rt, nic, pmd, packet);
            number.saturating_add(1)
        }
        None => number,
    }
}

/// Forwards a thousand frames, then reaps until no packet is outstanding.
fn a_thousand_go_on(rt: &impl Hand, nic: &mut Interleaved, pmd: &mut Pmd) {
    let mut number: u16 = 0;
    for _round in 0..20_000 {
        if number == 1000 {
            break;
        }
        number = next_goes_on(rt, nic, pmd, number);
        reap_once(rt, nic, pmd);
    }
    reap(rt, nic, pmd);
}

/// Starts a driver on a device, forwards a thousand frames while other queues are busy, and stops the driver.
fn a_thousand_go_through(rt: &impl Hand, device: Device) -> Device {
    let mut nic = during(rt, device, busy(rt, 12_000));
    let mut pmd = started(rt, &mut nic);
    a_thousand_go_on(rt, &mut nic, &mut pmd);
    let mut direct = stepped(rt, without_blocks(rt, nic));
    stops(rt, &mut direct, pmd, (1000, 1000));
    in_hand(direct)
}

/// Closes a device to which blocks of one arena are lent, and gives these blocks back to the arena. Returns the
/// device's transmitted frames.
fn apart(rt: &impl Hand, device: Device, others: Arena) -> Vec<(u8, Octets)> {
    let mut bufs = empty(rt);
    let (memory, frames) = taken_apart(device);
    take_all(rt, &mut bufs, memory);
    let arenas = done(rt, Vec::from_array(rt.alloc(), [others]));
    same(rt, all_home(rt, bufs, arenas), 1);
    frames
}

/// Forwards a thousand frames while two other queues are busy.
fn go_through_beside_two(rt: &impl Hand) {
    let mut others = done(rt, Arena::new(rt.alloc(), 100, 4));
    let device = with_two_queues(rt, &mut others);
    let device = a_thousand_go_through(rt, device);
    let frames = apart(rt, device, others);
    went_out(rt, frames.as_slice(), 1000);
}

/// A thousand frames arrive while two other queues send. Each is received through a ring of eight slots, in order, and
/// sent back.
#[test]
fn a_thousand_frames_go_through_a_ring_of_eight_beside_two_queues(rt: HostRuntime) {
    go_through_beside_two(&rt);
}
