//! A driver on a device that the test owns, from its start to its stop.

use crate::bench::{
    PLAIN, TCP_FRAME, Why, are_first_frames, block_in, blocks, close, end, holds_bytes, in_hand,
    is_why, left_by, opened, reason, release, segment, set_up, stepped_on, stop, stop_times_out,
    stopped,
};
use crate::interleaved::{unstepped, without_blocks};
use crate::outcome::{Hand, done, fail, holds, none, refused, same, same_bytes, same_pair, some};
use crate::rig::Rig;
use nic_device::{Arena, Buf, Event, Mode, Octets, Port};
use pmd::{Bufs, Direct, Nic, Packet, Pmd, Rest, Setup, StartRefused, TxFault};

/// Delivers the TCP frame and receives it.
fn tcp_received(rt: &impl Hand, rig: &mut Rig) -> Packet {
    rig.arrive(rt, segment(rt, TCP_FRAME[35]));
    let packet = some(rt, rig.received(rt));
    holds_bytes(rt, &packet, &TCP_FRAME);
    packet
}

/// Checks that only the TCP frame was transmitted.
fn tcp_went_out(rt: &impl Hand, frames: &[(u8, Octets)]) {
    same(rt, frames.len(), 1);
    for (_queue, bytes) in frames {
        same_bytes(rt, bytes.bytes(), &TCP_FRAME);
    }
}

/// Receives the TCP frame and sends it back.
fn tcp_goes_through(rt: &impl Hand, rig: &mut Rig) {
    let packet = tcp_received(rt, rig);
    none(rt, rig.received(rt));
    rig.send(rt, packet);
    rig.reap(rt);
}

#[test]
fn a_frame_is_received_and_sent_again(rt: HostRuntime) {
    let rt = &rt;
    let mut rig = Rig::new(rt, 8, (4, 32));
    tcp_goes_through(rt, &mut rig);
    tcp_went_out(rt, rig.end(rt, (1, 1)).as_slice());
}

/// The key of the published test vectors of the RSS hash.
const PUBLISHED_KEY: [u8; 40] = [
    0x6d, 0x5a, 0x56, 0xda, 0x25, 0x5b, 0x0e, 0xc2, 0x41, 0x67, 0x25, 0x3d, 0x43, 0xa3, 0x8f, 0xb0,
    0xd0, 0xca, 0x2b, 0xcb, 0xae, 0x7b, 0x30, 0xb4, 0x77, 0xcb, 0x2d, 0xa3, 0x80, 0x30, 0xf2, 0x0c,
    0x6a, 0x42, 0xb7, 0x3b, 0xbe, 0xac, 0x01, 0xfa,
];

/// A device with 16 pools, and a driver of the virtual function's sixth queue. This queue receives all frames.
fn sixth_queue(rt: &impl Hand) -> Rig {
    let setup = Setup {
        mode: Mode::Pools16,
        mrqc: 0x0001_000B,
        key: PUBLISHED_KEY,
        reta: [5; 128],
        ..PLAIN
    };
    let mut direct = set_up(rt, 64, 5, &setup);
    let start = Pmd::start(rt.alloc(), &mut direct, Port::Vf(0), 5, 8, 1518, blocks(rt));
    let pmd = done(rt, start);
    Rig { direct, pmd }
}

/// Checks that the TCP frame is received with its RSS type and hash.
fn tcp_is_hashed(rt: &impl Hand, rig: &mut Rig) {
    let packet = tcp_received(rt, rig);
    same(rt, usize::from(packet.rss), 1);
    same(rt, packet.hash as usize, 0x51cc_c178);
    release(rt, &mut rig.pmd, packet);
}

/// With 16 pools, a virtual function has eight queues. A frame's redirection table entry selects one of these queues.
#[test]
fn the_sixth_queue_of_a_function_receives_by_the_hash(rt: HostRuntime) {
    let rt = &rt;
    let mut rig = sixth_queue(rt);
    tcp_is_hashed(rt, &mut rig);
    rig.end(rt, (1, 0));
}

/// Checks that this many of a driver's blocks are free.
fn are_free(rt: &impl Hand, rig: &mut Rig, blocks: u32) {
    same(
        rt,
        free_blocks(rt, &mut rig.pmd, 100) as usize,
        blocks as usize,
    );
}

/// Sends this many frames through rings of this size. Checks the number of free blocks before and after.
fn go_through(rt: &impl Hand, size: u16, blocks: (u32, u32), free: u32, count: u16) {
    let mut rig = Rig::new(rt, size, blocks);
    are_free(rt, &mut rig, free);
    rig.frames(rt, count);
    are_free(rt, &mut rig, free);
    same(rt, rig.pmd.handed().len(), usize::from(count));
    let frames = rig.end(rt, (usize::from(count), usize::from(count)));
    are_first_frames(rt, frames.as_slice(), count);
}

#[test]
fn two_hundred_frames_go_through_a_ring_of_eight(rt: HostRuntime) {
    go_through(&rt, 8, (4, 32), 23, 200);
}

/// The number of free blocks, counted up to `most`.
pub fn free_blocks(rt: &impl Hand, pmd: &mut Pmd, most: u32) -> u32 {
    if most == 0 {
        return 0;
    }
    match pmd.packet(60) {
        Some(packet) => {
            let more = free_blocks(rt, pmd, most - 1);
            release(rt, pmd, packet);
            more.saturating_add(1)
        }
        None => 0,
    }
}

/// Each ring takes two blocks, and 255 blocks are posted. The frames wrap around both rings more than twice.
#[test]
fn six_hundred_frames_go_through_a_ring_of_256(rt: HostRuntime) {
    go_through(&rt, 256, (0, 320), 61, 600);
}

/// The longest rings take eight blocks each.
#[test]
fn five_frames_go_through_a_ring_of_1024(rt: HostRuntime) {
    go_through(&rt, 1024, (0, 1048), 9, 5);
}

/// Which device steps run before each call.
#[derive(Clone, Copy)]
enum Steps {
    OnQueue(u16),
    Nothing,
}

/// A refused start on queue 0: the row's name, the steps, the size of a ring, and the blocks as first and count. The
/// last two fields are the reason, and whether blocks are already lent.
type Start<'a> = (&'a str, Steps, u16, (u32, u32), Why, bool);

#[rattlefmt::skip]
const STARTS: [Start<'static>; 7] = [
    ("a ring of twelve is of no size", Steps::OnQueue(0), 12, (4, 32), Why::BadSize, false),
    ("a ring of 1,032 is of no size", Steps::OnQueue(0), 1032, (0, 2048), Why::BadSize, false),
    ("258 blocks are too few for a ring of 256", Steps::OnQueue(0), 256, (0, 258), Why::NoBuffer, false),
    ("long rings beside which another queue is stepped on", Steps::OnQueue(5), 256, (0, 259), Why::StartTimeout, true),
    ("eight blocks are too few for a ring of eight", Steps::OnQueue(0), 8, (0, 8), Why::NoBuffer, false),
    ("a queue beside which another is stepped on", Steps::OnQueue(5), 8, (4, 32), Why::StartTimeout, true),
    ("a queue that is never stepped", Steps::Nothing, 8, (4, 32), Why::StartTimeout, true),
];

/// A refused start, for frames of up to `frame` bytes.
pub fn refused_start<N: Nic>(
    rt: &impl Hand,
    nic: &mut N,
    (size, frame): (u16, u16),
    (first, count): (u32, u32),
) -> StartRefused {
    let arena = done(rt, Arena::new(rt.alloc(), first, count));
    refused(
        rt,
        Pmd::start(rt.alloc(), nic, Port::Pf, 0, size, frame, arena),
    )
}

/// Closes the arena that a refused start returned, or stops the driver that it returned. Returns the reason for the
/// refusal, and whether blocks were lent.
pub fn come_home<N: Nic>(rt: &impl Hand, nic: &mut N, refusal: StartRefused) -> (Why, bool) {
    let StartRefused { fault, rest } = refusal;
    let (packets, is_lent) = match rest {
        Rest::Home(home) => (close(rt, home), false),
        Rest::Running(pmd) => (stop(rt, nic, pmd), true),
    };
    same_pair(rt, packets, (0, 0));
    (reason(&fault), is_lent)
}

/// Why a start with these steps is refused, and whether blocks were lent.
fn start_beside(rt: &impl Hand, steps: Steps, size: u16, numbers: (u32, u32)) -> (Why, bool) {
    match steps {
        Steps::OnQueue(queue) => {
            let mut direct = opened(rt, 64, queue);
            let refusal = refused_start(rt, &mut direct, (size, 1518), numbers);
            let answer = come_home(rt, &mut direct, refusal);
            end(rt, in_hand(direct));
            answer
        }
        Steps::Nothing => {
            let mut nic = unstepped(rt, in_hand(opened(rt, 64, 0)));
            let refusal = refused_start(rt, &mut nic, (size, 1518), numbers);
            let answer = come_home(rt, &mut nic, refusal);
            end(rt, without_blocks(rt, nic));
            answer
        }
    }
}

/// A refused start on a queue that no device has: the row's name, the size of a ring, the length of frames, the number
/// of blocks, and the reason. The size, the length and the number of blocks are checked before the queue.
type Unnamed<'a> = (&'a str, u16, u16, u32, Why);

#[rattlefmt::skip]
const UNNAMED: [Unnamed<'static>; 5] = [
    ("a ring of twelve with too few blocks", 12, 1518, 8, Why::BadSize),
    ("frames of 1,517 bytes with too few blocks", 8, 1517, 8, Why::BadSize),
    ("frames of 9,729 bytes with too few blocks", 8, 9729, 8, Why::BadSize),
    ("eight blocks for a ring of eight", 8, 1518, 8, Why::NoBuffer),
    ("enough blocks", 8, 1518, 32, Why::DeviceFault),
];

/// Checks that a start on queue 128 is refused as its row says, and lends nothing.
fn check_unnamed(rt: &impl Hand, (name, size, frame, count, wanted): Unnamed<'_>) {
    let mut direct = opened(rt, 64, 0);
    let arena = done(rt, Arena::new(rt.alloc(), 0, count));
    let start = Pmd::start(rt.alloc(), &mut direct, Port::Pf, 128, size, frame, arena);
    let (why, is_lent) = come_home(rt, &mut direct, refused(rt, start));
    holds(rt, name, "refused", why == wanted && !is_lent);
    end(rt, in_hand(direct));
}

/// Checks that each of these starts is refused as its row says.
fn check_all_unnamed(rt: &impl Hand, rows: &[Unnamed<'_>]) {
    for row in rows {
        check_unnamed(rt, *row);
    }
}

#[test]
fn too_few_blocks_are_reported_before_a_queue_that_is_not_there(rt: HostRuntime) {
    check_all_unnamed(&rt, &UNNAMED);
}

/// Checks that a start is refused as its row says.
fn check_start(rt: &impl Hand, (name, steps, size, numbers, wanted, is_lent): Start<'_>) {
    let (why, was_lent) = start_beside(rt, steps, size, numbers);
    holds(rt, name, "refused", why == wanted && was_lent == is_lent);
}

/// Checks that each of these starts is refused as its row says.
fn check_starts(rt: &impl Hand, rows: &[Start<'_>]) {
    for row in rows {
        check_start(rt, *row);
    }
}

#[test]
fn a_start_is_refused(rt: HostRuntime) {
    check_starts(&rt, &STARTS);
}

/// A packet consisting of one block.
fn packet_of(block: Buf) -> Packet {
    Packet {
        bufs: Bufs::of(block),
        len: 60,
        rss: 0,
        hash: 0,
    }
}

/// Checks that the driver refuses to send a packet for this reason. Returns the packet.
pub fn unsent<N: Nic>(
    rt: &impl Hand,
    nic: &mut N,
    pmd: &mut Pmd,
    packet: Packet,
    wanted: Why,
) -> Packet {
    let TxFault { fault, packet } = refused(rt, pmd.tx(rt.alloc(), nic, packet));
    is_why(rt, &fault, wanted);
    some(rt, packet)
}

/// Checks that the driver refuses to take the packet back. Returns the packet's only block.
fn foreign_released(rt: &impl Hand, pmd: &mut Pmd, packet: Packet) -> Buf {
    let Packet {
        mut bufs,
        len: _,
        rss: _,
        hash: _,
    } = refused(rt, pmd.release(packet));
    let first = some(rt, bufs.take_first());
    match bufs.take_first() {
        None => bufs.finish(),
        Some(_buf) => fail(rt, "a second Buf"),
    }
    first
}

/// Checks that a packet with a block of another arena is returned.
pub fn foreign_comes_back<N: Nic>(rt: &impl Hand, nic: &mut N, pmd: &mut Pmd) {
    let mut other = done(rt, Arena::new(rt.alloc(), 100, 1));
    let packet = packet_of(some(rt, other.take()));
    let packet = unsent(rt, nic, pmd, packet, Why::ForeignBlock);
    let block = foreign_released(rt, pmd, packet);
    done(rt, other.give(block));
    done(rt, other.close());
}

#[test]
fn a_packet_of_another_arena_comes_back(rt: HostRuntime) {
    let rt = &rt;
    let mut rig = Rig::new(rt, 8, (4, 32));
    foreign_comes_back(rt, &mut rig.direct, &mut rig.pmd);
    rig.end(rt, (0, 0));
}

/// Checks that the driver refuses calls because it isn't running, but still creates packets and takes them back.
fn runs_no_more(rt: &impl Hand, direct: &mut Direct, pmd: &mut Pmd) {
    let fault = refused(rt, pmd.rx(rt.alloc(), direct));
    is_why(rt, &fault, Why::DeviceFault);
    let packet = some(rt, pmd.packet(60));
    release(rt, pmd, packet);
}

/// Stops a driver twice. The first stop is refused.
fn stop_twice(rt: &impl Hand) {
    let Rig { direct, pmd } = Rig::new(rt, 8, (4, 32));
    let mut direct = stepped_on(rt, direct, 5);
    let mut pmd = stop_times_out(rt, &mut direct, pmd);
    runs_no_more(rt, &mut direct, &mut pmd);
    let direct = stepped_on(rt, direct, 0);
    Rig { direct, pmd }.end(rt, (0, 0));
}

/// While the device's steps run for another queue, the first stop finds that the driver's queue isn't disabled. The
/// second stop succeeds. In between, the driver refuses calls because it isn't running, but still creates packets and
/// takes them back.
#[test]
fn a_stop_that_was_refused_is_tried_again(rt: HostRuntime) {
    stop_twice(&rt);
}

/// Takes a block that is lent to an owned device.
fn taken(rt: &impl Hand, direct: &mut Direct, block: u32) -> Buf {
    block_in(rt, done(rt, direct.call(rt.alloc(), Event::Take(block))))
}

/// Stops a driver that returned and accepted no packet. Checks that it lost one block. Returns the arena.
fn stop_with_a_loss(rt: &impl Hand, direct: &mut Direct, pmd: Pmd) -> Arena {
    let (arena, lost, handed, accepted) = left_by(stopped(rt, direct, pmd));
    same(rt, lost as usize, 1);
    same(rt, handed.saturating_add(accepted), 0);
    arena
}

/// Takes a block from a driver. The block counts as lost, and all others are free again.
fn lose_a_block(rt: &impl Hand) {
    let Rig { mut direct, pmd } = Rig::new(rt, 8, (4, 32));
    let gone = taken(rt, &mut direct, 9);
    let mut arena = stop_with_a_loss(rt, &mut direct, pmd);
    done(rt, arena.give(gone));
    done(rt, arena.close());
    end(rt, in_hand(direct));
}

/// If a block is taken from the device without the driver's knowledge, the block counts as lost. All others are free
/// again.
#[test]
fn a_block_that_is_gone_is_lost(rt: HostRuntime) {
    lose_a_block(&rt);
}
