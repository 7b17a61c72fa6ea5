//! A driver of long frames, which are up to 9,728 bytes long including the frame check sequence.

use crate::bench::{
    PLAIN, Why, close, count_calls, end, holds_bytes, in_hand, is_why, reason, release, set_up,
    stopped, untouched,
};
use crate::driver::{come_home, free_blocks, refused_start};
use crate::outcome::{Hand, done, fail, push, refused, same, same_bytes, same_pair, sees, some};
use crate::rig::Rig;
use nic_device::{Arena, Event, Octets, Port, Reply};
use pmd::{Direct, Nic, Packet, Pmd, Setup, pf_setup};
use std::collections::VecDeque;

/// A device and a driver of queue 0 for the longest frames.
fn rig_for_long_frames(rt: &impl Hand) -> Rig {
    let setup = Setup {
        frame: 9728,
        ..PLAIN
    };
    let mut direct = set_up(rt, 64, 0, &setup);
    let arena = done(rt, Arena::new(rt.alloc(), 0, 320));
    let start = Pmd::start(rt.alloc(), &mut direct, Port::Pf, 0, 256, 9728, arena);
    let pmd = done(rt, start);
    Rig { direct, pmd }
}

/// Stops a driver with 320 blocks. Checks its numbers of returned and accepted packets, and that all blocks are free
/// again.
fn stop_with_320(rt: &impl Hand, direct: &mut Direct, pmd: Pmd, packets: (usize, usize)) {
    let home = stopped(rt, direct, pmd);
    same(rt, home.arena.free_blocks() as usize, 320);
    same_pair(rt, close(rt, home), packets);
}

/// A 5,000-byte broadcast frame.
fn long_frame(rt: &impl Hand) -> Vec<u8> {
    let mut bytes = done(rt, Vec::from_array(rt.alloc(), [0xFF; 6]));
    for number in 6..5000_u16 {
        push(rt, &mut bytes, (number % 251) as u8);
    }
    bytes
}

/// The packet received within three polls.
fn received_soon(rt: &impl Hand, rig: &mut Rig) -> Packet {
    for _look in 0..3 {
        if let Some(packet) = rig.received(rt) {
            return packet;
        }
    }
    fail(rt, "no packet comes")
}

/// The oldest transmitted frame.
fn collected(rt: &impl Hand, direct: &mut Direct) -> Octets {
    match done(rt, direct.call(rt.alloc(), Event::Collect)) {
        Reply::Frame { bytes, .. } => bytes,
        _other => fail(rt, "no frame went out"),
    }
}

/// Checks that the long frame is transmitted.
fn is_collected(rt: &impl Hand, direct: &mut Direct) {
    let frame = collected(rt, direct);
    same_bytes(rt, frame.bytes(), long_frame(rt).as_slice());
}

/// Sends a packet of three Bufs with the long frame. Checks that exactly this frame is transmitted. Then stops the
/// driver and checks its numbers of returned and accepted packets.
fn goes_out(rt: &impl Hand, rig: Rig, packet: Packet, packets: (usize, usize)) {
    let mut rig = rig;
    same(rt, packet.bufs.count(), 3);
    holds_bytes(rt, &packet, long_frame(rt).as_slice());
    rig.send(rt, packet);
    rig.reap(rt);
    is_collected(rt, &mut rig.direct);
    ends_empty(rt, rig, packets);
}

/// Stops the driver and checks that no transmitted frame is left.
fn ends_empty(rt: &impl Hand, rig: Rig, packets: (usize, usize)) {
    let Rig { mut direct, pmd } = rig;
    stop_with_320(rt, &mut direct, pmd, packets);
    same(rt, end(rt, in_hand(direct)).len(), 0);
}

/// A frame fills two blocks and part of a third, and takes three descriptors in each ring.
#[test]
fn a_frame_of_5_000_bytes_is_received_and_sent_again(rt: HostRuntime) {
    let rt = &rt;
    let mut rig = rig_for_long_frames(rt);
    same(rt, free_blocks(rt, &mut rig.pmd, 100) as usize, 61);
    rig.arrive(rt, long_frame(rt));
    let packet = received_soon(rt, &mut rig);
    goes_out(rt, rig, packet, (1, 1));
}

/// The length of a frame in bytes, and the number of Bufs of its packet. The frame fills none of these Bufs, some of
/// them or all.
#[rattlefmt::skip]
const IN_BUFS: [(u16, usize); 11] = [
    (60, 1), (2047, 1), (2048, 1), (2049, 2), (4095, 2), (4096, 2), (4097, 3), (6144, 3), (8192, 4), (8193, 5),
    (9724, 5),
];

/// A broadcast frame of this many bytes.
fn frame_of_len(rt: &impl Hand, len: u16) -> Vec<u8> {
    let mut bytes = done(rt, Vec::from_array(rt.alloc(), [0xFF; 6]));
    for number in 6..len {
        push(rt, &mut bytes, (number % 253) as u8);
    }
    bytes
}

/// Checks that a packet is the frame of this many bytes, in this many Bufs.
fn is_in_bufs(rt: &impl Hand, packet: &Packet, (len, bufs): (u16, usize)) {
    same(rt, usize::from(packet.len), usize::from(len));
    same(rt, packet.bufs.count(), bufs);
    holds_bytes(rt, packet, frame_of_len(rt, len).as_slice());
}

/// Receives each of these frames separately and checks its number of Bufs.
fn come_one_by_one(rt: &impl Hand, rig: &mut Rig) {
    for (len, bufs) in IN_BUFS {
        rig.arrive(rt, frame_of_len(rt, len));
        let packet = received_soon(rt, rig);
        is_in_bufs(rt, &packet, (len, bufs));
        release(rt, &mut rig.pmd, packet);
    }
}

/// Receives all of these frames in bursts and checks their numbers of Bufs.
fn come_by_bursts(rt: &impl Hand, rig: &mut Rig) {
    for (len, _bufs) in IN_BUFS {
        rig.arrive(rt, frame_of_len(rt, len));
    }
    let mut packets = VecDeque::new(rt.alloc());
    for _burst in 0..40u32 {
        let burst = rig
            .pmd
            .rx_burst(rt.alloc(), &mut rig.direct, 4, &mut packets);
        let _count = done(rt, burst);
    }
    for (len, bufs) in IN_BUFS {
        let packet = some(rt, packets.pop_front());
        is_in_bufs(rt, &packet, (len, bufs));
        release(rt, &mut rig.pmd, packet);
    }
    assert!(rt; packets.is_empty());
    packets.destroy_empty();
}

/// A packet contains exactly its frame's bytes, and only the Bufs needed for them.
#[test]
fn a_packet_is_in_as_many_bufs_as_its_frame_fills(rt: HostRuntime) {
    let rt = &rt;
    let mut rig = rig_for_long_frames(rt);
    come_one_by_one(rt, &mut rig);
    come_by_bursts(rt, &mut rig);
    ends_empty(rt, rig, (22, 0));
}

/// Closes a device on which no call was made.
fn made_no_call(rt: &impl Hand, direct: Direct) {
    same(rt, count_calls(direct.calls()), 0);
    end(rt, in_hand(direct));
}

/// A 5,000-byte packet, filled with these bytes by two writes, each of which continues into the next Buf. A write that
/// would extend one byte beyond the packet is refused.
fn filled(rt: &impl Hand, pmd: &mut Pmd, frame: &[u8]) -> Packet {
    let (first, others) = frame.split_at(frame.len() / 2);
    let mut packet = some(rt, pmd.packet(5000));
    same(rt, packet.bufs.count(), 3);
    sees(rt, packet.write_at(first.len(), others));
    sees(rt, packet.write_at(0, first));
    sees(rt, !packet.write_at(4999, &[1, 1]));
    sees(rt, !packet.write_at(usize::MAX, &[1, 1]));
    packet
}

#[test]
fn a_packet_of_5_000_bytes_is_filled_and_sent(rt: HostRuntime) {
    let rt = &rt;
    let mut rig = rig_for_long_frames(rt);
    let packet = filled(rt, &mut rig.pmd, long_frame(rt).as_slice());
    goes_out(rt, rig, packet, (0, 1));
}

/// Pairs of a ring size in descriptors and a frame size in bytes that no driver supports.
const NO_SIZES: [(u16, u16); 3] = [(1032, 9728), (256, 9729), (256, 1517)];

/// Checks that starting a driver with this size for these frames makes no call.
fn starts_nothing(rt: &impl Hand, size: u16, frame: u16) {
    let mut direct = untouched(rt, 64, 0);
    let refusal = refused_start(rt, &mut direct, (size, frame), (0, 320));
    let (why, is_lent) = come_home(rt, &mut direct, refusal);
    sees(rt, why == Why::BadSize && !is_lent);
    made_no_call(rt, direct);
}

#[test]
fn a_driver_of_no_such_size_makes_no_call(rt: HostRuntime) {
    for (size, frame) in NO_SIZES {
        starts_nothing(&rt, size, frame);
    }
}

/// Checks that a setup for frames of up to this many bytes makes no call.
fn sets_nothing_up(rt: &impl Hand, frame: u16) {
    let setup = Setup { frame, ..PLAIN };
    let mut direct = untouched(rt, 64, 0);
    let fault = refused(rt, pf_setup(rt.alloc(), &mut direct, &setup));
    is_why(rt, &fault, Why::BadSize);
    made_no_call(rt, direct);
}

#[test]
fn a_set_up_for_no_such_frames_writes_nothing(rt: HostRuntime) {
    sets_nothing_up(&rt, 9729);
    sets_nothing_up(&rt, 1517);
}
