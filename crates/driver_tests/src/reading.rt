//! Tests that create a packet from bytes and read it back.

use crate::bench::{end, in_hand, opened, reap, release, send, started, stops};
use crate::outcome::{Hand, done, same, same_bytes, sees, some};
use pmd::Packet;

/// The bytes of a packet of two blocks, with two special values at the boundary between the blocks.
fn bytes_of_two_blocks() -> [u8; 3000] {
    let mut bytes = [0x5A; 3000];
    bytes[2047] = 1;
    bytes[2048] = 2;
    bytes
}

/// Checks that these are the packet's bytes, with each call that reads a packet.
fn reads(rt: &impl Hand, packet: &Packet, bytes: &[u8; 3000]) {
    same_bytes(rt, done(rt, packet.to_vec(rt.alloc())).as_slice(), bytes);
    let mut seam = [0; 2];
    sees(rt, packet.read_at(2047, &mut seam));
    same_bytes(rt, &seam, &[1, 2]);
    sees(rt, !packet.read_at(2999, &mut seam));
    same_bytes(rt, &seam, &[1, 2]);
    sees(rt, packet.byte(2999) == Some(0x5A));
    sees(rt, packet.byte(3000).is_none());
}

/// Creates a packet of two blocks from bytes, reads it back, and releases it.
fn read_back(rt: &impl Hand) {
    let mut direct = opened(rt, 64, 0);
    let mut pmd = started(rt, &mut direct);
    let free = pmd.free_blocks() as usize;
    let bytes = bytes_of_two_blocks();
    let packet = some(rt, pmd.packet_of(&bytes));
    same(rt, pmd.free_blocks() as usize, free.saturating_sub(2));
    reads(rt, &packet, &bytes);
    release(rt, &mut pmd, packet);
    same(rt, pmd.free_blocks() as usize, free);
    stops(rt, &mut direct, pmd, (0, 0));
    same(rt, end(rt, in_hand(direct)).len(), 0);
}

#[test]
fn a_packet_of_bytes_is_read_back(rt: HostRuntime) {
    read_back(&rt);
}

/// Checks that a packet of one block is outstanding until it is reaped.
fn counted(rt: &impl Hand) {
    let mut direct = opened(rt, 64, 0);
    let mut pmd = started(rt, &mut direct);
    same(rt, usize::from(pmd.vacant()), 7);
    let packet = some(rt, pmd.packet_of(&[0x5A; 60]));
    send(rt, &mut direct, &mut pmd, packet);
    same(rt, usize::from(pmd.outstanding()), 1);
    same(rt, usize::from(pmd.vacant()), 6);
    reap(rt, &mut direct, &mut pmd);
    same(rt, usize::from(pmd.outstanding()), 0);
    same(rt, usize::from(pmd.vacant()), 7);
    stops(rt, &mut direct, pmd, (0, 1));
    same(rt, end(rt, in_hand(direct)).len(), 1);
}

#[test]
fn an_outstanding_packet_is_counted(rt: HostRuntime) {
    counted(&rt);
}
