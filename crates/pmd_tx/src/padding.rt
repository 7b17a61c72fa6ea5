//! Zero-pads short packets: a packet is sent with at least 60 bytes.

ghost use Rattle.std.specs.Prelude.{◌≡◌, ◌≤◌, ◌<◌, ◌∷◌, ◌+◌, length, take, drop};
ghost use Rattle.pmd_tx.specs.Padding.{first_bytes, padded_packet, unpadded, with_first};

use pmd_access::{Buf, Bufs, Packet};
use std::mem;

/// The minimum length of a sent packet in bytes.
const SHORTEST: u16 = 60;

/// Pads a packet with zero bytes to 60 bytes, if it is shorter.
pub(crate) fn pad(packet: Packet) -> Packet
    requires { 0 < length packet.bufs }
    ensures { result ≡ padded_packet packet }
{
    if packet.len >= SHORTEST {
        return packet;
    }
    let Packet {
        bufs,
        len,
        rss,
        hash,
    } = packet;
    let zeros = [0; 60];
    let len = usize::from(len);
    Packet {
        bufs: put_first(bufs, len, &zeros[..60 - len]),
        len: SHORTEST,
        rss,
        hash,
    }
}

/// Returns the bytes that padding may overwrite: the first 60 bytes of the packet's first block.
pub(crate) fn start_of(packet: &Packet) -> [u8; 60]
    requires { 0 < length packet.now.bufs }
    ensures { result ≡ first_bytes packet.now.bufs }
{
    let mut start = [0; 60];
    start.copy_from_slice(&packet.bufs.get(0).bytes()[..60]);
    start
}

/// Undoes the padding: restores the packet's length and its first bytes.
pub(crate) fn unpad(packet: Packet, len: u16, start: &[u8; 60]) -> Packet
    requires { 0 < length packet.bufs }
    ensures { result ≡ unpadded packet len start.now }
{
    if len >= SHORTEST {
        return packet;
    }
    let Packet {
        bufs,
        len: _,
        rss,
        hash,
    } = packet;
    Packet {
        bufs: put_first(bufs, 0, start),
        len,
        rss,
        hash,
    }
}

/// Writes these bytes into the first of the Bufs, starting at byte `at` of that Buf.
fn put_first(bufs: Bufs, at: usize, bytes: &[u8]) -> Bufs
    requires some { 0 < length bufs }
    requires room { at + length bytes.now ≤ 2048 }
    ensures { result ≡ with_first bufs at bytes.now }
{
    let count = bufs.count();
    let mut others = bufs;
    match others.take_first() {
        Some(mut first) => {
            first.put(at, bytes);
            after(first, others)
        }
        None => unreachable!(),
    }
}

/// Returns Bufs that consist of `first`, followed by `others`.
pub(crate) fn after(first: Buf, others: Bufs) -> Bufs
    requires { length others < 5 }
    ensures { result ≡ first ∷ others }
{
    let mut all = Bufs::of(first);
    let mut left = others;
    for _moved in 0..left.count() {
        match left.take_first() {
            Some(buf) => all.push(buf),
            None => unreachable!(),
        }
    }
    left.finish();
    all
}

/// Builds a packet from its first Buf and the others.
pub(crate) fn repacked(first: Buf, others: Bufs, len: u16, rss: u8, hash: u32) -> Packet
    requires { length others < 5 }
    ensures { result ≡ record { bufs = first ∷ others; len = len; rss = rss; hash = hash } }
{
    Packet {
        bufs: after(first, others),
        len,
        rss,
        hash,
    }
}

/// Puts a Buf back in front of the others.
pub(crate) fn put_back(bufs: &mut Bufs, first: Buf)
    requires { length bufs.old < 5 }
    ensures { bufs.new ≡ first ∷ bufs.old }
{
    let others = mem::replace(bufs, Bufs::none());
    let none = mem::replace(bufs, after(first, others));
    none.finish()
}

/// Splits Bufs into the first `count` and the rest.
pub(crate) fn split(bufs: Bufs, count: usize) -> (Bufs, Bufs)
    requires { count ≤ length bufs }
    ensures first { result.0 ≡ take count bufs }
    ensures rest { result.1 ≡ drop count bufs }
{
    let most = bufs.count();
    let mut first = Bufs::none();
    let mut rest = bufs;
    for _moved in 0..count {
        match rest.take_first() {
            Some(buf) => first.push(buf),
            None => unreachable!(),
        }
    }
    (first, rest)
}
