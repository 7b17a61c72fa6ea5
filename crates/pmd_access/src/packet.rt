//! Packets in hand, and their records.

ghost use Rattle.std.specs.Prelude.{◌≡◌, ◌<◌, ◌≤◌, ◌+◌, ◌*◌, ◌⊎◌, ◌↔◌, true, false, [], length, take, drop, min, slice_get, IsNone, IfOk};
ghost use Rattle.std.specs.Vec.{vec_capacity};
ghost use Rattle.device_lock.specs.NicDevice.DmaArena.Memory.{put_bytes};
ghost use Rattle.device_lock.specs.NicDevice.DmaArena.Numbers.{free_count};
ghost use Rattle.pmd_access.specs.Bufs.{bytes_of, numbers_of, with_all_free};
ghost use Rattle.pmd_access.specs.Fresh.{IsFresh, IsDrawnAs, bufs_for};
ghost use Rattle.pmd_access.specs.Home.{AreOut};
ghost use Rattle.pmd_access.specs.Packet.{kept_of};

use crate::bufs::{Bufs, MOST_BUFS};
use device_lock::{Arena, BLOCK_BYTES, Octets};
use std::alloc::{AllocError, Global};
use std::marker::Model;

/// A packet in hand. Its bytes are the first `len` bytes of its Bufs, in order.
pub struct Packet {
    /// The Bufs that contain the packet.
    pub bufs: Bufs,
    /// The packet's length in bytes.
    pub len: u16,
    /// The packet's RSS type.
    pub rss: u8,
    /// The packet's RSS hash; 0 if none was reported.
    pub hash: u32,
}

/// Returns the number of Bufs that a packet of `len` bytes needs: at least one.
fn bufs_for(len: u16) -> u32
    ensures { result ≡ bufs_for len }
{
    ((u32::from(len) + 2047) / 2048).max(1)
}

/// Creates a packet of `len` zero bytes in free blocks of the arena, with RSS type and hash 0. If too few blocks are
/// free or `len` is above 10,240, returns `None` and takes no block.
pub fn fresh_packet(arena: &mut Arena, len: u16) -> Option<Packet>
    ensures none { IsNone result ↔ ((10240 < len) ⊎ (free_count arena.old < bufs_for len)) }
    ensures made { IsFresh arena.old len result arena.new }
{
    if usize::from(len) > MOST_BUFS * BLOCK_BYTES {
        return None;
    }
    let count = bufs_for(len);
    if arena.free_blocks() < count {
        return None;
    }
    Some(Packet {
        bufs: draw(arena, count),
        len,
        rss: 0,
        hash: 0,
    })
}

/// Takes `count` free blocks from the arena, at most five, each filled with zeros.
fn draw(arena: &mut Arena, count: u32) -> Bufs
    requires few { count ≤ 5 }
    requires free { count ≤ free_count arena.old }
    ensures { IsDrawnAs count arena.old result arena.new }
{
    let mut bufs = Bufs::none();
    for _drawn in 0..count {
        match arena.take() {
            Some(buf) => bufs.push(buf),
            None => unreachable!(),
        }
    }
    bufs
}

/// Returns a packet's blocks to the arena that they came from.
pub fn give_packet(arena: &mut Arena, packet: Packet)
    requires { AreOut arena.old (numbers_of packet.bufs) }
    ensures { arena.new ≡ with_all_free arena.old (numbers_of packet.bufs) }
{
    let Packet {
        bufs,
        len: _,
        rss: _,
        hash: _,
    } = packet;
    give_bufs(arena, bufs)
}

/// Returns Bufs to the arena that they came from.
pub fn give_bufs(arena: &mut Arena, bufs: Bufs)
    requires { AreOut arena.old (numbers_of bufs) }
    ensures { arena.new ≡ with_all_free arena.old (numbers_of bufs) }
{
    let mut left = bufs;
    for _given in 0..left.count() {
        match left.take_first() {
            Some(buf) => arena.give_back(buf),
            None => unreachable!(),
        }
    }
    left.finish()
}

/// What the driver keeps about a packet that the driver received or accepted.
#[derive(Debug, Drop)]
pub struct Record {
    /// The packet's bytes, without the frame check sequence.
    pub bytes: Octets,
    /// The packet's RSS type.
    pub rss: u8,
    /// The packet's RSS hash; 0 if the descriptor reports none.
    pub hash: u32,
}

impl Model for Record {
    ghost use Rattle.pmd_access.specs.Packet.{Kept};

    ghost Value = { Kept };

    ghost view = { λ r. record { bytes = r.bytes; rss = r.rss; hash = r.hash } };
}

impl Packet {
    /// Returns the number of bytes that a record of the packet keeps: the packet's length, at most the capacity of its
    /// Bufs.
    pub fn record_room(&self) -> usize
        ensures { result ≡ min self.now.len (2048 * length self.now.bufs) }
    {
        usize::from(self.len).min(BLOCK_BYTES * self.bufs.count())
    }

    /// Overwrites the packet's bytes starting at index `at`, continuing from one Buf to the next; the packet's first
    /// byte has index 0. The block numbers are unchanged. If the bytes would extend past the packet's `len` bytes or
    /// past its last Buf, writes nothing and returns false.
    pub fn write_at(&mut self, at: usize, bytes: &[u8]) -> bool
        ensures fits { (result ≡ true) ↔ (at + length bytes.now ≤ min self.old.len (2048 * length self.old.bufs)) }
        ensures written { result ≡ true → bytes_of self.new.bufs ≡ put_bytes (bytes_of self.old.bufs) at bytes.now }
        ensures numbers { numbers_of self.new.bufs ≡ numbers_of self.old.bufs }
        // The packet's length, RSS type and hash are unchanged.
        ensures rest { self.new ≡ record self.old { bufs = self.new.bufs } }
        ensures unchanged { result ≡ false → self.new ≡ self.old }
    {
        at.saturating_add(bytes.len()) <= usize::from(self.len) && self.bufs.write_at(at, bytes)
    }

    /// Fills `to` with the packet's bytes starting at index `at`, continuing from one Buf to the next; the packet's
    /// first byte has index 0. If the range would extend past the packet's `len` bytes or past its last Buf, copies
    /// nothing and returns false.
    #[tactic(auto, using(crate::proofs::Reading::reading))]
    pub fn read_at(&self, at: usize, to: &mut [u8]) -> bool
        ensures fits { (result ≡ true) ↔ (at + length to.old ≤ length (kept_of self.now).bytes) }
        ensures read { result ≡ true → to.new ≡ take (length to.old) (drop at (kept_of self.now).bytes) }
        ensures unchanged { result ≡ false → to.new ≡ to.old }
    {
        at.saturating_add(to.len()) <= usize::from(self.len) && self.bufs.read_at(at, to)
    }

    /// Returns the packet's byte at an index, counted from 0, or `None` if `read_at` can't read a byte there.
    #[tactic(auto, using(crate::proofs::Reading::reading, std::proofs::lemmas::Option::slice_get_past))]
    pub fn byte(&self, at: usize) -> Option<u8>
        ensures { result ≡ slice_get (kept_of self.now).bytes at }
    {
        let mut one = [0];
        if self.read_at(at, &mut one) {
            Some(one[0])
        } else {
            None
        }
    }

    /// Returns a copy of all bytes of the packet that `read_at` can read.
    pub fn to_vec(&self, alloc: Global) -> Result<Vec<u8>, AllocError>
        ensures { IfOk result (λ copy. copy.items ≡ (kept_of self.now).bytes) }
    {
        let room = Vec::with_capacity(alloc, self.record_room())?;
        let Record {
            bytes,
            rss: _,
            hash: _,
        } = Record::of(self, room);
        Ok(bytes.into_vec())
    }
}

impl Record {
    /// Creates the record of a packet. It copies the packet's bytes into `room`, a vector with room for them.
    pub fn of(packet: &Packet, room: Vec<u8>) -> Record
        requires empty { room.items ≡ [] }
        requires room { min packet.now.len (2048 * length packet.now.bufs) ≤ vec_capacity room }
        ensures { result ≡ kept_of packet.now }
    {
        Record {
            bytes: Octets::of(copied(&packet.bufs, usize::from(packet.len), room)),
            rss: packet.rss,
            hash: packet.hash,
        }
    }

    /// The packet's bytes, without the frame check sequence.
    pub fn bytes(&self) -> &[u8]
        ensures { result.now ≡ self.now.bytes }
    {
        self.bytes.bytes()
    }

    /// The packet's RSS type.
    pub fn rss(&self) -> u8
        ensures { result ≡ self.now.rss }
    {
        self.rss
    }

    /// The packet's RSS hash; 0 if the descriptor reports none.
    pub fn hash(&self) -> u32
        ensures { result ≡ self.now.hash }
    {
        self.hash
    }
}

/// Copies the first `len` bytes of some Bufs, or all their bytes if there are fewer, into a vector with room for them.
fn copied(bufs: &Bufs, len: usize, room: Vec<u8>) -> Vec<u8>
    requires empty { room.items ≡ [] }
    requires len { len < 65536 }
    requires room { min len (2048 * length bufs.now) ≤ vec_capacity room }
    ensures { result.items ≡ take len (bytes_of bufs.now) }
{
    let mut bytes = room;
    for number in 0..bufs.count() {
        let block: &[u8] = bufs.get(number).bytes();
        let more = (len - bytes.len()).min(BLOCK_BYTES);
        match bytes.extend_from_slice(&block[..more]) {
            Ok(()) => {}
            Err(_) => unreachable!(),
        }
    }
    bytes
}
