//! The Bufs of a packet: at most five, in order.

ghost use Rattle.pmd_access.specs.Bufs.{blocks_in, bytes_of, numbers_of};
ghost use Rattle.device_lock.specs.NicDevice.DmaArena.Block.{IsBlock};
ghost use Rattle.device_lock.specs.NicDevice.DmaArena.Memory.{put_bytes};
ghost use Rattle.device_lock.specs.NicDevice.DmaArena.Whereabouts.{times_in_hand};
ghost use Rattle.std.specs.Prelude.{◌≡◌, ◌≤◌, ◌<◌, ◌+◌, ◌*◌, ◌↔◌, true, false, ◌++◌, ◌∷◌, [], All, length, take, drop, slice_index_or, option_to_list, IfNone, IsNone};

use device_lock::{BLOCK_BYTES, Buf};
use std::marker::Model;
use std::mem;

/// The maximum number of Bufs in a packet.
pub const MOST_BUFS: usize = 5;

/// The Bufs of a packet, in order. The list may be empty.
pub struct Bufs {
    places: [Option<Buf>; 5],
    count: usize,
}

impl Model for Bufs {
    ghost use Rattle.std.specs.Prelude.{◌≡◌, List, length};
    ghost use Rattle.device_lock.specs.NicDevice.DmaArena.Block.{Block};
    ghost use Rattle.pmd_access.specs.Bufs.{blocks_in, StandFirst};

    ghost Value = { List Block };

    ghost view = { λ b. blocks_in b.places };

    ghost invariant = { λ b. StandFirst b.count b.places × (length b.places ≡ 5) };
}

impl Bufs {
    /// Creates an empty list. It allocates nothing.
    pub fn none() -> Bufs
        ensures { result ≡ [] }
    {
        Bufs {
            places: [None, None, None, None, None],
            count: 0,
        }
    }

    /// Creates a list of one block.
    pub fn of(buf: Buf) -> Bufs
        ensures { result ≡ buf ∷ [] }
    {
        Bufs {
            places: [Some(buf), None, None, None, None],
            count: 1,
        }
    }

    /// Returns the number of Bufs.
    pub fn count(&self) -> usize
        ensures count { result ≡ length self.now }
        // At most 5.
        ensures few { result ≤ 5 }
    {
        self.count
    }

    /// Returns the Buf at this index, counted from 0.
    pub fn get(&self, number: usize) -> &Buf
        requires { number < length self.now }
        ensures { result.now ≡ slice_index_or self.now number result.now }
    {
        let places = &self.places;
        match &places[number] {
            Some(buf) => buf,
            None => unreachable!(),
        }
    }

    /// Returns whether the list contains the block with this number.
    pub fn has(&self, block: u32) -> bool
        ensures { (result ≡ true) ↔ (0 < times_in_hand (numbers_of self.now) block) }
    {
        for number in 0..self.count() {
            if self.get(number).block() == block {
                return true;
            }
        }
        false
    }

    /// Appends a Buf.
    pub fn push(&mut self, buf: Buf)
        requires { length self.old < 5 }
        ensures { self.new ≡ self.old ++ buf ∷ [] }
    {
        match self.places[self.count].replace(buf) {
            None => self.count += 1,
            Some(_buf) => unreachable!(),
        }
    }

    /// Removes and returns the first Buf. Returns `None` if and only if the list is empty.
    pub fn take_first(&mut self) -> Option<Buf>
        ensures first { self.old ≡ option_to_list result ++ self.new }
        ensures none { IfNone result (self.old ≡ []) }
    {
        let first = self.places[0].take()?;
        self.places.rotate_left(1);
        self.count -= 1;
        Some(first)
    }

    /// Overwrites bytes starting at index `at`, continuing from one Buf to the next; index 0 is the first byte of the
    /// first Buf. The block numbers are unchanged. If the bytes would extend past the last Buf, writes nothing and
    /// returns false.
    pub fn write_at(&mut self, at: usize, bytes: &[u8]) -> bool
        ensures fits { (result ≡ true) ↔ (at + length bytes.now ≤ 2048 * length self.old) }
        ensures written { result ≡ true → bytes_of self.new ≡ put_bytes (bytes_of self.old) at bytes.now }
        ensures numbers { numbers_of self.new ≡ numbers_of self.old }
        ensures unchanged { result ≡ false → self.new ≡ self.old }
    {
        if at.saturating_add(bytes.len()) > BLOCK_BYTES * self.count() {
            return false;
        }
        let mut left = mem::replace(self, Bufs::none());
        let mut from = at;
        let mut rest = bytes;
        for _written in 0..left.count() {
            match left.take_first() {
                Some(mut buf) => {
                    let size = buf.bytes().len();
                    let start = from.min(size);
                    let more = rest.len().min(size - start);
                    buf.put(start, &rest[..more]);
                    self.push(buf);
                    from -= start;
                    rest = &rest[more..];
                }
                None => unreachable!(),
            }
        }
        left.finish();
        true
    }

    /// Copies bytes starting at index `at` into `to` until `to` is full, continuing from one Buf to the next; index 0
    /// is the first byte of the first Buf. If the range would extend past the last Buf, copies nothing and returns
    /// false.
    #[tactic(auto, using(crate::proofs::Reading::length_bytes))]
    pub fn read_at(&self, at: usize, to: &mut [u8]) -> bool
        ensures fits { (result ≡ true) ↔ (at + length to.old ≤ length (bytes_of self.now)) }
        ensures read { result ≡ true → to.new ≡ take (length to.old) (drop at (bytes_of self.now)) }
        ensures unchanged { result ≡ false → to.new ≡ to.old }
    {
        if at.saturating_add(to.len()) > bytes_in(self) {
            return false;
        }
        copy_out(self, at, to);
        true
    }

    /// Consumes an empty list of Bufs.
    pub fn finish(self)
        requires { self ≡ [] }
    {
        let Bufs { places, count: _ } = self;
        end_all(places)
    }
}

/// Consumes an array in which each place is empty.
fn end_all(places: [Option<Buf>; 5])
    requires { blocks_in places ≡ [] }
{
    let [first, second, third, fourth, fifth] = places;
    empty(first);
    empty(second);
    empty(third);
    empty(fourth);
    empty(fifth);
}

/// Consumes an empty place.
fn empty(place: Option<Buf>)
    requires { IsNone place }
{
    match place {
        None => {}
        Some(_buf) => unreachable!(),
    }
}

/// Returns the total number of bytes in these Bufs.
pub fn bytes_in(bufs: &Bufs) -> usize
    ensures sum { result ≡ 2048 * length bufs.now }
    // Every Buf is a 2,048-byte block.
    ensures whole { All (λ b. IsBlock b) bufs.now }
{
    let mut sum = 0;
    for number in 0..bufs.count() {
        sum += bufs.get(number).bytes().len();
    }
    sum
}

/// Fills `to` with the Bufs' bytes starting at index `at`, continuing from one Buf to the next.
fn copy_out(bufs: &Bufs, at: usize, to: &mut [u8])
    requires whole { All (λ b. IsBlock b) bufs.now }
    requires fits { at + length to.old ≤ 2048 * length bufs.now }
    ensures { to.new ≡ take (length to.old) (drop at (bytes_of bufs.now)) }
{
    let mut from = at;
    let mut filled = 0;
    for number in 0..bufs.count() {
        let block: &[u8] = bufs.get(number).bytes();
        let start = from.min(BLOCK_BYTES);
        let more = (to.len() - filled).min(BLOCK_BYTES - start);
        put(to, filled, &block[start..start + more]);
        from -= start;
        filled += more;
    }
}

/// Replaces the bytes starting at index `at`.
fn put(to: &mut [u8], at: usize, bytes: &[u8])
    requires { at + length bytes.now ≤ length to.old }
    ensures { to.new ≡ take at to.old ++ bytes.now ++ drop (at + length bytes.now) to.old }
{
    to[at..at + bytes.len()].copy_from_slice(bytes);
}
