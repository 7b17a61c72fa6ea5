//! Notes of blocks. Notes with equal bytes can share one copy of the bytes.

ghost use Rattle.std.specs.Prelude.{◌≡◌, IfOk, IfSome, IsTrue};

use crate::event::Note;
use crate::notes_trimming::kept_in;
use rx_ring::{Buf, Octets};
use std::alloc::{AllocError, Global};
use std::sync::Arc;

/// The number of entries, each of which can remember the bytes of a block's last note. Blocks whose numbers are equal
/// modulo this number share an entry.
const PLACES: usize = 256;

/// Remembers the bytes of the last notes of blocks. When a driver takes a block, lends it and takes it again, the
/// block's bytes usually haven't changed. In that case the notes share one copy of the bytes.
#[derive(Debug, Drop)]
pub struct Notes {
    last: Vec<Option<Arc<Octets>>>,
}

impl Notes {
    /// Creates a store that remembers no bytes yet. The call allocates nothing.
    pub fn new(alloc: Global) -> Notes {
        Notes {
            last: Vec::new(alloc),
        }
    }

    /// Returns the note of a block. If the last note that this store remembers in the block's entry has the same bytes,
    /// the new note shares them. This needs memory to set up the sharing; no clause states any of it.
    ///
    /// Fails with `AllocError` if there isn't enough memory for a new copy of the bytes.
    #[inline(always)]
    pub fn of(&mut self, alloc: Global, buf: &Buf) -> Result<Note, AllocError>
        ensures { IfOk result (λ note. note ≡ buf.now) }
    {
        let bytes: &[u8] = buf.bytes();
        let kept = kept_in(buf);
        if kept == 0 {
            return Ok(Note::with_kept(buf, kept, Vec::new(alloc)));
        }
        let place = buf.block() as usize % PLACES;
        if let Some(last) = self.last_at(place, &bytes[..kept]) {
            return Ok(Note::with_common(buf, kept, last));
        }
        let room = Vec::with_capacity(alloc, kept)?;
        match Arc::new(alloc, Octets::copied(&bytes[..kept], room)) {
            Ok(common) => {
                self.keep(alloc, place, &common);
                Ok(Note::with_common(buf, kept, common))
            }
            Err(refused) => Ok(Note::with_own(buf, kept, refused.value)),
        }
    }

    /// Returns the bytes that an entry remembers, if they equal these bytes.
    fn last_at(&self, place: usize, bytes: &[u8]) -> Option<Arc<Octets>>
        ensures { IfSome result (λ last. last.value ≡ bytes.now) }
    {
        if place >= self.last.len() {
            return None;
        }
        match &self.last[place] {
            Some(last) if are_same(last.bytes(), bytes) => match Arc::try_clone(last) {
                Ok(again) => Some(again),
                Err(_) => None,
            },
            Some(_) | None => None,
        }
    }

    /// Remembers these bytes in an entry, if there is memory.
    fn keep(&mut self, alloc: Global, place: usize, common: &Arc<Octets>) {
        if self.last.len() < PLACES {
            self.last = places(alloc);
        }
        if place < self.last.len() {
            if let Ok(again) = Arc::try_clone(common) {
                self.last[place] = Some(again);
            }
        }
    }
}

/// Whether both slices are equal.
fn are_same(one: &[u8], other: &[u8]) -> bool
    ensures { IsTrue result → one.now ≡ other.now }
{
    one == other
}

/// Creates entries that remember nothing. Returns an empty list if there is no memory for the entries.
fn places(alloc: Global) -> Vec<Option<Arc<Octets>>> {
    let mut places = Vec::new(alloc);
    if places.reserve(PLACES).is_ok() {
        for _place in 0..PLACES {
            if places.push(None).is_err() {
                break;
            }
        }
    }
    places
}
