ghost use Rattle.std.specs.Prelude.{◌≡◌, ◌+◌, ◌<◌, ◌≤◌, ◌^◌, if◌then◌else◌, [], ◌++◌, length, replicate, vec_capacity, Some, None, IsTrue, IfOk, OnOk, OnErr};
ghost use Rattle.dma_arena.specs.Memory.{is_lent, read_at};

use dma_arena::{LentMemory, Octets};
use std::alloc::{AllocError, Global};
use std::marker::Model;
use std::mem;

/// The bytes of a packet that a queue has fetched so far. Contracts view them as a list.
#[derive(Debug, Drop)]
pub struct Staged {
    bytes: Vec<u8>,
}

impl Model for Staged {
    ghost use Rattle.std.specs.Prelude.{List, ℕ};

    ghost Value = { List ℕ };

    ghost view = { λ s. s.bytes.items };
}

impl Staged {
    /// Returns an empty `Staged`, with which every queue starts. The call allocates nothing.
    pub fn new(alloc: Global) -> Staged
        ensures { result ≡ [] }
    {
        Staged {
            bytes: Vec::new(alloc),
        }
    }

    /// Returns a copy of the staged bytes, or `AllocError` if there isn't enough memory for the copy.
    pub fn copy(&self, alloc: Global) -> Result<Staged, AllocError>
        ensures { IfOk result (λ staged. staged ≡ self.now) }
    {
        let bytes = Vec::from_slice(alloc, &self.bytes)?;
        Ok(Staged { bytes })
    }

    /// Returns the bytes, in order.
    pub fn bytes(&self) -> &[u8]
        ensures { result.now ≡ self.now }
    {
        &self.bytes
    }

    /// Drops all staged bytes.
    pub fn clear(&mut self)
        ensures { self.new ≡ [] }
    {
        self.bytes.clear();
    }

    /// Moves all staged bytes out, and leaves no bytes staged.
    fn take(&mut self, alloc: Global) -> Octets
        ensures taken { result ≡ self.old }
        ensures left { self.new ≡ [] }
    {
        Octets::of(mem::replace(&mut self.bytes, Vec::new(alloc)))
    }

    /// If `end` is set, moves all staged bytes out as a frame, and leaves no bytes staged.
    pub(crate) fn frame(&mut self, alloc: Global, end: bool) -> Option<Octets>
        ensures frame { result ≡ (if end then Some self.old else None) }
        ensures left { self.new ≡ (if end then [] else self.old) }
    {
        if end { Some(self.take(alloc)) } else { None }
    }

    /// Stages `len` bytes starting at a bus address, then `zeros` zero bytes. If there isn't enough memory for them,
    /// the staged bytes are unchanged.
    pub(crate) fn stage(
        &mut self,
        memory: &LentMemory,
        address: u64,
        len: usize,
        zeros: usize,
    ) -> Result<(), AllocError>
        requires lent { IsTrue (is_lent memory.now address len) }
        requires fits { length self.old + len + zeros < 2 ^ 64 }
        ensures staged { OnOk result (self.new ≡ (self.old ++ read_at memory.now address len) ++ replicate zeros 0) }
        ensures kept { OnErr result (self.new ≡ self.old) }
        ensures full { OnErr result (0 < len + zeros) }
    {
        self.bytes.reserve(len + zeros)?;
        memory.append_to(address, len, &mut self.bytes);
        add_zeros(&mut self.bytes, zeros);
        Ok(())
    }
}

/// Appends zeros to a vector that has room for them.
fn add_zeros(bytes: &mut Vec<u8>, zeros: usize)
    requires room { length bytes.old.items + zeros ≤ vec_capacity bytes.old }
    ensures { bytes.new.items ≡ bytes.old.items ++ replicate zeros 0 }
{
    let all = bytes.as_slice().len() + zeros;
    match bytes.resize(all, 0) {
        Ok(()) => {}
        Err(_) => unreachable!(),
    }
}
