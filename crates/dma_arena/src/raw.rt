//! A value in its own allocation, which is known only by its address.

ghost use Rattle.std.specs.Prelude.{◌≡◌};
ghost use Rattle.std.specs.Borrow.{sem};
ghost use Rattle.std_alloc.specs.Box.Ownership.{box_owns};
ghost use denote.Struct.Lending.{lent_at};

use std::alloc::Allocator;
use std::marker::{Model, Send, Sync};

/// The address of an allocation that contains a value. A `Raw` owns the allocation and the value.
pub(crate) struct Raw<T, A: Allocator> {
    at: *mut T,
    alloc: A,
    pub(crate) ghost value: { T },
}

impl<T, A: Allocator> Model for Raw<T, A> {
    ghost also_owns = { λ r. box_owns (A.dealloc_token r.alloc) T.row r.at r.value };

    ghost also_shares = { λ r _ κ. lent_at T.row r.at r.value κ };
}

impl<T: Drop, A: Allocator> Raw<T, A> {
    /// Takes over a box's allocation with its value, without copying.
    pub(crate) fn of(value: Box<T, A>) -> Raw<T, A>
        ensures { result.value ≡ value.value }
    {
        let (at, alloc) = Box::into_raw_with_allocator(value);
        Raw { at, alloc }
    }

    /// Drops the value and frees its allocation.
    pub(crate) fn free(self) {
        drop(self.into_box());
    }

    /// Returns the value in a box; dropping the box frees the memory.
    pub(crate) fn into_box(self) -> Box<T, A>
        ensures { result.value ≡ self.value }
    {
        let Raw { at, alloc } = self;
        unsafe { Box::from_raw(alloc, at) }
    }
}

impl<T, A: Allocator> Raw<T, A> {
    ghost use Rattle.dma_arena.specs.Raw.{Follows};

    /// Borrows the value, without copying.
    pub(crate) fn get(&self) -> &T
        ensures { result.now ≡ self.now.value }
    {
        unsafe { &*self.at }
    }

    /// Borrows the value mutably.
    pub(crate) fn get_mut(&mut self) -> &mut T
        ensures* follows { sem 𝓛 (Follows T.row A.row A.Allocator self.entry result) }
        ensures value { result.now ≡ self.old.value }
    {
        unsafe { &mut *self.at }
    }
}

unsafe impl<T: Send, A: Allocator + Send> Send for Raw<T, A> {}

unsafe impl<T: Sync, A: Allocator + Sync> Sync for Raw<T, A> {}
