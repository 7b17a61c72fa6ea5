//! C's handles to a card and to a snapshot: pointers that C never dereferences.
//!
//! A struct with type parameters can't be passed to C, so each type has its own struct. Each such struct owns what a
//! box with its value owns. One proof covers all such structs (`proofs/HandleForm.antt`).

ghost use Rattle.std.specs.Prelude.{◌≡◌};
ghost use Rattle.card.specs.contracts.card.Card.{the_row as card_row};
ghost use Rattle.card.specs.contracts.kept.Kept.{the_row as kept_row};
ghost use Rattle.card.specs.declared.card.Card.{Card};
ghost use Rattle.card.specs.declared.kept.Kept.{Kept};
ghost use Rattle.nic82599_c.specs.Handle.{owns_box};

use crate::parts::Parts;
use card::{Card, Kept};
use std::alloc::Global;
use std::marker::Model;

/// The opaque type that a handle's pointer points to, as C sees it.
#[repr(C)]
pub struct Opaque {
    byte: u8,
}

/// A handle to a card on the heap. In C, the handle is a struct with one pointer.
#[repr(C)]
pub struct Handle {
    ptr: *mut Opaque,
    alloc: Global,
    pub ghost card: { Card } by { card_row.coded },
}

/// A handle to a kept card on the heap. In C, the handle is a struct with one pointer.
#[repr(C)]
pub struct KeptHandle {
    ptr: *mut Opaque,
    alloc: Global,
    pub ghost kept: { Kept } by { kept_row.coded },
}

impl Model for Handle {
    ghost also_owns = { λ h. owns_box card_row h.alloc h.ptr h.card };
}

impl Model for KeptHandle {
    ghost also_owns = { λ h. owns_box kept_row h.alloc h.ptr h.kept };
}

impl Handle {
    ghost use Rattle.nic82599_c.specs.Lends.{lends};
    ghost use Rattle.nic82599_c.specs.contracts.handle.Handle.{the_row as handle_row};
    ghost use types.Logic.{sem};

    /// Returns the parts of the box that the handle was created from.
    pub fn into_parts(self) -> Parts<Card, Global>
        ensures { result.value ≡ self.card }
    {
        let Handle { ptr, alloc } = self;
        Parts {
            ptr: ptr as *mut Card,
            alloc,
        }
    }

    /// Borrows the card. When the borrow ends, the handle contains the card that was last written through the borrow.
    pub fn get_mut(&mut self) -> &mut Card
        ensures* writes_back { sem 𝓛 (lends handle_row card_row (λ h w. record h { card = w }) self.entry result) }
        ensures value { result.now ≡ self.old.card }
    {
        unsafe { &mut *(self.ptr as *mut Card) }
    }
}

impl KeptHandle {
    ghost use Rattle.nic82599_c.specs.Lends.{lends};
    ghost use Rattle.nic82599_c.specs.contracts.handle.KeptHandle.{the_row as handle_row};
    ghost use types.Logic.{sem};

    /// Returns the parts of the box that the handle was created from.
    pub fn into_parts(self) -> Parts<Kept, Global>
        ensures { result.value ≡ self.kept }
    {
        let KeptHandle { ptr, alloc } = self;
        Parts {
            ptr: ptr as *mut Kept,
            alloc,
        }
    }

    /// Borrows the kept card. When the borrow ends, the handle contains the kept card that was last written through the
    /// borrow.
    pub fn get_mut(&mut self) -> &mut Kept
        ensures* writes_back { sem 𝓛 (lends handle_row kept_row (λ h w. record h { kept = w }) self.entry result) }
        ensures value { result.now ≡ self.old.kept }
    {
        unsafe { &mut *(self.ptr as *mut Kept) }
    }
}

impl Drop for Handle {
    fn drop(self) {
        drop(self.into_parts().into_box());
    }
}

impl Drop for KeptHandle {
    fn drop(self) {
        drop(self.into_parts().into_box());
    }
}
