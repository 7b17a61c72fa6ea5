//! Out-parameters through which C receives the pointers to a new card and to a snapshot.
//!
//! A struct with type parameters can't be passed to C, so each type has its own struct. Each such struct is empty and
//! owns nothing, or contains a pointer and owns what a box with its value owns. One proof covers all such structs
//! (`proofs/HandleForm.antt`).

ghost use Rattle.std.specs.Coded.{coded_option};
ghost use Rattle.std.specs.Prelude.{◌≡◌, Option, Some};
ghost use Rattle.card.specs.contracts.card.Card.{the_row as card_row};
ghost use Rattle.card.specs.contracts.kept.Kept.{the_row as kept_row};
ghost use Rattle.card.specs.declared.card.Card.{Card};
ghost use Rattle.card.specs.declared.kept.Kept.{Kept};
ghost use Rattle.nic82599_c.specs.Handle.{owns_some};

use crate::handle::Opaque;
use crate::parts::Parts;
use card::{Card, Kept};
use std::alloc::Global;
use std::marker::Model;

/// An out-parameter through which C receives a handle's pointer; it is initially empty. In C, it is a struct with one
/// pointer, or just the pointer. Storing a handle leaks the handle that was stored before, if any.
#[repr(C)]
#[derive(Drop)]
pub struct HandleOut {
    ptr: *mut Opaque,
    alloc: Global,
    pub ghost card: { Option Card } by { coded_option card_row.coded },
}

/// An out-parameter through which C receives the pointer of a snapshot's handle. It works like `HandleOut`.
#[repr(C)]
#[derive(Drop)]
pub struct KeptHandleOut {
    ptr: *mut Opaque,
    alloc: Global,
    pub ghost kept: { Option Kept } by { coded_option kept_row.coded },
}

impl Model for HandleOut {
    ghost also_owns = { λ out. owns_some card_row out.alloc out.ptr out.card };
}

impl Model for KeptHandleOut {
    ghost also_owns = { λ out. owns_some kept_row out.alloc out.ptr out.kept };
}

impl HandleOut {
    /// Creates an out-parameter that contains a handle to the card whose box has these parts.
    pub fn of(parts: Parts<Card, Global>) -> HandleOut
        ensures { result.card ≡ Some parts.value }
    {
        let Parts { ptr, alloc } = parts;
        HandleOut {
            ptr: ptr as *mut Opaque,
            alloc,
        }
    }
}

impl KeptHandleOut {
    /// Creates an out-parameter that contains a handle to the kept card whose box has these parts.
    pub fn of(parts: Parts<Kept, Global>) -> KeptHandleOut
        ensures { result.kept ≡ Some parts.value }
    {
        let Parts { ptr, alloc } = parts;
        KeptHandleOut {
            ptr: ptr as *mut Opaque,
            alloc,
        }
    }
}
