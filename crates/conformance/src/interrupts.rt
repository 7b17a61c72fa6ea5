//! `intr_unit`: interrupt groups, written as the number of the virtual function or as `pf`.

use crate::call::Call;
use intr_unit::Group;
use std::alloc::{AllocError, Global};

/// Returns the printed result of a call. The first word is a group.
pub fn answer(alloc: Global, call: Call<'_>) -> Result<String, AllocError> {
    let group = if call.word(0) == "pf" {
        Group::Pf
    } else {
        Group::Vf(call.byte(0))
    };
    match call.name {
        "bits" => format!(in alloc; "{:#x}", group.bits()),
        "vector" => format!(in alloc; "{:?}", group.vector_of(call.byte(1), call.number(2))),
        "causes" => format!(in alloc; "{:#x}", group.queue_causes(call.byte(1))),
        _ => format!(in alloc; "no such call"),
    }
}
