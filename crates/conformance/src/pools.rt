//! `vf_map`: the mode that a GCR_EXT value selects, the queues of a pool, and the offsets of virtual functions.

use crate::call::Call;
use std::alloc::{AllocError, Global};
use vf_map::{Mapped, map, mode_of, queues_of};

/// Returns the printed result of a call. The first word is a value of GCR_EXT.
pub fn answer(alloc: Global, call: Call<'_>) -> Result<String, AllocError> {
    let mode = mode_of(call.number(0));
    match call.name {
        "mode" => format!(in alloc; "{mode:?}"),
        "queues" => format!(in alloc; "{:?}", queues_of(mode, call.byte(1))),
        "map" => match map(mode, call.byte(1), call.byte(2), call.number(3)) {
            Mapped::Pf(address) => format!(in alloc; "{address:#07x}"),
            Mapped::Hole => format!(in alloc; "hole"),
            Mapped::Absent => format!(in alloc; "absent"),
        },
        _ => format!(in alloc; "no such call"),
    }
}
