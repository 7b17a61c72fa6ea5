//! `reg_table`: rows, places of addresses, and counters.
//!
//! `row NAME` prints the count, the first addresses of the first and the last index, the mask, the reset value and the
//! kind. `place ADDRESS` prints the name, the index and the place's first address, or `none`, and then the visible
//! bits.

use crate::call::Call;
use reg_table::{
    Place, RowId, addr_of, bump, count_of, kind_of, mask_of, name_of, place_of, reset_of,
    row_named, view_of,
};
use std::alloc::{AllocError, Global};

/// Returns the printed result of a call.
pub fn answer(alloc: Global, call: Call<'_>) -> Result<String, AllocError> {
    match call.name {
        "row" => match row_named(call.text) {
            Some(row) => row_text(alloc, row),
            None => format!(in alloc; "none"),
        },
        "place" => place_text(alloc, call.number(0)),
        "bump" => format!(in alloc; "{:#x}", bump(call.number(0))),
        _ => format!(in alloc; "no such call"),
    }
}

/// Returns the first address of a row at an index, or 0xFFFF_FFFF if the index isn't below the row's count.
fn address(row: RowId, index: u16) -> u32 {
    if index < count_of(row) {
        addr_of(Place { row, index })
    } else {
        0xFFFF_FFFF
    }
}

fn row_text(alloc: Global, row: RowId) -> Result<String, AllocError> {
    let count = count_of(row);
    let first = address(row, 0);
    let last = address(row, count.saturating_sub(1));
    let mask = mask_of(row);
    let reset = reset_of(row);
    format!(in alloc;
        "{} {count} {first:#07x} {last:#07x} {mask:#010x} {reset:#010x} {:?}",
        name_of(row),
        kind_of(row)
    )
}

fn place_text(alloc: Global, at: u32) -> Result<String, AllocError> {
    let view = view_of(at);
    match place_of(at) {
        Some(Place { row, index }) => {
            let first = address(row, index);
            format!(in alloc; "{} {index} {first:#07x} {view:#x}", name_of(row))
        }
        None => format!(in alloc; "none {view:#x}"),
    }
}
