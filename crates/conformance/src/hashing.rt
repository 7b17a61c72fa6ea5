//! `rss_hash`: the classification of frames, their hashed bytes, and the redirection table's entry for a hash.

use crate::call::Call;
use crate::texts::hex_in;
use rss_hash::{QueueMode, choose, classify, entry};
use std::alloc::{AllocError, Global};
use text_format::BytesText;

/// Returns the printed result of a call.
pub fn answer(alloc: Global, call: Call<'_>) -> Result<String, AllocError> {
    match call.name {
        "flow" | "input" => frame_text(alloc, call, call.word(0)),
        "choose" => frame_text(alloc, call, call.word(1)),
        "mode" => {
            let mode = QueueMode::of(call.number(0));
            format!(in alloc; "{mode:?} {}", mode.is_hashing())
        }
        "entry" => format!(in alloc; "{}", entry(&table_in(call), call.number(0))),
        _ => format!(in alloc; "no such call"),
    }
}

/// For `flow`, the IP version of a frame, its protocol with ports, and the number of bytes that can be hashed. For
/// `input`, these bytes. For `choose`, the RSS type that an MRQC value selects, and the number of bytes that are
/// hashed.
fn frame_text(alloc: Global, call: Call<'_>, frame: &str) -> Result<String, AllocError> {
    let frame = hex_in(alloc, frame)?;
    let flow = classify(frame.as_slice());
    let bytes = flow.input.as_slice();
    match call.name {
        "flow" => {
            let tcp = if flow.tcp { " tcp" } else { "" };
            let udp = if flow.udp { " udp" } else { "" };
            format!(in alloc; "{}{tcp}{udp} {}", flow.version, bytes.len())
        }
        "input" => format!(in alloc; "{}", BytesText(bytes)),
        _ => {
            let (rss_type, input) = choose(call.number(0), &flow);
            format!(in alloc; "{rss_type} {}", input.as_slice().len())
        }
    }
}

/// Returns the redirection table that repeats the words 1 to 4.
fn table_in(call: Call<'_>) -> [u32; 32] {
    let words = [
        call.number(1),
        call.number(2),
        call.number(3),
        call.number(4),
    ];
    let mut table = [0; 32];
    for i in 0..32 {
        table[i] = words[i % 4];
    }
    table
}
