//! The calls made to a device in hand, as a history of the device.

ghost use Rattle.std.specs.Prelude.{◌≡◌, IfOk, IfErr, if◌then◌else◌};
ghost use Rattle.pmd_access.specs.Begun.{entries_in, entry_by, marked_entries, tag_of};

use device_lock::{Call, Entry};
use std::alloc::Global;

/// The tag that own calls get in the history; foreign calls get the next tag.
const OWN: u8 = 0;

const FOREIGN: u8 = 1;

/// Returns the history entry for a call made by the pass with this tag.
fn entry_by(pass: u8, call: Call) -> Entry
    ensures { result ≡ entry_by pass call }
{
    let Call { event, reply } = call;
    Entry { pass, event, reply }
}

/// Turns the calls made through a `Direct` into a history in which each call belongs to pass 0. If there is no memory
/// for the history, returns the calls.
pub fn history_of(alloc: Global, calls: Vec<Call>) -> Result<Vec<Entry>, Vec<Call>>
    ensures entries { IfOk result (λ history. history.items ≡ entries_in calls.items) }
    ensures back { IfErr result (λ back. back.items ≡ calls.items) }
{
    let Ok(mut history) = Vec::with_capacity(alloc, calls.len()) else {
        return Err(calls);
    };
    for call in calls {
        history.push_reserved(entry_by(OWN, call));
    }
    Ok(history)
}

/// Turns the calls made through an `Interleaved` into a history. Calls marked as own belong to pass 0, and foreign
/// calls to pass 1. The history ends at the last mark. If there is no memory for the history, returns the calls.
pub fn marked_history(
    alloc: Global,
    calls: Vec<Call>,
    own: &[bool],
) -> Result<Vec<Entry>, Vec<Call>>
    ensures entries { IfOk result (λ history. history.items ≡ marked_entries calls.items own.now) }
    ensures back { IfErr result (λ back. back.items ≡ calls.items) }
{
    let Ok(mut history) = Vec::with_capacity(alloc, calls.len()) else {
        return Err(calls);
    };
    let mut marks = own;
    for call in calls {
        let Some((is_own, others)) = marks.split_first() else {
            break;
        };
        history.push_reserved(entry_by(if *is_own { OWN } else { FOREIGN }, call));
        marks = others;
    }
    Ok(history)
}
