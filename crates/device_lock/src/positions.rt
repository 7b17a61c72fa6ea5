ghost use Rattle.std.specs.Prelude.{◌≡◌, IfOk};
ghost use Rattle.device_lock.specs.Positions.{positions_of};

use crate::entry::Entry;
use std::alloc::{AllocError, Global};

/// Returns the positions, in the history, of the entries with this tag. The history's first entry is at position 0.
pub(crate) fn positions(alloc: Global, history: &[Entry], tag: u8) -> Result<Vec<usize>, AllocError>
    ensures { IfOk result (λ places. places.items ≡ positions_of tag history.now) }
{
    let mut places = Vec::new(alloc);
    for at in 0..history.len() {
        if history[at].pass == tag {
            places.push(at)?;
        }
    }
    Ok(places)
}
