//! Whether nothing tried to enable a queue before its driver's start, according to the entries of a history.

ghost use Rattle.std.specs.Prelude.{◌≡◌, ◌↔◌, IsTrue};
ghost use Rattle.pmd.specs.Quiet.{NeverAskedOn};

use crate::before::reported_before;
use pmd_driver::{Entry, Watched};

/// Returns whether no entry tries to enable the watched queue before its driver's first event, in a history of a new
/// device. An entry tries to enable the queue if it writes a value with bit 25 set to the queue's RXDCTL or TXDCTL,
/// through any port and address. The driver's first event comes after `from` calls made by its pass and isn't a device
/// step. Returns true if there is no such event. This function allocates nothing.
pub fn never_asked_on(watched: Watched, from: usize, history: &[Entry]) -> bool
    ensures { IsTrue result ↔ NeverAskedOn watched from history.now }
{
    match reported_before(watched, from, history) {
        Some(reported) => !reported.asked,
        None => true,
    }
}
