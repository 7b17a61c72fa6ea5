//! What the entries of a history report up to a driver's first entry.

ghost use Rattle.std.specs.Prelude.{◌≡◌};
ghost use Rattle.pmd_driver.specs.PmdAccess.Events.{is_step};
ghost use Rattle.pmd.specs.Before.{first_reported, is_first, still_left, reported_after, reported_before};
ghost use Rattle.pmd.specs.Quiet.{asks_on, is_enable};

use pmd_driver::{Entry, Event, EventNote, Mode, Place, RowId, Settings, Watched, place_at};
use reg_table::{Rxdctl, has_flag};

/// What the entries before a point report: the settings, and whether one of them tried to enable the watched queue.
#[derive(Clone, Copy, PartialEq, Eq, Debug)]
pub(crate) struct Reported {
    /// The device's settings after these entries.
    pub settings: Settings,
    /// Whether one of them tried to enable the watched queue.
    pub asked: bool,
}

/// Returns whether a place is the enable register of one of the queue's sides.
fn is_enable(queue: u16, place: Option<Place>) -> bool
    ensures { result ≡ is_enable queue place }
{
    match place {
        Some(place) => match place.row {
            RowId::Rxdctl | RowId::Txdctl => place.index == queue,
            _ => false,
        },
        None => false,
    }
}

/// Returns whether an event tries to enable the watched queue when the device is in this mode. The enable bit is the
/// same for receive and transmit.
fn asks_on(watched: Watched, mode: Mode, event: &EventNote) -> bool
    ensures { result ≡ asks_on watched mode event.now }
{
    match event {
        Event::Write(port, number, word) => {
            is_enable(watched.queue, place_at(mode, watched.vfs, *port, *number))
                && has_flag(*word, Rxdctl::ENABLE)
        }
        _ => false,
    }
}

impl Reported {
    /// Returns the report for a new device.
    fn new() -> Reported
        ensures { result ≡ first_reported }
    {
        Reported {
            settings: Settings::new(),
            asked: false,
        }
    }

    /// Returns the report after one more event.
    fn after(self, watched: Watched, event: &EventNote) -> Reported
        ensures { result ≡ reported_after watched self event.now }
    {
        let asks = asks_on(watched, self.settings.mode, event);
        Reported {
            settings: self.settings.after(watched.vfs, event),
            asked: self.asked || asks,
        }
    }
}

/// Returns whether an event is a device step.
fn is_step(event: &EventNote) -> bool
    ensures { result ≡ is_step event.now }
{
    matches!(
        event,
        Event::RxStep
            | Event::TxStep(_)
            | Event::IntStep(_)
            | Event::QueueStep(..)
            | Event::EepromStep
    )
}

/// Returns whether an entry is the driver's first entry. `left` calls made by the driver's pass must still come before
/// the driver's first entry.
pub(crate) fn is_first(watched: Watched, left: usize, entry: &Entry) -> bool
    ensures { result ≡ is_first watched left entry.now }
{
    entry.pass == watched.pass && left == 0 && !is_step(&entry.event)
}

/// Returns how many calls made by the driver's pass must still come, after this entry, before the driver's first entry.
pub(crate) fn still_left(watched: Watched, left: usize, entry: &Entry) -> usize
    ensures { result ≡ still_left watched left entry.now }
{
    if entry.pass == watched.pass {
        left.saturating_sub(1)
    } else {
        left
    }
}

/// Returns the report just before the driver's first entry, or `None` if there is no such entry. The driver's first
/// entry comes after `from` calls made by its pass and isn't a device step. This function allocates nothing.
pub(crate) fn reported_before(watched: Watched, from: usize, history: &[Entry]) -> Option<Reported>
    ensures { result ≡ reported_before watched first_reported from history.now }
{
    let mut reported = Reported::new();
    let mut left = from;
    for entry in history {
        if is_first(watched, left, entry) {
            return Some(reported);
        }
        reported = reported.after(watched, &entry.event);
        left = still_left(watched, left, entry);
    }
    None
}
