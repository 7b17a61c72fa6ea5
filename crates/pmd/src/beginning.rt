//! Whether a driver begins well according to the entries of a history: when the driver starts, its port and queue
//! number identify its queue, and the device's frame limit matches the frame length that the driver was given.

ghost use Rattle.std.specs.Prelude.{◌≡◌, ◌↔◌, true, IsTrue};
ghost use Rattle.pmd.specs.Beginning.{BeginsWell, begins, is_queue};
ghost use Rattle.pmd.specs.Queues.{queue_at};

use crate::before::reported_before;
use pmd_driver::{Entry, Mode, Port, QUEUES, Settings, Watched, queues_of};

/// The size in bytes of the frame check sequence.
pub(crate) const FRAME_CHECK: u16 = 4;

/// What a driver is given when it starts: its port, its queue's number at that port, and the maximum frame length.
#[derive(Clone, Copy, PartialEq, Eq, Debug)]
pub struct Given {
    /// The port of the queue.
    pub port: Port,
    /// The queue's number at that port.
    pub queue: u16,
    /// The maximum length of a frame in bytes, including its check sequence: 1,518 to 9,728.
    pub frame: u16,
}

/// Returns the device queue, below 128, that a queue number at a port identifies, in this pool mode and with `vfs`
/// virtual functions. Returns `None` if there is no such queue. The physical function's queue numbers are the device's;
/// a virtual function's queue numbers count from the first queue in its pool.
pub fn queue_at(mode: Mode, vfs: u8, port: Port, number: u16) -> Option<u16>
    ensures { result ≡ queue_at mode vfs port number }
{
    match port {
        Port::Pf if number < QUEUES => Some(number),
        Port::Pf => None,
        Port::Vf(v) if v < vfs => match queues_of(mode, v) {
            Some((first, count)) if number < u16::from(count) => Some(u16::from(first) + number),
            _ => None,
        },
        Port::Vf(_) => None,
    }
}

/// Returns whether a driver begins well with these settings.
fn begins(watched: Watched, settings: Settings, given: Given) -> bool
    ensures { result ≡ begins watched settings given }
{
    match queue_at(settings.mode, watched.vfs, given.port, given.queue) {
        Some(queue) => {
            queue == watched.queue
                && settings.frames.limit() == given.frame.saturating_sub(FRAME_CHECK)
        }
        None => false,
    }
}

/// Returns whether a driver begins well in a history of a new device. Two conditions must hold just before the driver's
/// first event. Its port and queue number must identify the watched queue, and the device's frame limit must be
/// `given.frame` less the 4 bytes of the check sequence. The driver's first event comes after `from` calls made by its
/// pass and isn't a device step. Returns true if there is no such event. This function allocates nothing.
pub fn begins_well(watched: Watched, from: usize, given: Given, history: &[Entry]) -> bool
    ensures { IsTrue result ↔ BeginsWell watched from given history.now }
{
    match reported_before(watched, from, history) {
        Some(reported) => begins(watched, reported.settings, given),
        None => true,
    }
}
