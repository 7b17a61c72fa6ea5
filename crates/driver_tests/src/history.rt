//! The calls on an owned device as a history. A driver of queue 0 made some of these calls, and other programs made the
//! others.

use crate::outcome::{Hand, done, push, some};
use device_lock::{Call, Entry, Watched, left_alone};
use nic_device::Device;
use pmd::Direct;

/// The pass of the driver.
pub const DRIVER: u8 = 0;

/// The pass of all other programs.
pub const OTHERS: u8 = 1;

/// Appends a call to a history.
fn add_call(rt: &impl Hand, history: &mut Vec<Entry>, pass: u8, call: Call) {
    let Call { event, reply } = call;
    push(rt, history, Entry { pass, event, reply });
}

/// Appends calls of one pass to a history.
pub fn add_calls(rt: &impl Hand, history: &mut Vec<Entry>, pass: u8, calls: Vec<Call>) {
    for call in calls {
        add_call(rt, history, pass, call);
    }
}

/// Appends entries to a history.
pub fn add_entries(rt: &impl Hand, history: &mut Vec<Entry>, entries: Vec<Entry>) {
    for entry in entries {
        push(rt, history, entry);
    }
}

/// Finishes a `Direct` on which one pass made all calls, and appends these calls to a history.
pub fn finished(rt: &impl Hand, history: &mut Vec<Entry>, pass: u8, direct: Direct) -> Device {
    let (device, calls) = direct.finish();
    add_calls(rt, history, pass, done(rt, calls.into_vec(rt.alloc())));
    device
}

/// Appends calls to a history. The driver made the marked calls, and other programs made the others.
pub fn add_marked(rt: &impl Hand, history: &mut Vec<Entry>, marks: &[bool], calls: Vec<Call>) {
    let mut number: usize = 0;
    for call in calls {
        let is_own = *some(rt, marks.get(number));
        let pass = if is_own { DRIVER } else { OTHERS };
        add_call(rt, history, pass, call);
        number = number.saturating_add(1);
    }
}

/// Whether a history that begins with a new device leaves the driver's queue alone.
pub fn is_left_alone(history: &[Entry]) -> bool {
    let watched = Watched {
        vfs: 1,
        pass: DRIVER,
        queue: 0,
    };
    left_alone(watched, history)
}
