ghost use Rattle.std.specs.Prelude.{◌≡◌, ℕ, ◌<◌, ◌≤◌, length, slice_index};
ghost use Rattle.nic_device.specs.State.{new_state};
ghost use Rattle.device_lock.specs.History.{leads_to, IsLegal, AreEvents, AllBelow};
ghost use Rattle.device_lock.specs.Kept.{entries_of};

use crate::entry::Entry;
use crate::locked::{Counts, Locked};
use crate::packed::Rested;
use nic_device::{Device, Notes};
use std::alloc::Global;
use std::marker::Model;

/// The data of a device that is no longer under a lock: the device, and the history of its calls, with a separate entry
/// for each call. An `Unlocked` can't be dropped, because the device can't.
pub struct Unlocked<const VFS: u8, const FIFO: u16> {
    pub(crate) device: Device,
    pub(crate) history: Vec<Entry>,
    pub(crate) counts: Counts,
    pub(crate) limit: u32,
    pub(crate) alloc: Global,
}

impl<const VFS: u8, const FIFO: u16> Model for Unlocked<VFS, FIFO> {
    ghost use Rattle.std.specs.Coded.{codes};
    ghost use Rattle.nic_device.specs.State.{state_code};
    ghost use Rattle.device_lock.specs.Kept.{Held, IsKept};

    ghost Value = { Held };

    ghost coded = { Prim.hlevel (codes, state_code) };

    ghost view = { λ l. record { device = l.device; history = l.history.items; limit = l.limit } };

    ghost invariant = { λ l. IsKept VFS FIFO
        (record { device = l.device; history = l.history.items; limit = l.limit }) l.counts };
}

impl<const VFS: u8, const FIFO: u16> Unlocked<VFS, FIFO> {
    /// Returns the calls so far, oldest first, at most as many as the limit. The history is legal from a new device and
    /// leads to the state of the device stored here. Its events are ones that a driver can cause, and its tags are
    /// below 64.
    pub fn history(&self) -> &[Entry]
        ensures entries { result.now ≡ self.now.history }
        ensures legal { IsLegal (new_state VFS FIFO) self.now.history }
        ensures leads { leads_to (new_state VFS FIFO) self.now.history ≡ self.now.device }
        ensures events { AreEvents self.now.history }
        ensures below { AllBelow 64 self.now.history }
        ensures within { length self.now.history ≤ self.now.limit }
    {
        self.history.as_slice()
    }

    /// Returns the number of entries with each tag below 64.
    pub(crate) fn counts(&self) -> &Counts
        ensures { (tag : ℕ) → tag < 64 → slice_index result.now tag ≡ entries_of tag self.now.history }
    {
        &self.counts
    }

    /// Converts the data to the form that is stored under a lock.
    pub(crate) fn lock(self) -> Locked<VFS, FIFO>
        ensures { result ≡ self.entry }
    {
        let Unlocked {
            device,
            history,
            counts,
            limit,
            alloc,
        } = self;
        Locked {
            device,
            count: history.len() as u32,
            whole: history,
            packed: Vec::new(alloc),
            rested: Rested::none(),
            counts,
            limit,
            spare: Vec::new(alloc),
            notes: Notes::new(alloc),
            alloc,
        }
    }

    /// Returns the device and drops the history.
    pub fn into_device(self) -> Device
        ensures { result ≡ self.entry.device }
    {
        let Unlocked {
            device,
            history: _,
            counts: _,
            limit: _,
            alloc: _,
        } = self;
        device
    }
}
