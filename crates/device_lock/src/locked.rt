ghost use Rattle.std.specs.Prelude.{◌≡◌, [], ℕ, ◌≤◌, ◌<◌, ◌↔◌, ◌⊎◌, true, false, Err, IfOk, OnOk, OnErr, length, slice_index, slice_set, replicate, ◌+◌, None};
ghost use Rattle.nic_device.specs.Answering.{may_answer, note_length};
ghost use Rattle.std.specs.Vec.{vec_len, vec_capacity};
ghost use Rattle.nic_device.specs.Resting.{IsIdle, Rests};
ghost use Rattle.nic_device.specs.Sound.{IsEvent};
ghost use Rattle.nic_device.specs.Step.{lent_block, step_of};
ghost use Rattle.nic_device.specs.declared.event.Reply.TheVariants.{Idle};
ghost use Rattle.device_lock.specs.Fault.{event_of};
ghost use Rattle.device_lock.specs.History.{AreEvents, AllBelow};
ghost use Rattle.device_lock.specs.Kept.{opened, after_call, entries_of, IsLed};
ghost use Rattle.device_lock.specs.Resting.{after_calls};
ghost use Rattle.device_lock.specs.Stepping.{steps_of_queue};

use crate::entry::Entry;
use crate::fault::CallFault;
use crate::noting::{note_of, ready};
use crate::packed::{Packed, Rested, has_room, hold_room, put_entry, unpacked};
use crate::resting::{IdleSteps, STEPS};
use crate::shared::MAX_PASSES;
use crate::unlocked::Unlocked;
use nic_device::{Config, Device, Event, EventNote, Notes, OutOfMemory, Reply, ReplyNote};
use std::alloc::{AllocError, Global};
use std::marker::Model;

/// The number of entries to make room for at first.
const FIRST_ROOM: usize = 65_536;

/// The number of entries with each tag that a pass can have.
pub(crate) type Counts = [u32; MAX_PASSES as usize];

/// The data under the lock: the device, and the history of its calls.
///
/// Whenever the lock is free, the following holds. The history is legal from a new device with `VFS` virtual functions
/// and a receive list of `FIFO` frames. The history leads to the state of the device under the lock. The history's tags
/// are below 64. A `Locked` can't be dropped, because the device can't.
///
/// Entries of idle device steps take no extra room in this form. When the device is no longer shared, the `Locked`
/// becomes an `Unlocked`, which stores a separate entry for each call.
pub struct Locked<const VFS: u8, const FIFO: u16> {
    pub(crate) device: Device,
    pub(crate) whole: Vec<Entry>,
    pub(crate) packed: Vec<Packed>,
    pub(crate) rested: Rested,
    pub(crate) count: u32,
    pub(crate) counts: Counts,
    pub(crate) limit: u32,
    pub(crate) spare: Vec<u8>,
    pub(crate) notes: Notes,
    pub(crate) alloc: Global,
}

impl<const VFS: u8, const FIFO: u16> Model for Locked<VFS, FIFO> {
    ghost use Rattle.std.specs.Coded.{codes};
    ghost use Rattle.nic_device.specs.State.{state_code};
    ghost use Rattle.std.specs.Vec.{vec_capacity};
    ghost use Rattle.device_lock.specs.Kept.{Held, IsKept};
    ghost use Rattle.device_lock.specs.Packed.{entries_in, HasRoom};

    ghost Value = { Held };

    ghost coded = { Prim.hlevel (codes, state_code) };

    ghost view = { λ l. record {
      device = l.device;
      history = entries_in l.whole.items l.packed.items l.rested;
      limit = l.limit;
    } };

    ghost invariant = { λ l. IsKept VFS FIFO (record {
      device = l.device;
      history = entries_in l.whole.items l.packed.items l.rested;
      limit = l.limit;
    }) l.counts
        × HasRoom (entries_in l.whole.items l.packed.items l.rested) l.count (vec_capacity l.whole) };
}

impl<const VFS: u8, const FIFO: u16> Locked<VFS, FIFO> {
    /// Creates a new device with an empty history of at most `limit` entries.
    pub fn new(alloc: Global, limit: u32) -> Result<Self, AllocError>
        requires device { (VFS ≤ 63) × (0 < FIFO) × (FIFO ≤ 4096) }
        requires limit { limit ≤ 1000000 }
        ensures { IfOk result (λ locked. locked ≡ opened VFS FIFO limit) }
    {
        let counts = no_entries();
        let packed = empty_history(alloc, limit);
        let config = Config {
            vfs: VFS,
            fifo: FIFO,
        };
        let Ok(device) = Device::new(alloc, config) else {
            return Err(AllocError);
        };
        Ok(Locked {
            device,
            whole: Vec::new(alloc),
            packed,
            rested: Rested::none(),
            count: 0,
            counts,
            limit,
            spare: Vec::new(alloc),
            notes: Notes::new(alloc),
            alloc,
        })
    }

    /// Returns the maximum number of entries in the history.
    pub fn limit(&self) -> u32
        ensures { result ≡ self.now.limit }
    {
        self.limit
    }

    /// Returns the number of entries with this tag, which is below 64.
    pub fn entries_of(&self, tag: u8) -> u32
        requires { tag < 64 }
        ensures { result ≡ entries_of tag self.now.history }
    {
        self.counts[usize::from(tag)]
    }

    /// Returns the device, read-only. The history leads to its state.
    pub(crate) fn device(&self) -> &Device
        ensures value { result.now ≡ self.now.device }
        ensures led { IsLed VFS FIFO self.now }
    {
        &self.device
    }

    /// Allocates what a pass needs for the next event, as `noting::ready` does. The pass's note and the history's note
    /// share a block's bytes if these are unchanged.
    pub(crate) fn ready<T>(
        &mut self,
        alloc: Global,
        calls: &mut Vec<T>,
        spare: &mut Vec<u8>,
        event: &Event,
    ) -> Result<EventNote, AllocError>
        ensures same { calls.new.items ≡ calls.old.items }
        ensures room { OnOk result (vec_len calls.new < vec_capacity calls.new) }
        ensures note { IfOk result (λ note. note ≡ event.now) }
        ensures empty { OnOk result (spare.new.items ≡ []) }
        ensures spare { OnOk result
            (note_length (step_of self.old.device event.now).reply ≤ vec_capacity spare.new) }
        ensures led { IsLed VFS FIFO self.old }
        ensures unchanged { self.new ≡ self.old }
    {
        ready(alloc, &self.device, calls, spare, &mut self.notes, event)
    }

    /// Returns the note of a reply for a pass's calls, as `noting::note_of` does.
    pub(crate) fn note_of(&mut self, alloc: Global, reply: &Reply, spare: &mut Vec<u8>) -> ReplyNote
        requires empty { spare.old.items ≡ [] }
        requires room { note_length reply.now ≤ vec_capacity spare.old }
        ensures note { result ≡ reply.now }
        ensures unchanged { self.new ≡ self.old }
    {
        note_of(alloc, reply, spare, &mut self.notes)
    }

    /// Applies one event for the pass with this tag, which is below 64, and appends its entry. Returns the device's
    /// reply.
    ///
    /// Fails with `HistoryFull` if and only if the history is at its limit. Any other error is `OutOfMemory`. Both
    /// errors return the event and change nothing.
    pub fn step(&mut self, alloc: Global, tag: u8, event: Event) -> Result<Reply, CallFault>
        requires { tag < 64 }
        ensures reply { IfOk result (λ reply. reply ≡ (step_of self.old.device event).reply) }
        ensures made { OnOk result (self.new ≡ after_call self.old tag event) }
        // The reply is a possible one for this event.
        ensures fits { IfOk result (λ reply. may_answer event reply ≡ true) }
        ensures full { (result ≡ Err (CallFault.HistoryFull event)) ↔ (length self.old.history ≡ self.old.limit) }
        ensures refused { OnErr result ((result ≡ Err (CallFault.HistoryFull event))
            ⊎ (result ≡ Err (CallFault.OutOfMemory event))) }
        ensures unchanged { OnErr result (self.new ≡ self.old) }
    {
        event.is_of_a_driver();
        if self.count >= self.limit {
            return Err(CallFault::HistoryFull(event));
        }
        if !hold_room(&mut self.whole, self.count + 1, self.limit) {
            return Err(CallFault::OutOfMemory(event));
        }
        let device = &self.device;
        let Ok(note) = ready(
            alloc,
            device,
            &mut self.packed,
            &mut self.spare,
            &mut self.notes,
            &event,
        ) else {
            return Err(CallFault::OutOfMemory(event));
        };
        match self.device.step(event) {
            Ok(reply) => {
                let reported = note_of(alloc, &reply, &mut self.spare, &mut self.notes);
                put_entry(&mut self.packed, &mut self.rested, tag, note, reported);
                self.count += 1;
                count_one(&mut self.counts, tag);
                Ok(reply)
            }
            Err(OutOfMemory(event)) => Err(CallFault::OutOfMemory(event)),
        }
    }

    /// Appends the entry of an idle device step for the pass with this tag, and returns whether it did. The entry is
    /// appended if the step comes after the steps recorded since the last call, the history has room for the entry, and
    /// there is memory.
    #[inline(always)]
    pub(crate) fn idle(&mut self, tag: u8, step: &EventNote) -> bool
        requires tag { tag < 64 }
        requires event { IsEvent step.now }
        requires idle { IsIdle self.old.device step.now }
        ensures made { result ≡ true → self.new ≡ after_call self.old tag step.now }
        ensures unchanged { result ≡ false → self.new ≡ self.old }
    {
        let Some(rested) = self.rested.and(tag, step) else {
            return false;
        };
        if self.limit <= self.count || !hold_room(&mut self.whole, self.count + 1, self.limit) {
            return false;
        }
        self.rested = rested;
        self.count += 1;
        count_one(&mut self.counts, tag);
        true
    }

    /// Runs a queue's device steps for the pass with this tag, which is below 64, and returns whether they ran. They
    /// run if the queue is at rest, the history has room for their entries, and there is memory. All of them are then
    /// idle. Otherwise none of them runs. Nor do they run if idle steps have already run since the last call.
    pub(crate) fn rest(&mut self, tag: u8, queue: u16) -> bool
        requires { tag < 64 }
        ensures led { IsLed VFS FIFO self.old }
        ensures idle { result ≡ true → Rests self.old.device queue }
        ensures made { result ≡ true → self.new ≡ after_calls self.old tag (steps_of_queue queue) }
        ensures unchanged { result ≡ false → self.new ≡ self.old }
    {
        if !self.rested.steps.is_none() || !self.device.is_at_rest(queue) {
            return false;
        }
        let Some(steps) = IdleSteps::all(queue) else {
            return false;
        };
        if !has_room(&mut self.whole, self.count, self.limit) {
            return false;
        }
        self.rested = Rested { pass: tag, steps };
        self.count += STEPS as u32;
        count_steps(&mut self.counts, tag);
        true
    }

    /// Converts the data to the form for a device that is no longer shared, with a separate entry for each event.
    pub fn unlock(self) -> Unlocked<VFS, FIFO>
        ensures { result ≡ self.entry }
    {
        let Locked {
            device,
            whole,
            packed,
            rested,
            count: _,
            counts,
            limit,
            spare: _,
            notes: _,
            alloc,
        } = self;
        Unlocked {
            device,
            history: unpacked(whole, packed, rested),
            counts,
            limit,
            alloc,
        }
    }
}

/// Creates an empty history of at most `limit` entries. If there is memory, reserves room for the first entries; the
/// vector then moves them less often as it grows.
fn empty_history(alloc: Global, limit: u32) -> Vec<Packed>
    ensures { result.items ≡ [] }
{
    let mut history = Vec::new(alloc);
    let _is_roomy = history.reserve(FIRST_ROOM.min(limit as usize)).is_ok();
    history
}

/// Returns a count of 0 for every tag.
fn no_entries() -> Counts
    ensures { result ≡ replicate 64 0 }
{
    [0; MAX_PASSES as usize]
}

/// Adds 1 to the number of entries with this tag.
fn count_one(counts: &mut Counts, tag: u8)
    requires tag { tag < 64 }
    requires few { slice_index counts.old tag < 1000000 }
    ensures { counts.new ≡ slice_set counts.old tag (slice_index counts.old tag + 1) }
{
    let at = usize::from(tag);
    let count = counts[at];
    counts[at] = count + 1;
}

/// Adds 4 to the number of entries with this tag: one entry for each of a queue's device steps.
fn count_steps(counts: &mut Counts, tag: u8)
    requires tag { tag < 64 }
    requires few { slice_index counts.old tag + 4 ≤ 1000000 }
    ensures { counts.new ≡ slice_set counts.old tag (slice_index counts.old tag + 4) }
{
    let at = usize::from(tag);
    let count = counts[at];
    counts[at] = count + STEPS as u32;
}
