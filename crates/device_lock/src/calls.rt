//! The calls made to a device that is in hand or under a lock.

ghost use Rattle.std.specs.Prelude.{◌≡◌, ◌≢◌, ◌<◌, ◌++◌, ◌∷◌, ◌*◌, ◌+◌, ◌≤◌, [], true, false, None, Err, IfOk, IfErr, OnOk, OnErr, length};
ghost use Rattle.std.specs.Vec.{vec_len, vec_capacity};
ghost use Rattle.nic_device.specs.Answering.{may_answer};
ghost use Rattle.nic_device.specs.Resting.{IsIdle, Rests};
ghost use Rattle.nic_device.specs.Step.{lent_block, step_of};
ghost use Rattle.nic_device.specs.declared.event.Reply.TheVariants.{Idle};
ghost use Rattle.device_lock.specs.Calls.{calls_in, rested_calls};
ghost use Rattle.device_lock.specs.Fault.{event_of};
ghost use Rattle.device_lock.specs.Kept.{after_call, IsLed};
ghost use Rattle.device_lock.specs.Pass.{call_of};
ghost use Rattle.device_lock.specs.Resting.{after_calls, idle_calls};
ghost use Rattle.device_lock.specs.Stepping.{steps_of_queue};

use crate::entry::Call;
use crate::fault::CallFault;
use crate::locked::Locked;
use crate::noting::{note_of, ready};
use crate::resting::{IdleSteps, STEPS, keep_idle};
use nic_device::{Device, Event, EventNote, Notes, OutOfMemory, Reply, ReplyNote};
use std::alloc::Global;
use std::marker::Model;

/// The number of calls to make room for at first.
const FIRST_ROOM: usize = 65_536;

/// A call, and the idle device steps before it.
#[derive(Debug, Drop)]
pub struct Made {
    /// The idle device steps that ran before the call.
    pub rested: IdleSteps,
    /// The call that followed them.
    pub call: Call,
}

/// The calls made to a device, with their replies, oldest first. A queue's idle device steps take no extra room.
#[derive(Debug, Drop)]
pub struct Calls {
    made: Vec<Made>,
    rested: IdleSteps,
    spare: Vec<u8>,
    notes: Notes,
}

impl Model for Calls {
    ghost use Rattle.std.specs.Prelude.{List};
    ghost use Rattle.device_lock.specs.Calls.{calls_in};
    ghost use Rattle.device_lock.specs.declared.entry.Call.{Call};

    ghost Value = { List Call };

    ghost view = { λ c. calls_in c.made.items c.rested };
}

impl Calls {
    /// Creates an empty list. It allocates nothing.
    pub fn new(alloc: Global) -> Calls
        ensures { result ≡ [] }
    {
        Calls {
            made: Vec::new(alloc),
            rested: IdleSteps::none(),
            spare: Vec::new(alloc),
            notes: Notes::new(alloc),
        }
    }

    /// Returns the calls as stored: each call with the idle device steps before it, and separately the idle steps after
    /// the last call.
    pub fn kept(&self) -> (&[Made], IdleSteps)
        ensures { calls_in result.0.now result.1 ≡ self.now }
    {
        (self.made.as_slice(), self.rested)
    }

    /// Runs a queue's device steps, but only if the queue is at rest. Each step is then idle and leaves the device
    /// unchanged. Returns whether the steps ran; if they did, records their calls. Even if the queue is at rest, the
    /// function may run no step; no clause states when. It allocates nothing.
    pub fn rest(&mut self, device: &Device, queue: u16) -> bool
        ensures made { result ≡ true → self.new ≡ self.old ++ idle_calls (steps_of_queue queue) }
        ensures idle { result ≡ true → Rests device.now queue }
        ensures unchanged { result ≡ false → self.new ≡ self.old }
    {
        match IdleSteps::all(queue) {
            Some(steps) if self.rested.is_none() && device.is_at_rest(queue) => {
                self.rested = steps;
                true
            }
            _ => false,
        }
    }

    /// Runs a device step only if the step is idle, and records its call among the idle steps since the last call.
    /// Returns whether the step ran. If the step isn't idle, the function does nothing. It may also do nothing for an
    /// idle step; no clause states when. It allocates nothing.
    #[inline(always)]
    pub fn idle(&mut self, device: &Device, step: &Event) -> bool
        ensures made { result ≡ true → self.new ≡ self.old ++ call_of step.now Idle ∷ [] }
        ensures idle { result ≡ true → IsIdle device.now step.now }
        ensures unchanged { result ≡ false → self.new ≡ self.old }
    {
        let Some(note) = device.idle_note(step) else {
            return false;
        };
        match self.rested.and(&note) {
            Some(more) => {
                self.rested = more;
                true
            }
            None => false,
        }
    }

    /// Applies one event to a device and records the call. Returns the device's reply.
    ///
    /// Fails with `OutOfMemory` if there is no memory for the event or its note. The error returns the event; the
    /// device and the calls are unchanged.
    pub fn make(
        &mut self,
        alloc: Global,
        device: &mut Device,
        event: Event,
    ) -> Result<Reply, OutOfMemory<Event>>
        ensures device { OnOk result (device.new ≡ (step_of device.old event).state) }
        ensures calls { OnOk result (self.new ≡ self.old ++ call_of event (step_of device.old event).reply ∷ []) }
        ensures reply { IfOk result (λ reply. reply ≡ (step_of device.old event).reply) }
        // The reply is a possible one for this event.
        ensures fits { IfOk result (λ reply. may_answer event reply ≡ true) }
        ensures back { IfErr result (λ refused. refused.0 ≡ event) }
        ensures unchanged { OnErr result ((device.new ≡ device.old) × (self.new ≡ self.old)) }
    {
        make_room(&mut self.made);
        let Ok(note) = ready(
            alloc,
            device,
            &mut self.made,
            &mut self.spare,
            &mut self.notes,
            &event,
        ) else {
            return Err(OutOfMemory(event));
        };
        let reply = device.step(event)?;
        let reported = note_of(alloc, &reply, &mut self.spare, &mut self.notes);
        put_call(&mut self.made, &mut self.rested, note, reported);
        Ok(reply)
    }

    /// Runs a queue's device steps under the lock, for the pass with this tag, and returns whether they ran. They run
    /// if the queue is at rest, the history has room for their entries, and there is memory. All of them are then idle.
    /// Otherwise none of them runs. Nor do they run if idle steps have already run since the last call.
    pub(crate) fn rest_locked<const VFS: u8, const FIFO: u16>(
        &mut self,
        locked: &mut Locked<VFS, FIFO>,
        tag: u8,
        queue: u16,
    ) -> bool
        requires { tag < 64 }
        ensures led { result ≡ true → IsLed VFS FIFO locked.old }
        ensures idle { result ≡ true → Rests locked.old.device queue }
        ensures under { result ≡ true → locked.new ≡ after_calls locked.old tag (steps_of_queue queue) }
        ensures made { result ≡ true → self.new ≡ self.old ++ idle_calls (steps_of_queue queue) }
        ensures unchanged { result ≡ false → self.new ≡ self.old }
        ensures refused { result ≡ false → locked.new ≡ locked.old }
    {
        match IdleSteps::all(queue) {
            Some(steps) if self.rested.is_none() && locked.rest(tag, queue) => {
                self.rested = steps;
                true
            }
            _ => false,
        }
    }

    /// Runs a device step under the lock, for the pass with this tag, and returns whether the step ran. The step runs
    /// if it is idle and comes after the steps recorded since the last call, and the history has room for its entry.
    /// Otherwise nothing happens.
    #[inline(always)]
    pub(crate) fn idle_locked<const VFS: u8, const FIFO: u16>(
        &mut self,
        locked: &mut Locked<VFS, FIFO>,
        tag: u8,
        step: &Event,
    ) -> bool
        requires { tag < 64 }
        ensures led { IsLed VFS FIFO locked.old }
        ensures idle { result ≡ true → IsIdle locked.old.device step.now }
        ensures under { result ≡ true → locked.new ≡ after_call locked.old tag step.now }
        ensures made { result ≡ true → self.new ≡ self.old ++ call_of step.now Idle ∷ [] }
        ensures unchanged { result ≡ false → self.new ≡ self.old }
        ensures refused { result ≡ false → locked.new ≡ locked.old }
    {
        step.is_of_a_driver();
        let device = locked.device();
        let Some(note) = device.idle_note(step) else {
            return false;
        };
        match self.rested.and(&note) {
            Some(more) if locked.idle(tag, &note) => {
                self.rested = more;
                true
            }
            _ => false,
        }
    }

    /// Applies one event under the lock for the pass with this tag, and records the call.
    ///
    /// Fails with `HistoryFull` only if the history is at its limit; any other error is `OutOfMemory`. Both errors
    /// return the event and change nothing.
    pub(crate) fn make_locked<const VFS: u8, const FIFO: u16>(
        &mut self,
        alloc: Global,
        locked: &mut Locked<VFS, FIFO>,
        tag: u8,
        event: Event,
    ) -> Result<Reply, CallFault>
        requires { tag < 64 }
        ensures led { IsLed VFS FIFO locked.old }
        ensures reply { IfOk result (λ reply. reply ≡ (step_of locked.old.device event).reply) }
        ensures fits { IfOk result (λ reply. may_answer event reply ≡ true) }
        ensures under { OnOk result (locked.new ≡ after_call locked.old tag event) }
        ensures made { IfOk result (λ reply. self.new ≡ self.old ++ call_of event reply ∷ []) }
        ensures own { result ≢ Err (CallFault.ForeignPass event) }
        ensures full { result ≡ Err (CallFault.HistoryFull event)
            → length locked.old.history ≡ locked.old.limit }
        ensures back { IfErr result (λ fault. event_of fault ≡ event) }
        ensures unchanged { OnErr result ((locked.new ≡ locked.old) × (self.new ≡ self.old)) }
    {
        make_room(&mut self.made);
        let Ok(note) = locked.ready(alloc, &mut self.made, &mut self.spare, &event) else {
            return Err(CallFault::OutOfMemory(event));
        };
        let reply = locked.step(alloc, tag, event)?;
        let reported = locked.note_of(alloc, &reply, &mut self.spare);
        put_call(&mut self.made, &mut self.rested, note, reported);
        Ok(reply)
    }

    /// Expands the calls into a list with a separate element for each call, including the idle device steps. If there
    /// is no memory for the list, returns the calls unchanged.
    pub fn into_vec(self, alloc: Global) -> Result<Vec<Call>, Calls>
        ensures calls { IfOk result (λ calls. calls.items ≡ self) }
        ensures refused { IfErr result (λ calls. calls ≡ self) }
    {
        let mut calls = Vec::new(alloc);
        if !reserve_for(&mut calls, self.made.len()) {
            return Err(self);
        }
        let Calls {
            made,
            rested,
            spare: _,
            notes: _,
        } = self;
        for it in made {
            keep_idle(&mut calls, it.rested);
            calls.push_reserved(it.call);
        }
        keep_idle(&mut calls, rested);
        Ok(calls)
    }
}

/// Drops an event that lends no block.
pub(crate) fn end_event(event: Event)
    requires { lent_block event ≡ None }
{
    match event.into_buf() {
        None => {}
        Some(_buf) => unreachable!(),
    }
}

/// Reserves room for the first calls, if there is memory. The vector then moves its calls less often as it grows.
fn make_room(made: &mut Vec<Made>)
    ensures { made.new.items ≡ made.old.items }
{
    if made.capacity() == 0 {
        let _is_roomy = made.reserve(FIRST_ROOM).is_ok();
    }
}

/// Appends a call after the stored calls and the idle steps that follow them. The vector has room for the call.
fn put_call(made: &mut Vec<Made>, rested: &mut IdleSteps, event: EventNote, reply: ReplyNote)
    requires { vec_len made.old < vec_capacity made.old }
    ensures { calls_in made.new.items rested.new ≡ calls_in made.old.items rested.old ++ call_of event reply ∷ [] }
{
    made.push_reserved(Made {
        rested: *rested,
        call: Call { event, reply },
    });
    *rested = IdleSteps::none();
}

/// Reserves room for `count` calls, the device steps before each call, and the device steps after the last call.
/// Returns whether there was enough memory.
fn reserve_for(calls: &mut Vec<Call>, count: usize) -> bool
    requires { calls.old.items ≡ [] }
    ensures same { calls.new.items ≡ [] }
    ensures room { result ≡ true → count * 5 + 4 ≤ vec_capacity calls.new }
{
    match count.checked_mul(STEPS + 1) {
        Some(most) if most <= usize::MAX - STEPS => calls.reserve(most + STEPS).is_ok(),
        _ => false,
    }
}
