//! A history as stored under the lock. Entries of a queue's idle device steps take no extra room. Room for every entry
//! is reserved, so every entry can later be stored separately without an allocation.

ghost use Rattle.std.specs.Prelude.{◌≡◌, ◌+◌, ◌++◌, ◌∷◌, ◌<◌, ◌≤◌, [], true, IfSome, length, List};
ghost use Rattle.std.specs.Vec.{vec_len, vec_capacity};
ghost use Rattle.nic_device.specs.declared.event.Reply.TheVariants.{Idle};
ghost use Rattle.device_lock.specs.History.{entry_of};
ghost use Rattle.device_lock.specs.Packed.{entries_in, rested_entries};
ghost use Rattle.device_lock.specs.declared.entry.Entry.{Entry};

use crate::entry::Entry;
use crate::resting::{IdleSteps, STEPS, keep_entries};
use nic_device::{EventNote, ReplyNote};

/// A queue's idle device steps that a pass ran.
#[derive(Clone, Copy, Debug)]
pub struct Rested {
    /// The tag of the pass.
    pub pass: u8,
    /// The steps that the pass ran.
    pub steps: IdleSteps,
}

impl Rested {
    /// Returns an empty set of steps.
    pub(crate) fn none() -> Rested
        ensures { rested_entries result ≡ [] }
    {
        Rested {
            pass: 0,
            steps: IdleSteps::none(),
        }
    }

    /// Returns these steps followed by this event of a pass, if the event is a step that comes after them. Otherwise
    /// returns `None`.
    pub(crate) fn and(&self, pass: u8, event: &EventNote) -> Option<Rested>
        ensures { IfSome result (λ more.
            rested_entries more ≡ rested_entries self.now ++ entry_of pass event.now Idle ∷ []) }
    {
        if self.pass != pass && !self.steps.is_none() {
            return None;
        }
        match self.steps.and(event) {
            Some(steps) => Some(Rested { pass, steps }),
            None => None,
        }
    }
}

/// An entry, with the idle steps that ran before it.
#[derive(Debug, Drop)]
pub struct Packed {
    /// The idle device steps before this entry; they have no separate entries.
    pub rested: Rested,
    /// The tag of the pass that made the call.
    pub pass: u8,
    /// The event, as a note.
    pub event: EventNote,
    /// The device's reply, as a note.
    pub reply: ReplyNote,
}

/// The minimum number of entries to make room for, if there is memory and the history may have that many.
const LEAST_ROOM: u32 = 131_072;

/// Reserves room for `count` separate entries; the caller has checked that the history may have that many. Returns
/// whether there is memory for them. If possible, the function reserves more room: if the storage grew in small steps,
/// each step would move it and touch its pages before anything is stored there.
#[inline(always)]
pub(crate) fn hold_room(whole: &mut Vec<Entry>, count: u32, limit: u32) -> bool
    ensures same { whole.new.items ≡ whole.old.items }
    ensures more { vec_capacity whole.old ≤ vec_capacity whole.new }
    ensures room { result ≡ true → count ≤ vec_capacity whole.new }
{
    let count = count as usize;
    if count <= whole.capacity() {
        return true;
    }
    let more = count - whole.len();
    let roomy = more.max(LEAST_ROOM.min(limit) as usize);
    whole.reserve(roomy).is_ok() || whole.reserve(more).is_ok()
}

/// Reserves room for `count` entries and the four entries of a queue's idle device steps. Returns false if the total
/// would exceed `limit`, or if there is no memory.
pub(crate) fn has_room(whole: &mut Vec<Entry>, count: u32, limit: u32) -> bool
    ensures same { whole.new.items ≡ whole.old.items }
    ensures more { vec_capacity whole.old ≤ vec_capacity whole.new }
    ensures few { result ≡ true → count + 4 ≤ limit }
    ensures room { result ≡ true → count + 4 ≤ vec_capacity whole.new }
{
    let steps = STEPS as u32;
    limit >= steps && count <= limit - steps && hold_room(whole, count + steps, limit)
}

/// Appends an entry after the stored entries and the idle steps that follow them. The vector has room for the entry.
#[inline(always)]
pub(crate) fn put_entry(
    packed: &mut Vec<Packed>,
    rested: &mut Rested,
    pass: u8,
    event: EventNote,
    reply: ReplyNote,
)
    requires { vec_len packed.old < vec_capacity packed.old }
    ensures { (whole : List Entry) → entries_in whole packed.new.items rested.new
        ≡ entries_in whole packed.old.items rested.old ++ entry_of pass event reply ∷ [] }
{
    packed.push_reserved(Packed {
        rested: *rested,
        pass,
        event,
        reply,
    });
    *rested = Rested::none();
}

/// Returns all entries separately: first the entries that are already separate, then the others. `whole` has room for
/// all of them.
pub(crate) fn unpacked(whole: Vec<Entry>, packed: Vec<Packed>, rested: Rested) -> Vec<Entry>
    requires { length (entries_in whole.items packed.items rested) ≤ vec_capacity whole }
    ensures { result.items ≡ entries_in whole.items packed.items rested }
{
    let mut entries = whole;
    for it in packed {
        put_one(&mut entries, it);
    }
    keep_entries(&mut entries, rested.pass, rested.steps);
    entries
}

/// Appends the idle steps before an entry, then the entry. The vector has room for all of them.
fn put_one(entries: &mut Vec<Entry>, it: Packed)
    requires { vec_len entries.old + length (rested_entries it.rested) < vec_capacity entries.old }
    ensures items { entries.new.items
        ≡ (entries.old.items ++ rested_entries it.rested) ++ entry_of it.pass it.event it.reply ∷ [] }
    ensures room { vec_capacity entries.new ≡ vec_capacity entries.old }
{
    let Packed {
        rested,
        pass,
        event,
        reply,
    } = it;
    keep_entries(entries, rested.pass, rested.steps);
    entries.push_reserved(Entry { pass, event, reply });
}
