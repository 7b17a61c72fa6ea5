ghost use Rattle.std.specs.Prelude.{◌≡◌, ◌↔◌, IsTrue};
ghost use Rattle.device_lock.specs.History.{call_in};

use nic_device::{EventNote, ReplyNote};

/// A call made by a pass: its event and the reply, as notes.
#[derive(Debug, Drop)]
pub struct Call {
    /// The event, as a note.
    pub event: EventNote,
    /// The device's reply, as a note.
    pub reply: ReplyNote,
}

/// A call in the history, with the tag of the pass that made it.
#[derive(Debug, Drop)]
pub struct Entry {
    /// The tag of the pass that made the call. In a history under a lock, each tag is below 64.
    pub pass: u8,
    /// The event, as a note.
    pub event: EventNote,
    /// The device's reply, as a note.
    pub reply: ReplyNote,
}

impl Call {
    /// Returns whether the entry records this call.
    pub fn is_in(&self, entry: &Entry) -> bool
        ensures { IsTrue result ↔ (self.now ≡ call_in entry.now) }
    {
        self.event.same(&entry.event) && self.reply.same(&entry.reply)
    }
}
