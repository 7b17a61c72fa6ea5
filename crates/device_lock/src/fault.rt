ghost use Rattle.std.specs.Prelude.{◌≡◌};
ghost use Rattle.device_lock.specs.Fault.{event_of, fault_with};

use nic_device::Event;

/// Why no shared device was created.
#[derive(Clone, Copy, PartialEq, Eq, Debug)]
pub enum NewFault {
    /// There are no passes, or more than 64.
    Passes,
    /// The limit on the history is 0, or more than 1,000,000 entries.
    Limit,
    /// Memory ran out.
    OutOfMemory,
}

/// Why a call was refused. Each reason returns the event, which wasn't applied.
#[derive(Debug, Drop)]
pub enum CallFault<E = Event> {
    /// The pass belongs to another bench, or its tag isn't one of this bench's.
    ForeignPass(E),
    /// The history is at its limit.
    HistoryFull(E),
    /// There wasn't enough memory for the event or its notes.
    OutOfMemory(E),
}

impl<E> CallFault<E> {
    /// Replaces the event of a refusal with `other`. Returns the new refusal and the former event.
    pub fn replace<F>(self, other: F) -> (CallFault<F>, E)
        ensures fault { result.0 ≡ fault_with self other }
        ensures event { result.1 ≡ event_of self }
    {
        match self {
            CallFault::ForeignPass(event) => (CallFault::ForeignPass(other), event),
            CallFault::HistoryFull(event) => (CallFault::HistoryFull(other), event),
            CallFault::OutOfMemory(event) => (CallFault::OutOfMemory(other), event),
        }
    }
}

/// Why a shared device stays open.
#[derive(Clone, Copy, PartialEq, Eq, Debug)]
pub enum CloseFault {
    /// No pass with this tag was returned. This is the lowest missing tag.
    MissingPass(u8),
    /// A pass belongs to another bench, has a tag that isn't one of this bench's, or occurs twice.
    ForeignPass,
    /// The calls of the pass with this tag aren't the history's entries with the tag. This is the lowest such tag.
    Mismatch(u8),
    /// Memory ran out. Closing allocates nothing, so this is never returned.
    OutOfMemory,
}
