//! The ring of a worker's reports to the calling thread.

ghost use Rattle.std.specs.Prelude.{◌≡◌, ◌+◌, ◌<◌, ◌≤◌, ◌⊎◌, true, false, vec_len, vec_capacity, length, [], ◌++◌, IfOk, max};
ghost use mathlib.Core.List.{IsPrefix};
ghost use Rattle.rtrb.specs.Ring.{sent, received, known_free, known_items, IsPair, SameConsumer};

use rtrb::{Consumer, Producer, RingBuffer};
use std::alloc::{AllocError, Global};

/// A worker's report of a packet that it received.
#[derive(Clone, Copy, PartialEq, Eq, Debug)]
pub struct Report {
    /// The queue's number in the job, 0 to 127.
    pub queue: u16,
    /// How many packets the worker received before this one.
    pub number: u32,
    /// The packet's length in bytes.
    pub len: u16,
    /// The packet's RSS hash; 0 if none was reported.
    pub hash: u32,
}

/// The calling thread's end of a worker's ring, and the reports received.
#[derive(Drop)]
pub struct Collector {
    pub(crate) consumer: Consumer<Report>,
    pub(crate) reports: Vec<Report>,
    pub ghost collected: { reports.items ≡ received consumer },
}

impl Collector {
    /// Creates a ring for at most `most` reports. Returns the worker's end and the end that collects the reports. This
    /// allocates all memory that both ends need.
    pub fn with_room(alloc: Global, most: u32) -> Result<(Producer<Report>, Collector), AllocError>
        ensures pair { IfOk result (λ r. IsPair r.0 r.1.consumer) }
        ensures fresh { IfOk result (λ r. (sent r.0 ≡ []) × (r.1.reports.items ≡ [])) }
        ensures room { IfOk result (λ r. (most ≤ known_free r.0) × (most ≤ vec_capacity r.1.reports)) }
    {
        let places = most.max(1) as usize;
        let reports = Vec::with_capacity(alloc, places)?;
        let (producer, consumer) = RingBuffer::new(alloc, places)?;
        Ok((producer, Collector { consumer, reports }))
    }

    /// Takes the next report, if one has arrived and there is room.
    fn take(&mut self) -> bool
        ensures ring { SameConsumer self.old.consumer self.new.consumer }
        ensures room { vec_capacity self.new.reports ≡ vec_capacity self.old.reports }
        ensures kept { IsPrefix self.old.reports.items self.new.reports.items }
        ensures more { result ≡ true → vec_len self.new.reports ≡ vec_len self.old.reports + 1 }
        ensures none { result ≡ false → (known_items self.new.consumer ≡ [])
            ⊎ (vec_capacity self.new.reports ≤ vec_len self.new.reports) }
    {
        if self.reports.len() >= self.reports.capacity() {
            return false;
        }
        match self.consumer.pop() {
            Ok(report) => {
                self.reports.push_reserved(report);
                true
            }
            Err(_) => false,
        }
    }

    /// Takes the reports that have arrived, while the worker continues.
    pub fn drain(&mut self)
        ensures ring { SameConsumer self.old.consumer self.new.consumer }
        // The room for reports is unchanged.
        ensures room { vec_capacity self.new.reports ≡ vec_capacity self.old.reports }
        // The reports already taken are kept.
        ensures kept { IsPrefix self.old.reports.items self.new.reports.items }
        // All reports known to the consumer are taken, while there is room.
        ensures taken { (known_items self.new.consumer ≡ [])
            ⊎ (vec_capacity self.new.reports ≤ vec_len self.new.reports) }
    {
        for _ in 0..self.reports.capacity() {
            if !self.take() {
                break;
            }
        }
    }

    /// Takes a report that is known to have arrived.
    fn take_known(&mut self)
        requires { (0 < length (known_items self.old.consumer))
            × (vec_len self.old.reports < vec_capacity self.old.reports) }
        ensures room { vec_capacity self.new.reports ≡ vec_capacity self.old.reports }
        ensures all { received self.new.consumer ++ known_items self.new.consumer
            ≡ received self.old.consumer ++ known_items self.old.consumer }
        ensures less { length (known_items self.new.consumer) + 1 ≡ length (known_items self.old.consumer) }
    {
        let report = self.consumer.pop_known();
        self.reports.push_reserved(report);
    }

    /// Returns all reports, in order, after the worker's end of the ring was returned.
    pub fn finish(self, producer: Producer<Report>) -> Vec<Report>
        requires pair { IsPair producer self.consumer }
        requires room { length (sent producer) ≤ vec_capacity self.reports }
        ensures { result.items ≡ sent producer }
    {
        let mut rest = self;
        rest.take_rest(producer);
        rest.reports
    }

    /// Takes the reports still in the ring.
    fn take_rest(&mut self, producer: Producer<Report>)
        requires pair { IsPair producer self.old.consumer }
        requires room { length (sent producer) ≤ vec_capacity self.old.reports }
        ensures { self.new.reports.items ≡ sent producer }
    {
        let mut producer = producer;
        let slots = self.consumer.slots_beside(&mut producer);
        for _ in 0..slots {
            self.take_known();
        }
    }
}
