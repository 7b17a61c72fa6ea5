ghost use Rattle.std.specs.Prelude.{◌≡◌, ◌≤◌, ◌<◌, ◌↔◌, ◌⊎◌, true, Err, IfOk, IfErr, OnErr, vec_len};
ghost use Rattle.nic_device.specs.Answering.{may_answer};
ghost use Rattle.device_lock.specs.Calling.{IsAnswered, IsFull};
ghost use Rattle.device_lock.specs.Fault.{event_of};
ghost use Rattle.device_lock.specs.Pass.{AreFresh, IsOwn, with_call};

use crate::fault::{CallFault, CloseFault, NewFault};
use crate::locked::Locked;
use crate::pass::Pass;
use nic_device::{Event, Reply};
use std::alloc::{AllocError, Global};
use std::hint::spin_loop;
use std::marker::Model;
use std::sync::{Mutex, MutexGuard, Wait};

/// The maximum number of passes of a shared device.
pub const MAX_PASSES: u8 = 64;

/// The maximum number of entries in a history.
pub const MAX_LIMIT: u32 = 1_000_000;

/// How many times a thread tries the lock before it sleeps.
const LOOKS: u32 = 100;

/// The number of pauses between two tries: about 20 to 90 microseconds, during which the thread that holds the lock
/// makes many calls.
const PAUSES: u32 = 2048;

/// A device that threads share, identified by its bench number and its number of passes, 1 to 64. The device has `VFS`
/// virtual functions and a receive list of `FIFO` frames; `new` requires at most 63 functions and 1 to 4,096 frames. A
/// `Shared` can't be dropped; you must close it.
pub struct Shared<const VFS: u8, const FIFO: u16> {
    pub(crate) lock: Mutex<Locked<VFS, FIFO>>,
    pub(crate) bench: u64,
    pub(crate) passes: u8,
}

impl<const VFS: u8, const FIFO: u16> Model for Shared<VFS, FIFO> {
    ghost use Rattle.std.specs.Prelude.{◌<◌, ◌≤◌};
    ghost use Rattle.device_lock.specs.Pass.{SharedValue};

    ghost Value = { SharedValue };

    ghost view = { λ s. record { bench = s.bench; passes = s.passes } };

    ghost invariant = { λ s. (0 < s.passes) × (s.passes ≤ 64) };
}

/// The error if a shared device stays open: the reason, and what was passed to `close`.
pub struct CloseRefused<const VFS: u8, const FIFO: u16> {
    /// Why the shared device stays open.
    pub fault: CloseFault,
    /// The shared device, unchanged.
    pub shared: Shared<VFS, FIFO>,
    /// The passes that were passed to `close`, unchanged.
    pub passes: Vec<Pass>,
}

impl<const VFS: u8, const FIFO: u16> Shared<VFS, FIFO> {
    /// Creates a shared device, and one pass for each tag below `passes`, in order of their tags.
    ///
    /// Fails with `Passes` if `passes` is 0 or more than 64. Otherwise fails with `Limit` if `limit` is 0 or more than
    /// 1,000,000. Any other error is `OutOfMemory`.
    pub fn new(
        alloc: Global,
        bench: u64,
        passes: u8,
        limit: u32,
    ) -> Result<(Self, Vec<Pass>), NewFault>
        requires device { (VFS ≤ 63) × (0 < FIFO) × (FIFO ≤ 4096) }
        ensures shared { IfOk result (λ r. r.0 ≡ record { bench = bench; passes = passes }) }
        ensures count { IfOk result (λ r. vec_len r.1 ≡ passes) }
        ensures fresh { IfOk result (λ r. AreFresh bench 0 r.1.items) }
        ensures passes { (result ≡ Err NewFault.Passes) ↔ ((passes ≡ 0) ⊎ (64 < passes)) }
        ensures limit { (result ≡ Err NewFault.Limit)
            ↔ ((0 < passes) × (passes ≤ 64) × ((limit ≡ 0) ⊎ (1000000 < limit))) }
    {
        if passes == 0 || passes > MAX_PASSES {
            return Err(NewFault::Passes);
        }
        if limit == 0 || limit > MAX_LIMIT {
            return Err(NewFault::Limit);
        }
        let Ok(all) = fresh_passes(alloc, bench, passes) else {
            return Err(NewFault::OutOfMemory);
        };
        match Locked::new(alloc, limit) {
            Ok(locked) => Ok((
                Shared {
                    lock: Mutex::new(locked),
                    bench,
                    passes,
                },
                all,
            )),
            Err(_) => Err(NewFault::OutOfMemory),
        }
    }

    /// Returns the number of the bench.
    pub fn bench(&self) -> u64
        ensures { result ≡ self.now.bench }
    {
        self.bench
    }

    /// Returns the number of passes. Each tag is below this number.
    pub fn passes(&self) -> u8
        ensures number { result ≡ self.now.passes }
        ensures range { (0 < result) × (result ≤ 64) }
    {
        self.passes
    }

    /// Applies one event to the device and records the call in the pass. The call waits for the lock.
    ///
    /// Fails with `ForeignPass` if and only if the pass belongs to another bench, or its tag isn't one of this bench's.
    /// The call then takes no lock. Any other error is `HistoryFull` or `OutOfMemory`. The clauses of `Locked::step`
    /// say when each is returned, but the clauses of this call don't. Each error returns the event and leaves the pass
    /// unchanged.
    pub fn call<R: Wait>(
        &self,
        rt: &R,
        alloc: Global,
        pass: &mut Pass,
        event: Event,
    ) -> Result<Reply, CallFault>
        ensures noted { IfOk result (λ reply. pass.new ≡ with_call pass.old event reply) }
        ensures answered { IfOk result (λ reply. IsAnswered VFS FIFO event reply) }
        ensures fits { IfOk result (λ reply. may_answer event reply ≡ true) }
        ensures foreign { (result ≡ Err (CallFault.ForeignPass event))
            ↔ ¬ IsOwn self.now.bench self.now.passes pass.old }
        // The clause says only that some legal history reaches some limit, which is always true. No clause says which
        // history is under the lock.
        ensures full { result ≡ Err (CallFault.HistoryFull event) → IsFull VFS FIFO }
        ensures back { IfErr result (λ fault. event_of fault ≡ event) }
        ensures unchanged { OnErr result (pass.new ≡ pass.old) }
    {
        if pass.bench() != self.bench || pass.tag() >= self.passes {
            return Err(CallFault::ForeignPass(event));
        }
        let mut locked = self.hold(rt);
        pass.call(alloc, &mut *locked, event)
    }
}

impl<const VFS: u8, const FIFO: u16> Shared<VFS, FIFO> {
    /// Acquires the lock and returns the data under it. A call holds the lock only briefly, so a thread tries the lock
    /// several times before it sleeps. The thread pauses between two tries, because each try moves the lock's cache
    /// line from one processor to another.
    pub(crate) fn hold<R: Wait>(&self, rt: &R) -> MutexGuard<'_, Locked<VFS, FIFO>> {
        for _ in 0..LOOKS {
            if let Some(locked) = self.lock.try_lock() {
                return locked;
            }
            for _ in 0..PAUSES {
                spin_loop();
            }
        }
        self.lock.lock(rt)
    }
}

/// Creates one pass for each tag below `count`, in order.
fn fresh_passes(alloc: Global, bench: u64, count: u8) -> Result<Vec<Pass>, AllocError>
    ensures count { IfOk result (λ passes. vec_len passes ≡ count) }
    ensures fresh { IfOk result (λ passes. AreFresh bench 0 passes.items) }
{
    let mut passes = Vec::with_capacity(alloc, usize::from(count))?;
    for tag in 0..count {
        passes.push(Pass::new(alloc, bench, tag))?;
    }
    Ok(passes)
}
