ghost use Rattle.std.specs.Prelude.{◌≡◌, List, true, IfOk, IfErr};
ghost use Rattle.device_lock.specs.Fault.{event_of};
ghost use Rattle.device_lock.specs.declared.entry.Call.{Call};
ghost use Rattle.device_lock.specs.NicDevice.Answering.{may_answer};
ghost use Rattle.pmd_access.specs.Begun.{BeganAs, Origin};
ghost use Rattle.pmd_access.specs.Made.{Adds, AddsSome};
ghost use Rattle.pmd_access.specs.Refusals.{Refusals, CanRefuse};

use device_lock::{CallFault, Event, Reply};
use std::alloc::Global;

/// How a driver reaches a device. A call runs some device steps, then applies one event. Others may apply events
/// between two calls; such events aren't calls made through this `Nic`.
pub trait Nic {
    /// The calls made through this `Nic`, with their replies, oldest first.
    ghost made: { Self → List Call };

    /// Where the calls began, as far as this is known. For a pass, this is the pass that the calls belong to. For a
    /// device in hand, it is the device's state before the first call; everything done since is a legal history that
    /// leads from this state to the device.
    ghost began: { Self → Origin → Type 0 };

    /// The reasons, other than lack of memory, for which this `Nic` may refuse calls.
    ghost refuses: { Self → Refusals };

    /// Runs some device steps, then applies one event. A refused event is returned without being applied; some of the
    /// steps may have run.
    fn call(&mut self, alloc: Global, event: Event) -> Result<Reply, CallFault>
        ensures made { IfOk result (λ reply. Adds (made self.old) (made self.new) event reply) }
        ensures began { BeganAs began self.old self.new }
        ensures refuses { refuses self.new ≡ refuses self.old }
        ensures refusal { IfErr result (λ fault. CanRefuse (refuses self.new) fault) }
        ensures fits { IfOk result (λ reply. may_answer event reply ≡ true) }
        ensures refused { IfErr result (λ fault. (event_of fault ≡ event) × AddsSome (made self.old) (made self.new)) };
}
