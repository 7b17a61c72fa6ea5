//! Frames that arrive while workers run.

ghost use Rattle.std.specs.Prelude.{◌≡◌, ◌≤◌, true, ◌∷◌, [], Err, IfOk, OnOk, OnErr, map, if◌then◌else◌};
ghost use Rattle.pmd_driver.specs.NicDevice.Answering.{may_arrive};
ghost use Rattle.pmd_driver.specs.DeviceLock.Pass.{IsOwn};
ghost use Rattle.pmd.specs.Feeding.{IsFed, HaveArrived, is_done, done_in, gained, IsTurnedAway};

use pmd_driver::{CallFault, Event, Octets, Pass, Reply, Shared};
use std::alloc::Global;
use std::sync::Wait;

/// The result of delivering frames.
#[derive(Debug, Drop)]
pub struct Fed {
    /// The number of frames that the device accepted.
    pub done: usize,
    /// Why the call for a frame was refused; no later frame was delivered. `None` if all frames arrived.
    pub refused: Option<CallFault<()>>,
}

/// Delivers frames through a pass, in order, up to the first refused call. If the pass is foreign to the shared device,
/// the first call is refused and no frame arrives.
pub fn feed<R: Wait, const VFS: u8, const FIFO: u16>(
    rt: &R,
    alloc: Global,
    shared: &Shared<VFS, FIFO>,
    pass: &mut Pass,
    frames: Vec<Vec<u8>>,
) -> Fed
    ensures fed { IsFed (map (λ frame. frame.items) frames.items) result.refused pass.old pass.new }
    ensures count { result.done ≡ done_in (gained pass.old pass.new) }
    ensures foreign { ¬ IsOwn shared.now.bench shared.now.passes pass.old
        → IsTurnedAway frames.items result.refused × (pass.new ≡ pass.old) }
{
    let _most = frames.len();
    let mut done = 0;
    for frame in frames {
        match arrive(rt, alloc, shared, pass, frame) {
            Ok(count) => done += count,
            Err(refusal) => {
                return Fed {
                    done,
                    refused: Some(refusal),
                };
            }
        }
    }
    Fed {
        done,
        refused: None,
    }
}

/// Delivers one frame from the link. Returns the number of frames accepted: 1 or 0.
fn arrive<R: Wait, const VFS: u8, const FIFO: u16>(
    rt: &R,
    alloc: Global,
    shared: &Shared<VFS, FIFO>,
    pass: &mut Pass,
    frame: Vec<u8>,
) -> Result<usize, CallFault<()>>
    ensures count { IfOk result (λ count. count ≡ done_in (gained pass.old pass.new)) }
    ensures most { IfOk result (λ count. count ≤ 1) }
    ensures arrived { OnOk result (HaveArrived (frame.items ∷ []) pass.old pass.new) }
    ensures refused { OnErr result (pass.new ≡ pass.old) }
    ensures foreign { ¬ IsOwn shared.now.bench shared.now.passes pass.old
        → result ≡ Err (CallFault.ForeignPass tt) }
{
    match shared.call(rt, alloc, pass, Event::Arrive(Octets::of(frame))) {
        Ok(reply) => Ok(count_let_in(reply)),
        Err(fault) => {
            let (fault, event) = fault.replace(());
            match event.into_buf() {
                None => Err(fault),
                Some(_buf) => unreachable!(),
            }
        }
    }
}

/// Returns the number of frames accepted in one call, given the call's reply. The reply contains no buffer and is
/// dropped.
fn count_let_in(reply: Reply) -> usize
    requires { may_arrive reply ≡ true }
    ensures { result ≡ (if is_done reply then 1 else 0) }
{
    match reply {
        Reply::Done => 1,
        Reply::Dropped(_) => 0,
        _ => unreachable!(),
    }
}
