//! Checks a driver against a closed history in one call. `judge` checks everything that the laws about a driver's
//! packets and blocks require of a history, and reports the first requirement that isn't met.

ghost use Rattle.std.specs.Prelude.{◌↔◌, IsOk, IfErr};
ghost use Rattle.pmd.specs.Judged.{IsClear, IsFirst};

use crate::beginning::{Given, begins_well};
use crate::fitting::frames_fit;
use crate::lending::others_lend_none;
use crate::quiet::never_asked_on;
use pmd_driver::{Entry, Watched, left_alone};

/// A driver to be checked against a history.
#[derive(Clone, Copy)]
pub struct Driven {
    /// The number of virtual functions, the driver's pass, and its queue.
    pub watched: Watched,
    /// The number of calls that the driver's pass made before the driver started.
    pub from: usize,
    /// The port, the queue and the frame limit with which the driver was started.
    pub given: Given,
    /// The first block of its arena.
    pub first: u32,
    /// The number of blocks in its arena.
    pub count: u32,
}

/// The first check that a history fails for a driver, in the order of the checks.
#[derive(Clone, Copy, PartialEq, Eq, Debug)]
pub enum Doubt {
    /// Something other than the driver touched the driver's queue or the blocks that it lent; `left_alone` is false.
    Disturbed,
    /// When the driver started, its port and queue number identified another queue, or the frame limit was different;
    /// `begins_well` is false.
    BeganOtherwise,
    /// Something tried to enable the driver's queue before the driver started; `never_asked_on` is false.
    AskedOnBefore,
    /// A block in the driver's arena was lent when the driver started, or another pass tries to lend such a block;
    /// `others_lend_none` is false.
    LentByOthers,
    /// A frame accepted before the driver started is too long for the driver's packets; `frames_fit` is false.
    TooLong,
}

/// Checks a driver against a history of a new device: first with `left_alone`, then with `begins_well`,
/// `never_asked_on`, `others_lend_none` and `frames_fit`. Returns the first check that fails. This function allocates
/// nothing.
pub fn judge(driven: &Driven, history: &[Entry]) -> Result<(), Doubt>
    ensures clear { IsOk result ↔ IsClear driven.now history.now }
    ensures first { IfErr result (λ doubt. IsFirst driven.now history.now doubt) }
{
    let Driven {
        watched,
        from,
        given,
        first,
        count,
    } = *driven;
    if !left_alone(watched, history) {
        return Err(Doubt::Disturbed);
    }
    if !begins_well(watched, from, given, history) {
        return Err(Doubt::BeganOtherwise);
    }
    if !never_asked_on(watched, from, history) {
        return Err(Doubt::AskedOnBefore);
    }
    if !others_lend_none(watched, from, first, count, history) {
        return Err(Doubt::LentByOthers);
    }
    if !frames_fit(watched, from, given.frame, history) {
        return Err(Doubt::TooLong);
    }
    Ok(())
}
