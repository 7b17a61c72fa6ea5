//! A second version of the lock's definitions: which events leave a queue alone, in which order closing a history finds
//! faults, and at which positions in a history the entries of a pass are. This version is written by hand,
//! independently of the definitions that the contracts cite.
//!
//! Each law is the contract of a function that does nothing.

ghost use Rattle.ring_laws.specs.Begun.{DriversBegin, PoolsAreFollowed, PoolsStay};
ghost use Rattle.ring_laws.specs.Ending.{ClosingHasAnOrder, ClosingIsCompared, PositionsAreExact};
ghost use Rattle.ring_laws.specs.Leaving.{AddressesLeaveQueues, BlocksAreOfTheirPass, HistoriesLeaveQueues, NothingElseCounts, OthersLeaveQueues, SparingIsEnough, WritesLeaveQueues};

/// A write by another pass leaves a driver's queue alone, with three exceptions. The first is a write to CTRL, HLREG0,
/// MAXFRS or GCR_EXT, whatever the value. The second is a write to a register of the queue's own rings. The third is a
/// write to PVFCTRL[v] that sets bit 26, if pool v contains the queue. Writes to all other registers, for example
/// FCTRL, at 0x05080, leave the queue alone.
#[tactic(auto, using(crate::proofs::Writes::writes_leave))]
pub fn writes_leave_queues_alone()
    ensures register { WritesLeaveQueues }
    ensures address { AddressesLeaveQueues }
{}

/// Lending, taking or poking a block leaves a driver's queue alone exactly if the driver's pass doesn't lend that
/// block. A step of another queue leaves the driver's queue alone exactly if what the step wrote, as its reply reports,
/// is in none of the blocks that the pass lends. Every other event except a write leaves the queue alone, for example a
/// read, a peek at a block, an arriving frame or a link change. So does a step whose reply reports no write into a
/// block, for example a fault.
#[tactic(auto, using(crate::proofs::Others::others_leave, crate::proofs::Others::nothing_else))]
pub fn other_events_leave_queues_alone()
    ensures others { OthersLeaveQueues }
    ensures nothing_else { NothingElseCounts }
{}

/// A history that ends with the first entry of a driver's pass, or before it, leaves the driver's queue alone. If a
/// later entry is of one of three kinds, the history doesn't leave the queue alone. The first kind is a write by
/// another pass that doesn't leave the queue alone. The second is an entry of another pass that lends, takes or pokes a
/// block of the driver's pass. The third is a step of another queue, by any pass, that writes into a block of the
/// driver's pass. A history without such entries leaves the queue alone.
#[tactic(auto, using(crate::proofs::Others::histories_leave, crate::proofs::Others::sparing_suffices))]
pub fn histories_leave_queues_alone()
    ensures history { HistoriesLeaveQueues }
    ensures enough { SparingIsEnough }
{}

/// In a history, a driver begins with the first entry of its pass, whatever event that entry records. Even a read or a
/// device step counts.
#[tactic(auto, using(crate::proofs::Beginning::begin))]
pub fn drivers_begin_with_their_first_entry()
    ensures { DriversBegin }
{}

/// Bits 1 to 0 of the value in the last write to GCR_EXT, by any pass, determine the pools. (This setting decides which
/// queues a later write to PVFCTRL resets.) Before the first write to GCR_EXT, the pools are those given for the start
/// of the history. After a write to CTRL that sets bit 3 or bit 26, the device has no pools. No other write or event
/// changes the pools. The law is about writes with the reply `Done`.
#[tactic(auto, using(crate::proofs::Beginning::stay))]
pub fn pools_are_the_last_that_were_set()
    ensures set { PoolsAreFollowed }
    ensures left { PoolsStay }
{}

/// The blocks of a driver's pass are the blocks with numbers below 65,536 that an entry of this pass lends with reply
/// `Done`, anywhere in the history.
#[tactic(auto, using(crate::proofs::Others::blocks_of_pass))]
pub fn blocks_are_of_their_pass()
    ensures { BlocksAreOfTheirPass }
{}

/// If no pass of the bench has some tag, closing a history reports the lowest such tag, whatever else is wrong with the
/// passes. If each tag has a pass, closing reports a pass of another bench, a pass whose tag isn't one of this bench's,
/// or two passes with the same tag. If a pass's calls differ from the calls that the history records for its tag,
/// closing reports a fault. If the fault is such a difference, no pass with a lower tag differs in this way.
#[tactic(auto, using(crate::proofs::Ending::closing_tells, crate::proofs::Ending::closing_is_compared))]
pub fn closing_has_an_order()
    ensures order { ClosingHasAnOrder }
    ensures compared { ClosingIsCompared }
{}

/// A position is listed for a pass exactly if the entry at this position, counted from 0, has the pass's tag. The
/// listed positions ascend.
pub fn positions_are_exact()
    ensures { PositionsAreExact }
{}
