//! What the device and a driver agree on about the receive ring, whatever others do between the driver's events. It
//! follows that the packets that the driver returns are a prefix of the packets that were written.
//!
//! Between two events, the device and the driver agree on the slots of the receive ring. They agree on which slots are
//! filled with pieces of frames, which slots are posted, which slots after the tail name a block, and which pieces were
//! consumed. Each law is the contract of a function that does nothing. The laws use the device's state, which `step_of`
//! derives from each event, and the driver's state, which `pmd_rx` derives from the driver's own calls.

ghost use Rattle.ring_laws.specs.Fitting.{FramesStayFitting, NoneBegunWhileOff};
ghost use Rattle.ring_laws.specs.ReceiveHealthy.{OwnRepliesAreHealthy};
ghost use Rattle.ring_laws.specs.Finding.{HandedIsPrefix, NoneIsAll, NoneIsAllTaken};
ghost use Rattle.ring_laws.specs.Inside.{PieceIsInside};
ghost use Rattle.ring_laws.specs.ReceiveLent.{OwnLendsAreKnown};
ghost use Rattle.ring_laws.specs.Starting.{StartAgrees};
ghost use Rattle.ring_laws.specs.Steps.{LookTellsSlot, ReceiveStepKeeps, EnableStepKeeps, LeavingKeeps, SwitchingKeeps, OwnEventKeeps, EntryKeeps};
ghost use Rattle.ring_laws.specs.ReceiveUp.{LeavingStaysUp, EnableStepChangesNothing, ReceiveStepStaysUp, OwnEventStaysUp, EntryStaysUp};

/// Suppose that the device and the driver agree, and that the driver reads the descriptor of a slot that has a block
/// and is before the tail. The descriptor is done exactly if the slot is filled. A done descriptor reports the slot's
/// piece: the piece's length, whether the piece ends the packet, and the descriptor's first half.
pub fn look_tells_the_slot()
    ensures { LookTellsSlot }
{}

/// A receive step keeps the agreement, whichever queue it serves, if what it writes for another queue is in none of the
/// driver's blocks. A receive step that serves the driver's queue fills the first posted slot, which becomes the last
/// filled slot, or it changes nothing.
#[tactic(auto, using(crate::proofs::Foreign::receive_keeps))]
pub fn receive_step_keeps_the_agreement()
    ensures { ReceiveStepKeeps }
{}

/// If the device and the driver agree, a receive step on the driver's own queue writes the descriptor into one of the
/// ring's blocks. It writes the frame's bytes into the block of one of the ring's slots.
pub fn receive_step_stays_in_its_blocks()
    ensures { PieceIsInside }
{}

/// An event keeps the agreement if it changes neither the queue's receive side nor the driver's blocks, nor which
/// register each address or offset selects. As an exception, the event may enable or disable the side, or request this.
/// Therefore a step that enables or disables the side keeps the agreement too.
pub fn other_events_keep_the_agreement()
    ensures leaving { LeavingKeeps }
    ensures switching { SwitchingKeeps }
    ensures enable { EnableStepKeeps }
{}

/// A side is up if it is enabled and no request to disable it is pending. A receive side that is up stays up through an
/// event that leaves the side unchanged. If the side is up, a step that puts the side into its requested state changes
/// nothing. If the device and the driver agree, a side that is up stays up through each receive step and each of the
/// driver's own events. It also stays up through each entry of another pass, and each device step of any pass, that
/// leaves the queue alone.
pub fn queue_up_stays_up()
    ensures leaving { LeavingStaysUp }
    ensures enable { EnableStepChangesNothing }
    ensures receive { ReceiveStepStaysUp }
    ensures own { OwnEventStaysUp }
    ensures entry { EntryStaysUp }
{}

/// Each of the driver's own events keeps the agreement: after the event, the device agrees with the driver's new state.
/// These events read a descriptor, take a piece's block, lend a fresh block, write a vacant descriptor, or advance the
/// tail over descriptors that name blocks.
#[tactic(auto, using(crate::proofs::Own::own_keeps))]
pub fn own_event_keeps_the_agreement()
    ensures { OwnEventKeeps }
{}

/// An entry of another pass, or a device step of any pass, keeps the agreement under two conditions. First, the entry
/// or step leaves alone the queue and all blocks that the driver has lent for receiving. Second, the queue's own
/// transmit side writes no report into any of these blocks.
pub fn foreign_entry_keeps_the_agreement()
    ensures { EntryKeeps }
{}

/// If the device and the driver agree, the packets that the driver returned are a prefix of the packets written since
/// the side was enabled. If the next poll would find no packet, each written packet was returned, or is complete and
/// will be returned when the tail advances. If, moreover, no complete packet is waiting for the tail to advance, all
/// written packets were returned.
pub fn handed_packets_are_a_prefix_of_those_written()
    ensures prefix { HandedIsPrefix }
    ensures taken { NoneIsAllTaken }
    ensures all { NoneIsAll }
{}

/// Suppose that a ring of 1 to 1,024 slots is lent and that its registers are written. Suppose also that the driver's
/// number for the tail identifies the queue's tail register. Then the device agrees with a driver that has posted
/// nothing, whether the side is enabled or not.
#[tactic(auto, using(crate::proofs::Leaving::start_agrees))]
pub fn fresh_ring_agrees()
    ensures { StartAgrees }
{}

/// Suppose that the device and the driver agree and that three conditions hold. No written packet has more pieces than
/// the driver takes. Each piece except a packet's last is 2,048 bytes long. If the driver's next event lends a block,
/// that block isn't lent yet. Then each of the driver's own events gets the reply of a healthy queue. A read returns a
/// descriptor, and a done descriptor belongs to a piece of a packet. Taking a piece's block, lending a fresh block,
/// writing its descriptor and advancing the tail succeed.
pub fn own_replies_are_healthy()
    ensures { OwnRepliesAreHealthy }
{}

/// Suppose that the device and the driver agree, and the side is enabled with no request to disable it pending. Then
/// the following stays true through every event that writes no setting and doesn't reset the queue's pool. Each of the
/// queue's frames in the receive list fits the number of slots that the driver takes for a packet. Longer frames aren't
/// accepted, and the written packets fit too. Each written piece except the last of its frame fills its block. A
/// separate clause is about a disabled side of a sound device: no byte of a frame that waits for the queue has been
/// written.
pub fn fitting_frames_stay_fitting()
    ensures stay { FramesStayFitting }
    ensures off { NoneBegunWhileOff }
{}

/// Suppose that each lent block of a given set, for example an arena's blocks, was lent by the driver for receiving, or
/// by others. This stays true through each of the driver's own events, with the driver's state after the event. If the
/// driver is about to lend a block of the set that others haven't lent, the block isn't lent yet.
#[tactic(auto, using(crate::proofs::ReceiveLent::own_lends_are_known))]
pub fn own_lends_are_known()
    ensures { OwnLendsAreKnown }
{}
