//! Laws of a driver that sends on a queue of a shared device, whatever others do between the driver's events.
//!
//! Each law is the contract of a function that does nothing. `specs/Sent` defines which frames a queue sends, and
//! `specs/Agreeing` what the device and the driver agree on. `specs/Sparing` defines which events spare the driver,
//! that is, leave alone what the driver relies on. `specs/Moves` defines which events may occur next: the driver's next
//! move, or an event that spares the driver.

ghost use Rattle.ring_laws.specs.Counting.{SentIsCounted, SentIsReported};
ghost use Rattle.ring_laws.specs.Enable.{EnableWordsKeep};
ghost use Rattle.ring_laws.specs.TransmitHealthy.{OwnRepliesAreHealthy};
ghost use Rattle.ring_laws.specs.TransmitLent.{OwnLendsAreKnown};
ghost use Rattle.ring_laws.specs.Off.{OffStays, GuardIsOff};
ghost use Rattle.ring_laws.specs.TransmitUp.{UpStays};
ghost use Rattle.ring_laws.specs.Laws.{StepsOfQueueKeep, SparingEventsKeep, LeftAloneIsSpared, MovesKeep};
ghost use Rattle.ring_laws.specs.Laws.{SentIsPrefix, IdleIsAllSent, WaitingIsNotAllSent};

/// A transmit step of the driver's own queue keeps the agreement; a frame that it sends is added to the frames sent.
/// The step sends the next packet that was accepted and not yet sent, or it sends nothing.
#[tactic(auto, using(crate::proofs::Sparing::step_of_queue_keeps))]
pub fn steps_of_queue_keep()
    ensures { StepsOfQueueKeep }
{}

/// An event that spares the driver keeps the agreement. A frame that the event sends on the queue is added to the
/// frames sent.
#[tactic(auto, using(crate::proofs::Sparing::sparing_events_keep))]
pub fn sparing_events_keep()
    ensures { SparingEventsKeep }
{}

/// An event spares the driver if it leaves alone the queue and all blocks that the driver has lent for sending. What
/// this means is defined by the clauses that judge a closed history. If the event is a receive step that writes a
/// piece, two more conditions apply. The piece must not be empty. If the piece is written for the driver's queue, the
/// piece and its descriptor must be outside these blocks.
pub fn left_alone_is_spared()
    ensures { LeftAloneIsSpared }
{}

/// Each of the driver's own moves keeps the agreement.
#[tactic(auto, using(crate::proofs::Playing::moves_keep))]
pub fn moves_keep()
    ensures { MovesKeep }
{}

/// If the device and the driver agree, the frames sent on the queue are a prefix of the frames that the driver
/// accepted, byte for byte. If no packet is outstanding, all frames that the driver accepted have been sent. If a read
/// finds that the oldest outstanding packet isn't done, at least one of the accepted frames hasn't been sent. The same
/// was true at every earlier time.
pub fn sent_in_order()
    ensures prefix { SentIsPrefix }
    ensures idle { IdleIsAllSent }
    ensures waiting { WaitingIsNotAllSent }
{}

/// A queue's sent frames are counted from the time at which its transmit side was last enabled. If a history never
/// enables the side, the counted frames are all the frames that the history sends. Otherwise, they are all the frames
/// that the history sends after the side is enabled for the last time. The counted frames are a suffix of all frames,
/// and each entry adds at most one.
#[tactic(auto, using(crate::proofs::InOrder::sent_is_counted))]
pub fn sent_is_counted_since_the_side_went_on()
    ensures { SentIsCounted }
{}

/// The replies in a legal history of a sound device report how many frames the history sends on a queue, and the length
/// of each of these frames.
#[tactic(auto, using(crate::proofs::InOrder::sent_is_reported))]
pub fn sent_frames_are_reported()
    ensures { SentIsReported }
{}

/// Suppose that each event of a history leaves a transmit side unchanged or is one of the side's own steps. If no
/// enable request is in effect for the side at the start, none is in effect later. If the side is also disabled at the
/// start, it stays disabled and sends nothing.
#[tactic(auto, using(crate::proofs::Off::off_stays))]
pub fn queue_off_stays_off()
    ensures { OffStays }
{}

/// A side is up if it is enabled and no request to disable it is pending. If the device and the driver agree, a
/// transmit side that is up stays up through each of the driver's moves and through every event that spares the driver.
pub fn queue_up_stays_up()
    ensures { UpStays }
{}

/// A write to the enable register of the queue's transmit side keeps the agreement if bit 25 of the written value is 0
/// or no packet is outstanding. The agreement doesn't depend on whether the side is enabled.
#[tactic(auto, using(crate::proofs::Off::enable_words_keep))]
pub fn enable_words_keep()
    ensures { EnableWordsKeep }
{}

/// After a write to the enable register with bit 25 clear, no enable request is in effect for the side. If no enable
/// request is in effect and a read of this register returns bit 25 as 0, the side is disabled.
#[tactic(auto, using(crate::proofs::Off::guard_is_off))]
pub fn guarded_queue_is_off()
    ensures { GuardIsOff }
{}

/// Suppose that the device and the driver agree. If the driver's next move lends a block, suppose also that this block
/// isn't lent yet. Then each of the driver's own moves gets the reply of a healthy queue. These moves lend a block,
/// write its descriptor, advance the tail, and read the descriptor that ends the oldest packet. They also take back a
/// block of a packet that is known to be sent.
pub fn own_replies_are_healthy()
    ensures { OwnRepliesAreHealthy }
{}

/// Suppose that each lent block of a given set, for example an arena's blocks, was lent by the sender or by others.
/// This stays true through each of the driver's own moves, with the sender's state after the move. It also stays true
/// through a call that lends no block of the set. If a move is about to lend a block of the set that others haven't
/// lent, the block isn't lent yet.
#[tactic(auto, using(crate::proofs::TransmitLent::own_lends_are_known))]
pub fn own_lends_are_known()
    ensures { OwnLendsAreKnown }
{}
