//! Properties of legal histories of a shared device, and how an event that leaves a queue alone changes the queue's
//! sides. The laws of a driver rely on both.
//!
//! Each law is the contract of a function that does nothing.

ghost use Rattle.ring_laws.specs.Lent.{OnlyLentStays, AgainIsDone};
ghost use Rattle.ring_laws.specs.History.{ModeIsReported, SettingsAreReported, NewIsPlain, PlainIsLeftAlone, AloneByEntries, BeginningIsAlone, RestIsAlone, HistoriesKeepSound};
ghost use Rattle.ring_laws.specs.Reports.{ReportsLieInBlocks};
ghost use Rattle.ring_laws.specs.Left.{LeftDid, SidesDo};

/// For a history that begins with a new device, the mode that separates the queues into pools can be computed from the
/// history's entries. The computed mode equals the mode that is set in the device's GCR_EXT. The frame limit can be
/// computed in the same way. It equals the limit that HLREG0 and MAXFRS set in the device.
pub fn settings_are_reported()
    ensures mode { ModeIsReported }
    ensures settings { SettingsAreReported }
{}

/// Suppose that a history, which may begin in any state of the device, leaves a queue alone. Then each entry leaves the
/// queue alone, starting at any point after the pass's first entry. Each initial part of the history leaves the queue
/// alone. So does the part of the history after it, which begins in the state that the initial part leads to. A
/// separate clause is about the mode that is computed from a history's entries. Suppose that the device has no EEPROM
/// image installed and that its queues aren't separated into pools, as in a new device. Then a history that leaves a
/// queue alone according to the computed mode leaves the queue alone.
pub fn queue_is_left_alone_by_entries()
    ensures plain { PlainIsLeftAlone }
    ensures new { NewIsPlain }
    ensures entries { AloneByEntries }
    ensures beginning { BeginningIsAlone }
    ensures rest { RestIsAlone }
{}

/// A sound device stays sound through a history of events that a driver can make.
pub fn histories_keep_devices_sound()
    ensures { HistoriesKeepSound }
{}

/// Suppose that the reply to a transmit step of a sound device reports that the step wrote something back to memory.
/// Then all of the written bytes are in the block in which they begin.
#[tactic(auto, using(crate::proofs::Reports::reports_lie))]
pub fn reports_lie_in_their_blocks()
    ensures { ReportsLieInBlocks }
{}

/// Suppose that the driver counts a block of a given set as lent whenever the block is lent. This stays true through an
/// event that lends no block of the set. It stays true when a block is lent and the driver counts it as lent from then
/// on. It also stays true when a block is taken back and the driver no longer counts it as lent. If the driver doesn't
/// count a block of the set as lent, lending that block succeeds.
#[tactic(auto, using(crate::proofs::Lent::only_lent_stays, crate::proofs::Lent::again_is_done))]
pub fn only_known_blocks_are_lent()
    ensures stays { OnlyLentStays }
    ensures done { AgainIsDone }
{}

/// An event that leaves a queue and some blocks alone does one of four things to each side of the queue. It takes the
/// slot at the head of the side's ring: it fills a receive slot with a piece of the receive list's oldest frame, or
/// fetches a transmit slot. It shuts the side because of a fault. It enables or disables the side as requested. Or it
/// does nothing to the side. If the event takes no slot of a side, nothing is received or sent on that side. If it
/// takes no slot of either side, it leaves each of the blocks unchanged. No event that leaves the queue and the blocks
/// alone changes the frame limit or how the queues are separated. A second clause is about a single side of a sound
/// device's queue. An event that leaves this side unchanged, or is a step of this side, does one of the four things to
/// this side, whatever it does to the other.
pub fn events_take_shut_or_switch_a_side()
    ensures left { LeftDid }
    ensures side { SidesDo }
{}
