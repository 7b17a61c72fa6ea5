//! Laws of the device. They follow from the definitions that the contracts of `nic_device` cite.
//!
//! Each law is the contract of a function that does nothing. The contract ensures a property of `step_of`, which
//! defines how `nic_device::Device::step` runs each event.
#![tactic(auto)]

ghost use Rattle.nic_device.specs.Kept.{NewDeviceIsSound, EventKeepsSound, OtherEventsKeepBlocks};
ghost use Rattle.device_laws.specs.Laws.{ReportedIsPending, NewDeviceReadsResetValues, WriteShowsAtEachAddress, WriteLeavesOtherRegisters, ReadChangesNothing, StrayAccessChangesNothing, ReadCounterStartsAgain, LetInFrameIsCounted, AskedResetResets, ResetGivesResetValues, OtherEventsKeepSettings, PieceIsReadBack, FaultChangesNoMemory, StoppedDeviceIsIdle};
ghost use Rattle.device_laws.specs.Counting.{EventsCount};
ghost use Rattle.device_laws.specs.FunctionCounting.{EventsCountForFunctions};
ghost use Rattle.device_laws.specs.Messages.{DueBitIsReported};
ghost use Rattle.device_laws.specs.Muting.{MutedQueueIsIdle};
ghost use Rattle.device_laws.specs.Raising.{EventsRaise};
ghost use Rattle.device_laws.specs.Replies.{ReceivingTells, TransmittingTells, EventsMoveFramesOut, MisalignedChangesNothing};
ghost use Rattle.device_laws.specs.Pool.{VfChangesItsPoolAlone, VfKeepsFramesButByReset, VfSeesItsPoolAlone, AskedPoolResetResets};
ghost use Rattle.device_laws.specs.Ports.{AccessIsThePhysicalFunctions, HolesAndAbsentFunctionsMeetNothing};
ghost use Rattle.device_laws.specs.Eeprom.{LastWriteIsMade, SteppedOverWriteIsNotMade, ControlTellsSize, StepGivesWord, StepWithoutStartIsIdle};
ghost use Rattle.device_laws.specs.Order.{ReceivingHasAnOrder, EachReplyInItsCase, NothingWaitsIsIdle};
ghost use Rattle.device_laws.specs.Leaving.{EventStaysWithinReach, EventLeavesMissed, ReadLeavesTheRest, WriteLeavesTheRest, WriteLeavesMemory, MemoryCallsLeaveTheRest, MemoryCallsLeaveOtherBlocks, ArrivalLeavesTheRest, ReceivingLeavesTheRest, ReceivingLeavesOtherBlocks, TransmittingLeavesTheRest, TransmittingLeavesOtherBlocks, SwitchingLeavesTheRest, MessageLeavesTheRest, EepromStepLeavesTheRest, LinkLeavesTheRest, CollectingLeavesTheRest};

/// A new device is sound, and every event that a driver can cause keeps a sound device sound.
pub fn devices_stay_sound()
    ensures new { NewDeviceIsSound }
    ensures event { EventKeepsSound }
{}

/// After every event that a driver can cause, a bit of an interrupt group is reported only if its cause and its mask
/// are 1.
#[tactic(auto, using(crate::proofs::Kept::reported_pending))]
pub fn reported_is_pending()
    ensures { ReportedIsPending }
{}

/// In a new device, a read of a plain read/write register returns the bits of its reset value that the address shows.
#[tactic(auto, using(crate::proofs::Accesses::new_reads))]
pub fn new_device_reads_reset_values()
    ensures { NewDeviceReadsResetValues }
{}

/// Reading a plain read/write register right after writing it returns the written bits that the mask and the write's
/// address let through, and the old bits elsewhere. Each access may use any address of the register, including an
/// alias. The read returns only the bits that its own address shows.
#[tactic(auto, using(crate::proofs::Accesses::write_shows))]
pub fn write_shows_at_each_address()
    ensures { WriteShowsAtEachAddress }
{}

/// Writing one plain read/write register doesn't change what any other plain read/write register reads.
#[tactic(auto, using(crate::proofs::Accesses::write_leaves))]
pub fn write_leaves_other_registers()
    ensures { WriteLeavesOtherRegisters }
{}

/// Reading a plain read/write register changes nothing.
#[tactic(auto, using(crate::proofs::Accesses::read_changes_nothing))]
pub fn read_changes_nothing()
    ensures { ReadChangesNothing }
{}

/// An access to an address without a register gets the reply `Stray` with 0 and changes nothing.
pub fn stray_access_changes_nothing()
    ensures { StrayAccessChangesNothing }
{}

/// Right after a clear-on-read counter is read, it reads as 0 at each of its addresses.
#[tactic(auto, using(crate::proofs::Counted::read_starts_again))]
pub fn read_counter_starts_again()
    ensures { ReadCounterStartsAgain }
{}

/// An accepted frame is counted in GPRC: the next read returns one more than it would have returned without the frame,
/// but at most 0xFFFFFFFF.
#[tactic(auto, using(crate::proofs::Counted::let_in_is_counted))]
pub fn let_in_frame_is_counted()
    ensures { LetInFrameIsCounted }
{}

/// MPC counts frames that find the receive list full, RUC frames that are too short, ROC frames that are too long, GPRC
/// accepted frames, and GPTC transmitted frames. QPRC, QPRDC and QPTC count the frames of each queue in the counter
/// that RQSMR or TQSM assigns to the queue: QPRC counts completely written frames, QPRDC frames dropped because no
/// descriptor was free, and QPTC transmitted frames. All these counters saturate at 0xFFFFFFFF. Apart from counting,
/// only a read of the counter or a device reset changes a counter.
#[tactic(auto, using(crate::proofs::Counts::events_count))]
pub fn events_count()
    ensures { EventsCount }
{}

/// For each virtual function that the device has, VFGPRC counts the frames completely written on queues of the
/// function's pool, and VFGPTC the frames transmitted from these queues. These counters wrap from 0xFFFFFFFF to 0.
/// Apart from counting, only a reset of the device or of the function's pool changes a counter; a read doesn't.
#[tactic(auto, using(crate::proofs::FunctionEvents::events_count_for_functions))]
pub fn events_count_for_functions()
    ensures { EventsCountForFunctions }
{}

/// In the physical function's causes, a frame that finds the receive list full raises bit 17, a fault bit 18, and a
/// link change bit 20. A completely written frame raises a cause in its receive queue's group: the cause that IVAR or
/// PVTIVAR assigns to the queue. In the same way, a report that is written back raises the cause of its transmit queue.
/// None of these events changes any other group. Any other event changes no group, unless it is a register access or an
/// interrupt step.
#[tactic(auto, using(crate::proofs::Causes::events_raise))]
pub fn events_raise()
    ensures { EventsRaise }
{}

/// Writing CTRL with a reset request empties the receive list, drops the staged bytes, and otherwise changes only
/// registers. Lent memory, the transmitted frames, the link, the image and the configuration are unchanged. If the
/// image writes no register, each register then has its reset value, no side of a queue has an enable request, and no
/// interrupt bit is reported. For an image that writes registers, see `reset_applies_the_image`.
#[tactic(auto, using(crate::proofs::Resetting::asked_resets, crate::proofs::Resetting::reset_values))]
pub fn asked_reset_resets()
    ensures rest { AskedResetResets }
    ensures values { ResetGivesResetValues }
{}

/// A device reset performs the register writes in the EEPROM image in order. Suppose that a write to neither CTRL nor
/// EERD is appended to an image. Then a reset leaves the same state as a reset with the original image, followed by
/// this write. A write to CTRL or EERD is skipped and doesn't end the list.
#[tactic(auto, using(crate::proofs::Imaged::last_write, crate::proofs::Imaged::stepped_over))]
pub fn reset_applies_the_image()
    ensures writes { LastWriteIsMade }
    ensures steps_over { SteppedOverWriteIsNotMade }
{}

/// EEC reports the size of the installed image: it reads 0x300 + 0x800 s if the image has 64 * 2^s words.
#[tactic(auto, using(crate::proofs::EepromReads::control_tells))]
pub fn image_is_reported_by_its_size()
    ensures { ControlTellsSize }
{}

/// While CTRL bit 2 is 0, an EEPROM step provides the word that EERD requests: EERD then reads as the index, with DONE
/// set and START clear, and the image's word at that index, or 0xFFFF outside the image. If no word is requested, the
/// step is idle and changes nothing. An EEPROM step never changes a queue, an interrupt group, memory or a frame.
pub fn eeprom_step_gives_the_word()
    ensures word { StepGivesWord }
    ensures idle { StepWithoutStartIsIdle }
    ensures rest { EepromStepLeavesTheRest }
{}

/// An event that writes none of CTRL, HLREG0, MAXFRS and GCR_EXT changes neither the frame limit nor how the queues are
/// divided into pools.
#[tactic(auto, using(crate::proofs::KeptSettings::settings_stand))]
pub fn other_events_keep_settings()
    ensures { OtherEventsKeepSettings }
{}

/// No event changes anything outside its reach. The reach determines which registers, blocks, staged bytes and frames
/// the event can change. The reach depends on the register, block, queue or group to which the event refers, and on the
/// written value. It also depends on the pool mode, the oldest frame in the receive list, and the reply. Each side of a
/// queue and each interrupt group outside the reach is unchanged.
pub fn event_stays_within_its_reach()
    ensures stays { EventStaysWithinReach }
    ensures missed { EventLeavesMissed }
{}

/// An event that neither lends nor takes a block leaves the same blocks lent, and its reply contains no block.
pub fn other_events_keep_blocks()
    ensures { OtherEventsKeepBlocks }
{}

/// A register read changes no queue, and no interrupt group except the one to which its register belongs. Suppose that
/// a write requests neither a device reset nor a pool reset. Then the only side of a queue that it changes is the one
/// to which its register belongs. The only interrupt groups that it changes are those that it can reach. Neither a read
/// nor such a write changes the receive list or the transmitted frames. No register access changes memory.
pub fn access_leaves_the_rest()
    ensures read { ReadLeavesTheRest }
    ensures write { WriteLeavesTheRest }
    ensures memory { WriteLeavesMemory }
{}

/// A memory call changes no queue, no interrupt group and no frame. It changes only the block that it lends or takes,
/// or the blocks that contain the 16 bytes that it writes.
#[tactic(auto, using(crate::proofs::Standing::memory_rest, crate::proofs::Standing::memory_blocks))]
pub fn memory_call_leaves_the_rest()
    ensures rest { MemoryCallsLeaveTheRest }
    ensures blocks { MemoryCallsLeaveOtherBlocks }
{}

/// An arriving frame changes no queue, no virtual function's interrupt group, no memory and no transmitted frame.
pub fn arrival_leaves_the_rest()
    ensures { ArrivalLeavesTheRest }
{}

/// The only side of a queue that a receive step changes is the receive side of the oldest frame's queue. The step
/// changes no transmitted frame. The only blocks that it changes are those that contain the descriptor or the bytes
/// that its reply reports.
#[tactic(auto, using(crate::proofs::StandingQueues::receiving_rest, crate::proofs::StandingQueues::receiving_blocks))]
pub fn receiving_leaves_the_rest()
    ensures rest { ReceivingLeavesTheRest }
    ensures blocks { ReceivingLeavesOtherBlocks }
{}

/// The only side of a queue that a transmit step changes is its own queue's transmit side. The step changes no frame in
/// the receive list. The only blocks that it changes are those to which its reply reports a write-back.
pub fn transmitting_leaves_the_rest()
    ensures rest { TransmittingLeavesTheRest }
    ensures blocks { TransmittingLeavesOtherBlocks }
{}

/// An enable step changes no other side of a queue, no interrupt group, no memory and no transmitted frame.
pub fn switching_leaves_the_rest()
    ensures { SwitchingLeavesTheRest }
{}

/// An interrupt step for a group changes no queue, no other group, no memory and no frame.
pub fn message_leaves_the_rest()
    ensures { MessageLeavesTheRest }
{}

/// A link change, including the cause that it raises, changes no queue, no interrupt group except the physical
/// function's, no memory and no frame. Collecting a frame changes no queue, no interrupt group, no memory and no frame
/// in the receive list.
pub fn link_leaves_the_rest()
    ensures link { LinkLeavesTheRest }
    ensures collect { CollectingLeavesTheRest }
{}

/// Suppose that CTRL bit 2 is 0. If the receive list is empty, a receive step is idle. If the oldest frame's queue is
/// disabled, the step drops the frame. If the queue is enabled and has a free descriptor, the descriptor is filled or
/// has a fault. If the queue is enabled but has no free descriptor, the frame stays, except in one case: the step drops
/// the frame if drop enable is set and no part of the frame is written yet. Each reply occurs only in its own case.
pub fn receiving_has_an_order()
    ensures order { ReceivingHasAnOrder }
    ensures alone { EachReplyInItsCase }
    ensures nothing { NothingWaitsIsIdle }
{}

/// A slot that a receive step fills is the slot at the head of the oldest frame's queue. The queue's receive side is
/// then unchanged except for its head, which moves to the next slot. A fault disables this receive side, withdraws its
/// enable request, and leaves the rest of the side unchanged.
#[tactic(auto, using(crate::proofs::RepliesReceived::receiving_tells))]
pub fn receiving_tells()
    ensures { ReceivingTells }
{}

/// If the reply to a transmit step contains a queue, it is the step's own queue. After the step fetches a slot, the
/// queue's transmit side is unchanged except for its staged bytes and its head, which moves to the next slot. If the
/// reply contains a write-back address, this is the queue's head write-back address if TDWBAL bit 0 is 1, and otherwise
/// the descriptor's address. A fault disables the side, withdraws its enable request, drops its staged bytes, and
/// leaves the rest of the side unchanged.
#[tactic(auto, using(crate::proofs::RepliesSent::transmitting_tells))]
pub fn transmitting_tells()
    ensures { TransmittingTells }
{}

/// Suppose that VT_CTL bit 0 is 1, and that the VFTE bit is 0 for the pool of a queue below 128. Then a transmit step
/// for this queue is idle and changes nothing.
#[tactic(auto, using(crate::proofs::Muting::muted_idle))]
pub fn muted_queue_is_idle()
    ensures { MutedQueueIsIdle }
{}

/// A bit of an interrupt group is due if its cause and its mask are 1, it isn't reported, and it has a vector. Suppose
/// that CTRL bit 2 is 0, that the device has a group, and that a bit of this group is due. Then an interrupt step for
/// the group sends the vector of the lowest due bit and marks that bit as reported. The step clears the bit's cause if
/// the bit is 1 in EIAC, and the bit's mask if GPIE bit 30 is 1 and the bit is 1 in EIAM. The group's other bits are
/// unchanged.
#[tactic(auto, using(crate::proofs::Messages::due_reported))]
pub fn due_bit_is_reported()
    ensures { DueBitIsReported }
{}

/// A frame is appended to the transmitted frames if and only if a transmit step reports it as sent, with its queue and
/// length. The oldest transmitted frame is removed if and only if it is collected. No other event changes the
/// transmitted frames.
#[tactic(auto, using(crate::proofs::RepliesOut::frames_out))]
pub fn events_move_frames_out()
    ensures { EventsMoveFramesOut }
{}

/// A `Peek16` or `Poke16` at an address that isn't a multiple of 16 gets the reply `Misaligned` and changes nothing.
pub fn misaligned_changes_nothing()
    ensures { MisalignedChangesNothing }
{}

/// After a receive step writes a piece of a frame, memory contains the piece's bytes at the reported address, provided
/// that the piece doesn't overlap the descriptor.
pub fn piece_is_read_back()
    ensures { PieceIsReadBack }
{}

/// An event whose reply is a fault changes no memory.
#[tactic(auto, using(crate::proofs::Kept::fault_memory))]
pub fn fault_changes_no_memory()
    ensures { FaultChangesNoMemory }
{}

/// While CTRL bit 2 is 1, each of these steps is idle and changes nothing: a receive step, an EEPROM step, a transmit
/// or enable step for a queue below 128, and an interrupt step for an existing group.
pub fn stopped_device_is_idle()
    ensures { StoppedDeviceIsIdle }
{}

/// A virtual function's access acts as the physical function's access at the mapped address, with the same reply and
/// the same state afterwards. A read at a hole returns 0. A read by a function that doesn't exist or has no pool
/// returns all ones. A write in either case gets the reply `Stray`. None of these accesses changes anything.
pub fn vf_access_is_the_physical_functions()
    ensures access { AccessIsThePhysicalFunctions }
    ensures nothing { HolesAndAbsentFunctionsMeetNothing }
{}

/// A virtual function's access changes only what belongs to its pool, and the bits that signal the physical function:
/// two bits of PFMBICR, and EICR bit 19. The following belongs to the pool: its registers, including its mailbox and
/// the mailbox's memory; its enable requests, reported bits and staged bytes; the frames in the receive list for its
/// queues. The frames of other pools keep their order. Memory, transmitted frames, the link, the image and the
/// configuration are unchanged. The access changes staged bytes and frames, even of its own pool, only if it requests a
/// pool reset with PVFCTRL bit 26.
///
/// Suppose that two devices agree on what belongs to the pool, on the number of functions, on GCR_EXT, on CTRL bit 2
/// and on the link. Then both devices give the same reply to the access and still agree afterwards.
pub fn vf_stays_in_its_pool()
    ensures changes { VfChangesItsPoolAlone }
    ensures keeps { VfKeepsFramesButByReset }
    ensures agrees { VfSeesItsPoolAlone }
{}

/// Writing PVFCTRL with bit 26 set, through either port, resets what belongs to the pool: its registers, enable
/// requests and reported bits then have their reset values. In the mailbox, only bits 2, 4 and 5 of PVFMAILBOX are
/// reset. The pool's queues then have no staged bytes, and the receive list contains only the frames for other queues,
/// in order. Everything else is unchanged.
pub fn asked_pool_reset_resets()
    ensures { AskedPoolResetResets }
{}
