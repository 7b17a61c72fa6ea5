//! Laws about a driver on a queue of a shared device, whatever other passes do between the driver's calls. After the
//! driver's start, the device and the driver agree on both sides of the driver's queue. The laws also state why a start
//! is refused, and what holds after a start for the driver's receive half and transmit half.
//!
//! Each law is the contract of a function that does nothing. `specs/Along` defines the histories that the laws are
//! about. `specs/Histories` defines in which of these the driver's pass makes the calls of both halves. Crate
//! `pmd_driver` states how the state of the halves follows from the calls of a driver's pass. `specs/Agreeing` defines
//! what the device and both halves agree on. `specs/Healthy` defines the histories over which the driver gets only
//! replies that a healthy queue sends.

ghost use Rattle.pmd_driver.specs.NicDevice.DmaRing.declared.dir.Dir.TheVariants.{Rx, Tx};
ghost use Rattle.pmd_driver.specs.Halves.{ReceivingDrives, SendingDrives, OthersDrive, DrivesOn};
ghost use Rattle.driver_laws.specs.Before.{FramesStayShortAlong, OnlyPassLent};
ghost use Rattle.driver_laws.specs.Harmless.{CallsAddHarmless, StepsAddHarmless, DrivesLead, HarmlessLead, LeadsOn};
ghost use Rattle.driver_laws.specs.Harmless.{HarmlessLeaveAlone};
ghost use Rattle.driver_laws.specs.Enabling.{EnableWordsKeep};
ghost use Rattle.driver_laws.specs.FaultlessStart.{ReceiveIsReady, TransmitIsReady, SwitchingIsNeverStray};
ghost use Rattle.driver_laws.specs.Faults.{NoFault};
ghost use Rattle.driver_laws.specs.Filling.{FaultsAreEarlyOrFilling, NoFaultIsEarly, FillingBeginsWell};
ghost use Rattle.driver_laws.specs.Gate.{NamedQueuesPass};
ghost use Rattle.driver_laws.specs.HarmlessEvents.{HarmlessByAddress, OthersAre};
ghost use Rattle.driver_laws.specs.Healthy.{OwnRepliesAreHealthy};
ghost use Rattle.driver_laws.specs.Histories.{HandedIsPrefix, NoneIsAll, NoneIsAllBefore, NoneIsAllTaken, SentIsPrefix};
ghost use Rattle.driver_laws.specs.Histories.{IdleIsAllSent, CountedWhereUp};
ghost use Rattle.driver_laws.specs.Laid.{LaidQueueIsSilent};
ghost use Rattle.driver_laws.specs.Moves.{WriteStands, ReadStands, LendStands, FreshReceiveAgrees, FreshTransmitAgrees};
ghost use Rattle.driver_laws.specs.Numbers.{NamedQueueHasTheNumbers};
ghost use Rattle.driver_laws.specs.On.{SwitchedSidesAgree, SwitchedSidesBeginNone, SwitchedSidesGoOn};
ghost use Rattle.driver_laws.specs.Points.{AccessesLead};
ghost use Rattle.driver_laws.specs.Polls.{PollsAreReported};
ghost use Rattle.driver_laws.specs.Quiet.{ReceiveGuardIsOff, OffSidesStand};
ghost use Rattle.driver_laws.specs.Quieting.{QuietingLeads, QuietSidesStand};
ghost use Rattle.driver_laws.specs.Refusals.{FramesAre, PacketsHaveAnOrder, StartsHaveAnOrder};
ghost use Rattle.driver_laws.specs.Replies.{NamedRegistersReply, OffSidesAreSeenOff};
ghost use Rattle.driver_laws.specs.Retagged.{RetaggedIsSame, SameDelivers, SameIsLegal, SameLeads, SameSends};
ghost use Rattle.driver_laws.specs.SetUp.{BytesAreLowestFirst, SetUpIsWritten};
ghost use Rattle.driver_laws.specs.Standing.{StandingSidesAreLeft};
ghost use Rattle.driver_laws.specs.Start.{StartAgrees, StartGoesOn};
ghost use Rattle.driver_laws.specs.TimedOut.{TimeoutsPoll};
ghost use Rattle.driver_laws.specs.Waiting.{WaitingIsNotAll};
ghost use Rattle.driver_laws.specs.Words.{WordsAreTaken};

/// The register numbers that a driver uses at its port identify the registers of the driver's queue. At the physical
/// function, the queue may be any of the device's queues, given by its number. At a virtual function, it may be any
/// queue of the function's pool, given by its number counted from the pool's first queue.
#[tactic(auto, using(crate::proofs::Ground::named_queue_has_the_numbers))]
pub fn named_queue_has_the_numbers()
    ensures { NamedQueueHasTheNumbers }
{}

/// This law states in numbers what the setup of the whole device writes: which addresses, in which order, and with
/// which values. It does so for each mode, for frames of up to 1,518 bytes and for longer frames. Each 32-bit value
/// written for the key or for the redirection table consists of four bytes of the key or of the table, lowest first.
pub fn set_up_is_written()
    ensures written { SetUpIsWritten }
    ensures bytes { BytesAreLowestFirst }
{}

/// A start is refused before any event if one of the following faults applies; it then fails with the first that
/// applies. `BadSize`: a ring would have fewer than 8 descriptors, more than 1,024, or a number that isn't a multiple
/// of 8; or the limit on a frame's length would be below 1,518 or above 9,728 bytes. `NoBuffer`: too few blocks are
/// free. The start needs one for each slot except one, plus one for each 128 descriptors of both rings. `DeviceFault`:
/// these blocks and two runs for the rings are free, but the queue number is beyond those that the port can address. A
/// packet is refused for the first of the following reasons. `BadSize`: the packet is empty, longer than the limit, or
/// longer than the total of its 2,048-byte blocks. `ForeignBlock`: the packet's blocks can't be returned to the arena,
/// or another ring has one of them. Full ring: with this packet, no slot of the ring would be left free.
pub fn refusals_have_an_order()
    ensures starts { StartsHaveAnOrder }
    ensures packets { PacketsHaveAnOrder }
{}

/// The limit on a frame's length is 1,518 to 9,728 bytes, including the frame's 4-byte check sequence. The law states
/// this for the four numbers just inside and just outside this range. The frame's packet takes at most as many
/// 2,048-byte blocks as the frame needs without these 4 bytes: one for up to 2,052 bytes of the frame, two for up to
/// 4,100, and five at most.
#[tactic(auto, using(crate::proofs::Refusals::frames_are))]
pub fn frames_have_their_numbers()
    ensures { FramesAre }
{}

/// While a side is disabled, the whole value that a driver writes to one of its registers takes effect. The value
/// becomes the base, length, head or tail of the side's ring, or its control word, or turns head write-back off.
/// Writing the enable word is only a request. The queue's other side, memory, the frame limit and the separation of the
/// queues stay unchanged.
pub fn words_of_an_off_side_are_taken()
    ensures receive { WordsAreTaken Rx }
    ensures transmit { WordsAreTaken Tx }
{}

/// Suppose that each of the two sides of a queue is disabled, or enabled with an empty ring. An event that leaves the
/// queue alone leaves both sides unchanged, except that a side may become enabled if an enable request is in effect for
/// it. Nothing is received or sent on the queue, and the driver's lent, zero-filled blocks stay zero.
pub fn standing_sides_are_left()
    ensures { StandingSidesAreLeft }
{}

/// Suppose that a driver lays out the empty transmit ring of a queue while the queue's transmit side is disabled, and
/// only then requests that the side be enabled. The history is legal and leaves the queue alone. Then nothing is sent
/// on the queue from the first of these calls on, whether the side becomes enabled or not. The premises: The driver's
/// pass writes only registers of its queue. When it begins to lay the ring out, the side is disabled with no enable
/// request pending. It writes the length first, then head and tail. Just before the first of these calls, the driver's
/// port and queue number identify the queue, and the device's frame limit is the driver's packet limit.
pub fn laid_queue_is_silent()
    ensures { LaidQueueIsSilent }
{}

/// Suppose that each side of a queue is disabled, or enabled with an empty ring. A driver's own accesses preserve this
/// state. A value written to a register of a side takes effect. If a side's enable word is read with bit 25 set, the
/// side is enabled. When a zero-filled block is lent, it becomes one of the driver's blocks.
pub fn accesses_keep_sides_standing()
    ensures receive_write { WriteStands Rx }
    ensures transmit_write { WriteStands Tx }
    ensures receive_read { ReadStands Rx }
    ensures transmit_read { ReadStands Tx }
    ensures lend { LendStands }
{}

/// Suppose that the register values of a fresh ring are written, and that the ring's blocks are lent and all zero.
/// Suppose also that the tail number that the driver uses identifies the side's tail register. Then the device and the
/// driver agree, whether the side is enabled or disabled. On the receive side, they agree that nothing is posted. On
/// the transmit side, they agree that nothing is sent, if the device's frame limit is the driver's.
pub fn fresh_sides_agree()
    ensures receive { FreshReceiveAgrees }
    ensures transmit { FreshTransmitAgrees }
{}

/// After the receive side's enable word is written with bit 25 clear, no enable request is in effect for the side.
/// Every event that leaves the queue alone preserves this. If a later read of the enable word returns bit 25 as 0, the
/// side is disabled. If both sides are disabled with no enable request pending, they stay as they are.
#[tactic(auto, using(crate::proofs::SwitchedOff::off_sides_stand, crate::proofs::SwitchedOff::receive_guard_is_off))]
pub fn guarded_receive_side_is_off()
    ensures guard { ReceiveGuardIsOff }
    ensures stand { OffSidesStand }
{}

/// Take a legal history that leaves the queue alone, and a point where the driver's pass has made the accesses by which
/// it finds both sides disabled. At that point, both sides are disabled with no enable request pending, and they stay
/// as they are. The premise: Just before the first of these accesses, the driver begins well.
pub fn both_sides_are_seen_off()
    ensures quieting { QuietingLeads }
    ensures stand { QuietSidesStand }
{}

/// In a legal history that leaves the queue alone, take a point where the state of the sides is known. After that
/// point, the driver's pass makes accesses that keep the sides at rest. At each point where it has made these accesses,
/// the sides are in the state that these accesses lead to.
pub fn accesses_lead_over_a_history()
    ensures { AccessesLead }
{}

/// Take a legal history that leaves the queue alone, and a point where the driver's pass has made the calls that set up
/// both rings and enabled both sides. At that point, the device and the driver agree on both sides, with nothing posted
/// or sent yet. Both sides are enabled, nothing was received or sent since they were enabled, and no part of a frame
/// for the queue is written yet. All of this holds whether or not the receive ring is filled next. The premise: Just
/// before its first access, the driver begins well.
pub fn switched_sides_agree()
    ensures agree { SwitchedSidesAgree }
    ensures on { SwitchedSidesGoOn }
    ensures begun { SwitchedSidesBeginNone }
{}

/// Take a legal history that leaves the queue alone, and a point where the driver's pass has made the calls by which
/// its start enabled both sides. At that point, the device and the driver agree on both sides: nothing is posted or
/// sent yet. Both sides are enabled, and nothing was received or sent since they were enabled. The premise: Just before
/// the driver's first access, its port and queue number identify this queue, and the device's frame limit is the
/// driver's packet limit.
pub fn start_leaves_sides_that_agree()
    ensures agree { StartAgrees }
    ensures on { StartGoesOn }
{}

/// A start that returns `StartTimeout` polled its queue's RXDCTL and TXDCTL. In total, 1,000 of these reads returned
/// bit 25 as 0 after an enable request: the last write to the same register before the read had set bit 25.
#[tactic(auto, using(crate::proofs::TimedOut::timeouts_poll))]
pub fn timeouts_poll_a_thousand_times()
    ensures { TimeoutsPoll }
{}

/// The reads in `timeouts_poll_a_thousand_times` are among the calls made by the start's pass. These calls use the
/// register numbers that RXDCTL and TXDCTL have at the start's port.
#[tactic(auto, using(crate::proofs::TimedOut::polls_are_reported))]
pub fn polls_of_a_timeout_are_reported()
    ensures { PollsAreReported }
{}

/// If port and queue number identify a queue of the device, the port can address that queue. So a start isn't refused
/// with `DeviceFault` before any event.
#[tactic(auto, using(crate::proofs::Ground::named_queues_pass))]
pub fn named_queues_pass_the_gate()
    ensures { NamedQueuesPass }
{}

/// If port and queue number identify a queue of the device, a driver's reads of the queue's registers return values,
/// and its writes to these registers get the reply `Done`. If both sides are disabled with no enable request pending, a
/// read of an enable word returns bit 25 as 0.
pub fn replies_at_a_start_are_healthy()
    ensures registers { NamedRegistersReply }
    ensures off { OffSidesAreSeenOff }
{}

/// No start fails with `DeviceFault` while it sets up its two rings, one after the other, or while it enables both
/// sides. The premises: The history is legal and leaves the queue alone. Just before the start's first call, the driver
/// begins well, and both sides of the queue are disabled with no enable request pending. No block that the start lends
/// is already lent.
pub fn starts_find_no_device_at_fault()
    ensures receive { ReceiveIsReady }
    ensures transmit { TransmitIsReady }
    ensures switch { SwitchingIsNeverStray }
{}

/// If a start fails with `DeviceFault` at or after its first event, it fails before both sides are enabled or while
/// filling its receive ring. Over a history as in `starts_find_no_device_at_fault`, it never fails before both sides
/// are enabled. Over such a history, the device and the driver agreed on both sides when the start began to fill the
/// ring.
pub fn faults_at_a_start_come_filling()
    ensures cases { FaultsAreEarlyOrFilling }
    ensures early { NoFaultIsEarly }
    ensures filling { FillingBeginsWell }
{}

/// The calls made by one half change that half's state and leave the other half unchanged. Device steps leave both
/// halves unchanged. One sequence of calls followed by another changes the halves as both do in turn. So if each call
/// that belongs to neither half is a device step, the state of both halves follows from a running driver's calls.
pub fn calls_lead_both_halves()
    ensures receiving { ReceivingDrives }
    ensures sending { SendingDrives }
    ensures others { OthersDrive }
    ensures on { DrivesOn }
{}

/// Take a history of any sound device that leaves the driver's queue alone, and a point where the device agrees with
/// both halves. At that point, the receive side has just been enabled, and no request to disable the side is pending.
/// After that point, the driver's pass makes only the calls of the halves and calls that leave the queue alone. The
/// packets that the driver returned are a prefix of those delivered since that point. If the next poll finds its slot
/// not done, each delivered packet was returned, or is complete and will be returned when the tail advances. If, in
/// addition, no packet is complete, all delivered packets were returned. If, moreover, no packet was returned after
/// some second, later point, all packets delivered before the second point had been returned by then. The frames sent
/// since the first point are a prefix of those that the driver accepted, and all of them if no packet is outstanding.
/// If the transmit side is enabled at the first point, all of these frames are counted since the side was enabled.
pub fn both_sides_in_order()
    ensures handed { HandedIsPrefix }
    ensures taken { NoneIsAllTaken }
    ensures none { NoneIsAll }
    ensures before { NoneIsAllBefore }
    ensures sent { SentIsPrefix }
    ensures idle { IdleIsAllSent }
    ensures counted { CountedWhereUp }
{}

/// Suppose that the device agrees with both halves of a driver, and any value is written to the enable register of
/// either side of the driver's queue. Then the device still agrees with both halves. The premise: if the value requests
/// that the transmit side be enabled, no packet is outstanding. A stopping driver makes writes of this kind.
pub fn enable_words_keep_the_agreement()
    ensures { EnableWordsKeep }
{}

/// Harmless calls leave every queue alone and both halves unchanged. They lend, take and poke no block. Through the
/// physical function, they write no register that a queue relies on; through a virtual function, they write no register
/// at all. The device steps that a `Nic` runs before the driver's calls are harmless. Some calls that the driver's own
/// author makes through the same pass are harmless too, for example the arrival of a frame or a write of EIMS. So if
/// all calls of a pass that belong to neither half are harmless, the pass meets the requirements on such calls. A call
/// through a `Nic` adds only harmless calls if its event is harmless, or if the call is refused.
pub fn harmless_calls_leave_the_queue_alone()
    ensures called { CallsAddHarmless }
    ensures refused { StepsAddHarmless }
    ensures driven { DrivesLead }
    ensures harmless { HarmlessLead }
    ensures on { LeadsOn }
    ensures alone { HarmlessLeaveAlone }
{}

/// This law lists which events are harmless; for writes by the physical function, it uses register addresses. Writes to
/// FCTRL, at 0x05080, and EIMS, at 0x00880, are harmless. Writes to CTRL, HLREG0, MAXFRS, GCR_EXT and a ring's
/// registers aren't. For CTRL and the ring registers, the law states this for the first and the last of their
/// addresses. A write to PVFCTRL that sets bit 26 isn't harmless either. No write by a virtual function is harmless,
/// nor is an event that lends, takes or pokes a block. Every event that isn't a write and doesn't lend, take or poke a
/// block is harmless.
pub fn harmless_events_are_listed()
    ensures address { HarmlessByAddress }
    ensures others { OthersAre }
{}

/// Take a history as in `both_sides_in_order`. If the next read finds the oldest outstanding packet not done, then at
/// each earlier point, some of what the driver has accepted had not yet been sent.
pub fn waiting_packets_are_not_all_sent()
    ensures { WaitingIsNotAll }
{}

/// Take a history of any sound device, and a point in it, as in `both_sides_in_order`. From that point on, each call
/// made by either half gets a reply that a healthy queue sends, if the following conditions hold. At that point, the
/// frames for the queue in the receive list fit as many blocks as the driver takes for a packet. So do all frames that
/// the device accepts. At that point, the only blocks of the driver's arena that are lent are those that the driver has
/// lent. After that point, no other pass tries to lend any block of the arena. The halves lend as the clause `drives`
/// of a driver's calls says: only blocks of the arena, and none that the other half has lent.
#[tactic(auto, using(crate::proofs::Healthy::own_replies_are_healthy))]
pub fn own_replies_are_healthy()
    ensures { OwnRepliesAreHealthy }
{}

/// Over a history as in `own_replies_are_healthy`, no driver call that receives, sends or reaps ends with a reply that
/// no healthy queue sends. The clause `finds` of each of these calls states that a call that returns `DeviceFault` ends
/// with such a reply.
pub fn no_call_finds_the_device_at_fault()
    ensures { NoFault }
{}

/// This law is about the entries before the first point in `both_sides_in_order`, for example those of the driver's
/// start. If these entries write no setting, the frames for the queue in the receive list keep fitting the same number
/// of blocks. Suppose that no other pass tries to lend a block of the driver's arena. Then the only blocks of the arena
/// that are lent are those that were lent before these entries or that the driver's pass lent.
pub fn entries_before_lead_there()
    ensures short { FramesStayShortAlong }
    ensures lent { OnlyPassLent }
{}

/// A history's tags identify the pass that made each call; nothing else depends on them. With other tags, a history
/// contains the same calls. With other tags, a legal history of events that a driver can make remains such a history.
/// It leads to the same state, and it delivers and sends the same packets on each queue.
pub fn history_is_retagged()
    ensures retagged { RetaggedIsSame }
    ensures legal { SameIsLegal }
    ensures leads { SameLeads }
    ensures delivered { SameDelivers }
    ensures sent { SameSends }
{}
