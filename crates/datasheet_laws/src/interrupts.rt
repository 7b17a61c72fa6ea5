//! Laws about interrupts and about single registers. They go beyond the definitions that the contracts of `nic_device`
//! cite.
//!
//! Each law is the contract of a function that does nothing. The law states a property of `step_of`, the definition of
//! what `nic_device::Device::step` does for each event. It uses the datasheet's addresses and bits, and the values that
//! reads return.

ghost use Rattle.datasheet_laws.specs.Names.{HasLowViews, RegistersHaveAddresses};
ghost use Rattle.datasheet_laws.specs.Answered.{AccessesAreAnswered};
ghost use Rattle.datasheet_laws.specs.Arriving.{VfreLetsIntoPools};
ghost use Rattle.datasheet_laws.specs.Extended.{ExtendedBeginsAtZero, ExtendedKeepsWhatIsWritten};
ghost use Rattle.datasheet_laws.specs.Lasting.{MasksLast};
ghost use Rattle.datasheet_laws.specs.Plain.{PlainWriteIsAlone, ArePlain, TimersHaveNoEffect};
ghost use Rattle.datasheet_laws.specs.Queues.{IvarNamesCauses, PvtivarNamesCauses, MappingsNameCounters, VfteMutesPools};
ghost use Rattle.datasheet_laws.specs.Status.{StatusTellsOfSteps, LinksTellsTheLink, LinksTellsTheLinkSet};
ghost use Rattle.datasheet_laws.specs.Steps.{MessageStepsTellWhatIsDue};
ghost use Rattle.datasheet_laws.specs.Heads.{HeadsMoveOn};
ghost use Rattle.datasheet_laws.specs.Holding.{FunctionHoldsOn, PhysicalHoldsOn};
ghost use Rattle.datasheet_laws.specs.SharedMailbox.{MailboxesAreShared};
ghost use Rattle.datasheet_laws.specs.Marks.{MarksLast, MessagesMark};
ghost use Rattle.datasheet_laws.specs.Messages.{MessagesHaveNumbers, MessagesAreShared, MessagesLast};
ghost use Rattle.datasheet_laws.specs.Raised.{DeviceRaisesByNumber};
ghost use Rattle.datasheet_laws.specs.Resets.{EndIsReportedOnce, EndIsReported};
ghost use Rattle.datasheet_laws.specs.Sending.{RequestsAreApart};
ghost use Rattle.datasheet_laws.specs.Accesses.{WriteOfCauseSetSets, WriteOfCausesClears, ReadOfCausesClears, WriteOfMasksSets, WriteOfMaskClearClears, SetAndClearReadZero, WriteOfAutoClearIsKept, WriteOfAutoMaskIsKept, ReadsShowTheView, OtherBitsReadZero};

/// The interrupt registers of the physical function and of each of 64 virtual functions are at the datasheet's
/// addresses. EICS, EIMS, EIMC and EIAM have further addresses that show only bits 15 to 0.
pub fn interrupt_registers_have_addresses()
    ensures whole { RegistersHaveAddresses }
    ensures low { HasLowViews }
    ensures view { ReadsShowTheView }
{}

/// A write to EICS or PVTEICS sets causes in EICR or PVTEICR: those of the bits that are written as 1 and that the
/// address shows. The write also sets masks in EIMS or PVTEIMS: those of the same bits, as far as EIAM or PVTEIAM
/// contains them. For the physical function, it sets masks only while GPIE bit 30 is 0. The write changes no other bit
/// of these registers, of EIAC or of EIAM, and no bit of another group.
#[tactic(auto, using(crate::proofs::Causes::cause_set_sets))]
pub fn causes_are_set()
    ensures { WriteOfCauseSetSets }
{}

/// A write to EICR or PVTEICR clears the causes of the bits written as 1, and no others. A read clears all causes, but
/// while GPIE bit 5 is 1, a read of EICR clears only bits 29 to 16. While the auto-mask applies to accesses, the write
/// and the read also clear masks. The write clears the masks of the bits that are written as 1 and that EIAM or PVTEIAM
/// contains. The read clears the masks of all bits that EIAM or PVTEIAM contains. Neither access changes another bit or
/// another group.
#[tactic(auto, using(crate::proofs::Causes::causes_clear, crate::proofs::Causes::read_clears))]
pub fn causes_are_cleared()
    ensures write { WriteOfCausesClears }
    ensures read { ReadOfCausesClears }
{}

/// A write to EIMS or PVTEIMS sets the masks of the bits that are written as 1 and that its address shows. A write to
/// EIMC or PVTEIMC clears these masks. Neither write changes another bit or another group.
#[tactic(auto, using(crate::proofs::Masks::masks_set, crate::proofs::Masks::masks_clear))]
pub fn masks_are_set_and_cleared()
    ensures set { WriteOfMasksSets }
    ensures clear { WriteOfMaskClearClears }
{}

/// EICS, PVTEICS, EIMC and PVTEIMC read as 0, also at the addresses that show only bits 15 to 0.
#[tactic(auto, using(crate::proofs::Masks::read_zero))]
pub fn set_and_clear_read_zero()
    ensures { SetAndClearReadZero }
{}

/// A write to EIAC, PVTEIAC, EIAM or PVTEIAM stores the written value in the bits that the group has and the address
/// shows. The write changes no other bit and no other group.
#[tactic(auto, using(crate::proofs::AutoWords::auto_clear_kept, crate::proofs::AutoWords::auto_mask_kept))]
pub fn auto_words_are_kept()
    ensures clear { WriteOfAutoClearIsKept }
    ensures mask { WriteOfAutoMaskIsKept }
{}

/// PFMAILBOX[v] and PVFMAILBOX[v] always read the same in bits 2 and 3, whatever events have happened since the device
/// was new. So both sides read the same holder of a function's mailbox: the function (VFU, bit 2), the physical
/// function (PFU, bit 3) or neither, but never both. The function reads that a reset began (RSTI, bit 6) or that the
/// reset is done (RSTD, bit 7), but never both.
pub fn mailboxes_are_shared()
    ensures { MailboxesAreShared }
{}

/// Word x (below 16) of function v's mailbox memory, PFMBMEM, is at address 0x13000 + 0x40 v + 4 x. If the device has
/// the function and a pool for it, the word is also at the function's offset 0x200 + 4 x. A value that is written at
/// either is read at both. At the physical function's address, reads return the value until the word is written again
/// or the device is reset.
pub fn messages_are_shared()
    ensures numbers { MessagesHaveNumbers }
    ensures shared { MessagesAreShared }
    ensures last { MessagesLast }
{}

/// The holder of a mailbox keeps it through every event except the writes, through either port, that end the hold. For
/// the function, these are a write to PVFMAILBOX with bit 2 clear, a write to PFMAILBOX with bit 4 set, and a reset of
/// its pool or the device. For the physical function, they are a write to PFMAILBOX with bit 3 clear, and a reset of
/// the device.
#[tactic(auto, using(crate::proofs::Holding::function_holds_on, crate::proofs::Holding::physical_holds_on))]
pub fn holders_hold_on()
    ensures function { FunctionHoldsOn }
    ensures physical { PhysicalHoldsOn }
{}

/// From one reset of the device to the next, at most one read of PVFMAILBOX[v], through either port, returns bit 7,
/// RSTD, which reports that a reset is done. Bit 6, RSTI, reports that a reset began. A write to CTRL_EXT with bit 14
/// set clears RSTI for all functions. It sets RSTD for each function that read 1 in RSTI, or already in RSTD, before
/// the write.
pub fn ends_are_reported_once()
    ensures once { EndIsReportedOnce }
    ensures reported { EndIsReported }
{}

/// A write to PVFMAILBOX[v] with bit 0 set sets bit v mod 16 of PFMBICR[v/16], the function's own request bit. A write
/// with bit 1 set sets bit 16 + v mod 16, the function's own acknowledgement bit. The write changes no other bit of
/// PFMBICR.
pub fn requests_are_apart()
    ensures { RequestsAreApart }
{}

/// An interrupt step gets the reply `NoGroup` if and only if it names a virtual function v that the device doesn't have
/// or that has no pool. The device doesn't have function v if v is `vfs` or more. Function v has no pool if v is at
/// least the number of pools: 16 while GCR_EXT bits 1 to 0 are 1, 32 while they are 2, 64 while they are 3, and 0 while
/// they are 0. A step that doesn't get `NoGroup` is idle if and only if CTRL bit 2 is 1 or no bit is due. A bit is due
/// if its cause and mask are 1, it isn't marked as reported, and it has a vector. A step that gets `NoGroup` or is idle
/// changes nothing. Any other step reports the lowest due bit, and no other bit.
///
/// The vector of each of bits 0 to 15 of EICR, and of each bit of PVTEICR, is the bit's own number. The vector of bits
/// 16 to 29 of EICR is in IVAR_MISC bits 13 to 8 if bit 15 of IVAR_MISC is 1. The vector of bit 30 is in IVAR_MISC bits
/// 5 to 0 if bit 7 of IVAR_MISC is 1. Both of these vectors must be below 16. When a bit is reported, its cause is
/// cleared if EIAC or PVTEIAC contains the bit. Its mask is cleared if GPIE bit 30 is 1 and EIAM or PVTEIAM contains
/// the bit.
#[tactic(auto, using(crate::proofs::Telling::steps))]
pub fn message_steps_tell_what_is_due()
    ensures { MessageStepsTellWhatIsDue }
{}

/// A read of a register gets the reply `Word`, and a write to a register gets the reply `Done`, through either port and
/// at each of the register's addresses and offsets. This includes a write that changes nothing, for example a write to
/// a register that is read-only or held.
#[tactic(auto, using(crate::proofs::Answered::answered))]
pub fn accesses_are_answered()
    ensures { AccessesAreAnswered }
{}

/// STATUS reads 0x00080000, or 0 while CTRL bit 2 is 1. LINKS reads 0x70000000 while the link is up, otherwise 0. Right
/// after the link was set up or down, LINKS already reads the new value.
#[tactic(auto, using(crate::proofs::Status::status, crate::proofs::Status::links, crate::proofs::Status::links_set))]
pub fn status_and_links_are_reported()
    ensures status { StatusTellsOfSteps }
    ensures links { LinksTellsTheLink }
    ensures set { LinksTellsTheLinkSet }
{}

/// A receive step that writes a slot of queue q advances RDH[q] bits 15 to 0 to the next slot: the next number, or 0
/// after the ring's last slot. The ring has one slot for each 16 bytes of its length, RDLEN[q] bits 19 to 0. A transmit
/// step that is done advances TDH[q] in the same way, according to TDLEN[q], whether or not a frame is sent.
#[tactic(auto, using(crate::proofs::Heads::heads))]
pub fn heads_move_on()
    ensures { HeadsMoveOn }
{}

/// If queue q belongs to no virtual function, the end of a received frame on q raises the cause in EICR that byte 2(q
/// mod 2) of IVAR[q/2] names. A transmit report for q raises the cause that the next byte names. For queue x of virtual
/// function v with k queues, byte 2(x mod 2) of PVTIVAR[v*k/2 + x/2] and the next byte name the causes in the same way.
/// These causes are in PVTEICR[v]. A byte names a cause only if its bit 7 is 1: the cause in its bits 5 to 0, at most
/// 15 in EICR, at most 2 in PVTEICR[v]. No other bit of EICR, EIMS, EIAC and EIAM changes, in any group.
#[tactic(auto, using(crate::proofs::Raising::ivar_names, crate::proofs::Raising::pvtivar_names))]
pub fn vectors_name_causes()
    ensures ivar { IvarNamesCauses }
    ensures pvtivar { PvtivarNamesCauses }
{}

/// An arriving frame that finds the list full raises cause 17 of EICR, at 0x00800. A fault of a receive or transmit
/// step raises cause 18, and a link change cause 20. No other cause or mask changes, and no other arrival or `Link`
/// event raises a cause.
#[tactic(auto, using(crate::proofs::Raised::by_number))]
pub fn device_raises_by_number()
    ensures { DeviceRaisesByNumber }
{}

/// A frame that is completely written on queue q is counted in QPRC[n], where n is in bits 8(q mod 4)+3 to 8(q mod 4)
/// of RQSMR[q/4]. A frame that is dropped because no descriptor was free is counted in QPRDC[n]. A transmitted frame is
/// counted in QPTC[m], where m is in the same bits of TQSM[q/4]. The counter then reads one more, at most 0xFFFFFFFF;
/// the other 15 counters with the same name are unchanged.
#[tactic(auto, using(crate::proofs::Counters::mappings))]
pub fn mappings_name_counters()
    ensures { MappingsNameCounters }
{}

/// While VT_CTL bit 0 is 1 and bit p mod 32 of VFTE[p/32] is 0, a transmit step for a queue in pool p is idle and
/// changes nothing.
pub fn vfte_mutes_pools()
    ensures { VfteMutesPools }
{}

/// A mask that is set stays set until one of these events: a write to EIMC or PVTEIMC with the bit set; a read of EICR
/// or PVTEICR while the auto-mask contains the bit and applies to accesses; a write to EICR or PVTEICR with the bit
/// set, under the same condition; a message of the group while GPIE bit 30 is 1 and the auto-mask contains the bit; or
/// a reset of the device or of the function's pool.
#[tactic(auto, using(crate::proofs::Lasting::masks_last))]
pub fn masks_last()
    ensures { MasksLast }
{}

/// A bit that a message reported is marked as reported. The bit isn't reported again until its cause or its mask reads
/// 0, or the device or the function's pool is reset. Every other event, including a write to EIMS, leaves the mark of
/// each bit whose cause and mask then read 1. A message step marks the bit that it reports, and no other bit. Apart
/// from these resets, no other event marks a bit.
pub fn marks_last()
    ensures last { MarksLast }
    ensures made { MessagesMark }
{}

/// A write to a plain read/write register doesn't change what other registers read, or anything else in the device.
/// EIAC, EIAM and the 128 EITR are plain, and so are PVTEIAC and PVTEIAM. EITR stores all 32 bits, and no reply to an
/// interrupt step depends on it.
#[tactic(auto, using(crate::proofs::Plain::plain_alone, crate::proofs::Plain::plain, crate::proofs::Plain::no_effect))]
pub fn plain_writes_are_alone()
    ensures alone { PlainWriteIsAlone }
    ensures plain { ArePlain }
    ensures timers { TimersHaveNoEffect }
{}

/// CTRL_EXT reads 0 in a new device and stores all 32 written bits; a read of CTRL_EXT changes nothing. A write to
/// CTRL_EXT doesn't change what other registers read, except PVFMAILBOX and PFMAILBOX. If the write has bit 14 clear,
/// these two registers also read as before, and the rest of the device stays unchanged.
pub fn ctrl_ext_keeps_what_is_written()
    ensures begins { ExtendedBeginsAtZero }
    ensures keeps { ExtendedKeepsWhatIsWritten }
{}

/// While VT_CTL bit 0 is 1, an accepted frame is appended to the receive list with its bytes, for a queue of its pool
/// p. Pool p is below 64, and bit p mod 32 of VFRE[p/32] is 1. The pool is the lowest pool of the first address that is
/// the frame's destination, or the default pool. The code in MRQC bits 3 to 0 selects the queue: with code 8, queue 2p;
/// with 10, one of queues 4p to 4p + 3; with 11, queue 2p or 2p + 1. But while GCR_EXT selects 16 pools, the queue is
/// 8p with code 8, and one of queues 8p to 8p + 7 with 10 or 11. With any code except these and 1, the frame goes to
/// queue 0, whatever the pool.
#[tactic(auto, using(crate::proofs::Arriving::lets_in))]
pub fn vfre_lets_into_pools()
    ensures { VfreLetsIntoPools }
{}

/// No bit of EICR, EIMS, EIAC and EIAM reads as 1 except bits 0 to 30, and no bit of PVTEICR, PVTEIMS, PVTEIAC and
/// PVTEIAM except bits 0 to 2.
#[tactic(auto, using(crate::proofs::OtherBits::other_bits))]
pub fn other_bits_read_zero()
    ensures { OtherBitsReadZero }
{}
