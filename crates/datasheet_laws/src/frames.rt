//! Laws about frames and memory, in terms of register bits. They go beyond the definitions that the contracts of
//! `nic_device` cite.
//!
//! Each law is the contract of a function that does nothing. The law names registers by their words and bits, as the
//! datasheet does. So it is independent of the definition of a step, and doesn't repeat that definition.

ghost use Rattle.datasheet_laws.specs.Arrival.{ArrivingHasAnOrder, FramesJoinLast};
ghost use Rattle.datasheet_laws.specs.Faults.{SlotsHaveTheirFaults};
ghost use Rattle.datasheet_laws.specs.Link.{LinkChangesRaise, OldestIsCollected};
ghost use Rattle.datasheet_laws.specs.Memory.{MemoryCallsAnswer, PokedIsPeeked, LentIsPeeked, TakenIsAsPeeked};
ghost use Rattle.datasheet_laws.specs.FramePoolResets.{PoolResetsDropFrames};
ghost use Rattle.datasheet_laws.specs.FrameQueues.{QueuesGoByMrqc};
ghost use Rattle.datasheet_laws.specs.Receiving.{ReceivedForAReason, EachReasonIsMet, FramesLeaveAtTheirEnd};
ghost use Rattle.datasheet_laws.specs.Receiving.{SlotsAreWrittenAtHead};
ghost use Rattle.datasheet_laws.specs.Switching.{SwitchingHasItsReason, SwitchedSideIsAsWanted};
ghost use Rattle.datasheet_laws.specs.Types.{FramesHaveTypes};
ghost use Rattle.datasheet_laws.specs.WrittenBack.{DescriptorsAreWrittenBack};
ghost use Rattle.datasheet_laws.specs.TransmitFaults.{DescriptorsHaveTheirFaults};
ghost use Rattle.datasheet_laws.specs.Reports.{ReportsAreWrittenBack};
ghost use Rattle.datasheet_laws.specs.Transmitting.{SilenceHasItsReasons, FramesGoOutWhole};

/// An arriving frame is dropped for the first of these reasons that applies. `LinkDown`: the link is down. `Off`:
/// RXCTRL bit 0 is 0. `Short`: the frame is shorter than 60 bytes. `Long`: the frame is longer than the limit, which is
/// 1,514 bytes, or MAXFRS bits 31 to 16 minus 4 while HLREG0 bit 2 is 1. `Filter`: its destination doesn't pass the
/// filter. `NoPool`: VT_CTL bit 0 is 1, and the frame has no pool, or a pool without queues (see below). `PoolOff`:
/// VT_CTL bit 0 is 1, and the pool's bit in VFRE is 0. `Full`: the receive list is full. Otherwise the frame is
/// accepted.
///
/// Pools above 15 have no queues while GCR_EXT bits 1 to 0 are 1 and MRQC bits 3 to 0 are 8, 0xA or 0xB. Pools above 31
/// have no queues while GCR_EXT bits 1 to 0 aren't 1 and MRQC bits 3 to 0 are 0xA.
#[tactic(auto, using(crate::proofs::FramesArriving::arriving_order))]
pub fn arriving_has_an_order()
    ensures { ArrivingHasAnOrder }
{}

/// An accepted frame is appended to the receive list, with its bytes and with the queue, hash and RSS type that the
/// filter selected. No part of the frame is written yet. A frame that isn't accepted leaves the list unchanged.
#[tactic(auto, using(crate::proofs::Joining::joins_last))]
pub fn frames_join_last()
    ensures { FramesJoinLast }
{}

/// The code in MRQC bits 3 to 0 selects the queue of an accepted frame. With code 1, the frame's entry in the
/// redirection table names the queue. With code 8, the frame goes to the first queue of its pool p. With code 0xA or
/// 0xB, the entry selects one of the pool's queues. While GCR_EXT bits 1 to 0 are 1, the pool's queues are 8p to 8p +
/// 7. Otherwise they are 4p to 4p + 3 with code 0xA, and 2p and 2p + 1 with code 8 or 0xB. With any other code, the
/// frame goes to queue 0, with RSS type 0 and hash 0. While VT_CTL bit 0 is 0, the frame's pool is pool 0, whatever
/// VFRE contains. While VT_CTL bit 0 is 1, the frame has its own pool. That pool has queues and its bit in VFRE is 1,
/// whatever the code.
#[tactic(auto, using(crate::proofs::Queues::queues_by_mrqc))]
pub fn queues_go_by_mrqc()
    ensures { QueuesGoByMrqc }
{}

/// MRQC and the bytes of an accepted frame determine the frame's RSS type. While MRQC bits 3 to 0 are 1, 0xA or 0xB,
/// other bits of MRQC select the type; otherwise the type is 0. TCP over IPv4 has type 1 if bit 16 is 1, and UDP over
/// IPv4 has type 7 if bit 22 is 1. TCP over IPv6 has type 3 if bit 21 is 1, and UDP over IPv6 has type 8 if bit 23 is
/// 1. If none of these applies, IPv4 has type 2 if bit 17 is 1, and IPv6 has type 5 if bit 20 is 1. Any other frame has
/// type 0.
///
/// An IPv4 frame has 0x0800 in bytes 12 and 13, version 4 in byte 14, and a complete header of at least 20 bytes. An
/// IPv6 frame has 0x86DD in bytes 12 and 13, version 6 in byte 14, and a complete 40-byte header. The protocol is 6 for
/// TCP and 17 for UDP. It is in byte 23 of an IPv4 packet that isn't a fragment, or in byte 20 of an IPv6 packet; the
/// four bytes of the ports are present. While RXCSUM bit 13 is 1, the hash, with the key in RSSRK, covers the source
/// and destination addresses. For types 1, 7, 3 and 8 the hash also covers the ports; for type 0 it covers no bytes.
/// While RXCSUM bit 13 is 0, the hash is 0.
#[tactic(auto, using(crate::proofs::Types::have_types))]
pub fn frames_have_types()
    ensures { FramesHaveTypes }
{}

/// A receive step is idle if and only if CTRL bit 2 is 1, the receive list is empty, or the oldest frame keeps waiting.
/// If bit 25 of RXDCTL for the frame's queue is 0, the oldest frame is dropped (`QueueOff`). If the queue is enabled
/// but has no free descriptor (RDH equals RDT inside the ring), the frame is dropped or keeps waiting. It is dropped
/// (`NoSlot`) if SRRCTL bit 28 is 1 and no part of the frame is written; otherwise the frame keeps waiting, and nothing
/// changes. In every other case the step writes a slot, or the slot has a fault.
#[tactic(auto, using(crate::proofs::Receiving::received_so, crate::proofs::Receiving::reasons_met))]
pub fn receiving_has_its_reasons()
    ensures reason { ReceivedForAReason }
    ensures met { EachReasonIsMet }
{}

/// A receive step removes the oldest frame from the receive list if and only if the step writes the frame's last byte,
/// drops the frame, or has a fault; the other frames are unchanged. If the step writes a part of the frame that isn't
/// the last, the frame stays at the front. The frame's offset advances by the number of written bytes, at least one,
/// and some bytes remain.
#[tactic(auto, using(crate::proofs::Leaving::leaves_at_end))]
pub fn frames_leave_at_their_end()
    ensures { FramesLeaveAtTheirEnd }
{}

/// A receive step writes only the slot at the head: the slot's number n is RDH. The slot's descriptor is 16n bytes
/// after the base in RDBAH and RDBAL, modulo 2^64, and SRRCTL bits 27 to 25 are 1. The frame's bytes go to the buffer
/// whose address is in the descriptor, with bit 0 ignored. They are at most as many KB as SRRCTL bits 4 to 0 say, and
/// exactly that many if the frame doesn't end in this slot.
pub fn slots_are_written_at_the_head()
    ensures { SlotsAreWrittenAtHead }
{}

/// A receive step that processes a slot writes as many of the remaining bytes as fit into the buffer if and only if
/// three conditions hold. First, head and tail are slots of the ring. Second, SRRCTL bits 27 to 25 are 1, and bits 4 to
/// 0 aren't 0. Third, the slot's descriptor and the buffer's bytes to be written are lent. Otherwise the slot has the
/// first fault that applies: `Outside` for head or tail, `DescType` for the descriptor type, `NoBufferSize` for the
/// buffer size, `NotLent` with the descriptor's address, `NotLent` with the buffer's address.
#[tactic(auto, using(crate::proofs::Faults::slots_so))]
pub fn slots_have_their_faults()
    ensures { SlotsHaveTheirFaults }
{}

/// A receive step that writes a slot overwrites the 16 bytes of the slot's descriptor. Byte 0 contains the RSS type in
/// bits 3 to 0, IPv4 in bit 4 and IPv6 in bit 6. Byte 1 contains TCP in bit 0 and UDP in bit 1. The hash is in bytes 4
/// to 7. Byte 8 contains DD in bit 0 and EOP in bit 1. The number of bytes is in bytes 12 and 13, the lower byte first.
/// All other bits are 0. The buffer is at the address that the descriptor had in bytes 0 to 7, with bit 0 ignored. If
/// the buffer shares no byte with the descriptor, it contains the next bytes of the frame.
pub fn descriptors_are_written_back()
    ensures { DescriptorsAreWrittenBack }
{}

/// A transmit step for queue 128 or above gets the reply `NoQueue`. A transmit step for a queue below 128 is idle if
/// and only if one of these holds: CTRL bit 2 is 1; the link is down; DMATXCTL bit 0 is 0; TXDCTL bit 25 is 0; TDH
/// equals TDT inside the ring; or the queue's pool is muted. GCR_EXT bits 1 to 0 divide the queues into pools. A pool
/// is muted while VT_CTL bit 0 is 1 and the pool's bit in VFTE is 0. A step that gets `NoQueue` or is idle changes
/// nothing.
#[tactic(auto, using(crate::proofs::Silence::silence_reasons))]
pub fn silence_has_its_reasons()
    ensures { SilenceHasItsReasons }
{}

/// A transmit descriptor contains its buffer's address in bytes 0 to 7 and the buffer's length in bytes 8 and 9, both
/// with the lowest byte first. The descriptor's type is in byte 10 bits 7 to 4. EOP, RS, DEXT, VLE and TSE are bits 0,
/// 3, 5, 6 and 7 of byte 11, and POPTS is byte 13 bits 5 to 0. IFCS and PAYLEN have no effect.
///
/// A descriptor that a step processes has the first fault that applies. `Outside`: TDH or TDT isn't a slot of the ring
/// in TDLEN bits 19 to 0. `NotLent` with the descriptor's address: the descriptor isn't lent. `Legacy`: DEXT is 0.
/// `UnknownType`: the type is neither 2 nor 3. The remaining faults are only for type 3. `Offload`: VLE, TSE or POPTS
/// isn't 0. `TooLong`: the staged bytes and the length together exceed the frame limit, which is 1,514 bytes, or MAXFRS
/// bits 31 to 16 minus 4 while HLREG0 bit 2 is 1. `NotLent` with the buffer's address: the buffer isn't lent. If RS is
/// 1, `NotLent` with the report's address: the report's bytes aren't lent. If TDWBAL bit 0 is 1, these are the 4 bytes
/// at the address in TDWBAH and TDWBAL bits 31 to 2; otherwise they are the 16 bytes of the descriptor. Without a
/// fault, the descriptor is done. A descriptor of type 3 sends a frame if EOP is 1, and no frame if EOP is 0.
#[tactic(auto, using(crate::proofs::TransmitFaults::faults_so))]
pub fn descriptors_have_their_faults()
    ensures { DescriptorsHaveTheirFaults }
{}

/// A transmit step that is done writes nothing back if RS is 0 or the descriptor is of type 2. If RS is 1 and TDWBAL
/// bit 0 is 1, the step writes the new head as 4 bytes, the lowest first, to the address in TDWBAH and TDWBAL bits 31
/// to 2. The new head is the slot after TDH, or 0 after the last slot. If RS is 1 and TDWBAL bit 0 is 0, the step
/// writes the descriptor with bit 0 of byte 12, DD, set, and all other bits unchanged. The reply names the step's own
/// queue, and, if no frame is sent, the slot in TDH bits 15 to 0.
#[tactic(auto, using(crate::proofs::Reports::reports_so))]
pub fn reports_are_written_back()
    ensures { ReportsAreWrittenBack }
{}

/// A transmitted frame consists of the bytes that its queue staged, followed by the bytes in the buffer of the
/// descriptor at the head. This descriptor is of type 3 with EOP. While HLREG0 bit 10 is 1, the frame is padded with
/// zero bytes to 60 bytes. The frame has the reported length and is appended to the transmitted frames. Nothing is
/// staged afterwards. If a descriptor of type 3 has no EOP, the bytes in its buffer are staged after those already
/// staged. A descriptor of type 2 stages nothing, and a fault drops the staged bytes. None of these three cases changes
/// the transmitted frames.
#[tactic(auto, using(crate::proofs::Fetched::goes_out_whole))]
pub fn frames_go_out_whole()
    ensures { FramesGoOutWhole }
{}

/// An enable step for queue 128 or above gets the reply `NoQueue`. An enable step for a queue below 128 is done or
/// idle. The step is done if and only if CTRL bit 2 is 0 and bit 25 of RXDCTL or TXDCTL doesn't have its requested
/// value. Only a step that is done changes anything.
#[tactic(auto, using(crate::proofs::Switching::switching_reasons))]
pub fn switching_has_its_reason()
    ensures { SwitchingHasItsReason }
{}

/// After an enable step that is done, bit 25 of RXDCTL or TXDCTL has its requested value, and no other bit of that
/// register has changed. A receive side that becomes disabled loses the oldest frame if part of the frame is written on
/// that queue, and loses no other frame. A transmit side that becomes disabled loses its staged bytes. A side that
/// becomes enabled loses nothing.
pub fn switched_side_is_as_wanted()
    ensures { SwitchedSideIsAsWanted }
{}

/// A write to PVFCTRL[v] with bit 26 set, through either port, drops the frames for pool v's queues from the receive
/// list, even partly written ones. The write also drops the bytes that these queues staged. Pool v's queues are 8v to
/// 8v + 7 if GCR_EXT bits 1 to 0 are 1, 4v to 4v + 3 if they are 2, and 2v and 2v + 1 if they are 3. If they are 0, the
/// pool has no queues. The frames for all other queues stay in order, and the other queues keep their staged bytes.
/// Lent memory, the transmitted frames and the link are unchanged.
#[tactic(auto, using(crate::proofs::FramePoolResets::resets_drop))]
pub fn pool_resets_drop_their_frames()
    ensures { PoolResetsDropFrames }
{}

/// Setting the link to its current state gets the reply `Idle` and changes nothing. A link change gets the reply
/// `Done`, sets bit 20 of EICR, and leaves all other bits 30 to 0 of EICR unchanged.
#[tactic(auto, using(crate::proofs::Link::link_raises))]
pub fn link_changes_raise()
    ensures { LinkChangesRaise }
{}

/// A `Collect` returns the oldest transmitted frame with its queue and removes the frame from the list; the other
/// frames stay. If and only if no transmitted frame is in the list, the `Collect` is idle and changes nothing.
#[tactic(auto, using(crate::proofs::Link::oldest_out))]
pub fn oldest_is_collected()
    ensures { OldestIsCollected }
{}

/// Lending a block succeeds if and only if no block with its number is lent; otherwise the block is handed back. A
/// `Take` gets the reply `NotLent` and changes nothing if and only if the block isn't lent. The same holds for a
/// `Peek16` or a `Poke16` at a multiple of 16, for the block that contains this address. A `Take` returns a lent block
/// with its current bytes; the block is then no longer lent. A `Peek16` at a multiple of 16 returns 16 bytes of a lent
/// block and changes nothing.
#[tactic(auto, using(crate::proofs::Memory::calls_answer))]
pub fn memory_calls_answer()
    ensures { MemoryCallsAnswer }
{}

/// Right after a `Poke16` that is done, a `Peek16` at the same address returns the written bytes. A `Peek16` that
/// shares no byte with the `Poke16` gets the same reply as before the `Poke16`. In a block that was just lent, a
/// `Peek16` returns the block's bytes. A block that is taken back contains the bytes that `Peek16` returned before,
/// whether the driver or the device wrote them.
pub fn memory_shows_what_is_written()
    ensures poked { PokedIsPeeked }
    ensures lent { LentIsPeeked }
    ensures taken { TakenIsAsPeeked }
{}
