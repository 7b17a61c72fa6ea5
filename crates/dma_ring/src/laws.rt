//! Laws of a ring and its descriptors. A law is the contract of a function with an empty body.

ghost use Rattle.dma_ring.specs.Driver.{PostedIsTheBuffer, ReportedIsRead, DataIsAsked};
ghost use Rattle.dma_ring.specs.Laws.{AvailableSlotsFollowTheHead, SlotsAreApart, SlotsAreInBlocks, RingIsInBlock, HalvesComeBack, PacketIsReported, PieceIsReported, CommandIsAsked, DoneIsSet};

/// Suppose that a ring's head and tail are slots of the ring. If they are equal, the device owns no slot. Otherwise the
/// device owns the slot at the head, and all slots that it still owns after the head advances.
pub fn available_slots_follow_the_head()
    ensures { AvailableSlotsFollowTheHead }
{}

/// Two slots of a ring shorter than 2^20 bytes don't overlap, even if addresses wrap. If slot 0 is at a multiple of 16,
/// no slot crosses the end of a block. RDBAL and TDBAL ensure that slot 0 is at a multiple of 128. A ring of at most
/// 128 slots that begins at the start of a block is within that block.
pub fn slots_are_apart()
    ensures apart { SlotsAreApart }
    ensures blocks { SlotsAreInBlocks }
    ensures ring { RingIsInBlock }
{}

/// A descriptor made from two 64-bit halves is 16 bytes long, and both halves are read back from it.
pub fn halves_come_back()
    ensures { HalvesComeBack }
{}

/// A written-back descriptor reports each value in its own bits. If the RSS type is below 16 and the hash is below
/// 2^32, each field of the packet is in its own bits of the first half, and the other bits are 0. If the piece is
/// shorter than 65,536 bytes, the second half reports that the descriptor is done, whether the packet ends with the
/// piece, and the number of bytes. Bits 31:2 and 63:48 of the second half are then 0.
pub fn receive_fields()
    ensures packet { PacketIsReported }
    ensures piece { PieceIsReported }
{}

/// The device reads each field of a command from the bits that the datasheet assigns to it. Setting the done bit
/// changes no other bit.
pub fn transmit_fields()
    ensures command { CommandIsAsked }
    ensures done { DoneIsSet }
{}

/// The driver and the device each read what the other wrote. If a driver posts an even buffer address, the device reads
/// this address from the posted word. If the RSS type is below 16 and the hash is below 2^32, the driver reads the type
/// and the hash that the device reported. Suppose that a driver writes a data descriptor for fewer than 65,536 bytes of
/// a packet shorter than 2^18 bytes. Then the device reads the driver's command from the descriptor. The descriptor
/// isn't done, its IFCS is 1, and PAYLEN contains the packet's length.
pub fn driver_and_device_agree()
    ensures posted { PostedIsTheBuffer }
    ensures reported { ReportedIsRead }
    ensures asked { DataIsAsked }
{}
