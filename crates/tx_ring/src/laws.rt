//! What the device and a driver can rely on when a descriptor is fetched. Each function is a theorem: its body does
//! nothing, and its contract states what follows from the definitions that the contract of `fetch` cites.

ghost use Rattle.tx_ring.specs.Laws.{TestLaw, FaultChangesNothing, SlotLaw, PacketLaw, DriverReads, WritesInsideReport, FetchKeepsBlocks, ReportLaw, ReportsInOneBlock, DoneChangesDoneAlone};

/// The first test that fails determines the fault. The tests check, in order: head and tail in the ring; descriptor
/// lent; advanced format; known type. For a data descriptor, four more tests follow, in order: no offload; frame within
/// the limit; the buffer's bytes lent; the bytes of a requested write-back lent. If no test fails, the descriptor is
/// completed. A fault changes neither the memory nor the staged bytes.
pub fn faults()
    ensures order { TestLaw }
    ensures unchanged { FaultChangesNothing }
{}

/// The fetched slot is the one at the head, and the head advances to the next slot of the ring. Its descriptor was
/// either a context descriptor, which has no other effect, or a data descriptor that passed its tests.
pub fn slot()
    ensures { SlotLaw }
{}

/// The frame that is sent at the end of a packet consists of the bytes of the packet's data descriptors, in order. It
/// is padded with zeros to 60 bytes if short frames are padded when the last descriptor is fetched. Afterwards, no
/// bytes are staged.
pub fn packet()
    ensures { PacketLaw }
{}

/// Suppose that each lent block is whole and a slot was reported. If the queue has a head write-back address, a driver
/// reads the new head there. Otherwise the driver reads the descriptor with its done bit set and every other bit
/// unchanged.
pub fn read_back()
    ensures { DriverReads }
{}

/// A slot is reported if and only if a data descriptor requests a report (RS). The report goes to the head write-back
/// address or, if the queue has none, into the slot's descriptor. If the ring's base is a multiple of 16 and the head
/// write-back address is a multiple of 4, the bytes written back are within one block. If both halves of a descriptor
/// are below 2^64, the done descriptor differs from its earlier value only in DD.
pub fn reports()
    ensures address { ReportLaw }
    ensures block { ReportsInOneBlock }
    ensures done { DoneChangesDoneAlone }
{}

/// Fetching a slot changes only the bytes that are written back. Whether or not the slot is fetched, the same blocks
/// remain lent, and each keeps its length of 2,048 bytes.
pub fn elsewhere()
    ensures bytes { WritesInsideReport }
    ensures blocks { FetchKeepsBlocks }
{}
