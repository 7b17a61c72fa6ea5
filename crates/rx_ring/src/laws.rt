//! What the device and a driver can rely on when a descriptor is filled. Each function is a theorem: its body does
//! nothing, and its contract states what follows from the definitions that the contract of `fill` cites.

ghost use Rattle.rx_ring.specs.Laws.{TestLaw, FaultWritesNothing, HealthyIsFilled, PieceLaw, DriverReads, WritesInsideSlot, FillKeepsBlocks, FillsTwoBlocks};
ghost use Rattle.rx_ring.specs.Frames.{PiecesMakeFrame};

/// The first test that fails determines the fault. The tests check, in order: head and tail in the ring; descriptor
/// type 1; nonzero buffer size; descriptor lent; bytes to be written in the buffer lent. If no test fails, the slot is
/// filled. A fault writes no memory.
pub fn faults()
    ensures order { TestLaw }
    ensures memory { FaultWritesNothing }
{}

/// For every frame, a slot is filled if the head and the tail are in the ring, the queue's descriptors have one buffer,
/// the buffer size isn't 0, and the descriptor and the whole buffer are lent.
pub fn healthy()
    ensures { HealthyIsFilled }
{}

/// The filled slot is the one at the head, and the head advances to the next slot of the ring. The buffer receives as
/// many of the frame's remaining bytes as fit, at least one byte if any remain. The frame ends in this buffer if and
/// only if no bytes of the frame remain afterwards.
pub fn piece()
    ensures { PieceLaw }
{}

/// Suppose that each lent block is whole and the first half is below 2^64. Then a driver reads a filled slot as
/// follows. The descriptor is done, has EOP set if and only if the frame ends, and contains the number of written bytes
/// and the first half. The buffer contains the written bytes, if they don't overlap the descriptor.
pub fn read_back()
    ensures { DriverReads }
{}

/// The pieces that a driver reads, joined in order, are a prefix of the frame. This requires that, at every fill, each
/// lent block is whole and the buffer doesn't overlap its descriptor. It also requires that the first half is below
/// 2^64. A piece has EOP if and only if it completes the frame, and then no piece follows. Each piece's descriptor has
/// the same first half, which reports the packet.
pub fn frames()
    ensures { PiecesMakeFrame }
{}

/// Filling a slot changes no byte outside the descriptor and the written bytes of the buffer. Whether or not the slot
/// is filled, the same blocks remain lent, and each keeps its length of 2,048 bytes. If the descriptor is within one
/// block and the written bytes are within one block, every other block is unchanged. If these two blocks differ, one
/// changes only in the descriptor and the other only in the written bytes.
pub fn elsewhere()
    ensures bytes { WritesInsideSlot }
    ensures blocks { FillKeepsBlocks }
    ensures whole { FillsTwoBlocks }
{}
