//! The laws of packet memory, for proofs in dependent crates. Each function is a theorem: it does nothing when it runs,
//! and what it ensures holds for the definitions that this crate's contracts cite.

ghost use Rattle.dma_arena.specs.Laws.{LentByBlocks, LentEnds, ReadsBytes, ReadsBack, ReadsApart, WritesInside, WriteKeepsBlocks, MovesApart, WriteAvoids, BlockLaw, PutLaw, OwnsItsNumbers, ChangeLaw, CountLaw, GivenBack, CutLaw, LowestLaw, RunLaw, InsideAvoids, ReadsItsBlock};
ghost use Rattle.dma_arena.specs.Whereabouts.{MovesKeepEachOnce, RunsKeepEachOnce};

/// A range of bus addresses is lent if and only if each block that it touches is lent. A nonempty lent range doesn't
/// extend past block 65,535, so no address in it wraps.
pub fn lent_range()
    ensures blocks { LentByBlocks }
    ensures end { LentEnds }
{}

/// A read returns the bytes at the addresses in its range, in address order.
pub fn read()
    ensures { ReadsBytes }
{}

/// A read of a lent range that was just written returns the bytes that were written.
pub fn read_after_write()
    ensures { ReadsBack }
{}

/// A write doesn't change what is read from a range that shares no byte with it.
pub fn read_apart()
    ensures { ReadsApart }
{}

/// A write changes no byte outside its range. A write changes neither which blocks are lent nor their length of 2,048
/// bytes. A write changes no block that its range doesn't touch.
pub fn write()
    ensures bytes { WritesInside }
    ensures blocks { WriteKeepsBlocks }
    ensures avoided { WriteAvoids }
{}

/// Lending or taking a block changes no byte of another block.
pub fn lend_and_take()
    ensures { MovesApart }
{}

/// Within one lent block, every range is lent, a read returns the block's bytes in that range, and a write replaces
/// these bytes and changes nothing else.
pub fn inside_block()
    ensures { BlockLaw }
{}

/// A range within one block touches no other block. Whether such a range is lent, and what a read of the range returns,
/// depends only on that block.
pub fn block_apart()
    ensures avoided { InsideAvoids }
    ensures read { ReadsItsBlock }
{}

/// If bytes that fit are put into a block at an index, the block then contains them there, and the rest of the block is
/// unchanged.
pub fn put()
    ensures { PutLaw }
{}

/// A new arena owns exactly its numbers, and all of them are free. Taking or giving a block changes only whether its
/// number is free; it changes neither another number nor which numbers are owned. The count of free blocks is 0 if and
/// only if no block is free, and changes by one with each block taken or given. All blocks are free if and only if each
/// owned number is free.
pub fn numbers()
    ensures own { OwnsItsNumbers }
    ensures change { ChangeLaw }
    ensures count { CountLaw }
{}

/// Taking a block and giving it back leaves the arena as it was. A split partitions the numbers: each is in exactly one
/// half.
pub fn numbers_stay()
    ensures given_back { GivenBack }
    ensures parted { CutLaw }
{}

/// If arenas share no number, each block of an arena is in exactly one place: free, owned or lent. This holds for a new
/// arena, and remains true when a block is taken, given, lent or taken back. It also remains true when a foreign block
/// is received or returned to its own arena, and when an arena is split.
pub fn each_block_once()
    ensures { MovesKeepEachOnce }
{}

/// The run that is found in an arena is the arena's lowest free run. Taking it changes only the run's numbers. Each
/// block of the arena stays in exactly one place when a run is taken, and when a block leaves the run.
pub fn runs()
    ensures lowest { LowestLaw }
    ensures taken { RunLaw }
    ensures each_once { RunsKeepEachOnce }
{}
