//! What a driver can rely on. Each function has an empty body; the function's clause is a proved law.

ghost use Rattle.intr_unit.specs.Laws.{SetsHoldTheirBits, MessagesTellDueBits, BitsAreReportedOnce, MaskingLosesNoCause};
ghost use Rattle.intr_unit.specs.Laws.{RaisesChangeBits, ReadsChangeBits, WritesOfOnesChangeBits, MaskSetsChangeBits, MaskClearsChangeBits, MessagesChangeBits, AutoWritesChangeBits, ReportedBitsArePending};

/// A set that is defined by a test contains exactly the bits 0 to 31 that pass the test. The bits of a 32-bit word
/// determine the word.
pub fn sets_hold_their_bits()
    ensures { SetsHoldTheirBits }
{}

/// Each message reports the lowest due bit. A bit is due if its cause and its mask are 1, the bit isn't reported, and
/// the bit is routed. If there is no message, no bit is due.
pub fn messages_tell_due_bits()
    ensures { MessagesTellDueBits }
{}

/// After a message reports a bit, no other message reports that bit while the bit's cause and mask stay 1.
pub fn bits_are_reported_once()
    ensures { BitsAreReportedOnce }
{}

/// Clearing masks loses no cause. Suppose that the same masks are set again, with no other event in between. Each bit
/// whose mask was set again is then due if its cause is 1 and it has a vector, even if it was reported before.
pub fn masking_loses_no_cause()
    ensures { MaskingLosesNoCause }
{}

/// The effect of a raise on each bit: the raised causes that belong to the group are set. If the auto-mask acts, the
/// masks of the raised bits in the auto-mask become 1. A reported bit stays reported if its cause and mask are 1.
pub fn raises_change_bits()
    ensures { RaisesChangeBits }
{}

/// The effect on each bit if the cause register of a consistent group is read: all causes are cleared; for the PF with
/// other-cause clearing, only bits 29 to 16. If the auto-mask acts, exactly the masks in the auto-mask are cleared. A
/// reported bit stays reported if its cause and mask are 1.
pub fn reads_change_bits()
    ensures { ReadsChangeBits }
{}

/// The effect on each bit if ones are written to the cause register: the causes written as 1 are cleared. If the
/// auto-mask acts, the masks of these causes in the auto-mask are cleared. A reported bit stays reported if its cause
/// and mask are 1.
pub fn writes_of_ones_change_bits()
    ensures { WritesOfOnesChangeBits }
{}

/// The effect of mask writes on each bit. A write to the mask register sets the masks written as 1 that the group has.
/// A write to the mask clear register clears the masks written as 1. The other masks and all causes are unchanged. A
/// reported bit stays reported if its cause and mask are 1.
pub fn mask_writes_change_bits()
    ensures set { MaskSetsChangeBits }
    ensures clear { MaskClearsChangeBits }
{}

/// The effect of a message on each bit: only the bit that the message reports changes. The bit's cause is cleared if
/// the bit is in the auto-clear. The bit's mask is cleared if EIAME is 1 and the bit is in the auto-mask. If there is
/// no message, nothing changes.
pub fn messages_change_bits()
    ensures { MessagesChangeBits }
{}

/// The effect on each bit if the auto-clear or the auto-mask is written: that register takes the written bits that the
/// group has, and nothing else changes.
pub fn auto_writes_change_bits()
    ensures { AutoWritesChangeBits }
{}

/// After each access to a consistent group, the cause and the mask of every reported bit are 1.
pub fn reported_bits_are_pending()
    ensures { ReportedBitsArePending }
{}
