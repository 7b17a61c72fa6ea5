//! Laws of histories. The functions do nothing at run time; their contracts state facts about the definitions that the
//! contracts of this crate use.

ghost use Rattle.device_lock.specs.Laws.{LegalIsReplies, LeadsToStateAfter};

/// A history is legal if and only if its replies are the device's replies when the history's events run in order. The
/// history leads to the state that this run leads to.
pub fn history_is_a_run()
    ensures replies { LegalIsReplies }
    ensures state { LeadsToStateAfter }
{}
