//! Laws about all registers together. They go beyond the definitions that the contracts of `register_file` cite.
//!
//! Each law is the contract of a function with an empty body. The law holds for the definitions that specify the
//! operations of `register_file::RegisterFile`. The footprint of an operation is what the operation can change. Each
//! place has one owner, and an access changes nothing that belongs to another owner. The laws treat a side of a queue,
//! and the interrupts of a group, as one value; a change outside that value leaves it unchanged. Registers stay sound.
//! The device core uses these laws to prove its own soundness, and the laws about the device use them too.
#![tactic(auto)]

ghost use Rattle.register_laws.specs.Laws.{ResetIsSound, ReadKeepsSound, WriteKeepsSound, CountKeepsSound, CountWrappingKeepsSound, AnswerKeepsSound, RaiseKeepsSound, QueueRaiseKeepsSound, MessageKeepsSound, HeadKeepsSound, SwitchKeepsSound, ShutKeepsSound, ResetGivesResetValues, ResetSwitchesOff, ResetTellsNothing, PutWordIsThere, PutWordIsAlone, GroupBitsAreMasks, StoredWordReadsBack, ReadStaysWithin, WriteStaysWithin, CountStaysWithin, CountWrappingStaysWithin, AnswerStaysWithin, RaiseStaysWithin, QueueRaiseStaysWithin, MessageStaysWithin, HeadStaysWithin, SwitchStaysWithin, ShutStaysWithin, ReadStaysWithOwner, WriteStaysWithOwner, OwnersAreApart, OwnersDiffer, WordIsOnePlace, PendingIsPending, CountersAreTheirOwn, PendingMissesSides, ReadMissesSides, MissedReceiveStands, MissedTransmitStands, MissedInterruptsStand, MissedSettingsStand, HeadMovesReceive, HeadMovesTransmit, SwitchObeysReceive, SwitchObeysTransmit, SwitchedSideStays, ShutIsOffReceive, ShutIsOffTransmit, RingIsHeldWhileOn, WrittenReceiveIsTheSides, WrittenTransmitIsTheSides, EnableWriteAsksReceive, EnableWriteAsksTransmit, EnableReadTellsOn, CountersCount, ReadOnlyCountersGoRound, CalculatedRowsHaveFormulas, EepromAnswerIsRead, InterruptsStand};
ghost use Rattle.register_laws.specs.SoundWords.{SoundWordsAreSmall, ActingWordsAreNone, NoWordAsksReset, RingsAreAligned};
ghost use Rattle.register_laws.specs.PoolReset.{PoolIsReset, PoolResetTakesTheRest, PoolResetStaysWithin, PoolResetKeepsSound};
ghost use Rattle.register_laws.specs.Agreement.{PoolReadsStayWithin, PoolWritesStayWithin, SharedReadsChangeNothing, SharedWritesChangeNothing, PoolReadsTellTheSame, SharedReadsTellTheSame, PoolReadsKeepAgreement, PoolWritesKeepAgreement, PoolResetKeepsAgreement, PoolsHaveNothingInCommon, MissedAgreementStands};

/// Registers are sound after a reset and stay sound through every change. Sound registers have every place in the
/// table. Each word has only bits that its row can have. If a bit is reported, its cause and mask are 1. Each mailbox
/// has at most one holder, and at most one of the two bits that report a reset is 1 in it.
pub fn soundness_is_kept()
    ensures reset { ResetIsSound }
    // A read keeps sound registers sound.
    ensures read { ReadKeepsSound }
    // A write keeps sound registers sound. A reset that the write requests isn't part of the write.
    ensures write { WriteKeepsSound }
    // Incrementing a counter that saturates keeps sound registers sound.
    ensures count { CountKeepsSound }
    // Incrementing a counter that wraps keeps sound registers sound.
    ensures count_wrapping { CountWrappingKeepsSound }
    // An EEPROM reply below 65,536 keeps sound registers sound.
    ensures answer { AnswerKeepsSound }
    // Raising causes keeps sound registers sound.
    ensures raise { RaiseKeepsSound }
    // Raising the cause of a queue's side keeps sound registers sound.
    ensures queue_raise { QueueRaiseKeepsSound }
    // A message keeps sound registers sound.
    ensures message { MessageKeepsSound }
    // Moving a head to a slot below 65,536 keeps sound registers sound.
    ensures head { HeadKeepsSound }
    // Switching a side keeps sound registers sound.
    ensures switch { SwitchKeepsSound }
    // Disabling a side after a fault keeps sound registers sound.
    ensures shut { ShutKeepsSound }
{}

/// Each word of sound registers has 32 bits. If the register only triggers actions or is calculated, its word is 0.
/// Writing a word back to its register never requests a reset: bits 3 and 26 of CTRL are 0. The base and the length of
/// each ring are multiples of 128.
pub fn sound_words_are_of_their_rows()
    ensures small { SoundWordsAreSmall }
    ensures none { ActingWordsAreNone }
    ensures reset { NoWordAsksReset }
    ensures rings { RingsAreAligned }
{}

/// After a reset, each place contains its row's reset value. No side of a queue is enabled or has an enable request,
/// and no bit is reported.
pub fn reset_is_the_tables()
    ensures words { ResetGivesResetValues }
    ensures off { ResetSwitchesOff }
    ensures reported { ResetTellsNothing }
{}

/// After a word is stored at a place, the place contains this word, and everything else is unchanged.
pub fn put_word_is_there()
    ensures there { PutWordIsThere }
    ensures alone { PutWordIsAlone }
{}

/// The bits of an interrupt group are the table's masks of its cause, mask, auto-clear and auto-mask registers.
pub fn group_bits_are_masks()
    ensures { GroupBitsAreMasks }
{}

/// After a write to a plain read/write register, a read returns the written bits that the register's mask has and the
/// address shows. All other bits are unchanged.
pub fn stored_word_reads_back()
    ensures { StoredWordReadsBack }
{}

/// An operation changes only what is in its footprint. A read and a write have the footprint of their place. The
/// footprint of a count, an EEPROM reply or a moved head is one word. The footprint of raised causes or a message is
/// the causes, masks and reported bits of the group. The footprint of a switch is the enable word. The footprint of a
/// fault is the enable word and the side's enable request.
#[tactic(auto, using(crate::proofs::Within::changes_within))]
pub fn changes_stay_in_their_footprint()
    ensures read { ReadStaysWithin }
    // A write changes nothing outside its footprint.
    ensures write { WriteStaysWithin }
    // Incrementing a counter that saturates changes nothing outside its footprint.
    ensures count { CountStaysWithin }
    // Incrementing a counter that wraps changes nothing outside its footprint.
    ensures count_wrapping { CountWrappingStaysWithin }
    // An EEPROM reply changes nothing outside its footprint.
    ensures answer { AnswerStaysWithin }
    // Raising causes changes nothing outside its footprint.
    ensures raise { RaiseStaysWithin }
    // Raising the cause of a queue's side changes nothing outside its footprint.
    ensures queue_raise { QueueRaiseStaysWithin }
    // A message changes nothing outside its footprint.
    ensures message { MessageStaysWithin }
    // Moving a head changes nothing outside its footprint.
    ensures head { HeadStaysWithin }
    // Switching a side changes nothing outside its footprint.
    ensures switch { SwitchStaysWithin }
    // Disabling a side after a fault changes nothing outside its footprint.
    ensures shut { ShutStaysWithin }
{}

/// Every place has an owner. A read changes nothing that belongs to another owner. The same holds for a write that
/// requests no reset, unless it is a write to PVFMAILBOX, PFMAILBOX or CTRL_EXT. Raised causes and messages change only
/// causes, masks and reported bits.
pub fn accesses_stay_with_their_owner()
    ensures read { ReadStaysWithOwner }
    ensures write { WriteStaysWithOwner }
    ensures apart { OwnersAreApart }
    ensures differ { OwnersDiffer }
    ensures word { WordIsOnePlace }
    ensures pending { PendingIsPending }
    ensures counters { CountersAreTheirOwn }
    ensures interrupts { PendingMissesSides }
    ensures no_side { ReadMissesSides }
{}

/// If the footprint of a change contains no part of a side of a queue, the change leaves the side unchanged. The same
/// holds for a group's interrupts, and for settings in single words.
pub fn what_a_footprint_misses_stands()
    ensures receive { MissedReceiveStands }
    ensures transmit { MissedTransmitStands }
    ensures interrupts { MissedInterruptsStand }
    ensures settings { MissedSettingsStand }
{}

/// After a head is moved, the side's ring has that head, and the rest of the side is unchanged.
pub fn moved_head_is_the_head()
    ensures receive { HeadMovesReceive }
    ensures transmit { HeadMovesTransmit }
{}

/// After a switch, a side is enabled or disabled as requested, and the rest of the side is unchanged. Switching a side
/// that is already in its requested state changes nothing.
pub fn switched_side_is_as_wanted()
    ensures receive { SwitchObeysReceive }
    ensures transmit { SwitchObeysTransmit }
    ensures stays { SwitchedSideStays }
{}

/// After a side is shut, it is disabled and has no enable request, and the rest of the side is unchanged.
pub fn shut_side_is_off()
    ensures receive { ShutIsOffReceive }
    ensures transmit { ShutIsOffTransmit }
{}

/// While a side of a queue is enabled, a write to its ring's base, length or head changes nothing.
pub fn ring_is_held_while_on()
    ensures { RingIsHeldWhileOn }
{}

/// After a write to a side's tail, control word or write-back address, the side contains the written value. The same
/// holds for a base, length or head while the side is disabled. Only the bits that the register's mask has and the
/// address shows are written. The rest of the side is unchanged.
pub fn written_word_is_the_sides()
    ensures receive { WrittenReceiveIsTheSides }
    ensures transmit { WrittenTransmitIsTheSides }
{}

/// A write to a side's enable word changes only the side's enable request, to bit 25 of the written word. The side
/// stays enabled or disabled as it was, and its ring is unchanged. When a side's enable word is read, bit 25 shows
/// whether the side is enabled.
pub fn enable_write_only_asks()
    ensures receive { EnableWriteAsksReceive }
    ensures transmit { EnableWriteAsksTransmit }
    ensures read { EnableReadTellsOn }
{}

/// A read of a clear-on-read counter returns the count and sets the counter to 0. Each count adds one, up to the
/// largest word.
pub fn counters_count()
    ensures { CountersCount }
{}

/// A read of a read-only counter returns the count. Each count adds one, and the largest word is followed by 0.
/// Accesses don't change the counter.
pub fn read_only_counters_go_round()
    ensures { ReadOnlyCountersGoRound }
{}

/// Only STATUS, LINKS and EEC are calculated rows. Formulas calculate their values from the registers, the link and the
/// size of the EEPROM image.
#[tactic(auto, using(crate::proofs::Formulas::calculated_rows))]
pub fn calculated_rows_have_formulas()
    ensures { CalculatedRowsHaveFormulas }
{}

/// After an EEPROM reply below 65,536, EERD contains the word of the reply, with the requested index and with DONE set.
/// Afterwards, no word is requested.
pub fn eeprom_answer_is_read()
    ensures { EepromAnswerIsRead }
{}

/// Suppose that a group is below 64, and its new interrupts are 32-bit words with only the group's bits. Also suppose
/// that the cause and the mask of each reported bit are 1. After these interrupts are stored, the group's registers
/// contain their causes, masks and reported bits. The auto-clear and the auto-mask are unchanged.
pub fn interrupts_stand()
    ensures { InterruptsStand }
{}

/// After a pool reset, everything that the pool reset covers is as after a reset of the device. Each word contains its
/// row's reset value, no side of the pool's queues has an enable request, and no interrupt bit of the pool's function
/// is reported. The pool reset covers everything that belongs to the pool, except PFMBMEM and all bits of PVFMAILBOX
/// other than 2, 4 and 5. Everything else is unchanged. Sound registers stay sound.
pub fn reset_pool_is_reset()
    ensures reset { PoolIsReset }
    ensures rest { PoolResetTakesTheRest }
    ensures alone { PoolResetStaysWithin }
    ensures sound { PoolResetKeepsSound }
{}

/// If an access to a pool's register requests no reset, it changes only what belongs to the pool, the bits of the
/// pool's function in PFMBICR, and EICR bit 19. An access to STATUS or LINKS changes nothing.
pub fn pool_accesses_stay_within()
    ensures read { PoolReadsStayWithin }
    ensures write { PoolWritesStayWithin }
    ensures shared_read { SharedReadsChangeNothing }
    ensures shared_write { SharedWritesChangeNothing }
{}

/// If two register files agree in a pool, and their link and EEPROM size are the same, reads of the pool's registers
/// return the same words. If bus mastering is enabled in both register files or in neither, and their link and EEPROM
/// size are the same, reads of STATUS and LINKS return the same words. Two register files that agree in a pool still
/// agree in the pool after the same access to one of the pool's registers, and after the pool's reset.
pub fn pool_accesses_tell_of_the_pool()
    ensures word { PoolReadsTellTheSame }
    ensures shared_word { SharedReadsTellTheSame }
    ensures read { PoolReadsKeepAgreement }
    ensures write { PoolWritesKeepAgreement }
    ensures reset { PoolResetKeepsAgreement }
{}

/// EICR bit 19 is the only bit that both accesses to one pool and accesses to a different pool can change. What
/// accesses to one pool can change has nothing in common with what must agree for the other pool. If register files
/// agree in a part, they still agree in the part after any changes within a footprint that has nothing in common with
/// it.
pub fn pools_have_nothing_in_common()
    ensures apart { PoolsHaveNothingInCommon }
    ensures stands { MissedAgreementStands }
{}
