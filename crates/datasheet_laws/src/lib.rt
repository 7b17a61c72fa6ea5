//! A second list of the datasheet's numbers: addresses, offsets, masks, reset values and bits. The list is written by
//! hand, independently of the definitions that the contracts of the crates below cite.
//!
//! Each law is the contract of a function that does nothing. A definition that is wrong in the same way as its code
//! would still be proved in its own crate, but breaks a law in this one.
//!
//! The laws in this file are about registers, the filter and the EEPROM. Those in `interrupts` are about interrupts and
//! single registers of the device, and those in `frames` about frames and memory.
#![tactic(auto)]

pub mod frames;
pub mod interrupts;

ghost use Rattle.datasheet_laws.specs.Choice.{TypesAreChosen, QueuesAreChosen, ResetsAreAsked};
ghost use Rattle.datasheet_laws.specs.Eeprom.{ImagesAreByNumber, FilesAreByNumber, WritesAreByNumber};
ghost use Rattle.datasheet_laws.specs.Eeprom.{TextsAreByNumber, TextsHaveFaults, TextsPoint, WordsAreRead, WordsPoint};
ghost use Rattle.datasheet_laws.specs.Filter.{FramesAreLetIn, PoolsAreChosen};
ghost use Rattle.datasheet_laws.specs.Hash.{HashIsOfTheKey};
ghost use Rattle.datasheet_laws.specs.ByKind.{WordsAreStored, RingsAreHeld, KindsAreRead, SidesAreAsked, EepromIsRead};
ghost use Rattle.datasheet_laws.specs.Mailbox.{MailboxesShake, OnesAreCleared, FunctionsRaise, PhysicalRaises};
ghost use Rattle.datasheet_laws.specs.Mailbox.{PoolResetsLeave, OtherBitsStay};
ghost use Rattle.datasheet_laws.specs.Offsets.{OffsetsAreListed, OtherOffsetsAreHoles};
ghost use Rattle.datasheet_laws.specs.Others.{MailboxesLeaveOthers, WritesLeaveOthers};
ghost use Rattle.datasheet_laws.specs.PoolResets.{PoolResetsTake};
ghost use Rattle.datasheet_laws.specs.Settings.{DevicesAreSet, QueuesAreSet, CountersStay};
ghost use Rattle.datasheet_laws.specs.Table.{RegistersAreListed, HasAliases, HasLowViews, OtherAddressesMeetNone};

/// Each register has the name, number of indices, kind, mask and reset value that are listed by hand, and the listed
/// addresses. A register's first addresses show all its bits, and so do the further addresses of CTRL, SRRCTL, RAL,
/// RAH, MRQC, RETA, RSSRK and PSRTYPE. The further addresses of EICS, EIMS, EIMC and EIAM show only bits 15 to 0.
pub fn registers_are_listed()
    ensures lines { RegistersAreListed }
    ensures aliases { HasAliases }
    ensures low { HasLowViews }
{}

/// No other address has a register: each address that has one is listed by hand.
#[tactic(auto, using(crate::proofs::OtherAddresses::others))]
pub fn other_addresses_meet_none()
    ensures { OtherAddressesMeetNone }
{}

/// If virtual function v is below `vfs` and has a pool, each listed offset of it reaches the physical function's
/// address that is listed by hand. This holds with GCR_EXT bits 1 to 0 at 1 (16 pools of 8 queues), 2 (32 of 4) and 3
/// (64 of 2). The list covers the 14 registers that the function has only once, its 16 words of mailbox memory, its
/// vectors, and the 15 registers of each of its queues.
pub fn offsets_are_listed()
    ensures { OffsetsAreListed }
{}

/// Each offset is absent for a function that the device doesn't have, and for a function whose pool is beyond those
/// that GCR_EXT bits 1 to 0 select. For any other function, an offset that isn't listed is a hole.
#[tactic(auto, using(crate::proofs::Holes::holes))]
pub fn other_offsets_are_holes()
    ensures { OtherOffsetsAreHoles }
{}

/// A write to PVFMAILBOX[v], at 0x04C00 + 4v, with bit 2 set takes the mailbox for the function if bit 3 reads 0. If
/// bit 3 reads 1, the write changes neither bit. A write with bit 2 clear releases the mailbox. A write to
/// PFMAILBOX[v], at 0x04B00 + 4v, with bit 4 set frees the mailbox from the function. With bit 3 set, the write takes
/// the mailbox for the physical function if bit 2 reads 0 or is cleared by this write. With bit 3 clear, the write
/// releases the mailbox. Both sides read who holds the mailbox, and all other bits of PFMAILBOX[v] read 0. Bits 0 and 1
/// that are written to PFMAILBOX[v] are read as bits 4 and 5 of PVFMAILBOX[v] until PVFMAILBOX[v] is read once. That
/// read clears only bits 4, 5 and 7.
pub fn mailboxes_shake()
    ensures { MailboxesShake }
{}

/// A write to PVFMAILBOX[v] changes only bit 2 of that register, and a write to PFMAILBOX[v] changes only bits 5 to 2
/// of PVFMAILBOX[v]. Every other bit of the mailbox, and the mailbox of every other function, reads as before. A read
/// of one mailbox leaves the other mailboxes unchanged.
#[tactic(auto, using(crate::proofs::MailOthers::others_stay))]
pub fn mailboxes_keep_other_bits()
    ensures { OtherBitsStay }
{}

/// Among the words that registers store, a write to PVFMAILBOX[v] changes only those of PVFMAILBOX[v], PFMBICR[v / 16]
/// and EICR. A write to PFMAILBOX[v] changes only those of PVFMAILBOX[v] and PVTEICR[v], and a read of PVFMAILBOX[v]
/// changes only the word of that register. A write to EERD or PFMBICR[k], or a write to CTRL that requests no reset,
/// changes no other register.
#[tactic(auto, using(crate::proofs::Others::mailboxes_leave, crate::proofs::Others::writes_leave))]
pub fn accesses_leave_other_registers()
    ensures mailboxes { MailboxesLeaveOthers }
    ensures writes { WritesLeaveOthers }
{}

/// A bit that is written as 1 to PFMBICR[k], at 0x00710 + 4k, is cleared, and no other bit is.
#[tactic(auto, using(crate::proofs::Mailbox::ones))]
pub fn ones_are_cleared()
    ensures { OnesAreCleared }
{}

/// If bit v mod 32 of PFMBIMR[v / 32], at 0x00720 + 4(v / 32), is 1, a write to PVFMAILBOX[v] with bit 0 or 1 set
/// raises bit 19 of EICR, at 0x00800. If bit 7 of PVTIVAR_MISC[v], at 0x04E00 + 4v, is 1, a write to PFMAILBOX[v] with
/// bit 0 or 1 set raises a cause in PVTEICR[v], at 0x00B00 + 4v. This is the cause that bits 5 to 0 of PVTIVAR_MISC[v]
/// name, if it is at most 2. No other cause in EICR or PVTEICR[v] is raised.
#[tactic(auto, using(crate::proofs::Mailbox::function_raises_all, crate::proofs::Mailbox::physical_raises_all))]
pub fn mailboxes_raise_causes()
    ensures physical { FunctionsRaise }
    ensures function { PhysicalRaises }
{}

/// The reset of function v's pool clears bits 2, 4 and 5 of PVFMAILBOX[v], and no other bit of that register.
#[tactic(auto, using(crate::proofs::MailReset::left))]
pub fn pool_resets_leave_mailboxes()
    ensures { PoolResetsLeave }
{}

/// The reset of function v's pool sets these registers to their reset values: PVTEICR[v], PVTEIMS[v], PVTEIAC[v],
/// PVTEIAM[v], PSRTYPE[v], VFGPRC[v], VFGPTC[v] and PVTIVAR_MISC[v]; the 15 registers of both rings of each queue in
/// the pool; and PVTIVAR[j], if the pool contains queue 2j. The pool's queues are 8v to 8v + 7 with 16 pools, 4v to 4v
/// + 3 with 32 pools, and 2v and 2v + 1 with 64 pools. The reset does the same to PVFCTRL[v], PVTEICS[v] and
/// PVTEIMC[v], which only trigger actions. All other registers stay unchanged, for example PFMBICR and PFMBMEM, and, if
/// the device has no pools, the rings and the vectors. For PVFMAILBOX, see `pool_resets_leave_mailboxes`.
#[tactic(auto, using(crate::proofs::PoolResets::taken))]
pub fn pool_resets_take_the_pools_registers()
    ensures { PoolResetsTake }
{}

/// A unicast frame passes the filter if and only if FCTRL bit 9, at 0x05080, is 1, or its destination is one of the 128
/// receive addresses, byte by byte. Bytes 0 to 3 of receive address i are in bits 7 to 0, 15 to 8, 23 to 16 and 31 to
/// 24 of the register at 0x0A200 + 8i. Bytes 4 and 5 are in bits 7 to 0 and 15 to 8 of the register at 0x0A204 + 8i,
/// whose bit 31 marks the address as valid. A multicast frame passes if and only if FCTRL bit 8 is 1, its destination
/// is a receive address, or its destination is listed in MTA. A destination is listed if bit 2 of MCSTCTRL, at 0x05090,
/// and the destination's bit in MTA are 1. MTA begins at 0x05200. A broadcast frame passes if and only if FCTRL bit 10
/// or bit 8 is 1.
#[tactic(auto, using(crate::proofs::Filter::frames_let_in))]
pub fn frames_are_let_in()
    ensures { FramesAreLetIn }
{}

/// If bit 0 of VT_CTL, at 0x051B0, is 1, frames are distributed among pools. A frame's pool is the lowest pool of the
/// first receive address that is the frame's destination. For receive address i, the bits of the register at 0x0A600 +
/// 8i are pools 0 to 31, and the bits of the next register are pools 32 to 63. A frame lacks its own pool if no receive
/// address is its destination, or if the first such address has no pool. Such a frame is for the pool in VT_CTL bits 12
/// to 7, or for no pool if VT_CTL bit 29 is 1. Bit p mod 32 of the register at 0x051E0 + 4(p/32) enables reception for
/// pool p.
pub fn pools_are_chosen()
    ensures { PoolsAreChosen }
{}

/// Codes 1, 0xA and 0xB of MRQC bits 3 to 0 enable hashing; no other code does. A type that hashes ports takes
/// precedence over a type that hashes only addresses. For IPv4, MRQC bit 16 enables type 1, TCP; bit 22 enables type 7,
/// UDP; and bit 17 enables type 2, addresses only. For IPv6, bit 21 enables type 3, TCP; bit 23 enables type 8, UDP;
/// and bit 20 enables type 5, addresses only. Otherwise the type is 0.
#[tactic(auto, using(crate::proofs::Choice::types_chosen))]
pub fn types_are_chosen()
    ensures { TypesAreChosen }
{}

/// The code in MRQC bits 3 to 0, at 0x05818, and GCR_EXT bits 1 to 0, at 0x11050, determine the queue of a frame. With
/// code 1, the frame's entry in the redirection table is the queue. The following holds for pool p, while VT_CTL bit 0
/// is 1. The queue is 2p with code 8, 4p plus the entry's two low bits with 0xA, and 2p plus the entry's lowest bit
/// with 0xB. But while GCR_EXT bits 1 to 0 are 1, the queue is 8p with code 8, and 8p plus the entry's three low bits
/// with 0xA or 0xB. If a frame's type isn't 0, the low seven bits n of the frame's hash select the entry. The entry is
/// in bits 8(n mod 4) + 3 to 8(n mod 4) of the register at 0x05C00 + 4(n/4). If RXCSUM bit 13, at 0x05000, is 1, the
/// reported hash is the frame's hash, otherwise 0.
#[tactic(auto, using(crate::proofs::Choice::queues_chosen))]
pub fn queues_are_chosen()
    ensures { QueuesAreChosen }
{}

/// A write to CTRL with bit 3 or bit 26 set requests a reset of the device. A write to PVFCTRL with bit 26 set requests
/// a reset of its pool. No other write requests a reset.
#[tactic(auto, using(crate::proofs::Choice::resets))]
pub fn resets_are_asked()
    ensures { ResetsAreAsked }
{}

/// A plain read/write register, CTRL and the enable words store what is written to the bits of the listed mask. The
/// mask of CTRL has all bits except 3 and 26; the masks of RXDCTL and TXDCTL have all bits except 25. No other bit of
/// the register changes.
#[tactic(auto, using(crate::proofs::ByKind::stored_words))]
pub fn words_are_stored()
    ensures { WordsAreStored }
{}

/// While bit 25 of RXDCTL[q] or TXDCTL[q] reads 0, a write to the ring's base, length or head is stored under the
/// register's mask. While bit 25 reads 1, such a write changes nothing.
#[tactic(auto, using(crate::proofs::Rings::held_rings))]
pub fn rings_are_held()
    ensures { RingsAreHeld }
{}

/// A clear-on-read counter reads 0 after a read. No write changes such a counter, VFGPRC, VFGPTC, STATUS, LINKS or EEC.
/// A read changes nothing, unless it is a read of such a counter, EICR, PVTEICR or PVFMAILBOX. EICS, PVTEICS, EIMC,
/// PVTEIMC and PVFCTRL read 0. A write to PVFCTRL that requests no reset changes nothing.
#[tactic(auto, using(crate::proofs::ByKind::read_kinds))]
pub fn kinds_are_read()
    ensures { KindsAreRead }
{}

/// Bit 25 of the value written to RXDCTL[q] or TXDCTL[q] requests that this side of queue q be enabled (1) or disabled
/// (0).
pub fn sides_are_asked()
    ensures { SidesAreAsked }
{}

/// A write to EERD, at 0x10014, stores bits 0 and 15 to 2, and clears all others. If bit 0 is 1, the write requests the
/// word with the index in bits 15 to 2. The EEPROM's reply keeps bits 15 to 2, clears bit 0, sets bit 1, and puts the
/// word into bits 31 to 16.
pub fn eeprom_is_read()
    ensures { EepromIsRead }
{}

/// Bit 31 - j of a frame's hash is 1 if and only if this count is odd: the number of values k for which bit k of the
/// hash's input and bit k + j of the key are both 1. Bit k of the input is bit 7 - k mod 8 of byte k / 8. Bit k of the
/// key is bit 8((k / 8) mod 4) + 7 - k mod 8 of RSSRK[k / 32], at 0x0EB80 + 4(k / 32).
#[tactic(auto, using(crate::proofs::Hash::of_the_key))]
pub fn hash_is_of_the_key()
    ensures { HashIsOfTheKey }
{}

/// CTRL bit 2, at 0x00000, stops the device's steps. RXCTRL bit 0, at 0x03000, enables reception, and DMATXCTL bit 0,
/// at 0x04A80, transmission. Bit 10 of HLREG0, at 0x04240, enables padding. The frame limit is 1,514 bytes, or, if
/// HLREG0 bit 2 is 1, MAXFRS bits 31 to 16, at 0x04268, minus 4. If bit 5 of GPIE, at 0x00898, is 1, a read of EICR
/// clears only bits 29 to 16. If bit 30 of GPIE is 1, the auto-mask applies only to messages. If SRRCTL[q] bit 28 is 1,
/// frames without a free descriptor are dropped. If TDWBAL[q] bit 0 is 1, the head is written to the address in
/// TDWBAH[q] and TDWBAL[q] bits 31 to 2. Each increment adds one to a clear-on-read counter, which saturates at
/// 0xFFFFFFFF.
pub fn settings_are_bits()
    ensures device { DevicesAreSet }
    ensures queue { QueuesAreSet }
    ensures counter { CountersStay }
{}

/// An EEPROM image consists of 64, 128, 256 and so on up to 16,384 16-bit words. Words 0x03 to 0x0E, and no others, are
/// pointers. A pointer points to a word in the image, which says how many words follow it; all of these are in the
/// image. A pointer of 0 or 0xFFFF points to no word, and a number of 0 or 0xFFFF says that no words follow. Words 0x00
/// to 0x3F, together with the words that follow each word pointed to, add up to 0xBABA, modulo 2^16. Word 0x0D points
/// to the register writes, which are three words each: a quarter of the register's offset, then the low and the high
/// half of the data. In a file, the low byte of each word is first. If a file has several faults, the first in this
/// order is reported: an odd number of bytes, the size, a pointer with words outside the image, the sum, the number of
/// words in the register writes.
#[tactic(auto, using(crate::proofs::Eeprom::images, crate::proofs::Eeprom::writes))]
pub fn images_are_by_number()
    ensures image { ImagesAreByNumber }
    ensures file { FilesAreByNumber }
    ensures writes { WritesAreByNumber }
{}

/// In an image assembled from source, each of words 0x03 to 0x0E points to nothing or to a word at 0x40 or above. The
/// word pointed to is in the image, and so are all words that follow it. So a value of 5 is refused in each of words
/// 0x03 to 0x0E, but not in words 0x02 and 0x0F. Register write k of the source is in words 0x41 + 3k to 0x43 + 3k of
/// its image, in the order of the source. Word 0x40 says how many words follow it, and word 0x0D is 0x40. Without
/// register writes, word 0x0D is 0xFFFF.
#[tactic(auto, using(crate::proofs::Eeprom::point, crate::proofs::Eeprom::words_point, crate::proofs::Eeprom::texts))]
pub fn texts_are_laid_out()
    ensures pointers { TextsPoint }
    ensures examples { WordsPoint }
    ensures text { TextsAreByNumber }
{}

/// If a source that sets words has several of these faults, the first is reported. The examples for this are 21 sources
/// just inside and just outside the limits. First, an index that is set twice, with the same value or not: the lowest
/// such index is reported. Second, a reserved index: the lowest is reported. Indices 0x0D and 0x3F are reserved, and so
/// are 0x40 to 0x40 + 3k if the source has k register writes and k is above 0. Third, an index, or the last of the
/// reserved words, that isn't below the size: 21 register writes fit into 128 words, and 22 don't. Last, a pointer that
/// points outside.
#[tactic(auto, using(crate::proofs::Eeprom::faults))]
pub fn texts_have_an_order_of_faults()
    ensures { TextsHaveFaults }
{}

/// A word at or past the end of an image is 0xFFFF.
#[tactic(auto, using(crate::proofs::Eeprom::words_read))]
pub fn words_outside_are_ones()
    ensures { WordsAreRead }
{}
