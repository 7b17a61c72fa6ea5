//! The mailboxes of the virtual functions.

ghost use Rattle.std.specs.Prelude.{◌≡◌, ◌<◌, fold};
ghost use Rattle.std.specs.List.{range_with_len};
ghost use Rattle.intr_unit.specs.BitSet.{IsSubset};
ghost use Rattle.intr_unit.specs.Group.{group_bits};
ghost use Rattle.register_file.specs.Groups.{index_of};
ghost use Rattle.register_file.specs.Mailbox.{set_if, function_wrote, released, taken, physical_wrote, reported_once, reset_reported, cause_set, sends, requests, with_requests, physical_signalled, function_signalled, mail_read, function_writes, physical_writes, holders, done_reported, resets_reported};

use crate::bits::bit_set;
use crate::register_file::RegisterFile;
use intr_unit::Group;
use reg_table::{Pfmailbox, Pvfmailbox, RowId, has_bit, has_flag, with_flag, without_flag};

/// The mailbox registers with a nonzero reset value.
#[derive(Clone, Copy)]
pub(crate) struct Mailboxes {
    pub(crate) pfmbimr: [u32; 2],
    pub(crate) pvfmailbox: [u32; 64],
}

impl Mailboxes {
    /// The registers after a reset: RSTI, reset in progress, is set for every function, and PFMBIMR masks no function.
    pub(crate) const AT_RESET: Mailboxes = Mailboxes {
        pfmbimr: [0xFFFF_FFFF; 2],
        pvfmailbox: [Pvfmailbox::RSTI.0; 64],
    };
}

/// The bits that show who holds a mailbox: VFU and PFU.
const HOLDERS: u32 = Pvfmailbox::VFU.0 | Pvfmailbox::PFU.0;

/// The EICR cause of mailbox events.
const MAILBOX_CAUSE: u32 = 0x0008_0000;

/// The number of functions per PFMBICR word. Requests are in the word's lower half, acknowledgements in its upper half.
const FUNCTIONS_ASKING: u16 = 16;

/// The number of functions per PFMBIMR word.
const FUNCTIONS_MASKED: u16 = 32;

impl RegisterFile {
    /// Returns who holds the mailbox of a function below 64: bit 2 for the function, bit 3 for the physical function.
    pub(crate) fn holders(&self, v: u16) -> u32
        requires { v < 64 }
        ensures { result ≡ holders self.now v }
    {
        self.word(RowId::Pvfmailbox, v) & HOLDERS
    }

    /// Applies the side effects of a mailbox read by a function below 64.
    pub(crate) fn end_mail_read(&mut self, v: u16)
        requires { v < 64 }
        ensures { self.new ≡ mail_read self.old v }
    {
        let mail = self.word(RowId::Pvfmailbox, v);
        self.set_word(RowId::Pvfmailbox, v, reported_once(mail));
    }

    /// Writes PVFMAILBOX on behalf of a function below 64.
    pub(crate) fn function_writes(&mut self, v: u16, word: u32)
        requires { v < 64 }
        ensures { self.new ≡ function_writes self.old v word }
    {
        let mail = self.word(RowId::Pvfmailbox, v);
        self.set_word(RowId::Pvfmailbox, v, function_wrote(mail, word));
        self.add_requests(v, word);
        self.tell_physical(v, word);
    }

    /// Writes PFMAILBOX, the physical function's register for the mailbox of a function below 64.
    pub(crate) fn physical_writes(&mut self, v: u16, word: u32)
        requires { v < 64 }
        ensures { self.new ≡ physical_writes self.old v word }
    {
        let mail = self.word(RowId::Pvfmailbox, v);
        self.set_word(RowId::Pvfmailbox, v, physical_wrote(mail, word));
        self.tell_function(v, word);
    }

    /// Reports the end of a reset to each function to which a reset in progress was reported.
    #[tactic(auto, unfolding(crate::specs::Mailbox::resets_reported))]
    pub(crate) fn tell_resets(&mut self)
        ensures { self.new ≡ resets_reported self.old }
    {
        self.tell_resets_of(64);
    }

    /// Reports the end of a reset to the functions below `count`.
    fn tell_resets_of(&mut self, count: u8)
        requires { count < 65 }
        ensures { self.new ≡ fold done_reported self.old (range_with_len 0 count) }
    {
        for v in 0..count {
            self.tell_reset(u16::from(v));
        }
    }

    fn tell_reset(&mut self, v: u16)
        requires { v < 64 }
        ensures { self.new ≡ done_reported self.old v }
    {
        let mail = self.word(RowId::Pvfmailbox, v);
        self.set_word(RowId::Pvfmailbox, v, reset_reported(mail));
    }

    /// Sets the PFMBICR bits for the request or acknowledgement that a function sends to the physical function.
    fn add_requests(&mut self, v: u16, word: u32)
        requires { v < 64 }
        ensures { self.new ≡ with_requests self.old v word }
    {
        let at = v / FUNCTIONS_ASKING;
        let asked = self.word(RowId::Pfmbicr, at);
        self.set_word(RowId::Pfmbicr, at, asked | requests(v, word));
    }

    /// Raises the physical function's mailbox cause if the virtual function's write sends something and PFMBIMR doesn't
    /// mask the virtual function.
    fn tell_physical(&mut self, v: u16, word: u32)
        requires { v < 64 }
        ensures { self.new ≡ physical_signalled self.old v word }
    {
        let mask = self.word(RowId::Pfmbimr, v / FUNCTIONS_MASKED);
        if sends(word) && has_bit(mask, u32::from(v % FUNCTIONS_MASKED)) {
            self.set_cause(Group::Pf, MAILBOX_CAUSE);
        }
    }

    /// Raises a virtual function's mailbox cause if the physical function's write sends something.
    fn tell_function(&mut self, v: u16, word: u32)
        requires { v < 64 }
        ensures { self.new ≡ function_signalled self.old v word }
    {
        if sends(word) {
            let group = Group::Vf(v as u8);
            let entry = (self.word(RowId::PvtivarMisc, v) % 256) as u8;
            self.set_cause(group, group.queue_causes(entry));
        }
    }

    /// Raises causes in a group. `bits` must contain only bits that the group implements.
    fn set_cause(&mut self, group: Group, bits: u32)
        requires there { index_of group < 64 }
        requires bits { IsSubset bits (group_bits group) }
        ensures { self.new ≡ cause_set self.old group bits }
    {
        let _own = self.groups.of(group);
        self.groups.raise(group, bits, false);
    }
}

/// Returns the mailbox value after a write by the function.
fn function_wrote(mail: u32, word: u32) -> u32
    ensures { result ≡ function_wrote mail word }
{
    if !has_flag(word, Pvfmailbox::VFU) {
        without_flag(mail, Pvfmailbox::VFU)
    } else if has_flag(mail, Pvfmailbox::PFU) {
        mail
    } else {
        with_flag(mail, Pvfmailbox::VFU)
    }
}

/// Returns the mailbox value after a write by the physical function.
fn physical_wrote(mail: u32, word: u32) -> u32
    ensures { result ≡ physical_wrote mail word }
{
    let held = taken(released(mail, word), word);
    let acknowledged = with_acknowledgement(has_flag(word, Pfmailbox::ACK), held);
    with_status(has_flag(word, Pfmailbox::STS), acknowledged)
}

/// Returns the value with the physical function's acknowledgement added, if one is sent.
fn with_acknowledgement(is_sent: bool, mail: u32) -> u32
    ensures { result ≡ set_if is_sent 5 mail }
{
    if is_sent {
        with_flag(mail, Pvfmailbox::PFACK)
    } else {
        mail
    }
}

/// Returns the value with the physical function's status added, if one is sent.
fn with_status(is_sent: bool, mail: u32) -> u32
    ensures { result ≡ set_if is_sent 4 mail }
{
    if is_sent {
        with_flag(mail, Pvfmailbox::PFSTS)
    } else {
        mail
    }
}

fn released(mail: u32, word: u32) -> u32
    ensures { result ≡ released mail word }
{
    if has_flag(word, Pfmailbox::RVFU) {
        without_flag(mail, Pvfmailbox::VFU)
    } else {
        mail
    }
}

fn taken(mail: u32, word: u32) -> u32
    ensures { result ≡ taken mail word }
{
    if !has_flag(word, Pfmailbox::PFU) {
        without_flag(mail, Pvfmailbox::PFU)
    } else if has_flag(mail, Pvfmailbox::VFU) {
        mail
    } else {
        with_flag(mail, Pvfmailbox::PFU)
    }
}

/// Returns the mailbox value after a read by the function: the bits that are reported only once are cleared.
fn reported_once(mail: u32) -> u32
    ensures { result ≡ reported_once mail }
{
    let without_end = without_flag(mail, Pvfmailbox::RSTD);
    without_flag(
        without_flag(without_end, Pvfmailbox::PFACK),
        Pvfmailbox::PFSTS,
    )
}

/// Returns the mailbox value after the end of a reset is reported: RSTD replaces RSTI, if RSTI is set.
fn reset_reported(mail: u32) -> u32
    ensures { result ≡ reset_reported mail }
{
    if has_flag(mail, Pvfmailbox::RSTI) {
        with_flag(without_flag(mail, Pvfmailbox::RSTI), Pvfmailbox::RSTD)
    } else {
        mail
    }
}

/// Whether a mailbox write sends something to the other function. The physical function's STS and ACK are in the same
/// bits as the virtual function's REQ and ACK.
fn sends(word: u32) -> bool
    ensures { result ≡ sends word }
{
    has_flag(word, Pvfmailbox::REQ) || has_flag(word, Pvfmailbox::ACK)
}

/// Returns the PFMBICR bits that a mailbox write by function v sets.
fn requests(v: u16, word: u32) -> u32
    ensures { result ≡ requests v word }
{
    let own = u32::from(v % FUNCTIONS_ASKING);
    let acknowledged = set_if(
        has_flag(word, Pvfmailbox::ACK),
        u32::from(FUNCTIONS_ASKING) + own,
        0,
    );
    set_if(has_flag(word, Pvfmailbox::REQ), own, acknowledged)
}

/// Returns the word, with a bit below 32 set if the condition is true.
fn set_if(condition: bool, bit: u32, word: u32) -> u32
    requires { bit < 32 }
    ensures { result ≡ set_if condition bit word }
{
    if condition { bit_set(word, bit) } else { word }
}
