//! Register accesses, dispatched on the kind of the row.

ghost use Rattle.std.specs.Prelude.{◌≡◌, ◌<◌, IfSome, IsTrue, bit_and};
ghost use Rattle.reg_table.specs.Rows.{row_of};
ghost use Rattle.reg_table.specs.declared.kind.Kind.TheVariants.{Held, Enable, W1c, Ctrlext};
ghost use Rattle.register_file.specs.Groups.{index_of};
ghost use Rattle.register_file.specs.Owner.{owner_of, IsThere};
ghost use Rattle.register_file.specs.Storing.{is_stored};
ghost use Rattle.register_file.specs.Access.{read_word, after_read, written, stored, ones_cleared, calculated, group_in, is_running, asked, asks_reset, asks_pool_reset};

use crate::owner::{Owner, owner_of};
use crate::register_file::RegisterFile;
use crate::surroundings::Surroundings;
use intr_unit::Group;
use reg_table::{Ctrl, CtrlExt, Kind, Place, Pvfctrl, RowId, Rxdctl, has_flag, kind_of, mask_of};

/// The bits of EERD that a write stores; it clears the others.
const EERD_TAKES: u32 = 0x0000_FFFD;

/// The value of STATUS while bus mastering is enabled.
const STATUS_MASTER: u32 = 0x0008_0000;

/// The value of LINKS while the link is up.
const LINKS_UP: u32 = 0x7000_0000;

/// The bits of EEC that report a present, readable EEPROM.
const EEPROM_PRESENT: u32 = 0x0000_0300;

/// The lowest bit of EEC's EEPROM size field.
const EEPROM_SIZE: u32 = 0x0000_0800;

/// Whether writing this value to a place requests a device reset and has no other effect. True if the place is CTRL and
/// the value has bit 3 or bit 26 set.
#[inline(always)]
pub fn asks_reset(place: Place, word: u32) -> bool
    ensures { result ≡ asks_reset (row_of place.row).kind word }
{
    matches!(kind_of(place.row), Kind::Ctrl)
        && (has_flag(word, Ctrl::LRST) || has_flag(word, Ctrl::RST))
}

/// Whether writing this value to a place requests a pool reset and has no other effect. The place's index is the pool's
/// number. True if the place is PVFCTRL and the value has bit 26 set.
#[inline(always)]
pub fn asks_pool_reset(place: Place, word: u32) -> bool
    ensures { result ≡ asks_pool_reset (row_of place.row).kind word }
{
    matches!(kind_of(place.row), Kind::Vreset) && has_flag(word, Pvfctrl::RST)
}

/// Returns the interrupt group that a place belongs to, if any.
fn group_of(place: Place) -> Option<Group>
    requires { place.index < (row_of place.row).count }
    ensures group { result ≡ group_in (owner_of place) }
    ensures there { IfSome result (λ g. index_of g < 64) }
{
    match owner_of(place) {
        Owner::Group(group) => Some(group),
        _ => None,
    }
}

impl RegisterFile {
    /// Returns the value that a read of a place would return, without the read's side effects. The value isn't yet
    /// masked to the bits that the address shows. It is the stored value, with these exceptions. STATUS, LINKS and EEC
    /// are calculated from the registers, the link and the size of the EEPROM image. PFMAILBOX[v] shows bits 2 and 3 of
    /// PVFMAILBOX[v]. A register that only sets causes, clears masks or resets a pool returns 0. `around` is the state
    /// of the link and the EEPROM. The index must be below the row's count.
    pub fn peek(&self, around: Surroundings, place: Place) -> u32
        requires { place.index < (row_of place.row).count }
        ensures { result ≡ read_word (row_of place.row).kind self.now around place }
    {
        match kind_of(place.row) {
            Kind::Calc => self.calculated(around, place.row),
            Kind::Set | Kind::Clear | Kind::Vreset => 0,
            Kind::Pfmail => self.holders(place.index),
            _ => self.word(place.row, place.index),
        }
    }

    /// Reads a place. Returns the value that `peek` returns, not yet masked to the bits that the address shows.
    /// `around` is the state of the link and the EEPROM. The index must be below the row's count.
    ///
    /// Reading a clear-on-read counter resets it to 0. Reading a group's causes clears them; if GPIE bit 5 is set, a
    /// read of EICR clears only bits 29 to 16. If the auto-mask acts on reads, reading the causes also clears the masks
    /// that the auto-mask selects. A bit whose cause or mask is then 0 is no longer reported. Reading PVFMAILBOX clears
    /// its bits 4, 5 and 7. Nothing else changes.
    #[inline(always)]
    pub fn read(&mut self, around: Surroundings, place: Place) -> u32
        requires { place.index < (row_of place.row).count }
        ensures word { result ≡ read_word (row_of place.row).kind self.old around place }
        ensures state { self.new ≡ after_read (row_of place.row).kind self.old place }
    {
        let Place { row, index } = place;
        match kind_of(row) {
            Kind::Rc => {
                let word = self.word(row, index);
                self.set_word(row, index, 0);
                word
            }
            Kind::Cause => {
                let word = self.word(row, index);
                if let Some(group) = group_of(place) {
                    self.read_causes(group);
                }
                word
            }
            Kind::Vfmail => {
                let word = self.word(row, index);
                self.end_mail_read(index);
                word
            }
            Kind::Calc => self.calculated(around, row),
            Kind::Set | Kind::Clear | Kind::Vreset => 0,
            Kind::Pfmail => self.holders(index),
            _ => self.word(row, index),
        }
    }

    /// Writes a place through an address that shows the bits of `view`. The write must not request a reset of the
    /// device or of a pool. The index must be below the row's count. The write changes only bits that the address shows
    /// and that are in the row's mask. Some kinds of registers are exceptions:
    ///
    /// Calculated registers, counters and PVFCTRL ignore writes. A ring's base, length and head ignore writes while the
    /// ring's side is enabled. An enable register stores the bits of its mask, which excludes bit 25; bit 25 of the
    /// written value becomes the enable request. EERD stores bits 15 to 0 except bit 1, and clears its other bits. In
    /// PFMBICR, bits written as 1 are cleared. For the cause and mask registers of a group, see `intr_unit`.
    ///
    /// Writing PVFMAILBOX[v] with bit 2 set sets the register's bit 2 if its bit 3 is 0. Writing PVFMAILBOX[v] with bit
    /// 2 clear clears the register's bit 2. Bit 0 of the written value sets bit v mod 16 of PFMBICR[v/16], and bit 1
    /// sets bit 16 + v mod 16. If bit 0 or bit 1 is written as 1 and bit v mod 32 of PFMBIMR[v/32] is 1, the write sets
    /// EICR bit 19.
    ///
    /// Writing PFMAILBOX[v] with bit 4 set first clears bit 2 of PVFMAILBOX[v]. If bit 3 is written as 1, the write
    /// then sets bit 3 of PVFMAILBOX[v], provided that bit 2 of PVFMAILBOX[v] is 0. If bit 3 is written as 0, the write
    /// clears bit 3 of PVFMAILBOX[v]. Bit 0 of the written value sets bit 4 of PVFMAILBOX[v], and bit 1 sets bit 5.
    /// Bits 5:0 of PVTIVAR_MISC[v] name a cause. If bit 0 or bit 1 is written as 1, bit 7 of PVTIVAR_MISC[v] is 1 and
    /// the cause is at most 2, the write sets the cause in PVTEICR[v].
    ///
    /// A write to CTRL_EXT is stored. If bit 14 is written as 1, the write also changes each PVFMAILBOX whose bit 6 is
    /// 1: it clears bit 6 and sets bit 7.
    #[inline(always)]
    pub fn write(&mut self, place: Place, view: u32, word: u32)
        requires { place.index < (row_of place.row).count }
        ensures { self.new ≡ written (row_of place.row).kind self.old place view word }
    {
        match kind_of(place.row) {
            Kind::Rw | Kind::Ctrl => self.store(place, view, word),
            Kind::Ro | Kind::Calc | Kind::Rc | Kind::Vreset => {}
            Kind::Eerd => self.store(place, view, word & EERD_TAKES),
            Kind::Held => self.write_held(place, view, word),
            Kind::W1c => self.clear_ones(place, word & view),
            Kind::Vfmail => self.function_writes(place.index, word),
            Kind::Pfmail => self.physical_writes(place.index, word),
            Kind::Ctrlext => self.write_extended(place, view, word),
            Kind::Enable => self.write_enable(place, view, word),
            Kind::Cause => {
                if let Some(group) = group_of(place) {
                    self.write_causes(group, word & view);
                }
            }
            Kind::Ones => {
                if let Some(group) = group_of(place) {
                    self.set_masks(group, word & view);
                }
            }
            Kind::Set => {
                if let Some(group) = group_of(place) {
                    self.set_causes(group, word & view);
                }
            }
            Kind::Clear => {
                if let Some(group) = group_of(place) {
                    self.clear_masks(group, word & view);
                }
            }
        }
    }

    /// Writes a ring register. The write has no effect while the ring's side is enabled.
    #[inline(always)]
    fn write_held(&mut self, place: Place, view: u32, word: u32)
        requires index { place.index < (row_of place.row).count }
        requires kind { (row_of place.row).kind ≡ Held }
        ensures { self.new ≡ written Held self.old place view word }
    {
        if !self.is_running(owner_of(place)) {
            self.store(place, view, word);
        }
    }

    /// Writes an enable register (RXDCTL or TXDCTL). Bit 25 of the written value requests that the side be enabled or
    /// disabled.
    fn write_enable(&mut self, place: Place, view: u32, word: u32)
        requires index { place.index < (row_of place.row).count }
        requires kind { (row_of place.row).kind ≡ Enable }
        ensures { self.new ≡ written Enable self.old place view word }
    {
        self.store(place, view, word);
        self.ask(owner_of(place), has_flag(word, Rxdctl::ENABLE));
    }

    /// Writes the extended device control register, CTRL_EXT. If bit 14 of the written value is 1, also reports to all
    /// functions that a reset is done.
    fn write_extended(&mut self, place: Place, view: u32, word: u32)
        requires index { place.index < (row_of place.row).count }
        requires kind { (row_of place.row).kind ≡ Ctrlext }
        ensures { self.new ≡ written Ctrlext self.old place view word }
    {
        self.store(place, view, word);
        if has_flag(word, CtrlExt::PFRSTD) {
            self.tell_resets();
        }
    }

    /// Clears the bits of a register that are 1 in `bits`.
    fn clear_ones(&mut self, place: Place, bits: u32)
        requires index { place.index < (row_of place.row).count }
        requires kind { (row_of place.row).kind ≡ W1c }
        ensures { self.new ≡ ones_cleared self.old place bits }
    {
        let word = self.word(place.row, place.index);
        self.set_word(place.row, place.index, word & !bits);
    }

    /// Whether an owner's registers are in use. A ring's registers are in use while its side is enabled.
    #[inline(always)]
    fn is_running(&self, owner: Owner) -> bool
        requires { IsThere owner }
        ensures { result ≡ is_running self.now owner }
    {
        match owner {
            Owner::Side(dir, queue) => self.is_on(dir, queue),
            _ => false,
        }
    }

    /// Requests that an owner be enabled or disabled. This has an effect only for a queue's side.
    fn ask(&mut self, owner: Owner, wanted: bool)
        requires { IsThere owner }
        ensures { self.new ≡ asked self.old owner wanted }
    {
        if let Owner::Side(dir, queue) = owner {
            self.want(dir, queue, wanted);
        }
    }

    /// Returns the value of a calculated row.
    fn calculated(&self, around: Surroundings, row: RowId) -> u32
        ensures { result ≡ calculated row self.now around }
    {
        match row {
            RowId::Status => { if self.is_stopped() { 0 } else { STATUS_MASTER } }
            RowId::Links => { if around.link { LINKS_UP } else { 0 } }
            RowId::Eec => EEPROM_PRESENT + EEPROM_SIZE * u32::from(around.eeprom),
            _ => 0,
        }
    }

    /// Stores the bits that are in the row's mask and that the address shows.
    #[inline(always)]
    fn store(&mut self, place: Place, view: u32, word: u32)
        requires index { place.index < (row_of place.row).count }
        requires kind { IsTrue (is_stored (row_of place.row).kind) }
        ensures { self.new ≡ stored self.old place view word }
    {
        let mask = mask_of(place.row) & view;
        let old = self.cell(place.row, place.index);
        self.set_word(place.row, place.index, (old & !mask) | (word & mask));
    }
}
