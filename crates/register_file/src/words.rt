//! The fields that store the values of each row.
//!
//! `cell` and `set_word` are each one large match on the row. Splitting them by bank would match each row twice. With
//! one match, the mapping of rows to fields is in one function for reads and in one for writes.

ghost use Rattle.std.specs.Prelude.{◌≡◌, ◌<◌, IsTrue};
ghost use Rattle.reg_table.specs.Rows.{row_of};
ghost use Rattle.register_file.specs.Registers.{word_of, with_word};
ghost use Rattle.register_file.specs.Storing.{is_stored, IsWordOf};

use crate::cells::{cell_word, set_cell};
use crate::register_file::RegisterFile;
use intr_unit::Group;
use reg_table::RowId;

impl RegisterFile {
    /// Returns the stored value of a row at an index below the row's count. The row can hold this value: a group's
    /// auto-clear and auto-mask contain only bits of the group.
    #[inline(always)]
    pub(crate) fn cell(&self, row: RowId, index: u16) -> u32
        requires { index < (row_of row).count }
        ensures word { result ≡ word_of self.now row index }
        ensures holds { IsWordOf row index result }
    {
        let at = usize::from(index);
        match row {
            RowId::Pfmbimr => self.mailboxes.pfmbimr[at],
            RowId::Eicr => self.groups.of(Group::Pf).causes(),
            RowId::Eiac => self.groups.of(Group::Pf).auto_clear(),
            RowId::Eims => self.groups.of(Group::Pf).enabled(),
            RowId::Eiam => self.groups.of(Group::Pf).auto_mask(),
            RowId::Pvteicr => self.groups.of(Group::Vf(index as u8)).causes(),
            RowId::Pvteims => self.groups.of(Group::Vf(index as u8)).enabled(),
            RowId::Pvteiac => self.groups.of(Group::Vf(index as u8)).auto_clear(),
            RowId::Pvfmailbox => self.mailboxes.pvfmailbox[at],
            RowId::Pvteiam => self.groups.of(Group::Vf(index as u8)).auto_mask(),
            RowId::Rdbal => self.receive[at].base_low,
            RowId::Rdbah => self.receive[at].base_high,
            RowId::Rdlen => self.receive[at].length,
            RowId::Rdh => self.receive[at].head,
            RowId::Srrctl => self.receive[at].control,
            RowId::Rdt => self.receive[at].tail,
            RowId::Rxdctl => self.receive[at].enable,
            RowId::Vfgprc => self.counters.vfgprc[at],
            RowId::Rdrxctl => self.settings.rdrxctl,
            RowId::Hlreg0 => self.settings.hlreg0,
            RowId::Maxfrs => self.settings.maxfrs,
            RowId::Dmatxctl => self.settings.dmatxctl,
            RowId::Reta => self.tables.reta[at],
            RowId::Rssrk => self.key.words()[at],
            RowId::Tdbal => self.transmit[at].base_low,
            RowId::Tdbah => self.transmit[at].base_high,
            RowId::Tdlen => self.transmit[at].length,
            RowId::Tdh => self.transmit[at].head,
            RowId::Tdt => self.transmit[at].tail,
            RowId::Txdctl => self.transmit[at].enable,
            RowId::Tdwbal => self.transmit[at].writeback_low,
            RowId::Tdwbah => self.transmit[at].writeback_high,
            RowId::Vfgptc => self.counters.vfgptc[at],
            RowId::Psrtype => self.tables.psrtype[at],
            RowId::Status
            | RowId::Pvfctrl
            | RowId::Eics
            | RowId::Eimc
            | RowId::Pvteics
            | RowId::Pvteimc
            | RowId::Pfmailbox
            | RowId::Links
            | RowId::Eec => 0,
            _ => cell_word(&self.cells, row, index),
        }
    }

    /// Stores a value in a row at an index below the row's count. The row must be able to hold the value.
    #[inline(always)]
    pub(crate) fn set_word(&mut self, row: RowId, index: u16, word: u32)
        requires index { index < (row_of row).count }
        requires stored { IsTrue (is_stored (row_of row).kind) }
        requires holds { IsWordOf row index word }
        ensures { self.new ≡ with_word self.old row index word }
    {
        let at = usize::from(index);
        match row {
            RowId::Pfmbimr => self.mailboxes.pfmbimr[at] = word,
            RowId::Eiac => self.set_auto_clear(Group::Pf, word),
            RowId::Eiam => self.set_auto_mask(Group::Pf, word),
            RowId::Pvteiac => self.set_auto_clear(Group::Vf(index as u8), word),
            RowId::Pvfmailbox => self.mailboxes.pvfmailbox[at] = word,
            RowId::Pvteiam => self.set_auto_mask(Group::Vf(index as u8), word),
            RowId::Rdbal => self.receive[at].base_low = word,
            RowId::Rdbah => self.receive[at].base_high = word,
            RowId::Rdlen => self.receive[at].length = word,
            RowId::Rdh => self.receive[at].head = word,
            RowId::Srrctl => self.receive[at].control = word,
            RowId::Rdt => self.receive[at].tail = word,
            RowId::Rxdctl => self.receive[at].enable = word,
            RowId::Vfgprc => self.counters.vfgprc[at] = word,
            RowId::Rdrxctl => self.settings.rdrxctl = word,
            RowId::Hlreg0 => self.settings.hlreg0 = word,
            RowId::Maxfrs => self.settings.maxfrs = word,
            RowId::Dmatxctl => self.settings.dmatxctl = word,
            RowId::Reta => self.tables.reta[at] = word,
            RowId::Rssrk => self.key.set_word(at, word),
            RowId::Tdbal => self.transmit[at].base_low = word,
            RowId::Tdbah => self.transmit[at].base_high = word,
            RowId::Tdlen => self.transmit[at].length = word,
            RowId::Tdh => self.transmit[at].head = word,
            RowId::Tdt => self.transmit[at].tail = word,
            RowId::Txdctl => self.transmit[at].enable = word,
            RowId::Tdwbal => self.transmit[at].writeback_low = word,
            RowId::Tdwbah => self.transmit[at].writeback_high = word,
            RowId::Vfgptc => self.counters.vfgptc[at] = word,
            RowId::Psrtype => self.tables.psrtype[at] = word,
            RowId::Status
            | RowId::Pvfctrl
            | RowId::Eicr
            | RowId::Eics
            | RowId::Eims
            | RowId::Eimc
            | RowId::Pvteicr
            | RowId::Pvteics
            | RowId::Pvteims
            | RowId::Pvteimc
            | RowId::Pfmailbox
            | RowId::Links
            | RowId::Eec => {}
            _ => set_cell(&mut self.cells, row, index, word),
        }
    }
}
