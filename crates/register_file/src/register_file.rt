//! The registers, and their reset.

ghost use Rattle.std.specs.Prelude.{◌≡◌, ◌<◌};
ghost use Rattle.reg_table.specs.Rows.{row_of};
ghost use Rattle.register_file.specs.Registers.{reset_registers, word_of, is_wanted, with_wanted};

use crate::banks::{Counters, Settings, Tables};
use crate::cells::Cells;
use crate::groups::Groups;
use crate::mailbox::Mailboxes;
use crate::side::{ReceiveSide, TransmitSide};
use dma_ring::Dir;
use reg_table::RowId;
use rss_hash::HashKey;
use std::marker::Model;

/// The values of all registers, the enable requests for the queues' sides, and the interrupt causes that messages have
/// reported.
#[derive(Drop)]
pub struct RegisterFile {
    pub(crate) cells: Cells,
    pub(crate) settings: Settings,
    pub(crate) groups: Groups,
    pub(crate) receive: [ReceiveSide; 128],
    pub(crate) transmit: [TransmitSide; 128],
    pub(crate) counters: Counters,
    pub(crate) tables: Tables,
    pub(crate) mailboxes: Mailboxes,
    pub(crate) key: HashKey,
}

impl Model for RegisterFile {
    ghost use Rattle.register_file.specs.Registers.{Registers, registers_code};

    ghost Value = { Registers };

    ghost coded = { registers_code };

    ghost use Rattle.register_file.specs.Layout.{registers_of};

    ghost view = { registers_of };
}

impl RegisterFile {
    /// Returns the registers after a reset. Each register has its row's reset value, no side of the 128 queues is
    /// enabled or has an enable request, and no bit is reported for the physical function's group or the groups of the
    /// 64 virtual functions.
    pub fn new() -> Self
        ensures { result ≡ reset_registers }
    {
        RegisterFile {
            cells: Cells::AT_RESET,
            settings: Settings::AT_RESET,
            groups: Groups::new(),
            receive: [ReceiveSide::AT_RESET; 128],
            transmit: [TransmitSide::AT_RESET; 128],
            counters: Counters::AT_RESET,
            tables: Tables::AT_RESET,
            mailboxes: Mailboxes::AT_RESET,
            key: HashKey::zero(),
        }
    }

    /// Sets each register to its reset value, withdraws all enable requests, and forgets what messages have reported.
    pub fn reset(&mut self)
        ensures { self.new ≡ reset_registers }
    {
        self.cells = Cells::AT_RESET;
        self.settings = Settings::AT_RESET;
        self.groups = Groups::new();
        self.receive = [ReceiveSide::AT_RESET; 128];
        self.transmit = [TransmitSide::AT_RESET; 128];
        self.counters = Counters::AT_RESET;
        self.tables = Tables::AT_RESET;
        self.mailboxes = Mailboxes::AT_RESET;
        self.key = HashKey::zero();
    }

    /// Returns the stored value of a row at an index below the row's count. For the value that a driver reads,
    /// including calculated registers, see `peek`; for a read with its side effects, see `read`.
    #[inline(always)]
    pub fn word(&self, row: RowId, index: u16) -> u32
        requires { index < (row_of row).count }
        ensures { result ≡ word_of self.now row index }
    {
        self.cell(row, index)
    }

    /// Whether a side of a queue below `QUEUES` has an enable request.
    pub fn is_wanted(&self, dir: Dir, queue: u16) -> bool
        requires { queue < 128 }
        ensures { result ≡ is_wanted self.now dir queue }
    {
        match dir {
            Dir::Rx => self.receive[usize::from(queue)].wanted,
            Dir::Tx => self.transmit[usize::from(queue)].wanted,
        }
    }

    /// Requests that a side of a queue below `QUEUES` be enabled or disabled.
    pub(crate) fn want(&mut self, dir: Dir, queue: u16, wanted: bool)
        requires { queue < 128 }
        ensures { self.new ≡ with_wanted self.old dir queue wanted }
    {
        match dir {
            Dir::Rx => self.receive[usize::from(queue)].wanted = wanted,
            Dir::Tx => self.transmit[usize::from(queue)].wanted = wanted,
        }
    }
}
