//! Frame statistics counters.

ghost use Rattle.std.specs.Prelude.{◌≡◌, ◌<◌};
ghost use Rattle.reg_table.specs.Rows.{row_of};
ghost use Rattle.reg_table.specs.declared.kind.Kind.TheVariants.{Rc, Ro};
ghost use Rattle.register_file.specs.Counters.{counted, counted_wrapping, mapping_row, counter_of};

use crate::register_file::RegisterFile;
use dma_ring::Dir;
use reg_table::{RowId, bump};

/// The number of bits per queue in an RQSMR or TQSM word. The low four of these bits select the queue's counter.
const COUNTER_BITS: u32 = 8;

/// The number of queues per RQSMR or TQSM word.
const QUEUES_IN_A_WORD: u16 = 4;

/// The number of per-queue counters of each kind.
const COUNTERS: u32 = 16;

impl RegisterFile {
    /// Increments a clear-on-read counter, given by its row and its index in the row, which must be below the row's
    /// count. The counter saturates at 0xFFFFFFFF.
    #[inline(always)]
    pub fn count(&mut self, row: RowId, index: u16)
        requires index { index < (row_of row).count }
        requires counter { (row_of row).kind ≡ Rc }
        ensures { self.new ≡ counted self.old row index }
    {
        let word = self.word(row, index);
        self.set_word(row, index, bump(word));
    }

    /// Increments a read-only counter, given by its row and its index in the row, which must be below the row's count.
    /// The counter wraps from 0xFFFFFFFF to 0.
    pub fn count_wrapping(&mut self, row: RowId, index: u16)
        requires index { index < (row_of row).count }
        requires counter { (row_of row).kind ≡ Ro }
        ensures { self.new ≡ counted_wrapping self.old row index }
    {
        let word = self.word(row, index);
        self.set_word(row, index, word.wrapping_add(1));
    }

    /// Returns the number, 0 to 15, of the counter that is assigned to a side of a queue below `QUEUES`. RQSMR names
    /// the counter for a receive side, TQSM for a transmit side.
    pub fn counter(&self, dir: Dir, queue: u16) -> u16
        requires { queue < 128 }
        ensures counter { result ≡ counter_of self.now dir queue }
        ensures small { result < 16 }
    {
        let word = self.word(mapping_row(dir), queue / QUEUES_IN_A_WORD);
        let shift = COUNTER_BITS * u32::from(queue % QUEUES_IN_A_WORD);
        ((word >> shift) % COUNTERS) as u16
    }
}

/// Returns the row that maps the queues' sides to counters.
#[inline(always)]
fn mapping_row(dir: Dir) -> RowId
    ensures { result ≡ mapping_row dir }
{
    match dir {
        Dir::Rx => RowId::Rqsmr,
        Dir::Tx => RowId::Tqsm,
    }
}
