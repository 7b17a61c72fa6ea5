//! Pools of queues, and the pool reset.

ghost use Rattle.std.specs.Prelude.{◌≡◌, ◌+◌, ◌<◌, ◌≤◌, fold};
ghost use Rattle.std.specs.List.{range_with_len};
ghost use Rattle.intr_unit.specs.declared.group.Group.TheVariants.{Vf};
ghost use Rattle.register_file.specs.Groups.{with_reported};
ghost use Rattle.register_file.specs.Pools.{mode_in, pool_row, is_pool_on};
ghost use Rattle.register_file.specs.PoolReset.{side_reset, queue_reset, own_renewals, mailbox_renewals, rows_reset, vectors_reset, function_reset, pool_reset};
ghost use Rattle.dma_ring.specs.declared.dir.Dir.TheVariants.{Rx, Tx};

use crate::bits::mixed;
use crate::register_file::RegisterFile;
use crate::side::{ReceiveSide, TransmitSide};
use dma_ring::Dir;
use reg_table::{Pvfmailbox, RowId};
use vf_map::{Mode, mode_of, queues_of};

/// The number of pools per VFRE or VFTE word.
const POOLS_IN_A_WORD: u16 = 32;

/// The PVFMAILBOX bits that a pool reset clears: the function's hold on the mailbox, and the status and acknowledgement
/// that were sent to the function.
const MAIL_RENEWED: u32 = Pvfmailbox::VFU.0 | Pvfmailbox::PFSTS.0 | Pvfmailbox::PFACK.0;

/// The reset value of PVFMAILBOX.
const MAIL_AT_RESET: u32 = Pvfmailbox::RSTI.0;

impl RegisterFile {
    /// Returns how GCR_EXT divides the queues into pools.
    pub fn mode(&self) -> Mode
        ensures { result ≡ mode_in self.now }
    {
        mode_of(self.word(RowId::GcrExt, 0))
    }

    /// Whether a pool below 64 is enabled for a direction: its bit is 1 in VFRE for reception, or in VFTE for
    /// transmission.
    pub fn is_pool_on(&self, dir: Dir, pool: u16) -> bool
        requires { pool < 64 }
        ensures { result ≡ is_pool_on self.now dir pool }
    {
        let word = self.word(pool_row(dir), pool / POOLS_IN_A_WORD);
        (word >> (pool % POOLS_IN_A_WORD)) % 2 == 1
    }

    /// Resets pool v, below 64. The reset covers the interrupts and reported bits of the pool's virtual function,
    /// PSRTYPE, the mailbox, and the function's counters. For each queue that the mode assigns to the pool, the reset
    /// also covers both sides, their enable requests, and the vectors. If the mode doesn't have the pool, no queues are
    /// reset. In the mailbox, PFMBMEM and all bits of PVFMAILBOX except 2, 4 and 5 are unchanged. Each register or bit
    /// that is reset takes its row's reset value; everything else is unchanged.
    #[tactic(auto, unfolding(crate::specs::PoolReset::pool_reset))]
    pub fn reset_pool(&mut self, mode: Mode, v: u8)
        requires { v < 64 }
        ensures { self.new ≡ pool_reset mode v self.old }
    {
        self.reset_function(v);
        if let Some((first, count)) = queues_of(mode, v) {
            self.reset_queues(first, count);
            self.reset_vectors(first / 2, count / 2);
        }
    }

    /// Resets the registers that exist once per pool, and the pool's mailbox.
    fn reset_function(&mut self, v: u8)
        requires { v < 64 }
        ensures { self.new ≡ function_reset self.old v }
    {
        self.reset_own(v);
        self.reset_mailbox(u16::from(v));
    }

    /// Resets the interrupts and reported bits of a pool's virtual function, PSRTYPE, and the function's counters.
    fn reset_own(&mut self, v: u8)
        requires { v < 64 }
        ensures { self.new ≡ with_reported (rows_reset self.old own_renewals v) (Vf v) 0 }
    {
        let at = usize::from(v);
        self.groups.renew(v);
        self.tables.psrtype[at] = 0;
        self.counters.vfgprc[at] = 0;
        self.counters.vfgptc[at] = 0;
    }

    /// Resets a pool's mailbox state: the function's hold on the mailbox, the status and acknowledgement that were sent
    /// to the function, and the mailbox's vector.
    fn reset_mailbox(&mut self, v: u16)
        requires { v < 64 }
        ensures { self.new ≡ rows_reset self.old mailbox_renewals v }
    {
        let mail = self.word(RowId::Pvfmailbox, v);
        self.set_word(RowId::PvtivarMisc, v, 0);
        self.set_word(
            RowId::Pvfmailbox,
            v,
            mixed(MAIL_RENEWED, mail, MAIL_AT_RESET),
        );
    }

    /// Resets `count` queues, starting with queue `first`.
    fn reset_queues(&mut self, first: u8, count: u8)
        requires { first + count ≤ 128 }
        ensures { self.new ≡ fold queue_reset self.old (range_with_len first count) }
    {
        for x in 0..count {
            self.reset_queue(u16::from(first + x));
        }
    }

    /// Resets `count` words of PVTIVAR, starting with word `first`.
    fn reset_vectors(&mut self, first: u8, count: u8)
        requires { first + count ≤ 64 }
        ensures { self.new ≡ fold vectors_reset self.old (range_with_len first count) }
    {
        for x in 0..count {
            self.set_word(RowId::Pvtivar, u16::from(first + x), 0);
        }
    }

    /// Resets both sides of a queue.
    fn reset_queue(&mut self, queue: u16)
        requires { queue < 128 }
        ensures { self.new ≡ queue_reset self.old queue }
    {
        self.reset_receive(queue);
        self.reset_transmit(queue);
    }

    fn reset_receive(&mut self, queue: u16)
        requires { queue < 128 }
        ensures { self.new ≡ side_reset Rx self.old queue }
    {
        self.receive[usize::from(queue)] = ReceiveSide::AT_RESET;
    }

    fn reset_transmit(&mut self, queue: u16)
        requires { queue < 128 }
        ensures { self.new ≡ side_reset Tx self.old queue }
    {
        self.transmit[usize::from(queue)] = TransmitSide::AT_RESET;
    }
}

/// Returns the row that enables pools for a direction: VFRE or VFTE.
fn pool_row(dir: Dir) -> RowId
    ensures { result ≡ pool_row dir }
{
    match dir {
        Dir::Rx => RowId::Vfre,
        Dir::Tx => RowId::Vfte,
    }
}
