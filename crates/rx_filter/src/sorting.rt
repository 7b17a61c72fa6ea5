//! Queue selection: the queue that receives a frame, and the frame's RSS hash.

ghost use Rattle.std.specs.Prelude.{◌≡◌, ◌<◌, ◌==◌, IfOk, IsTrue, if◌then◌else◌};
ghost use Rattle.register_file.specs.RegTable.declared.rows.RowId.TheVariants.{Reta, Rxcsum};
ghost use Rattle.register_file.specs.Bits.{has_bit};
ghost use Rattle.register_file.specs.Registers.{word_of};
ghost use Rattle.register_file.specs.Words.{row_words};
ghost use Rattle.register_file.specs.RssHash.Registers.{entry_of};
ghost use Rattle.rx_filter.specs.Fields.{PCSD};
ghost use Rattle.rx_filter.specs.Pools.{parting, parting_in, has_queues};
ghost use Rattle.rx_filter.specs.Sorting.{queue_of, target_of, sorted};

use crate::address::passes;
use crate::pools::{chosen_pool, parting};
use crate::target::Target;
use crate::unwanted::Unwanted;
use reg_table::has_flag;
use register_file::{
    Mode, QueueMode, RegisterFile, RowId, choose_bytes, classify, entry, queue_in,
};

/// Returns the receive queue of a frame, or why the frame is dropped. The frame excludes its frame check sequence. The
/// frame may contain any bytes, and bytes past its end are read as 0.
///
/// Errors: `Filter` if the frame's destination isn't accepted. While VT_CTL bit 0 is 1, two more errors are possible:
/// `NoPool` if no pool is selected or the selected pool has no queues; and, after that check, `PoolOff` if reception is
/// disabled for the pool.
///
/// Intel 82599 datasheet, sections on packet filtering and on receive queue assignment.
#[tactic(auto, unfolding(crate::specs::Sorting::sorted))]
pub fn sort(registers: &RegisterFile, frame: &[u8]) -> Result<Target, Unwanted>
    ensures sorted { result ≡ sorted registers.now frame.now }
    // The queue is below 128, and the RSS type below 16.
    ensures small { IfOk result (λ t. (t.queue < 128) × (t.rss < 16)) }
{
    if !passes(registers, frame) {
        return Err(Unwanted::Filter);
    }
    let pool = chosen_pool(registers, frame)?;
    Ok(target(registers, frame, pool))
}

/// Returns the receive queue of a frame that goes to this pool, and the frame's RSS type and hash.
#[tactic(auto, unfolding(crate::specs::Sorting::target_of))]
fn target(registers: &RegisterFile, frame: &[u8], pool: u16) -> Target
    requires range { pool < 64 }
    requires queues { IsTrue (has_queues (parting_in registers.now) pool) }
    ensures target { result ≡ target_of registers.now frame.now pool }
    ensures small { (result.queue < 128) × (result.rss < 16) }
{
    let mrqc = registers.word(RowId::Mrqc, 0);
    let flow = classify(frame);
    let (rss, input) = choose_bytes(mrqc, &flow);
    let hash = registers.hash(input);
    let entry = entry_at(registers, rss, hash);
    Target {
        queue: queue(QueueMode::of(mrqc), registers.mode(), pool, entry),
        rss,
        hash: reported(registers, hash),
    }
}

/// Returns the RETA entry that a hash selects, or 0 for a frame of RSS type 0.
fn entry_at(registers: &RegisterFile, rss: u8, hash: u32) -> u8
    ensures value { result ≡ (if rss == 0 then 0 else entry_of (row_words registers.now.words Reta) hash) }
    ensures range { result < 16 }
{
    if rss == 0 {
        return 0;
    }
    entry(registers.redirection(), hash)
}

/// Returns the hash that descriptors report: the frame's hash if RXCSUM enables hashes, otherwise 0.
fn reported(registers: &RegisterFile, hash: u32) -> u32
    ensures { result ≡ (if has_bit PCSD (word_of registers.now Rxcsum 0) then hash else 0) }
{
    if has_flag(registers.word(RowId::Rxcsum, 0), reg_table::Rxcsum::PCSD) {
        hash
    } else {
        0
    }
}

/// Returns the queue for a pool and a redirection table entry.
fn queue(code: QueueMode, mode: Mode, pool: u16, entry: u8) -> u16
    requires queues { IsTrue (has_queues (parting code mode) pool) }
    requires entry { entry < 16 }
    ensures value { result ≡ queue_of code mode pool entry }
    ensures range { result < 128 }
{
    match code {
        QueueMode::Single => 0,
        QueueMode::Rss => u16::from(entry),
        QueueMode::Vmdq64 | QueueMode::Vmdq32Rss | QueueMode::Vmdq64Rss => {
            queue_in(parting(code, mode), pool, entry)
        }
    }
}
