//! Pool selection: the pool of queues that receives a frame.

ghost use Rattle.std.specs.Prelude.{◌≡◌, ◌<◌, IfSome, IfOk, IsTrue};
ghost use Rattle.rx_filter.specs.Pools.{uses_pools, selects, lowest_pool, default_pool, selected_pool, parting, parting_in, has_queues, checked_pool, chosen_pool};

use crate::address::first_match;
use crate::fields::DEF_PL;
use crate::unwanted::Unwanted;
use reg_table::{VtCtl, has_bit, has_flag};
use register_file::{Dir, Mode, QueueMode, RegisterFile, RowId, queues_of};

/// The maximum number of pools.
const POOLS: u16 = 64;

/// Returns the pool that receives a frame. The pool is below 64 and has queues in the mode that MRQC and GCR_EXT
/// select. If pools aren't in use, the pool is 0.
#[tactic(auto, unfolding(crate::specs::Pools::chosen_pool))]
pub(crate) fn chosen_pool(registers: &RegisterFile, frame: &[u8]) -> Result<u16, Unwanted>
    ensures chosen { result ≡ chosen_pool registers.now frame.now }
    ensures range { IfOk result (λ pool. pool < 64) }
    ensures queues { IfOk result (λ pool. IsTrue (has_queues (parting_in registers.now) pool)) }
{
    if uses_pools(registers) {
        checked_pool(registers, selected_pool(registers, frame))
    } else {
        Ok(0)
    }
}

/// Whether frames are distributed among pools (VT_CTL bit 0).
pub fn uses_pools(registers: &RegisterFile) -> bool
    ensures { result ≡ uses_pools registers.now }
{
    has_flag(registers.word(RowId::VtCtl, 0), VtCtl::VT_ENA)
}

/// Returns the lowest pool of the first receive address that a frame matches. If there is no such pool, returns the
/// default pool, if any.
fn selected_pool(registers: &RegisterFile, frame: &[u8]) -> Option<u16>
    ensures pool { result ≡ selected_pool registers.now frame.now }
    ensures range { IfSome result (λ pool. pool < 64) }
{
    let matched = match first_match(registers, frame) {
        Some(index) => lowest_pool(registers, index),
        None => None,
    };
    match matched {
        Some(pool) => Some(pool),
        None => default_pool(registers),
    }
}

/// Returns the lowest pool that receives frames for a receive address.
fn lowest_pool(registers: &RegisterFile, index: u16) -> Option<u16>
    requires { index < 128 }
    ensures lowest { result ≡ lowest_pool registers.now index }
    ensures range { IfSome result (λ pool. pool < 64) }
{
    for pool in 0..POOLS {
        if selects(registers, index, pool) {
            return Some(pool);
        }
    }
    None
}

/// Whether a pool receives frames for a receive address (MPSAR).
fn selects(registers: &RegisterFile, index: u16, pool: u16) -> bool
    requires index { index < 128 }
    requires pool { pool < 64 }
    ensures { result ≡ selects registers.now index pool }
{
    has_bit(
        registers.word(RowId::Mpsar, 2 * index + pool / 32),
        u32::from(pool % 32),
    )
}

/// Returns the default pool, if any: the pool of a frame for which no receive address selects a pool.
fn default_pool(registers: &RegisterFile) -> Option<u16>
    ensures pool { result ≡ default_pool registers.now }
    ensures range { IfSome result (λ pool. pool < 64) }
{
    let word = registers.word(RowId::VtCtl, 0);
    if has_flag(word, VtCtl::DIS_DEF_POOL) {
        None
    } else {
        Some(((word >> DEF_PL) % 64) as u16)
    }
}

/// Checks that a frame's pool has queues and that reception is enabled for the pool.
fn checked_pool(registers: &RegisterFile, pool: Option<u16>) -> Result<u16, Unwanted>
    requires { IfSome pool (λ pool. pool < 64) }
    ensures checked { result ≡ checked_pool registers.now pool }
    ensures range { IfOk result (λ pool. pool < 64) }
    ensures queues { IfOk result (λ pool. IsTrue (has_queues (parting_in registers.now) pool)) }
{
    let Some(pool) = pool else {
        return Err(Unwanted::NoPool);
    };
    let code = QueueMode::of(registers.word(RowId::Mrqc, 0));
    if !has_queues(parting(code, registers.mode()), pool) {
        return Err(Unwanted::NoPool);
    }
    if !registers.is_pool_on(Dir::Rx, pool) {
        return Err(Unwanted::PoolOff);
    }
    Ok(pool)
}

/// Returns how the queues are divided into pools. If MRQC has a code for pools, there are 16 pools if GCR_EXT selects
/// 16. Otherwise, there are 32 pools with code 0xA, and 64 with the other codes for pools. With any other code, the
/// result is `Off`.
pub(crate) fn parting(code: QueueMode, mode: Mode) -> Mode
    ensures { result ≡ parting code mode }
{
    let by_code = match code {
        QueueMode::Single | QueueMode::Rss => return Mode::Off,
        QueueMode::Vmdq32Rss => Mode::Pools32,
        QueueMode::Vmdq64 | QueueMode::Vmdq64Rss => Mode::Pools64,
    };
    match mode {
        Mode::Pools16 => Mode::Pools16,
        Mode::Off | Mode::Pools32 | Mode::Pools64 => by_code,
    }
}

/// Whether a pool has queues when the queues are divided by this mode.
fn has_queues(mode: Mode, pool: u16) -> bool
    requires { pool < 64 }
    ensures { result ≡ has_queues mode pool }
{
    match mode {
        Mode::Off => true,
        Mode::Pools16 | Mode::Pools32 | Mode::Pools64 => queues_of(mode, pool as u8).is_some(),
    }
}
