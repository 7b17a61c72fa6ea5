ghost use Rattle.std.specs.Prelude.{◌≡◌, ◌<◌};
ghost use Rattle.vf_map.specs.Owner.{has_queue};
ghost use Rattle.vf_map.specs.Pools.{mode_of, pools_in, queues_of, pool_of, queue_in};

use crate::mode::Mode;

/// The bits of GCR_EXT that contain the mode.
const MODE_MASK: u32 = 0x3;

/// The number of queues, each with a receive and a transmit side.
pub const QUEUES: u16 = 128;

/// The maximum number of virtual functions in a device.
pub const MAX_VFS: u8 = 63;

/// Returns the mode that bits 1:0 of a GCR_EXT word select. The other bits are ignored.
pub fn mode_of(gcr_ext: u32) -> Mode
    ensures { result ≡ mode_of gcr_ext }
{
    match gcr_ext & MODE_MASK {
        0 => Mode::Off,
        1 => Mode::Pools16,
        2 => Mode::Pools32,
        _ => Mode::Pools64,
    }
}

/// Returns the first queue of virtual function v and the number of its queues: 8v and eight with 16 pools, 4v and four
/// with 32, 2v and two with 64. Returns `None` if the mode has no pool v.
pub fn queues_of(mode: Mode, v: u8) -> Option<(u8, u8)>
    ensures { result ≡ queues_of mode v }
{
    match mode {
        Mode::Pools16 if v < 16 => Some((8 * v, 8)),
        Mode::Pools32 if v < 32 => Some((4 * v, 4)),
        Mode::Pools64 if v < 64 => Some((2 * v, 2)),
        _ => None,
    }
}

/// Returns the pool of a queue: queue / 8 with 16 pools, queue / 4 with 32, queue / 2 with 64. Returns `None` if the
/// mode has no pools, or for queue 128 and above, which don't exist.
pub fn pool_of(mode: Mode, queue: u16) -> Option<u8>
    ensures { result ≡ pool_of mode queue }
{
    match mode {
        Mode::Pools16 if queue < QUEUES => Some((queue / 8) as u8),
        Mode::Pools32 if queue < QUEUES => Some((queue / 4) as u8),
        Mode::Pools64 if queue < QUEUES => Some((queue / 2) as u8),
        _ => None,
    }
}

/// Returns the queue, below 128, that a number selects in a pool. The number is, for example, an entry in the
/// redirection table. The queue's index in the pool is the number modulo the pool's number of queues. The mode must
/// have the pool.
pub fn queue_in(mode: Mode, pool: u16, number: u8) -> u16
    requires { pool < pools_in mode }
    ensures queue { result ≡ queue_in mode pool number }
    ensures range { result < 128 }
{
    match mode {
        Mode::Off => 0,
        Mode::Pools16 => 8 * pool + u16::from(number % 8),
        Mode::Pools32 => 4 * pool + u16::from(number % 4),
        Mode::Pools64 => 2 * pool + u16::from(number % 2),
    }
}

/// Whether a queue belongs to a pool. In a mode without pools, no queue belongs to a pool. Queues 128 and above never
/// belong to a pool.
pub fn has_queue(mode: Mode, pool: u16, queue: u16) -> bool
    ensures { result ≡ has_queue mode pool queue }
{
    match pool_of(mode, queue) {
        Some(number) => u16::from(number) == pool,
        None => false,
    }
}
