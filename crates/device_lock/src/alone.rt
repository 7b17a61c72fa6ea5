//! Whether a history leaves a queue alone, judged by what other passes did to the queue after the queue's driver began.

ghost use Rattle.std.specs.Prelude.{◌≡◌, ◌↔◌, ◌==◌, ◌||◌, not, ℕ, IsTrue, IfSome, IfNone, false};
ghost use Rattle.nic_device.specs.VfMap.declared.mode.Mode.TheVariants.{Off};
ghost use Rattle.device_lock.specs.Alone.{LeavesAlone, is_setting, place_at, mode_set, mode_written, mode_after, lends, lent_in, lent_by};
ghost use Rattle.device_lock.specs.Watching.{marked, spares, spares_if_some, leaves_registers, leaves_blocks, touched, is_clear, writes_outside, leaves_alone, rest_leaves_alone};

use crate::entry::Entry;
use nic_device::{
    BLOCK_NUMBERS, Bank, Event, EventNote, Located, Mode, Place, Port, Reply, ReplyNote, RowId,
    asks_pool_reset, asks_reset, bank_of, has_queue, locate, mode_of, place_of,
};

/// The size in bytes of a block of packet memory.
const BLOCK: u64 = 2048;

/// For each block number, whether that block is marked.
type Blocks = [bool; BLOCK_NUMBERS as usize];

/// The queue to watch, and the pass of its driver.
#[derive(Clone, Copy)]
pub struct Watched {
    /// The device's number of virtual functions.
    pub vfs: u8,
    /// The tag of the pass that the queue's driver has.
    pub pass: u8,
    /// The queue's number, among the device's 128 queues.
    pub queue: u16,
}

/// Returns the register with this number at a port, or `None` if the port has no such register. The number is a
/// register address of the physical function, or an offset of a virtual function. The result depends on the pool mode
/// and on `vfs`, the number of virtual functions. `left_alone` uses this function to look up the register of each
/// write.
pub fn place_at(mode: Mode, vfs: u8, port: Port, number: u32) -> Option<Place>
    ensures { result ≡ place_at mode vfs port number }
{
    match port {
        Port::Pf => place_of(number),
        Port::Vf(v) => match locate(mode, vfs, v, number) {
            Located::Absent | Located::Hole => None,
            Located::Register(place) => Some(place),
        },
    }
}

/// Returns the pool mode after a write.
fn mode_written(mode: Mode, place: Option<Place>, word: u32) -> Mode
    ensures { result ≡ mode_written mode place word }
{
    match place {
        None => mode,
        Some(place) => mode_set(mode, place, word),
    }
}

/// Returns the pool mode after a write to a register.
fn mode_set(mode: Mode, place: Place, word: u32) -> Mode
    ensures { result ≡ mode_set mode place.row word }
{
    match place.row {
        RowId::GcrExt => mode_of(word),
        RowId::Ctrl if asks_reset(place, word) => Mode::Off,
        _ => mode,
    }
}

/// Returns the pool mode after an event.
pub(crate) fn mode_after(vfs: u8, mode: Mode, event: &EventNote) -> Mode
    ensures { result ≡ mode_after vfs mode event.now }
{
    match event {
        Event::Write(port, number, word) => {
            mode_written(mode, place_at(mode, vfs, *port, *number), *word)
        }
        _ => mode,
    }
}

/// Returns whether this is a device-wide register that a driver relies on.
fn is_setting(row: RowId) -> bool
    ensures { result ≡ is_setting row }
{
    matches!(
        row,
        RowId::Ctrl | RowId::Hlreg0 | RowId::Maxfrs | RowId::GcrExt
    )
}

/// Returns whether this write to a register changes nothing that the queue relies on.
fn spares(queue: u16, mode: Mode, place: Place, word: u32) -> bool
    ensures { result ≡ spares queue mode place word }
{
    let is_side = matches!(bank_of(place.row), Bank::Receive | Bank::Transmit);
    let resets = asks_pool_reset(place, word) && has_queue(mode, place.index, queue);
    !is_setting(place.row) && !(is_side && place.index == queue) && !resets
}

/// Returns whether an event writes no register that the queue relies on.
fn leaves_registers(watched: Watched, mode: Mode, event: &EventNote) -> bool
    ensures { result ≡ leaves_registers watched mode event.now }
{
    match event {
        Event::Write(port, number, word) => match place_at(mode, watched.vfs, *port, *number) {
            None => true,
            Some(place) => spares(watched.queue, mode, place, *word),
        },
        _ => true,
    }
}

/// Returns whether a block is marked.
fn is_marked(blocks: &Blocks, number: u64) -> bool
    ensures { result ≡ marked blocks.now number }
{
    number < u64::from(BLOCK_NUMBERS) && blocks[number as usize]
}

/// Returns whether an event lends, takes or pokes none of the blocks.
fn leaves_blocks(blocks: &Blocks, event: &EventNote) -> bool
    ensures { result ≡ leaves_blocks (marked blocks.now) event.now }
{
    match event {
        Event::Lend(note) => !is_marked(blocks, u64::from(note.number())),
        Event::Take(number) => !is_marked(blocks, u64::from(*number)),
        Event::Poke16(address, _) => !is_marked(blocks, u64::from(*address) / BLOCK),
        _ => true,
    }
}

/// Returns the number of blocks that a range of bytes touches.
fn touched(at: u64, len: u64) -> u64
    ensures { result ≡ touched at len }
{
    if len == 0 {
        0
    } else {
        (at % BLOCK + (len - 1) % BLOCK) / BLOCK + (len - 1) / BLOCK + 1
    }
}

/// Returns whether a range of bytes touches none of the blocks.
fn is_clear(blocks: &Blocks, at: u64, len: u64) -> bool
    ensures { result ≡ is_clear (marked blocks.now) at len }
{
    let first = at / BLOCK;
    for after in 0..touched(at, len) {
        if is_marked(blocks, first + after) {
            return false;
        }
    }
    true
}

/// Returns whether the reply reports no write into the blocks by another queue's step.
fn writes_outside(queue: u16, blocks: &Blocks, reply: &ReplyNote) -> bool
    ensures { result ≡ writes_outside queue (marked blocks.now) reply.now }
{
    match reply {
        Reply::Wrote {
            queue: on,
            desc,
            at,
            len,
            ..
        } => *on == queue || is_clear(blocks, *at, *len as u64) && is_clear(blocks, *desc, 16),
        Reply::Advanced {
            queue: on,
            back: Some(back),
            ..
        }
        | Reply::Sent {
            queue: on,
            back: Some(back),
            ..
        } => *on == queue || !is_marked(blocks, *back / BLOCK),
        _ => true,
    }
}

/// Returns whether an entry leaves the queue alone.
fn leaves_alone(watched: Watched, blocks: &Blocks, mode: Mode, entry: &Entry) -> bool
    ensures { result ≡ leaves_alone watched (marked blocks.now) mode entry.now }
{
    let own = entry.pass == watched.pass;
    (own || leaves_registers(watched, mode, &entry.event) && leaves_blocks(blocks, &entry.event))
        && writes_outside(watched.queue, blocks, &entry.reply)
}

/// Returns the number of the block that an entry lends, or `None` if the entry lends none.
fn lends(entry: &Entry) -> Option<u32>
    ensures none { IfNone result ((number : ℕ) → lends entry.now.event entry.now.reply number ≡ false) }
    ensures some { IfSome result
        (λ block. (number : ℕ) → lends entry.now.event entry.now.reply number ≡ (block == number)) }
{
    match (&entry.event, &entry.reply) {
        (Event::Lend(note), Reply::Done) => Some(note.number()),
        _ => None,
    }
}

/// Marks the block that an entry lends, if the entry belongs to the pass.
fn mark(blocks: &mut Blocks, pass: u8, entry: &Entry)
    ensures { (number : ℕ) → marked blocks.new number ≡ (marked blocks.old number || lent_in pass entry.now number) }
{
    if entry.pass == pass
        && let Some(number) = lends(entry)
        && number < BLOCK_NUMBERS
    {
        blocks[number as usize] = true;
    }
}

/// Returns the blocks that a pass lends in a history.
fn lent_by(pass: u8, history: &[Entry]) -> Blocks
    ensures { (number : ℕ) → marked result number ≡ lent_by pass history.now number }
{
    let mut blocks = [false; BLOCK_NUMBERS as usize];
    for entry in history {
        mark(&mut blocks, pass, entry);
    }
    blocks
}

/// Returns whether a history that starts with a new device leaves a queue alone.
///
/// The rules apply after the first entry of the driver's pass. No entry of another pass may write a register of the
/// queue, or CTRL, HLREG0, MAXFRS or GCR_EXT. No entry of another pass may reset a pool that contains the queue. No
/// entry of another pass may lend, take or poke a block that the driver's pass lends anywhere in the history; peeking
/// at such a block is allowed. Entries of the driver's pass may do all of this. But no entry of any pass may report
/// that another queue's step wrote into one of these blocks. This function allocates nothing.
pub fn left_alone(watched: Watched, history: &[Entry]) -> bool
    ensures { IsTrue result ↔ LeavesAlone watched history.now }
{
    let blocks = lent_by(watched.pass, history);
    are_left_alone(watched, &blocks, history)
}

/// Returns the same as `left_alone`, given the blocks that the driver's pass lends.
fn are_left_alone(watched: Watched, blocks: &Blocks, history: &[Entry]) -> bool
    ensures { result ≡ rest_leaves_alone watched (marked blocks.now) Off false history.now }
{
    let mut mode = Mode::Off;
    let mut begun = false;
    for entry in history {
        if !passes(watched, blocks, mode, begun, entry) {
            return false;
        }
        mode = mode_after(watched.vfs, mode, &entry.event);
        begun = has_begun(watched, begun, entry);
    }
    true
}

/// Returns whether an entry leaves the queue alone, or the queue's driver hasn't begun yet.
fn passes(watched: Watched, blocks: &Blocks, mode: Mode, begun: bool, entry: &Entry) -> bool
    ensures { result ≡ (not begun || leaves_alone watched (marked blocks.now) mode entry.now) }
{
    !begun || leaves_alone(watched, blocks, mode, entry)
}

/// Returns whether the queue's driver has begun, counting this entry.
fn has_begun(watched: Watched, begun: bool, entry: &Entry) -> bool
    ensures { result ≡ (begun || (entry.now.pass == watched.pass)) }
{
    begun || entry.pass == watched.pass
}
