//! Lists of foreign events for an `Interleaved`, what remains of an `Interleaved` at the end, and the return of blocks
//! to arenas.

use crate::history::add_marked;
use crate::outcome::{Hand, done, emptied, empty, none, push, put, some};
use device_lock::Entry;
use nic_device::{Arena, Buf, Device, Dir, Event, LentMemory, Reply};
use pmd::{Finished, Interleaved};

/// Lists of foreign events, one list for each of the next calls.
pub type Schedule = Vec<Vec<Event>>;

/// Appends to a list the steps that turn both sides of queue 0 on or off.
pub fn push_switches(rt: &impl Hand, list: &mut Vec<Event>) {
    push(rt, list, Event::QueueStep(Dir::Rx, 0));
    push(rt, list, Event::QueueStep(Dir::Tx, 0));
}

/// Appends the steps of queue 0 to a list: both sides are turned on or off, the queue transmits, and the device
/// receives.
pub fn push_steps(rt: &impl Hand, list: &mut Vec<Event>) {
    push_switches(rt, list);
    push(rt, list, Event::TxStep(0));
    push(rt, list, Event::RxStep);
}

/// Drops an event. Keeps the block that it would have lent.
fn let_go(rt: &impl Hand, bufs: &mut Vec<Buf>, event: Event) {
    if let Some(buf) = event.into_buf() {
        push(rt, bufs, buf);
    }
}

/// Drops a reply. Keeps the block that it returns.
pub fn let_reply_go(rt: &impl Hand, bufs: &mut Vec<Buf>, reply: Reply) {
    if let Some(buf) = reply.into_buf() {
        push(rt, bufs, buf);
    }
}

/// Drops the events of a list. Keeps their blocks.
fn let_all_go(rt: &impl Hand, bufs: &mut Vec<Buf>, mut list: Vec<Event>) {
    for _event in 0..list.len() {
        let_go(rt, bufs, some(rt, list.pop()));
    }
    emptied(rt, list);
}

/// What remains of an `Interleaved`: the device, the history of its calls, the number of foreign events, and the blocks
/// that foreign events took or didn't lend.
pub struct Left {
    /// The device at the end.
    pub device: Device,
    /// The calls. The calls marked as own are the driver's.
    pub history: Vec<Entry>,
    /// The number of foreign events.
    pub foreign: usize,
    /// The blocks that foreign events took or didn't lend.
    pub bufs: Vec<Buf>,
}

/// Finishes an `Interleaved`, and drops its schedule and the foreign replies.
pub fn finish(rt: &impl Hand, nic: Interleaved) -> Left {
    let mut history = empty(rt);
    let Finished {
        device,
        calls,
        own,
        foreign: mut replies,
        mut schedule,
    } = nic.finish();
    add_marked(
        rt,
        &mut history,
        own.as_slice(),
        done(rt, calls.into_vec(rt.alloc())),
    );
    let mut bufs = empty(rt);
    let foreign = replies.len();
    for _reply in 0..foreign {
        let_reply_go(rt, &mut bufs, some(rt, replies.pop()));
    }
    emptied(rt, replies);
    for _list in 0..schedule.len() {
        let_all_go(rt, &mut bufs, some(rt, schedule.pop()));
    }
    emptied(rt, schedule);
    Left {
        device,
        history,
        foreign,
        bufs,
    }
}

/// Takes back all memory that is lent to a device.
pub fn take_all(rt: &impl Hand, bufs: &mut Vec<Buf>, mut memory: LentMemory) {
    for _block in 0..1000 {
        match memory.lowest() {
            Some(block) => push(rt, bufs, some(rt, memory.take(block))),
            None => {}
        }
    }
    done(rt, memory.finish());
}

/// Returns a block to the first arena in which it is missing.
fn give_home(rt: &impl Hand, buf: Buf, arenas: &mut [Arena]) {
    let mut away = Some(buf);
    for arena in arenas {
        match away.take() {
            Some(buf) => match arena.give(buf) {
                Ok(()) => {}
                Err(buf) => put(rt, &mut away, buf),
            },
            None => {}
        }
    }
    none(rt, away);
}

/// Closes arenas. Returns those that don't close because blocks are missing.
fn not_whole(rt: &impl Hand, mut arenas: Vec<Arena>) -> Vec<Arena> {
    let mut away = empty(rt);
    for _arena in 0..arenas.len() {
        match some(rt, arenas.pop()).close() {
            Ok(()) => {}
            Err(arena) => done(rt, away.push(arena)),
        }
    }
    emptied(rt, arenas);
    away
}

/// Returns each block to the first arena in which it is missing, and checks that none is missing afterwards. Returns
/// the number of arenas that didn't close before the blocks were returned.
pub fn all_home(rt: &impl Hand, mut bufs: Vec<Buf>, arenas: Vec<Arena>) -> usize {
    let mut away = not_whole(rt, arenas);
    let count = away.len();
    for _buf in 0..bufs.len() {
        give_home(rt, some(rt, bufs.pop()), away.as_mut_slice());
    }
    emptied(rt, bufs);
    emptied(rt, not_whole(rt, away));
    count
}
