//! Creating and freeing a card.

ghost use Rattle.std.specs.Prelude.{◌≡◌, ◌≢◌, Some};
ghost use Rattle.card.specs.Card.{new_card};
ghost use Rattle.nic82599_c.specs.Life.{new_status};

use crate::handed::HandleOut;
use crate::handle::Handle;
use crate::parts::Parts;
use crate::status::{BAD_BLOCKS, BAD_FIFO, DONE, OUT_OF_MEMORY, TOO_MANY_VFS};
use card::Card;
use nic_device::{BLOCK_NUMBERS, Config, MAX_FIFO, MAX_VFS};
use std::alloc::Global;

/// Returns the status that `nic_new` returns if there is enough memory.
fn new_status(vfs: u8, fifo: u16, blocks: u32) -> u8
    ensures { result ≡ new_status vfs fifo blocks }
{
    if blocks == 0 || blocks > BLOCK_NUMBERS {
        return BAD_BLOCKS;
    }
    if vfs > MAX_VFS {
        return TOO_MANY_VFS;
    }
    if fifo == 0 || fifo > MAX_FIFO {
        return BAD_FIFO;
    }
    DONE
}

/// Creates a card and stores its pointer in `device`. The card has a device in its reset state, with `vfs` virtual
/// functions (0 to 63) and a receive list for `fifo` frames (1 to 4,096). The card also has `blocks` blocks of packet
/// memory (1 to 65,536), none of them lent.
///
/// Errors, in this order: BAD_BLOCKS, TOO_MANY_VFS, BAD_FIFO and OUT_OF_MEMORY. Each error leaves `device` unchanged.
#[unsafe(no_mangle)]
pub extern "C" fn nic_new(
    alloc: Global,
    vfs: u8,
    fifo: u16,
    blocks: u32,
    device: &mut HandleOut,
) -> u8
    ensures status { result ≢ OUT_OF_MEMORY → result ≡ new_status vfs fifo blocks }
    ensures memory { result ≡ OUT_OF_MEMORY → new_status vfs fifo blocks ≡ DONE }
    ensures made { result ≡ DONE → device.new.card ≡ Some (new_card vfs fifo blocks) }
    ensures kept { result ≢ DONE → device.new ≡ device.old }
{
    let refused = new_status(vfs, fifo, blocks);
    if refused != DONE {
        return refused;
    }
    let Ok(card) = Card::new(alloc, Config { vfs, fifo }, blocks) else {
        return OUT_OF_MEMORY;
    };
    match Box::new(alloc, card) {
        Ok(boxed) => {
            *device = HandleOut::of(Parts::of(boxed));
            DONE
        }
        Err(_) => OUT_OF_MEMORY,
    }
}

/// Frees the card with its device and all of its packet memory. Lent blocks are taken back, and the arena is closed.
#[unsafe(no_mangle)]
pub extern "C" fn nic_free(nic: Handle) {
    drop(nic);
}
