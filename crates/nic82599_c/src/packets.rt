//! Lending blocks of packet memory to the device, and taking them back.

ghost use Rattle.std.specs.Prelude.{◌≡◌, ◌≢◌, ◌<◌, ℕ};
ghost use Rattle.nic_device.specs.DmaArena.Numbers.{count_of};
ghost use Rattle.card.specs.Card.{with_lent, with_taken, lent_below};
ghost use Rattle.nic82599_c.specs.Statuses.{lend_status, take_status};

use crate::handle::Handle;
use crate::status::{DONE, NO_BLOCK, NOT_LENT, OUT_OF_MEMORY};

/// Lends a free block to the device, with all bytes 0. Returns DONE; NO_BLOCK if and only if no block with this number
/// is free; or OUT_OF_MEMORY. NO_BLOCK and OUT_OF_MEMORY change nothing.
#[unsafe(no_mangle)]
pub extern "C" fn nic_lend(nic: &mut Handle, block: u32) -> u8
    ensures status { result ≢ OUT_OF_MEMORY → result ≡ lend_status nic.old.card block }
    ensures lent { result ≢ OUT_OF_MEMORY → nic.new.card ≡ with_lent nic.old.card block }
    ensures memory { result ≡ OUT_OF_MEMORY → lend_status nic.old.card block ≡ DONE }
    ensures unchanged { result ≡ OUT_OF_MEMORY → nic.new.card ≡ nic.old.card }
{
    match nic.get_mut().lend(block) {
        Ok(true) => DONE,
        Ok(false) => NO_BLOCK,
        Err(_) => OUT_OF_MEMORY,
    }
}

/// Takes a block back from the device; the block is then free. Returns DONE, or NOT_LENT, which changes nothing.
#[unsafe(no_mangle)]
pub extern "C" fn nic_take(nic: &mut Handle, block: u32) -> u8
    ensures status { result ≡ take_status nic.old.card block }
    ensures taken { nic.new.card ≡ with_taken nic.old.card block }
{
    if nic.get_mut().take(block) {
        DONE
    } else {
        NOT_LENT
    }
}

/// Lends all free blocks, from the lowest number to the highest. Returns DONE, or OUT_OF_MEMORY if memory ran out for a
/// block; in that case, the free blocks below that block have been lent, and no others.
#[unsafe(no_mangle)]
pub extern "C" fn nic_lend_all(nic: &mut Handle) -> u8
    ensures status { result ≢ OUT_OF_MEMORY → result ≡ DONE }
    ensures lent { result ≢ OUT_OF_MEMORY
        → nic.new.card ≡ lent_below nic.old.card (count_of nic.old.card.arena) }
    ensures stopped { result ≡ OUT_OF_MEMORY → (block : ℕ) × (block < count_of nic.old.card.arena)
        × (nic.new.card ≡ lent_below nic.old.card block) }
{
    match nic.get_mut().lend_all() {
        Ok(()) => DONE,
        Err(_) => OUT_OF_MEMORY,
    }
}
