//! Snapshots of a card.

ghost use Rattle.std.specs.Prelude.{◌≡◌, ◌≢◌, Some};
ghost use Rattle.card.specs.Kept.{without_memory};

use crate::handed::KeptHandleOut;
use crate::handle::{Handle, KeptHandle};
use crate::parts::Parts;
use crate::status::{DONE, OUT_OF_MEMORY};
use card::Kept;
use std::alloc::Global;

/// Moves a kept card to the heap, and stores its pointer in `kept`. Returns DONE, or OUT_OF_MEMORY, which leaves `kept`
/// unchanged.
fn hand_out(alloc: Global, card: Kept, kept: &mut KeptHandleOut) -> u8
    ensures status { result ≢ OUT_OF_MEMORY → result ≡ DONE }
    ensures kept { result ≢ OUT_OF_MEMORY → kept.new.kept ≡ Some card }
    ensures refused { result ≡ OUT_OF_MEMORY → kept.new ≡ kept.old }
{
    match Box::new(alloc, card) {
        Ok(boxed) => {
            *kept = KeptHandleOut::of(Parts::of(boxed));
            DONE
        }
        Err(_) => OUT_OF_MEMORY,
    }
}

/// Takes a snapshot of the card, and stores a pointer to the snapshot in `kept`. The snapshot contains the device, with
/// the bytes of the lent blocks, the receive list, the staged bytes and the transmitted frames. It also records which
/// blocks are free. The card is unchanged.
///
/// Returns DONE, or OUT_OF_MEMORY, which leaves `kept` unchanged.
#[unsafe(no_mangle)]
pub extern "C" fn nic_snapshot(alloc: Global, nic: &mut Handle, kept: &mut KeptHandleOut) -> u8
    ensures status { result ≢ OUT_OF_MEMORY → result ≡ DONE }
    ensures kept { result ≢ OUT_OF_MEMORY → kept.new.kept ≡ Some nic.old.card }
    ensures unchanged { nic.new.card ≡ nic.old.card }
    ensures refused { result ≡ OUT_OF_MEMORY → kept.new ≡ kept.old }
{
    match nic.get_mut().keep() {
        Ok(card) => hand_out(alloc, card, kept),
        Err(_) => OUT_OF_MEMORY,
    }
}

/// Takes a snapshot of the card as if it had a single block, which is free, and stores a pointer to the snapshot in
/// `kept`. No packet memory is copied, so the time and memory that this takes don't depend on the number of lent
/// blocks. The card is unchanged.
///
/// Returns DONE, or OUT_OF_MEMORY, which leaves `kept` unchanged.
#[unsafe(no_mangle)]
pub extern "C" fn nic_snapshot_without_memory(
    alloc: Global,
    nic: &mut Handle,
    kept: &mut KeptHandleOut,
) -> u8
    ensures status { result ≢ OUT_OF_MEMORY → result ≡ DONE }
    ensures kept { result ≢ OUT_OF_MEMORY → kept.new.kept ≡ Some (without_memory nic.old.card) }
    ensures unchanged { nic.new.card ≡ nic.old.card }
    ensures refused { result ≡ OUT_OF_MEMORY → kept.new ≡ kept.old }
{
    match nic.get_mut().keep_without_memory() {
        Ok(card) => hand_out(alloc, card, kept),
        Err(_) => OUT_OF_MEMORY,
    }
}

/// Restores the card to the state in the snapshot. The snapshot is unchanged, and may have been taken from another
/// card. If the card has as many blocks as the snapshot, and all blocks that are lent in the snapshot are lent now, the
/// card keeps its packet memory. Otherwise its packet memory is replaced. The contract doesn't specify which of the two
/// happens.
///
/// Returns DONE, or OUT_OF_MEMORY, which leaves the card unchanged.
#[unsafe(no_mangle)]
pub extern "C" fn nic_restore(alloc: Global, nic: &mut Handle, kept: &mut KeptHandle) -> u8
    ensures status { result ≢ OUT_OF_MEMORY → result ≡ DONE }
    // The device, the lent blocks with their bytes, and which blocks are free match the snapshot. So the calls that
    // follow return what the same calls would have returned right after the snapshot was taken.
    ensures restored { result ≢ OUT_OF_MEMORY → nic.new.card ≡ kept.old.kept }
    ensures unchanged { result ≡ OUT_OF_MEMORY → nic.new.card ≡ nic.old.card }
    ensures kept { kept.new.kept ≡ kept.old.kept }
{
    let Ok(()) = kept.get_mut().restore(alloc, nic.get_mut()) else {
        return OUT_OF_MEMORY;
    };
    DONE
}

/// Frees the snapshot and its memory.
#[unsafe(no_mangle)]
pub extern "C" fn nic_free_snapshot(kept: KeptHandle) {
    drop(kept);
}
