//! Which part of the device owns a register.

ghost use Rattle.std.specs.Prelude.{◌≡◌, ◌<◌};
ghost use Rattle.reg_table.specs.Rows.{row_of};
ghost use Rattle.register_file.specs.Owner.{owner_of, IsThere};

use dma_ring::Dir;
use intr_unit::Group;
use reg_table::{Bank, Place, bank_of};

/// The number of words of mailbox memory per function.
const MESSAGE_WORDS: u16 = 16;

/// The part of the device that a register belongs to.
#[derive(Clone, Copy, PartialEq, Eq, Debug)]
pub enum Owner {
    /// The device as a whole.
    Device,
    /// The device's statistics counters.
    Counters,
    /// One side of the queue with this number, 0 to 127.
    Side(Dir, u16),
    /// An interrupt group.
    Group(Group),
    /// The pool with this number, 0 to 63.
    Pool(u16),
    /// The statistics counters of the virtual function with this number.
    VfCounters(u16),
    /// The word with this index in PVTIVAR, the vectors of the virtual functions' queues.
    Vectors(u16),
}

/// Returns the owner of a place. The bank of the place's row and the place's index determine the owner. The index must
/// be below the row's count.
#[inline(always)]
pub fn owner_of(place: Place) -> Owner
    requires { place.index < (row_of place.row).count }
    ensures owner { result ≡ owner_of place }
    ensures there { IsThere result }
{
    match bank_of(place.row) {
        Bank::Device => Owner::Device,
        Bank::Counters => Owner::Counters,
        Bank::Receive => Owner::Side(Dir::Rx, place.index),
        Bank::Transmit => Owner::Side(Dir::Tx, place.index),
        Bank::Interrupts => Owner::Group(Group::Pf),
        Bank::VfInterrupts => Owner::Group(Group::Vf(place.index as u8)),
        Bank::Pool => Owner::Pool(place.index),
        Bank::VfCounters => Owner::VfCounters(place.index),
        Bank::Vectors => Owner::Vectors(place.index),
        Bank::Messages => Owner::Pool(place.index / MESSAGE_WORDS),
    }
}
