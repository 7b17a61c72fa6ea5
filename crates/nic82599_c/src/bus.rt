//! Access to packet memory by bus address.

ghost use Rattle.std.specs.Prelude.{◌≡◌, true, false, length};
ghost use Rattle.nic_device.specs.DmaArena.Memory.{is_lent, read_at};
ghost use Rattle.card.specs.Card.{written};
ghost use Rattle.nic82599_c.specs.Statuses.{bus_status};

use crate::handle::Handle;
use crate::status::{DONE, NOT_LENT};

/// Reads bytes of packet memory, starting at a bus address. The range may span blocks. Returns DONE, or NOT_LENT if one
/// of the bytes isn't lent; in that case `bytes` is unchanged.
#[unsafe(no_mangle)]
pub extern "C" fn nic_dma_read(nic: &mut Handle, bus: u64, bytes: &mut [u8]) -> u8
    ensures status { result ≡ bus_status (is_lent nic.old.card.device.memory bus (length bytes.old)) }
    ensures read { result ≡ DONE → bytes.new ≡ read_at nic.old.card.device.memory bus (length bytes.old) }
    ensures kept { result ≡ NOT_LENT → bytes.new ≡ bytes.old }
    ensures unchanged { nic.new.card ≡ nic.old.card }
{
    if nic.get_mut().dma_read(bus, bytes) {
        DONE
    } else {
        NOT_LENT
    }
}

/// Writes bytes of packet memory, starting at a bus address. The range may span blocks. Returns DONE, or NOT_LENT if
/// one of the bytes isn't lent; in that case nothing is written.
#[unsafe(no_mangle)]
pub extern "C" fn nic_dma_write(nic: &mut Handle, bus: u64, bytes: &[u8]) -> u8
    ensures status { result ≡ bus_status (is_lent nic.old.card.device.memory bus (length bytes.now)) }
    ensures written { result ≡ DONE → nic.new.card ≡ written nic.old.card bus bytes.now }
    ensures kept { result ≡ NOT_LENT → nic.new.card ≡ nic.old.card }
{
    if nic.get_mut().dma_write(bus, bytes) {
        DONE
    } else {
        NOT_LENT
    }
}
