//! Packet memory that the caller owns: a lent block's memory is exchanged for 2,048 bytes that belong to the caller.
//!
//! C passes the memory in as a pointer and gets it back through another exchange. Between two calls, C owns everything
//! that a controller owns, so C may read and write that memory. A call's contract is about the bytes that are in the
//! memory when the call begins.

ghost use Rattle.std.specs.Borrow.{Array, u8};
ghost use Rattle.std.specs.Coded.{coded_ℕ, coded_list, coded_option};
ghost use Rattle.std.specs.Prelude.{◌≡◌, List, Option, Some, ℕ};
ghost use Rattle.std.specs.FinMap as map;
ghost use Rattle.card.specs.Card.{with_bytes};
ghost use Rattle.nic_device.specs.DmaArena.Memory.{has_block};
ghost use Rattle.nic82599_c.specs.Handle.{owns_box, owns_some};
ghost use Rattle.nic82599_c.specs.Statuses.{bus_status};

use crate::handle::{Handle, Opaque};
use crate::parts::Parts;
use crate::status::{DONE, NOT_LENT};
use nic_device::BLOCK_BYTES;
use std::alloc::Global;
use std::marker::Model;

/// A handle to a block's 2,048 bytes. In C, the handle is a struct with one pointer, which may point to the caller's
/// memory. In the C library, a request to free that memory has no effect.
#[repr(C)]
pub struct BlockHandle {
    ptr: *mut Opaque,
    alloc: Global,
    pub ghost bytes: { List ℕ } by { coded_list coded_ℕ },
}

/// An out-parameter through which C receives the pointer to a block's 2,048 bytes. It works like `HandleOut`.
#[repr(C)]
#[derive(Drop)]
pub struct BlockHandleOut {
    ptr: *mut Opaque,
    alloc: Global,
    pub ghost bytes: { Option (List ℕ) } by { coded_option (coded_list coded_ℕ) },
}

impl Model for BlockHandle {
    ghost also_owns = { λ m. owns_box (Array u8 2048) m.alloc m.ptr m.bytes };
}

impl Model for BlockHandleOut {
    ghost also_owns = { λ m. owns_some (Array u8 2048) m.alloc m.ptr m.bytes };
}

impl BlockHandle {
    /// Returns the parts of the box that the pointer was created from.
    fn into_parts(self) -> Parts<[u8; BLOCK_BYTES], Global>
        ensures { result.value ≡ self.bytes }
    {
        let BlockHandle { ptr, alloc } = self;
        Parts {
            ptr: ptr as *mut [u8; BLOCK_BYTES],
            alloc,
        }
    }
}

impl BlockHandleOut {
    /// Creates an out-parameter that contains the pointer in these parts of a box.
    fn of(parts: Parts<[u8; BLOCK_BYTES], Global>) -> BlockHandleOut
        ensures { result.bytes ≡ Some parts.value }
    {
        let Parts { ptr, alloc } = parts;
        BlockHandleOut {
            ptr: ptr as *mut Opaque,
            alloc,
        }
    }
}

impl Drop for BlockHandle {
    fn drop(self) {
        drop(self.into_parts().into_box());
    }
}

/// Exchanges the memory of a lent block for new memory. Nothing is copied; the contract doesn't state this. If the
/// block is lent, returns DONE: the block then contains the bytes of the new memory, and `former` receives the block's
/// former memory, with the bytes that the block contained. Otherwise returns NOT_LENT: nothing changes, and `former`
/// receives the memory that was passed in. In both cases, any previous content of `former` is leaked.
#[unsafe(no_mangle)]
pub extern "C" fn nic_exchange(
    nic: &mut Handle,
    block: u32,
    memory: BlockHandle,
    former: &mut BlockHandleOut,
) -> u8
    ensures status { result ≡ bus_status (has_block nic.old.card.device.memory block) }
    ensures put { result ≡ DONE → nic.new.card ≡ with_bytes nic.old.card block memory.bytes }
    ensures former { result ≡ DONE → former.new.bytes ≡ map.get nic.old.card.device.memory block }
    ensures kept { result ≡ NOT_LENT → nic.new.card ≡ nic.old.card }
    ensures back { result ≡ NOT_LENT → former.new.bytes ≡ Some memory.bytes }
{
    match nic
        .get_mut()
        .exchange(block, memory.into_parts().into_box())
    {
        Ok(boxed) => {
            *former = BlockHandleOut::of(Parts::of(boxed));
            DONE
        }
        Err(boxed) => {
            *former = BlockHandleOut::of(Parts::of(boxed));
            NOT_LENT
        }
    }
}
