ghost use Rattle.std.specs.Prelude.{◌≡◌, ◌<◌, ◌+◌, ◌/◌, Some, IfSome};
ghost use Rattle.std.specs.Option.{option_map};
ghost use Rattle.reg_table.specs.Rows.{row_of};
ghost use Rattle.reg_table.specs.Runs.{runs};
ghost use Rattle.reg_table.specs.Place.{place_among, view_among};
ghost use Rattle.reg_table.specs.Access.{access, access_at};

use crate::dispatch::aligned;
use crate::place::Place;
use crate::rows::RowId;

/// The register that an access at an address reaches, and the bits that show there.
#[derive(Clone, Copy, PartialEq, Eq, Debug)]
pub struct Access {
    /// The register that is accessed.
    pub place: Place,
    /// A mask of the bits that show at the address: 0xFFFF if the address shows only bits 15:0, otherwise 0xFFFFFFFF.
    pub view: u32,
}

/// Returns the place at an address, and the bits that show there. The address is a byte offset into the register space.
/// Returns `None` if and only if no register has the address. An address that isn't a multiple of 4 has no register.
#[inline(always)]
pub fn resolve(address: u32) -> Option<Access>
    ensures value { result ≡ access_at address }
    ensures place { option_map (λ x. x.place) result ≡ place_among runs address }
    ensures view { IfSome result (λ x. x.view ≡ view_among runs address) }
    // The place's index is below its row's count.
    ensures in_range { IfSome result (λ x. x.place.index < (row_of x.place.row).count) }
{
    at(address)
}

/// Returns the access that the specification defines at an address. The contract of `resolve` states the access's other
/// properties.
#[tactic(auto, using(crate::proofs::Views::no_part_of_a_word))]
#[inline(always)]
fn at(address: u32) -> Option<Access>
    ensures { result ≡ access_at address }
{
    if address % 4 != 0 {
        return None;
    }
    aligned(address)
}

/// Returns the access at an offset from the first address of a row with a 4-byte stride.
#[inline(always)]
pub(crate) fn words(row: RowId, first_index: u16, offset: u32) -> Option<Access>
    requires near { offset < 0x10000 }
    requires few { first_index < 0x1000 }
    ensures { result ≡ Some (access row (first_index + offset / 4) 0xFFFFFFFF) }
{
    seen(row, first_index + (offset / 4) as u16, 0xFFFF_FFFF)
}

/// Returns the access at an offset from the first address of a row with a 4-byte stride whose addresses show only bits
/// 15:0.
#[inline(always)]
pub(crate) fn low_words(row: RowId, first_index: u16, offset: u32) -> Option<Access>
    requires near { offset < 0x10000 }
    requires few { first_index < 0x1000 }
    ensures { result ≡ Some (access row (first_index + offset / 4) 0xFFFF) }
{
    seen(row, first_index + (offset / 4) as u16, 0xFFFF)
}

/// Returns the access at an offset from the first address of a row with an 8-byte stride.
#[inline(always)]
pub(crate) fn pairs(row: RowId, first_index: u16, offset: u32) -> Option<Access>
    requires near { offset < 0x10000 }
    requires few { first_index < 0x1000 }
    ensures { result ≡ Some (access row (first_index + offset / 8) 0xFFFFFFFF) }
{
    seen(row, first_index + (offset / 8) as u16, 0xFFFF_FFFF)
}

/// Returns the access at an offset from the first address of a row with a 64-byte stride.
#[inline(always)]
pub(crate) fn queues(row: RowId, first_index: u16, offset: u32) -> Option<Access>
    requires near { offset < 0x10000 }
    requires few { first_index < 0x1000 }
    ensures { result ≡ Some (access row (first_index + offset / 64) 0xFFFFFFFF) }
{
    seen(row, first_index + (offset / 64) as u16, 0xFFFF_FFFF)
}

#[inline(always)]
fn seen(row: RowId, index: u16, view: u32) -> Option<Access>
    ensures { result ≡ Some (access row index view) }
{
    Some(Access {
        place: Place { row, index },
        view,
    })
}
