ghost use Rattle.std.specs.Prelude.{◌≡◌, ◌<◌, ◌↔◌, Some, None, IfSome};
ghost use Rattle.reg_table.specs.Rows.{row_of};
ghost use Rattle.reg_table.specs.Runs.{runs};
ghost use Rattle.reg_table.specs.Place.{Names, IsLow, place_among, view_among, address_among};
ghost use Rattle.reg_table.specs.declared.place.Place.{Place};

use crate::access::resolve;
use crate::first_addresses::first_of;
use crate::rows::RowId;

/// A 32-bit register, identified by its row and index.
#[derive(Clone, Copy, PartialEq, Eq, PartialOrd, Ord, Debug)]
pub struct Place {
    /// The row: all registers with one name.
    pub row: RowId,
    /// The index within the row, below the row's count.
    pub index: u16,
}

/// Returns the place at an address, which is a byte offset into the register space. The place is the one in the table's
/// first run that has the address. Returns `None` if and only if no register has the address. An address that isn't a
/// multiple of 4 has no register.
pub fn place_of(address: u32) -> Option<Place>
    ensures value { result ≡ place_among runs address }
    // No run has another place at the address.
    ensures exact { (p : Place) → (result ≡ Some p) ↔ Names address p }
    ensures nothing { (result ≡ None) ↔ ((p : Place) → ¬ (Names address p)) }
    // The place's index is below its row's count.
    ensures in_range { IfSome result (λ p. p.index < (row_of p.row).count) }
{
    match resolve(address) {
        Some(access) => Some(access.place),
        None => None,
    }
}

/// Returns a mask of the bits that show at an address. The mask is 0xFFFF if and only if a run of the table says that
/// the address shows only bits 15:0; otherwise it is 0xFFFFFFFF.
pub fn view_of(address: u32) -> u32
    // The result is the mask of the first run that has the address.
    ensures value { result ≡ view_among runs address }
    ensures low { (result ≡ 0xFFFF) ↔ IsLow address }
    ensures whole { (result ≡ 0xFFFFFFFF) ↔ ¬ (IsLow address) }
{
    match resolve(address) {
        Some(access) => access.view,
        None => 0xFFFF_FFFF,
    }
}

/// Returns the first address, in the table's order, of a place with an index below its row's count.
pub fn addr_of(place: Place) -> u32
    requires { place.index < (row_of place.row).count }
    ensures first { address_among runs place ≡ Some result }
    // The address has this place and no other.
    ensures back { place_among runs result ≡ Some place }
    // All 32 bits of the register show at the address.
    ensures whole { view_among runs result ≡ 0xFFFFFFFF }
{
    let run = first_of(place.row);
    let index = u32::from(place.index);
    if index < run.count {
        run.first + run.stride * index
    } else {
        run.further + run.stride * (index - run.count)
    }
}
