ghost use Rattle.std.specs.Prelude.{◌≡◌, ◌↔◌, Some};
ghost use Rattle.reg_table.specs.Rows.{row_of, number_of, rows};
ghost use Rattle.reg_table.specs.Named.{row_with_name};
ghost use Rattle.reg_table.specs.declared.rows.RowId.{RowId};

use crate::bank::Bank;
use crate::kind::Kind;
use crate::rows::{ROWS, RowId, entry_of};

/// A row's entry in the table.
#[derive(Clone, Copy)]
pub(crate) struct Entry {
    pub(crate) name: &'static str,
    pub(crate) count: u16,
    pub(crate) kind: Kind,
    pub(crate) bank: Bank,
    pub(crate) mask: u32,
    pub(crate) reset: u32,
}

/// Returns the number of registers in the row. Their indices start at 0.
#[inline(always)]
pub fn count_of(row: RowId) -> u16
    ensures { result ≡ (row_of row).count }
{
    entry_of(row).count
}

/// Returns the row's kind: what reads and writes of the row's registers do.
#[inline(always)]
pub fn kind_of(row: RowId) -> Kind
    ensures { result ≡ (row_of row).kind }
{
    entry_of(row).kind
}

/// Returns the part of the device that the row's registers belong to.
#[inline(always)]
pub fn bank_of(row: RowId) -> Bank
    ensures { result ≡ (row_of row).bank }
{
    entry_of(row).bank
}

/// Returns a mask of the bits that a write can change.
#[inline(always)]
pub fn mask_of(row: RowId) -> u32
    ensures { result ≡ (row_of row).mask }
{
    entry_of(row).mask
}

/// Returns the word that each of the row's registers has after a reset.
pub fn reset_of(row: RowId) -> u32
    ensures { result ≡ (row_of row).reset }
{
    entry_of(row).reset
}

/// Returns the row's name as the datasheet and scripts spell it, in capitals, digits and `_`.
pub fn name_of(row: RowId) -> &'static str
    ensures { result.now ≡ (row_of row).name }
{
    entry_of(row).name
}

/// Returns all rows, in the table's order.
#[tactic(auto, unfolding(crate::specs::Rows::rows))]
pub fn all_rows() -> &'static [RowId]
    ensures { result.now ≡ rows }
{
    &ROWS
}

/// Returns the row with exactly this name, in the same case. Returns `None` if no row has this name.
pub fn row_named(name: &str) -> Option<RowId>
    ensures value { result ≡ row_with_name name.now }
    ensures exact { (row : RowId) → (result ≡ Some row) ↔ ((row_of row).name ≡ name.now) }
{
    first_named(name)
}

/// Returns the first row with this name.
#[tactic(auto, unfolding(crate::specs::Rows::rows))]
fn first_named(name: &str) -> Option<RowId>
    ensures { result ≡ row_with_name name.now }
{
    ROWS.iter().copied().find(|row| name_of(*row) == name)
}

impl RowId {
    /// Returns the row's position in the table, counted from 0.
    #[inline(always)]
    pub(crate) fn number(self) -> u8
        ensures { result ≡ number_of self }
    {
        self as u8
    }
}
