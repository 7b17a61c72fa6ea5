//! Reads numbers and register addresses in the words of a script.

ghost use Rattle.std.specs.Prelude.{◌≡◌, ◌<◌};
ghost use Rattle.std.specs.Option.{option_copied};
ghost use Rattle.reg_table.specs.Rows.{row_of};
ghost use Rattle.script_asm.specs.Target.{number_in, number_below, row_in, register_address, address_in};
ghost use Rattle.script_asm.specs.Target.{before_last_byte, target_of};

use crate::faults::{LineFault, both};
use reg_table::{Place, RowId, addr_of, count_of, row_named};
use text_format::is_name;

/// Returns the 32-bit number that a word spells.
pub(crate) fn number(word: &str) -> Result<u32, LineFault>
    ensures { result ≡ number_in word.now }
{
    let number = text_format::number(word)?;
    Ok(number)
}

/// Returns the number that a word spells, if it is below a limit.
pub(crate) fn number_below(limit: u32, word: &str) -> Result<u32, LineFault>
    ensures { result ≡ number_below limit word.now }
{
    let number = number(word)?;
    if number < limit {
        Ok(number)
    } else {
        Err(LineFault::Range)
    }
}

/// Returns the row with this name.
fn row(name: &str) -> Result<RowId, LineFault>
    ensures { result ≡ row_in name.now }
{
    row_named(name).ok_or(LineFault::UnknownName)
}

/// Returns the first address of the register with this index in a row.
fn register_address(row: RowId, index: u32) -> Result<u32, LineFault>
    ensures { result ≡ register_address row index }
{
    if index < u32::from(count_of(row)) {
        let index = index as u16;
        Ok(addr_of(Place { row, index }))
    } else {
        Err(LineFault::Range)
    }
}

/// Returns the first address of the register with this row and index. If the row or the index is faulty, returns the
/// fault that is reported first.
fn address(row: Result<RowId, LineFault>, index: Result<u32, LineFault>) -> Result<u32, LineFault>
    ensures { result ≡ address_in row index }
{
    let (row, index) = both(row, index)?;
    register_address(row, index)
}

/// Returns the part of a word before a final `]`.
fn before_bracket(word: &str) -> Option<&str>
    ensures { option_copied result ≡ before_last_byte 93 word.now }
{
    word.strip_suffix(']')
}

/// Returns the byte address that a word names. The word is `ROW[INDEX]`, for the first address of that register; `ROW`,
/// for the register with index 0; or a number.
///
/// Errors, in this order: `Syntax` if the word has none of these forms, then `UnknownName` if no row has this name.
/// Then comes `Range`, if a number isn't below 2^32 or an index isn't below the number of registers in the row.
#[tactic(auto, unfolding(crate::specs::Target::target_of))]
pub fn target(word: &str) -> Result<u32, LineFault>
    ensures { result ≡ target_of word.now }
{
    if let Some((name, after)) = word.split_once('[') {
        let Some(index) = before_bracket(after) else {
            return Err(LineFault::Syntax);
        };
        if !is_name(name) {
            return Err(LineFault::Syntax);
        }
        address(row(name), number(index))
    } else if is_name(word) {
        address(row(word), Ok(0))
    } else {
        number(word)
    }
}
