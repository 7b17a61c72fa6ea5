//! Encodes a program as its object's bytes.

ghost use Rattle.std.specs.Prelude.{◌≡◌, ◌≤◌, ◌<◌, ◌^◌, ◌++◌, length, map, IfOk, OnOk};
ghost use Rattle.std.specs.List.{flat_map, AllByRecursion};
ghost use Rattle.program.specs.Bytes.{bytes_of_fields};
ghost use Rattle.program.specs.Encoding.{fields_of, HaveWidths};
ghost use Rattle.program.specs.Listing.{IsListing, IsDataString};
ghost use Rattle.program.specs.Object.{header, bytes_of_string, laid_out};

use crate::fields::Fields;
use crate::instruction::Instruction;
use crate::reading::{HEADER_BYTES, MAGIC_AND_VERSION};
use dma_arena::Octets;
use std::alloc::{AllocError, Global};

/// Appends the header: the counts of instructions and data strings, and the total number of bytes.
fn put_header(out: &mut Vec<u8>, count: u16, strings: u16, total: u32) -> Result<(), AllocError>
    ensures { OnOk result (out.new.items ≡ out.old.items ++ header count strings total) }
{
    out.extend_from_slice(&MAGIC_AND_VERSION)?;
    out.extend_from_slice(&count.to_le_bytes())?;
    out.extend_from_slice(&strings.to_le_bytes())?;
    out.extend_from_slice(&0u16.to_le_bytes())?;
    out.extend_from_slice(&total.to_le_bytes())?;
    Ok(())
}

/// Appends instructions, in order.
fn put_instructions(out: &mut Vec<u8>, instructions: &[Instruction]) -> Result<(), AllocError>
    ensures bytes { OnOk result
        (out.new.items ≡ out.old.items ++ flat_map bytes_of_fields (map fields_of instructions.now)) }
    ensures widths { OnOk result (AllByRecursion HaveWidths (map fields_of instructions.now)) }
{
    for instruction in instructions {
        Fields::of(*instruction).put(out)?;
    }
    Ok(())
}

/// Appends a data string, preceded by its length.
fn put_string(out: &mut Vec<u8>, string: &[u8]) -> Result<(), AllocError>
    requires { length string.now ≤ 16384 }
    ensures { OnOk result (out.new.items ≡ out.old.items ++ bytes_of_string string.now) }
{
    let size = string.len() as u16;
    out.extend_from_slice(&size.to_le_bytes())?;
    out.extend_from_slice(string)?;
    Ok(())
}

/// Appends data strings, in order.
fn put_strings(out: &mut Vec<u8>, strings: &[Octets]) -> Result<(), AllocError>
    requires { AllByRecursion IsDataString strings.now }
    ensures { OnOk result (out.new.items ≡ out.old.items ++ flat_map bytes_of_string strings.now) }
{
    for string in strings {
        put_string(out, string.bytes())?;
    }
    Ok(())
}

/// Returns everything after the header: the instructions, then the data strings.
fn body(
    alloc: Global,
    strings: &[Octets],
    instructions: &[Instruction],
) -> Result<Vec<u8>, AllocError>
    requires { AllByRecursion IsDataString strings.now }
    ensures bytes { IfOk result (λ body. body.items ≡
        flat_map bytes_of_fields (map fields_of instructions.now) ++ flat_map bytes_of_string strings.now) }
    ensures widths { OnOk result (AllByRecursion HaveWidths (map fields_of instructions.now)) }
{
    let mut body = Vec::new(alloc);
    put_instructions(&mut body, instructions)?;
    put_strings(&mut body, strings)?;
    Ok(body)
}

/// Returns the object of these data strings and instructions, which must form a program.
#[tactic(auto, unfolding(crate::specs::Object::laid_out))]
pub(crate) fn object(
    alloc: Global,
    strings: &[Octets],
    instructions: &[Instruction],
) -> Result<Vec<u8>, AllocError>
    requires { IsListing (record { strings = strings.now; instructions = instructions.now }) }
    ensures bytes { IfOk result (λ bytes. bytes.items ≡ laid_out (map fields_of instructions.now) strings.now) }
    ensures widths { OnOk result (AllByRecursion HaveWidths (map fields_of instructions.now)) }
{
    let body = body(alloc, strings, instructions)?;
    let total = (HEADER_BYTES + body.len()) as u32;
    let mut bytes = Vec::new(alloc);
    put_header(
        &mut bytes,
        instructions.len() as u16,
        strings.len() as u16,
        total,
    )?;
    bytes.extend_from_slice(&body)?;
    Ok(bytes)
}
