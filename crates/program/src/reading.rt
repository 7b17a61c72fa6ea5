//! Decodes an object's bytes into a program.

ghost use Rattle.std.specs.Prelude.{◌≡◌, ◌+◌, ◌*◌, ◌≤◌, ◌++◌, ◌∷◌, [], length, drop, IfOk, Ok};
ghost use Rattle.std.specs.Option.{option_map, ok_or};
ghost use Rattle.std.specs.List.{AllByRecursion};
ghost use Rattle.program.specs.Gives.{Gives};
ghost use Rattle.program.specs.Listing.{IsSound, IsDataString};
ghost use Rattle.program.specs.Object.{Fits, counts_in, header_in, string_in, strings_in, strings_after};
ghost use Rattle.program.specs.Object.{all_fields_in, meanings, at_pc, read_of, object_of};
ghost use Rattle.program.specs.Meaning.{meaning};
ghost use Rattle.program.specs.Bytes.{fields_in};

use crate::fault::ObjectFault;
use crate::fields::{Fields, INSTRUCTION_BYTES};
use crate::instruction::Instruction;
use crate::meaning::meaning;
use crate::numbers::{number16_at, number32_at};
use crate::program::{DATA_BYTES, DATA_LIMIT, INSTRUCTION_LIMIT, Program};
use dma_arena::Octets;
use std::alloc::Global;

/// The size of an object's header in bytes.
pub(crate) const HEADER_BYTES: usize = 16;

/// The first four bytes of an object: `NBSC`.
const MAGIC: [u8; 4] = [0x4e, 0x42, 0x53, 0x43];

/// The first six bytes of an object of version 1.
pub(crate) const MAGIC_AND_VERSION: [u8; 6] = [0x4e, 0x42, 0x53, 0x43, 1, 0];

/// The counts of instructions and data strings in an object's header.
#[derive(Clone, Copy)]
pub(crate) struct Header {
    count: u16,
    strings: u16,
}

/// Returns the counts in the header if the header and the instructions fit in the bytes, otherwise `Length`.
fn counts_in(bytes: &[u8]) -> Result<Header, ObjectFault>
    ensures value { result ≡ counts_in bytes.now }
    ensures fits { IfOk result (Fits bytes.now) }
{
    if bytes.len() < HEADER_BYTES {
        return Err(ObjectFault::Length);
    }
    let count = number16_at(bytes, 6);
    let strings = number16_at(bytes, 8);
    let total = number32_at(bytes, 12);
    let fits = number16_at(bytes, 10) == 0
        && total as usize == bytes.len()
        && usize::from(count) <= INSTRUCTION_LIMIT
        && usize::from(strings) <= DATA_LIMIT
        && HEADER_BYTES + INSTRUCTION_BYTES * usize::from(count) <= bytes.len();
    if fits {
        Ok(Header { count, strings })
    } else {
        Err(ObjectFault::Length)
    }
}

/// Returns the counts in the header, or the header's first fault.
#[tactic(auto, unfolding(crate::specs::Object::header_in))]
fn header_in(bytes: &[u8]) -> Result<Header, ObjectFault>
    ensures value { result ≡ header_in bytes.now }
    ensures fits { IfOk result (Fits bytes.now) }
{
    if !bytes.starts_with(&MAGIC) {
        return Err(ObjectFault::Magic);
    }
    if !bytes.starts_with(&MAGIC_AND_VERSION) {
        return Err(ObjectFault::Version);
    }
    counts_in(bytes)
}

/// Returns the first data string, and the bytes after it. Returns `None` unless the bytes start with a data string of 1
/// to 16,384 bytes.
#[tactic(auto, unfolding(crate::specs::Object::string_in))]
fn split_string(bytes: &[u8]) -> Option<(&[u8], &[u8])>
    ensures { option_map (λ split. (split.0.now, split.1.now)) result ≡ string_in bytes.now }
{
    if bytes.len() < 2 {
        return None;
    }
    let size = usize::from(number16_at(bytes, 0));
    if size < 1 || size > DATA_BYTES || bytes.len() < 2 + size {
        return None;
    }
    Some(bytes[2..].split_at(size))
}

/// Returns a copy of a data string.
fn copy_of(alloc: Global, string: &[u8]) -> Result<Octets, ObjectFault>
    ensures { Gives (λ octets. octets) result (Ok string.now) }
{
    let mut bytes = Vec::new(alloc);
    bytes.extend_from_slice(string)?;
    Ok(Octets::of(bytes))
}

/// Reads `count` data strings, which must fill the bytes exactly.
fn strings_in(alloc: Global, count: u16, bytes: &[u8]) -> Result<Vec<Octets>, ObjectFault>
    ensures { Gives (λ strings. strings.items) result (ok_or (strings_in count bytes.now) ObjectFault.Length) }
{
    let mut strings = Vec::new(alloc);
    let mut rest = bytes;
    for _ in 0..count {
        let Some((string, after)) = split_string(rest) else {
            return Err(ObjectFault::Length);
        };
        strings.push(copy_of(alloc, string)?)?;
        rest = after;
    }
    if rest.is_empty() {
        Ok(strings)
    } else {
        Err(ObjectFault::Length)
    }
}

/// Decodes the first twelve bytes as the instruction with number `pc`.
fn instruction_at(
    strings: &[Octets],
    count: u16,
    pc: u16,
    bytes: &[u8],
) -> Result<Instruction, ObjectFault>
    requires { 12 ≤ length bytes.now }
    ensures exact { result ≡ at_pc pc (meaning strings.now count (fields_in bytes.now)) }
    ensures sound { IfOk result (IsSound strings.now count) }
{
    match meaning(strings, count, Fields::in_bytes(bytes)) {
        Ok(instruction) => Ok(instruction),
        Err(fault) => Err(fault.at(pc)),
    }
}

/// Decodes `count` instructions from the start of the bytes.
fn instructions_in(
    alloc: Global,
    strings: &[Octets],
    count: u16,
    bytes: &[u8],
) -> Result<Vec<Instruction>, ObjectFault>
    requires { 12 * count ≤ length bytes.now }
    ensures exact { Gives (λ all. all.items) result (meanings strings.now count 0 (all_fields_in count bytes.now)) }
    ensures sound { IfOk result (λ all. AllByRecursion (IsSound strings.now count) all.items) }
    ensures count { IfOk result (λ all. length all.items ≡ count) }
{
    let mut instructions = Vec::new(alloc);
    let mut rest = bytes;
    for pc in 0..count {
        let instruction = instruction_at(strings, count, pc, rest)?;
        instructions.push(instruction)?;
        let (_, after) = rest.split_at(INSTRUCTION_BYTES);
        rest = after;
    }
    Ok(instructions)
}

/// Reads the data strings, which follow the instructions.
fn strings_after(alloc: Global, bytes: &[u8], header: Header) -> Result<Vec<Octets>, ObjectFault>
    requires { 16 + 12 * header.count ≤ length bytes.now }
    ensures { Gives (λ strings. strings.items) result (strings_after header.count header.strings bytes.now) }
{
    let instruction_bytes = INSTRUCTION_BYTES * usize::from(header.count);
    let (_, after) = bytes.split_at(HEADER_BYTES + instruction_bytes);
    strings_in(alloc, header.strings, after)
}

/// Decodes the instructions, which follow the header.
fn instructions_after(
    alloc: Global,
    bytes: &[u8],
    header: Header,
    strings: &[Octets],
) -> Result<Vec<Instruction>, ObjectFault>
    requires { 16 + 12 * header.count ≤ length bytes.now }
    ensures exact { Gives (λ all. all.items) result
        (meanings strings.now header.count 0 (all_fields_in header.count (drop 16 bytes.now))) }
    ensures sound { IfOk result (λ all. AllByRecursion (IsSound strings.now header.count) all.items) }
    ensures count { IfOk result (λ all. length all.items ≡ header.count) }
{
    let (_, after) = bytes.split_at(HEADER_BYTES);
    instructions_in(alloc, strings, header.count, after)
}

/// Decodes an object into the program that it encodes, or returns its first fault.
///
/// The call accepts only the exact object of the program that it returns, in which unused fields are 0. The call takes
/// time linear in the number of bytes; the contract doesn't state this. `OutOfMemory` may be returned instead of any
/// other result.
#[tactic(auto, unfolding(crate::specs::Object::read_of))]
pub fn read(alloc: Global, bytes: &[u8]) -> Result<Program, ObjectFault>
    ensures exact { Gives (λ program. program) result (read_of bytes.now) }
    ensures spelled { IfOk result (λ program. bytes.now ≡ object_of program) }
{
    let header = header_in(bytes)?;
    let strings = strings_after(alloc, bytes, header)?;
    let instructions = instructions_after(alloc, bytes, header, &strings)?;
    Ok(Program::new(strings, instructions))
}
