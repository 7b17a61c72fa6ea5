//! Programs: data strings and instructions within the limits of the language.

ghost use Rattle.std.specs.Prelude.{◌≡◌, ◌≤◌, length, slice_get, IfSome, IfOk, Ok};
ghost use Rattle.program.specs.Listing.{IsSound, IsListing, string_at};
ghost use Rattle.program.specs.Object.{object_of, read_of};

use crate::instruction::Instruction;
use crate::writing::object;
use dma_arena::Octets;
use std::alloc::{AllocError, Global};
use std::marker::Model;

/// The maximum number of instructions in a program.
pub const INSTRUCTION_LIMIT: usize = 4096;

/// The maximum number of data strings in a program.
pub const DATA_LIMIT: usize = 1024;

/// The maximum length of a data string in bytes. The minimum is one.
pub const DATA_BYTES: usize = 16384;

/// A program of the register-script language: its data strings and its instructions, both in order.
///
/// A program has at most 4,096 instructions, and at most 1,024 data strings of 1 to 16,384 bytes each. Everything to
/// which an instruction refers exists. The data string that an instruction uses exists, and is 16 bytes long if the
/// instruction is a `poke`. The number of a virtual function is below 63. A `peek` selects one of four words. The
/// target of a jump is an instruction or the end of the program.
#[derive(Debug, Drop)]
pub struct Program {
    strings: Vec<Octets>,
    instructions: Vec<Instruction>,
}

impl Model for Program {
    ghost use Rattle.program.specs.Listing.{Listing, IsListing};

    ghost Value = { Listing };

    ghost view = { λ p. record { strings = p.strings.items; instructions = p.instructions.items } };

    ghost invariant = { λ p. IsListing (record { strings = p.strings.items; instructions = p.instructions.items }) };
}

impl Program {
    /// Creates a program with these data strings and instructions.
    pub fn new(strings: Vec<Octets>, instructions: Vec<Instruction>) -> Program
        requires { IsListing (record { strings = strings.items; instructions = instructions.items }) }
        ensures { result ≡ record { strings = strings.items; instructions = instructions.items } }
    {
        Program {
            strings,
            instructions,
        }
    }

    /// Returns a copy of the program, or `AllocError` if there isn't enough memory for the copy.
    pub fn copy(&self, alloc: Global) -> Result<Program, AllocError>
        ensures { IfOk result (λ program. program ≡ self.now) }
    {
        let strings = copied(alloc, &self.strings)?;
        let instructions = Vec::from_slice(alloc, &self.instructions)?;
        Ok(Program {
            strings,
            instructions,
        })
    }

    /// Returns the number of instructions.
    pub fn instructions(&self) -> u16
        ensures count { result ≡ length self.now.instructions }
        // At most 4,096.
        ensures limit { result ≤ INSTRUCTION_LIMIT }
    {
        self.instructions.len() as u16
    }

    /// Returns the instruction with this number, counted from 0, or `None` if the number isn't below the number of
    /// instructions.
    pub fn instruction(&self, pc: u16) -> Option<Instruction>
        ensures found { result ≡ slice_get self.now.instructions pc }
        ensures sound { IfSome result (IsSound self.now.strings (length self.now.instructions)) }
    {
        self.instructions.get(usize::from(pc)).copied()
    }

    /// Returns the instructions, in order.
    pub fn code(&self) -> &[Instruction]
        ensures code { result.now ≡ self.now.instructions }
        // At most 4,096.
        ensures limit { length result.now ≤ INSTRUCTION_LIMIT }
    {
        &self.instructions
    }

    /// Returns the data strings, in order.
    pub fn strings(&self) -> &[Octets]
        ensures strings { result.now ≡ self.now.strings }
        ensures listing { IsListing self.now }
    {
        &self.strings
    }

    /// Returns the bytes of the data string with this number, counted from 0, or no bytes if the number isn't below the
    /// number of data strings.
    pub fn string(&self, number: u16) -> &[u8]
        ensures { result.now ≡ string_at self.now.strings number }
    {
        match self.strings.get(usize::from(number)) {
            Some(string) => string.bytes(),
            None => &[],
        }
    }

    /// Returns the program's object: a header, then the instructions in twelve bytes each, then the data strings, each
    /// preceded by its length. Numbers are little-endian. [`read`] decodes the object as the same program. Fails with
    /// `AllocError` if there isn't enough memory for the object.
    pub fn to_bytes(&self, alloc: Global) -> Result<Vec<u8>, AllocError>
        ensures exact { IfOk result (λ bytes. bytes.items ≡ object_of self.now) }
        ensures reads_back { IfOk result (λ bytes. read_of bytes.items ≡ Ok self.now) }
    {
        object(alloc, &self.strings, &self.instructions)
    }
}

/// Returns copies of these data strings.
fn copied(alloc: Global, strings: &[Octets]) -> Result<Vec<Octets>, AllocError>
    ensures { IfOk result (λ copies. copies.items ≡ strings.now) }
{
    let mut copies = Vec::with_capacity(alloc, strings.len())?;
    for string in strings {
        let bytes = Vec::from_slice(alloc, string.bytes())?;
        copies.push(Octets::of(bytes))?;
    }
    Ok(copies)
}
