//! The statements of all lines, before labels and data names are looked up.

ghost use Rattle.std.specs.Prelude.{◌≡◌, ◌≤◌, ◌++◌, ◌∷◌, [], length, Ok, Err};
ghost use Rattle.script_asm.specs.Fault.{Gives, ◌then◌};
ghost use Rattle.script_asm.specs.Outline.{blank};
ghost use Rattle.script_asm.specs.Resolved.{label_named, data_named, fitting, resolved, with_resolved, IsReady};
ghost use Rattle.script_asm.specs.Script.{with_label, with_data, with_draft, with_statement, program_in};
ghost use Rattle.program.specs.Listing.{string_at};

use crate::faults::ScriptFault;
use crate::names::Name;
use crate::operations::Draft;
use crate::places::Places;
use crate::statements::Statement;
use program::{DATA_BYTES, DATA_LIMIT, INSTRUCTION_LIMIT, Instruction, Octets, Program};
use std::alloc::Global;
use std::marker::Model;

/// An instruction as written in its line, together with the line's number.
#[derive(Drop)]
pub(crate) struct DraftLine<'a> {
    line: usize,
    draft: Draft<'a>,
}

/// The statements read so far: the numbers of labels and data strings by name, and the data strings and instructions in
/// the order of their lines. Empty lines take no space.
#[derive(Drop)]
pub(crate) struct Sheet<'a> {
    labels: Places<'a>,
    data_numbers: Places<'a>,
    strings: Vec<Octets>,
    drafts: Vec<DraftLine<'a>>,
}

impl<'a> Model for Sheet<'a> {
    ghost use Rattle.script_asm.specs.Outline.{Outline, IsOutline};

    ghost Value = { Outline };

    ghost use Rattle.std.specs.Coded.{codes};
    ghost use Rattle.script_asm.specs.Places.{places_code};

    ghost coded = { Prim.hlevel (codes, places_code) };

    ghost view = { λ s. record {
      labels = s.labels;
      data_numbers = s.data_numbers;
      strings = s.strings.items;
      drafts = s.drafts.items;
    } };

    ghost invariant = { λ s. IsOutline (record {
      labels = s.labels;
      data_numbers = s.data_numbers;
      strings = s.strings.items;
      drafts = s.drafts.items;
    }) };
}

impl<'a> Sheet<'a> {
    /// Returns an empty sheet, before the first line is read.
    pub(crate) fn new(alloc: Global) -> Sheet<'a>
        ensures { result ≡ blank }
    {
        Sheet {
            labels: Places::new(alloc),
            data_numbers: Places::new(alloc),
            strings: Vec::new(alloc),
            drafts: Vec::new(alloc),
        }
    }

    /// Adds a label at the next instruction.
    fn add_label(&mut self, line: usize, name: Name<'a>) -> Result<(), ScriptFault>
        ensures { Gives (λ _. self.new) result (with_label self.old line name.entry) }
    {
        if self.labels.place_of(&name).is_some() {
            return Err(ScriptFault::TwoLabels(line));
        }
        self.labels.add(name, self.drafts.len() as u16)
    }

    /// Adds a data string under its name.
    fn add_data(&mut self, line: usize, name: Name<'a>, string: Octets) -> Result<(), ScriptFault>
        ensures { Gives (λ _. self.new) result (with_data self.old line name.entry string) }
    {
        if self.data_numbers.place_of(&name).is_some() {
            return Err(ScriptFault::TwoLabels(line));
        }
        if string.bytes().len() > DATA_BYTES || self.strings.len() >= DATA_LIMIT {
            return Err(ScriptFault::TooLong);
        }
        self.data_numbers.add(name, self.strings.len() as u16)?;
        self.strings.push(string)?;
        Ok(())
    }

    /// Adds an instruction. Its names are looked up later.
    fn add_draft(&mut self, line: usize, draft: Draft<'a>) -> Result<(), ScriptFault>
        ensures { Gives (λ _. self.new) result (with_draft self.old line draft.entry) }
    {
        if self.drafts.len() >= INSTRUCTION_LIMIT {
            return Err(ScriptFault::TooLong);
        }
        self.drafts.push(DraftLine { line, draft })?;
        Ok(())
    }

    /// Adds the statement of the line with this number.
    pub(crate) fn add(&mut self, line: usize, statement: Statement<'a>) -> Result<(), ScriptFault>
        ensures { Gives (λ _. self.new) result (with_statement self.old line statement.entry) }
    {
        match statement {
            Statement::Empty => Ok(()),
            Statement::Label(name) => self.add_label(line, name),
            Statement::Data(name, string) => self.add_data(line, name, string),
            Statement::Instruction(draft) => self.add_draft(line, draft),
        }
    }

    /// Returns the number of the instruction at the label with this name, which this line refers to.
    fn label_named(&self, line: usize, name: &Name<'_>) -> Result<u16, ScriptFault>
        ensures { result ≡ label_named self.now line name.now }
    {
        self.labels
            .place_of(name)
            .ok_or(ScriptFault::UnknownLabel(line))
    }

    /// Returns the number of the data string with this name, which this line refers to.
    fn data_named(&self, line: usize, name: &Name<'_>) -> Result<u16, ScriptFault>
        ensures { result ≡ data_named self.now line name.now }
    {
        self.data_numbers
            .place_of(name)
            .ok_or(ScriptFault::UnknownLabel(line))
    }

    /// Returns the length in bytes of a data string.
    fn bytes_of(&self, number: u16) -> usize
        ensures { result ≡ length (string_at self.now.strings number) }
    {
        match self.strings.get(usize::from(number)) {
            Some(string) => string.bytes().len(),
            None => 0,
        }
    }

    /// Returns the instruction, or `Range` if it pokes data that isn't 16 bytes long.
    fn fitting(&self, line: usize, instruction: Instruction) -> Result<Instruction, ScriptFault>
        ensures { result ≡ fitting self.now line instruction }
    {
        let Instruction::Poke(_, number) = instruction else {
            return Ok(instruction);
        };
        if self.bytes_of(number) == 16 {
            Ok(instruction)
        } else {
            Err(ScriptFault::Range(line))
        }
    }

    /// Returns the instruction with numbers in place of names.
    fn resolved(&self, line: usize, draft: &Draft<'a>) -> Result<Instruction, ScriptFault>
        ensures { result ≡ resolved self.now line draft.now }
    {
        let label = |name: &Name<'_>|
            ensures { result ≡ label_named self.entry.now line name.now }
        { self.label_named(line, name) };
        let string = |name: &Name<'_>|
            ensures { result ≡ data_named self.entry.now line name.now }
        { self.data_named(line, name) };
        let instruction = draft.try_map(label, string)?;
        self.fitting(line, instruction)
    }

    /// Appends an instruction with numbers in place of names.
    fn push_resolved(
        &self,
        instructions: &mut Vec<Instruction>,
        draft: &DraftLine<'a>,
    ) -> Result<(), ScriptFault>
        ensures { Gives (λ _. instructions.new.items) result
            (resolved self.now draft.now.line draft.now.draft
            then λ instruction. Ok (instructions.old.items ++ instruction ∷ [])) }
    {
        let instruction = self.resolved(draft.line, &draft.draft)?;
        instructions.push(instruction)?;
        Ok(())
    }

    /// Returns these instructions with numbers in place of names.
    fn all_resolved(
        &self,
        alloc: Global,
        drafts: &[DraftLine<'a>],
    ) -> Result<Vec<Instruction>, ScriptFault>
        ensures { Gives (λ instructions. instructions.items) result (with_resolved self.now [] drafts.now) }
    {
        let mut instructions = Vec::new(alloc);
        for draft in drafts {
            self.push_resolved(&mut instructions, draft)?;
        }
        Ok(instructions)
    }

    /// Returns all instructions with numbers in place of names.
    fn instructions(&self, alloc: Global) -> Result<Vec<Instruction>, ScriptFault>
        ensures gives { Gives (λ instructions. instructions.items) result (with_resolved self.now [] self.now.drafts) }
        ensures few { length self.now.drafts ≤ 4096 }
    {
        self.all_resolved(alloc, &self.drafts)
    }

    /// Returns the program that the lines read so far form.
    pub(crate) fn into_program(self, alloc: Global) -> Result<Program, ScriptFault>
        requires { IsReady self }
        ensures { Gives (λ program. program) result (program_in self.entry) }
    {
        let instructions = self.instructions(alloc)?;
        let Sheet {
            labels: _,
            data_numbers: _,
            strings,
            drafts: _,
        } = self;
        Ok(Program::new(strings, instructions))
    }
}
