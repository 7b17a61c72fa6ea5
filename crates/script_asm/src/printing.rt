//! Prints instructions as lines of a script.

ghost use Rattle.std.specs.Prelude.{◌≡◌, Some};
ghost use Rattle.script_asm.specs.Printing.{target_text, place_text, place_first_at, group_text, direction_text};
ghost use Rattle.script_asm.specs.Printing.{link_text, instruction_text};
ghost use Rattle.script_asm.specs.Line.{operand_text, line_text};

use self::Operand::{Data, Label, Named, Target, Word};
use self::Operands::{One, Three, Two, Zero};
use program::{Dir, Group, Instruction};
use reg_table::{Place, addr_of, count_of, name_of, place_of};
use std::fmt;
use text_format::WordText;

/// The printed form of a register: its row's name, followed by its index if the row has several registers.
#[derive(Clone, Copy)]
struct PlaceText(Place);

impl fmt::Display for PlaceText {
    ghost output = { λ p. Some (place_text p.0) };

    fn fmt<W: fmt::Write>(&self, f: &mut fmt::Formatter<W>) -> fmt::Result {
        let Place { row, index } = self.0;
        let name = name_of(row);
        if count_of(row) == 1 {
            write!(f, "{name}")
        } else {
            write!(f, "{name}[{index}]")
        }
    }
}

/// Returns the register that has this first address.
fn place_first_at(address: u32) -> Option<Place>
    ensures { result ≡ place_first_at address }
{
    let place = place_of(address)?;
    if addr_of(place) == address {
        Some(place)
    } else {
        None
    }
}

/// The printed form of an address: a register's name if the address is the register's first, otherwise a number.
#[derive(Clone, Copy)]
struct TargetText(u32);

impl fmt::Display for TargetText {
    ghost output = { λ t. Some (target_text t.0) };

    fn fmt<W: fmt::Write>(&self, f: &mut fmt::Formatter<W>) -> fmt::Result {
        match place_first_at(self.0) {
            Some(place) => write!(f, "{}", PlaceText(place)),
            None => write!(f, "{}", WordText(self.0)),
        }
    }
}

/// A printed operand.
#[derive(Clone, Copy)]
enum Operand {
    /// A keyword of the language.
    Named(&'static str),
    /// A number, printed as eight hex digits.
    Word(u32),
    /// An address, printed as a register's name if the address is the register's first.
    Target(u32),
    /// A data string, by its number.
    Data(u16),
    /// A jump target, by the instruction's number.
    Label(u16),
}

impl fmt::Display for Operand {
    ghost output = { λ o. Some (operand_text o) };

    fn fmt<W: fmt::Write>(&self, f: &mut fmt::Formatter<W>) -> fmt::Result {
        match *self {
            Operand::Named(name) => write!(f, "{name}"),
            Operand::Word(word) => write!(f, "{}", WordText(word)),
            Operand::Target(address) => write!(f, "{}", TargetText(address)),
            Operand::Data(number) => write!(f, "d{number}"),
            Operand::Label(pc) => write!(f, "L{pc}"),
        }
    }
}

/// The printed operands of an instruction.
#[derive(Clone, Copy)]
enum Operands {
    /// An operation without operands.
    Zero,
    /// An operation with one operand.
    One(Operand),
    /// An operation with two operands.
    Two(Operand, Operand),
    /// An operation with three operands.
    Three(Operand, Operand, Operand),
}

/// The printed form of an instruction: its operation's name and its operands.
#[derive(Clone, Copy)]
struct Line(&'static str, Operands);

impl fmt::Display for Line {
    ghost output = { λ l. Some (line_text l) };

    fn fmt<W: fmt::Write>(&self, f: &mut fmt::Formatter<W>) -> fmt::Result {
        let Line(name, operands) = *self;
        match operands {
            Operands::Zero => write!(f, "{name}"),
            Operands::One(a) => write!(f, "{name} {a}"),
            Operands::Two(a, b) => write!(f, "{name} {a} {b}"),
            Operands::Three(a, b, c) => write!(f, "{name} {a} {b} {c}"),
        }
    }
}

/// Returns the operand for an 8-bit or 16-bit number.
fn number(number: u16) -> Operand
    ensures { result ≡ Operand.Word number }
{
    Operand::Word(u32::from(number))
}

/// Returns the operand for an interrupt group.
fn group(group: Group) -> Operand
    ensures { operand_text result ≡ group_text group }
{
    match group {
        Group::Pf => Operand::Named("pf"),
        Group::Vf(function) => number(u16::from(function)),
    }
}

/// Returns the operand for a queue's side: `rx` or `tx`.
fn direction(direction: Dir) -> Operand
    ensures { operand_text result ≡ direction_text direction }
{
    match direction {
        Dir::Rx => Operand::Named("rx"),
        Dir::Tx => Operand::Named("tx"),
    }
}

/// Returns the operand for the link's state: `up` or `down`.
fn link(up: bool) -> Operand
    ensures { operand_text result ≡ link_text up }
{
    Operand::Named(if up { "up" } else { "down" })
}

/// Returns the operation's name and the operands of an instruction, ready to print.
fn line_of(instruction: &Instruction) -> Line
    ensures { line_text result ≡ instruction_text instruction.now }
{
    match *instruction {
        Instruction::Write(address, word) => Line("w", Two(Target(address), Word(word))),
        Instruction::Read(address) => Line("r", One(Target(address))),
        Instruction::VfWrite {
            function,
            offset,
            word,
        } => Line(
            "vw",
            Three(number(u16::from(function)), Word(offset), Word(word)),
        ),
        Instruction::VfRead { function, offset } => {
            Line("vr", Two(number(u16::from(function)), Word(offset)))
        }
        Instruction::Lend(block) => Line("lend", One(number(block))),
        Instruction::Unlend(block) => Line("unlend", One(number(block))),
        Instruction::Poke(address, data) => Line("poke", Two(Word(address), Data(data))),
        Instruction::Peek(address, word) => {
            Line("peek", Two(Word(address), number(u16::from(word))))
        }
        Instruction::Arrive(data) => Line("arrive", One(Data(data))),
        Instruction::RxStep => Line("rx", Zero),
        Instruction::TxStep(queue) => Line("tx", One(number(queue))),
        Instruction::IntStep(of) => Line("int", One(group(of))),
        Instruction::QueueStep(of, queue) => Line("qstep", Two(direction(of), number(queue))),
        Instruction::EepromStep => Line("eestep", Zero),
        Instruction::Link(up) => Line("link", One(link(up))),
        Instruction::Collect => Line("collect", Zero),
        Instruction::Expect { want, mask } => Line("expect", Two(Word(want), Word(mask))),
        Instruction::And(word) => Line("and", One(Word(word))),
        Instruction::JumpIfEqual(word, pc) => Line("jeq", Two(Word(word), Label(pc))),
        Instruction::JumpUnlessEqual(word, pc) => Line("jne", Two(Word(word), Label(pc))),
        Instruction::Jump(pc) => Line("jmp", One(Label(pc))),
        Instruction::Halt => Line("halt", Zero),
    }
}

/// An instruction's line, printed by `Display`.
#[derive(Clone, Copy)]
pub(crate) struct InstructionText<'a>(pub(crate) &'a Instruction);

impl fmt::Display for InstructionText<'_> {
    ghost output = { λ i. Some (instruction_text i.0.now) };

    fn fmt<W: fmt::Write>(&self, f: &mut fmt::Formatter<W>) -> fmt::Result {
        write!(f, "{}", line_of(self.0))
    }
}
