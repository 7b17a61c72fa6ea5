//! Laws of scripts. Each law is the contract of an empty function.

ghost use Rattle.script_asm.specs.Laws.{ProgramIsWhatLinesSay, FirstFaultDecides, FaultsComeInOrder};
ghost use Rattle.script_asm.specs.Laws.{NamesHaveTheirPlaces};
ghost use Rattle.script_asm.specs.ReadBack.{TextsReadBack};

/// A source means a program exactly if each line is a statement that fits the lines before it, and the statements form
/// the program, in order. To fit, a label's name must be new among labels, and a data string's name must be new among
/// data names. A data string must be at most 16,384 bytes long and be preceded by fewer than 1,024 data strings. An
/// instruction must be preceded by fewer than 4,096 instructions. A line with a name longer than 32 bytes isn't a
/// statement.
pub fn program_is_what_lines_say()
    ensures { ProgramIsWhatLinesSay }
{}

/// The first faulty line is reported. If no line is faulty, the first instruction with one of two faults is reported
/// with its line. Such an instruction uses a label or data name that isn't defined, or pokes data that isn't 16 bytes
/// long.
pub fn first_fault_decides()
    ensures { FirstFaultDecides }
{}

/// If two operands are faulty, the fault that `LineFault` lists first is reported. A line's own fault is reported
/// before a name that is defined twice, and a name that is defined twice is reported before an exceeded limit.
pub fn faults_come_in_order()
    ensures { FaultsComeInOrder }
{}

/// The number of the first label with a given name is the count of instructions on the lines before it. The number of
/// the first data string with a given name is the count of data strings on the lines before it. A name that no line
/// defines has no number.
pub fn names_have_their_places()
    ensures { NamesHaveTheirPlaces }
{}

/// A program's disassembled source assembles to the same program.
pub fn texts_read_back()
    ensures { TextsReadBack }
{}
