//! Laws about objects. Each law is the contract of an empty function.

ghost use Rattle.program.specs.Laws.{InstructionsDecide, FirstFaultDecides, ObjectsReadBack};

/// If an object is laid out from any fields and data strings within the limits, only its instructions can be faulty.
pub fn instructions_decide()
    ensures { InstructionsDecide }
{}

/// If an object is laid out within the limits, its first faulty instruction is reported, with this instruction's
/// number.
pub fn first_fault_decides()
    ensures { FirstFaultDecides }
{}

/// Reading the object of a program returns the same program.
pub fn objects_read_back()
    ensures { ObjectsReadBack }
{}
