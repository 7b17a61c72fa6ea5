//! Programs: from source to object and back.

use crate::outcome::done;
use crate::sums::{START, with, with_bytes};
use crate::trial::{Maker, makes};
use script_asm::{ObjectFault, Program, ScriptFault, assemble, disassemble, read};
use std::alloc::Global;
use std::process::Abort;
use std::sync::Wait;

/// A script with a data string, a label and a jump.
const SCRIPT: &str = "data f 0102030405060708090a0b0c0d0e0f10\nagain:\npoke 0x800 f\njne 1 again\n";

/// The object of `w CTRL_EXT 0x10000000` and `r CTRL_EXT`.
const OBJECT: &[u8] = b"NBSC\x01\x00\x02\x00\x00\x00\x00\x00\x28\x00\x00\x00\
\x01\x00\x00\x00\x18\x00\x00\x00\x00\x00\x00\x10\x02\x00\x00\x00\x18\x00\x00\x00\x00\x00\x00\x00";

/// The kinds of values to create.
#[derive(Clone, Copy)]
enum Kind {
    Program,
    Read,
    Bytes,
    Copy,
    Text,
}

/// A call, and its input.
#[derive(Drop)]
struct Written {
    kind: Kind,
    program: Program,
}

fn sum_of_program(program: &Program) -> u64 {
    let mut sum = with(START, u64::from(program.instructions()));
    for string in program.strings() {
        sum = with_bytes(sum, string.bytes());
    }
    sum
}

/// Assembles the program that a script describes, and returns a checksum of it.
fn assembled_program<R: Abort>(rt: &R, alloc: Global) -> Option<u64> {
    match assemble(alloc, SCRIPT) {
        Ok(program) => Some(sum_of_program(&program)),
        Err(ScriptFault::OutOfMemory) => None,
        Err(_fault) => panic!(rt; "another refusal"),
    }
}

/// Reads the program in an object, and returns a checksum of it.
fn read_program<R: Abort>(rt: &R, alloc: Global) -> Option<u64> {
    match read(alloc, OBJECT) {
        Ok(program) => Some(sum_of_program(&program)),
        Err(ObjectFault::OutOfMemory) => None,
        Err(_fault) => panic!(rt; "another refusal"),
    }
}

impl Written {
    fn new<R: Abort>(rt: &R, alloc: Global, kind: Kind) -> Written {
        Written {
            kind,
            program: done(rt, assemble(alloc, SCRIPT)),
        }
    }
}

impl Maker for Written {
    fn make<R: Abort>(&self, rt: &R, alloc: Global) -> Option<u64> {
        match self.kind {
            Kind::Program => assembled_program(rt, alloc),
            Kind::Read => read_program(rt, alloc),
            Kind::Bytes => Some(with_bytes(START, &self.program.to_bytes(alloc).ok()?)),
            Kind::Copy => Some(sum_of_program(&self.program.copy(alloc).ok()?)),
            Kind::Text => {
                let text = disassemble(alloc, &self.program).ok()?;
                Some(with_bytes(START, text.as_bytes()))
            }
        }
    }

    fn picture(&self) -> u64 {
        sum_of_program(&self.program)
    }
}

/// Tests a call that creates a value of this kind.
fn made<R: Abort + Wait + Print>(rt: &R, alloc: Global, kind: Kind) {
    let subject = Written::new(rt, alloc, kind);
    let calm = Written::new(rt, alloc, kind);
    makes(rt, alloc, subject, calm);
}

#[test]
fn an_assembled_script(rt: HostRuntime) {
    made(&rt, rt.alloc(), Kind::Program);
}

#[test]
fn a_read_object(rt: HostRuntime) {
    made(&rt, rt.alloc(), Kind::Read);
}

#[test]
fn the_bytes_of_a_program(rt: HostRuntime) {
    made(&rt, rt.alloc(), Kind::Bytes);
}

#[test]
fn a_copied_program(rt: HostRuntime) {
    made(&rt, rt.alloc(), Kind::Copy);
}

#[test]
fn the_text_of_a_program(rt: HostRuntime) {
    made(&rt, rt.alloc(), Kind::Text);
}
