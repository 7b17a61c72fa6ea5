//! A test's runtime, and helpers that unwrap results and check conditions.

use std::alloc::AllocGlobal;
use std::mem;
use std::process::Abort;
use std::sync::Wait;
use std::thread::Threads;

/// A test's runtime: it ends the process, waits, starts threads and allocates.
pub trait Hand: Abort + Wait + Threads + Sync + AllocGlobal {}

impl<R: Abort + Wait + Threads + Sync + AllocGlobal> Hand for R {}

/// Ends a failed test with a message.
pub fn fail(rt: &impl Abort, what: &str) -> ! {
    panic!(rt; "{what}")
}

/// Checks that a condition holds.
pub fn sees(rt: &impl Abort, is_so: bool) {
    if !is_so {
        fail(rt, "not so");
    }
}

/// The value of a result that must be `Ok`.
pub fn done<T, E>(rt: &impl Abort, answer: Result<T, E>) -> T {
    match answer {
        Ok(value) => value,
        Err(_refused) => fail(rt, "refused"),
    }
}

/// The value of an option that must be `Some`.
pub fn some<T>(rt: &impl Abort, answer: Option<T>) -> T {
    match answer {
        Some(value) => value,
        None => fail(rt, "none"),
    }
}

/// The error of a result that must be `Err`.
pub fn refused<T, E>(rt: &impl Abort, answer: Result<T, E>) -> E {
    match answer {
        Ok(_value) => fail(rt, "not refused"),
        Err(fault) => fault,
    }
}

/// Checks that two numbers are equal.
pub fn same(rt: &impl Abort, reported: usize, wanted: usize) {
    assert_eq!(rt; reported, wanted);
}

/// Checks a condition in the case with this name.
pub fn holds(rt: &impl Abort, name: &str, what: &str, is_so: bool) {
    assert!(rt; is_so, "{name}: {what}");
}

/// Checks that two pairs of numbers are equal.
pub fn same_pair(rt: &impl Abort, reported: (usize, usize), wanted: (usize, usize)) {
    same(rt, reported.0, wanted.0);
    same(rt, reported.1, wanted.1);
}

/// Checks that two byte strings are equal.
pub fn same_bytes(rt: &impl Abort, reported: &[u8], wanted: &[u8]) {
    sees(rt, reported == wanted);
}

/// An empty list.
pub fn empty<T>(rt: &impl Hand) -> Vec<T> {
    Vec::new(rt.alloc())
}

/// Appends an item to a list.
pub fn push<T>(rt: &impl Abort, list: &mut Vec<T>, item: T) {
    done(rt, list.push(item));
}

/// Stores a value in an option that must be `None`.
pub fn put<T>(rt: &impl Abort, at: &mut Option<T>, value: T) {
    none(rt, mem::replace(at, Some(value)));
}

/// Checks that an option is `None`.
pub fn none<T>(rt: &impl Abort, answer: Option<T>) {
    match answer {
        Some(_value) => fail(rt, "not none"),
        None => {}
    }
}

/// Drops an empty list.
pub fn emptied<T>(rt: &impl Abort, list: Vec<T>) {
    assert!(rt; list.is_empty());
    list.destroy_empty();
}
