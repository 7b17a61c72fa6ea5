//! Helpers that unwrap results and check conditions.

use std::alloc::AllocGlobal;
use std::mem;
use std::process::Abort;

/// A test's runtime: it ends the process and allocates.
pub trait Hand: Abort + AllocGlobal {}

impl<R: Abort + AllocGlobal> Hand for R {}

/// Returns the value of a result that must be `Ok`.
pub fn done<T, E>(rt: &impl Abort, answer: Result<T, E>) -> T {
    match answer {
        Ok(value) => value,
        Err(_refused) => panic!(rt; "refused"),
    }
}

/// Returns the value of an option that must be `Some`.
pub fn some<T>(rt: &impl Abort, answer: Option<T>) -> T {
    match answer {
        Some(value) => value,
        None => panic!(rt; "none"),
    }
}

/// Returns the error of a result that must be `Err`.
pub fn refused<T, E>(rt: &impl Abort, answer: Result<T, E>) -> E {
    match answer {
        Ok(_value) => panic!(rt; "not refused"),
        Err(fault) => fault,
    }
}

/// Stores a value in an option that must be `None`.
pub fn put<T>(rt: &impl Abort, at: &mut Option<T>, value: T) {
    none(rt, mem::replace(at, Some(value)));
}

/// Checks that an option is `None`.
pub fn none<T>(rt: &impl Abort, answer: Option<T>) {
    match answer {
        Some(_value) => panic!(rt; "not none"),
        None => {}
    }
}

/// Checks that two numbers are equal.
pub fn same(rt: &impl Abort, reported: u64, wanted: u64) {
    assert_eq!(rt; reported, wanted);
}

/// Checks that a named condition holds.
pub fn holds(rt: &impl Abort, name: &str, is_so: bool) {
    assert!(rt; is_so, "{name}");
}
