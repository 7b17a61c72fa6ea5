//! Runs tables and examples through the program and through the lower libraries, and prints those with unexpected
//! results. The scripts are in `data/*.cases` (`scripts.rt`), the calls in `data/libraries/` (`library.rt`), and the
//! examples in `data/examples/` (`examples.rt`).
#![tactic(auto)]

mod call;
mod descriptors;
mod examples;
mod hashing;
mod images;
mod interrupts;
mod library;
mod objects;
mod pools;
mod registers;
mod scripts;
mod texts;

use crate::examples::run_examples;
use crate::library::run_libraries;
use crate::scripts::run_tables;
use std::io;

fn main(rt: HostRuntime) -> io::Result<()> {
    run_tables(&rt)?;
    run_libraries(&rt)?;
    run_examples(&rt)
}
