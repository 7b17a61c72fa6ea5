//! Tests that no table of values can express. If there is enough memory, packet memory calls succeed, and so does the
//! run of a list of events. Packet memory can be sent to another thread. Other tests cover an EEPROM image in a device,
//! snapshots of devices and machines, the longest inputs, and the program's failing reads and writes.
//!
//! Further tests check what happens if memory runs out, for each call that may fail for this reason: one of the call's
//! allocations then fails. Each of these tests makes a single call, in most cases through `trial`. The test prints
//! `call` before the call and `end` after it. If the call was refused, the test checks that nothing changed and that
//! all moved values were returned, and makes the call again. The results must then be as if no allocation had failed.
//! The tests by themselves make no allocation fail. `dev/refusals` runs each test once for each allocation of its call,
//! and makes that allocation fail.
//!
//! The tables of `conformance` test the results of the libraries' calls and the output of the program.
#![tactic(auto)]

#[cfg(test)]
mod arenas;
#[cfg(test)]
mod debuggers;
#[cfg(test)]
mod device;
#[cfg(test)]
mod devices;
#[cfg(test)]
mod drivers;
#[cfg(test)]
mod events;
#[cfg(test)]
mod fakes;
#[cfg(test)]
mod feeding;
#[cfg(test)]
mod fresh;
#[cfg(test)]
mod images;
#[cfg(test)]
mod input;
#[cfg(test)]
mod kept;
#[cfg(test)]
mod lists;
#[cfg(test)]
mod locks;
#[cfg(test)]
mod machines;
#[cfg(test)]
mod outcome;
#[cfg(test)]
mod packet_memory;
#[cfg(test)]
mod poll_loop;
#[cfg(test)]
mod programs;
#[cfg(test)]
mod sizes;
#[cfg(test)]
mod snapshots;
#[cfg(test)]
mod sums;
#[cfg(test)]
mod team;
#[cfg(test)]
mod threads;
#[cfg(test)]
mod trial;
#[cfg(test)]
mod ways;
