//! The device for C: a static library of the functions that `nic82599.h` declares.
//!
//! C accesses a card through a `Handle`: a pointer to a `Card`, which consists of a device and an arena of packet
//! memory whose blocks are free or lent. C accesses a snapshot through a `KeptHandle`: a pointer to a card that is
//! `Kept` as plain data. C receives these two handles through a `HandleOut` and a `KeptHandleOut`. Block memory that
//! the caller owns is passed in as a `BlockHandle` and returned through a `BlockHandleOut`.
//!
//! Each call is total: it checks every number, and reports a refusal as a status. Callers need only pass pointers that
//! match their types. A refusal leaves the card unchanged, with one exception: if `nic_lend_all` or `nic_settle`
//! returns OUT_OF_MEMORY, everything that the call did before it ran out of memory is kept. If a call runs an event,
//! the device's own definition of this event (`nic_device/specs/Step.antt`) says what the call returns, reports and
//! changes. `specs/` defines the numbers by which C receives a reply.
#![tactic(auto)]

mod bus;
mod exchange;
mod handed;
mod handle;
mod hashing;
mod images;
mod life;
mod outcome;
mod packets;
mod parts;
mod registers;
mod settling;
mod snapshots;
mod status;
mod steps;
mod wire;
