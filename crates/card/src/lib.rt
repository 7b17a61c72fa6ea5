//! A card: a device, and the packet memory that it shares with the program.
//!
//! A `Card` contains a device and an arena of blocks numbered from 0. Each block is free in the arena or lent to the
//! device. The calls of a card move blocks between the device and the arena without losing any, and run the device's
//! other events. A card can be saved as plain data, a `Kept`, and recreated from that. The device's own definition of
//! an event (`nic_device/specs/Step.antt`) says what the call that runs the event returns and changes.
#![tactic(auto)]

mod bus;
mod card;
mod kept;

pub use card::Card;
pub use kept::Kept;
