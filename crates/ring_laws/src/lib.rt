//! What the device and a driver agree on, for each of a queue's two rings. If they agree before an event that is the
//! driver's own or that leaves the driver's queue alone, they also agree after it. The event is then said to keep the
//! agreement. `receive` is about the receive ring: the packets that the driver returns are a prefix of the packets that
//! were delivered. `transmit` is about the transmit ring: the frames that are sent are a prefix of the packets that the
//! driver accepted. The crate `driver_laws` states both laws for whole histories, and `history` states what both rely
//! on. `locks` states the lock's definitions a second time.
#![tactic(auto)]

pub mod history;
pub mod locks;
pub mod receive;
pub mod transmit;
