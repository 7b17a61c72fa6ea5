//! The interrupt unit of the controller: the causes, masks and messages of one group of interrupts.
//!
//! A group belongs to the physical function (EICR, EIMS, EIAC, EIAM) or to one virtual function (PVTEICR, PVTEIMS,
//! PVTEIAC, PVTEIAM). [`Causes`] stores the words of a group's registers and the reported bits: those that a message
//! has already reported. [`Group`] defines what differs between the two kinds of groups. In contracts, each word is a
//! set of bits, and each call is defined by what it changes in these sets. [`laws`] states what a driver can rely on.
//! No call allocates. The device core has one `Causes` for each group.
#![tactic(auto)]

mod bit_set;
mod causes;
mod group;
pub mod laws;

pub use causes::Causes;
pub use group::Group;
