//! Tests of facts about a shared device and the driver that no contract states. If several threads call one device,
//! each call returns with the reply to its own event, and the shared device closes afterwards. If there is enough
//! memory, the driver's calls succeed: on a device that the test owns, among foreign events, and on a device that
//! threads share. The device does what the driver's calls request. A driver can always be stopped, whatever others do
//! to its queue, even if another driver runs on another thread. A task without a thread gives up. Workers meet at each
//! point.
#![tactic(auto)]

#[cfg(test)]
mod bench;
#[cfg(test)]
mod bursts;
#[cfg(test)]
mod closing;
#[cfg(test)]
mod deeds;
#[cfg(test)]
mod driver;
#[cfg(test)]
mod fitting;
#[cfg(test)]
mod history;
#[cfg(test)]
mod hostile;
#[cfg(test)]
mod interleaved;
#[cfg(test)]
mod left_alone;
#[cfg(test)]
mod lengths;
#[cfg(test)]
mod long;
#[cfg(test)]
mod meeting;
#[cfg(test)]
mod others;
#[cfg(test)]
mod outcome;
#[cfg(test)]
mod overlap;
#[cfg(test)]
mod premises;
#[cfg(test)]
mod queues;
#[cfg(test)]
mod random;
#[cfg(test)]
mod reading;
#[cfg(test)]
mod rig;
#[cfg(test)]
mod runs;
#[cfg(test)]
mod schedule;
#[cfg(test)]
mod shared;
#[cfg(test)]
mod shut_out;
#[cfg(test)]
mod storm;
#[cfg(test)]
mod stranger;
#[cfg(test)]
mod team;
#[cfg(test)]
mod worker;
