//! What follows for the device at the start of a worker's driver if `begins_well`, `never_asked_on`, `others_lend_none`
//! or `frames_fit` is true.
//!
//! Each law is the contract of a function that does nothing. `specs/Order` states the first law, on which the clause
//! `order` of `run_workers` relies. `specs/AtFirst` states the other laws, for the laws about a driver's life in crate
//! `driver_laws`.

ghost use Rattle.pmd.specs.AtFirst.{BegunHasGround, FramesFitIsShort, NeverAskedIsQuiet, OthersLendNoneIsAlone};
ghost use Rattle.pmd.specs.Order.{EndsAreInOrder};

/// Take a history of a new device that leaves a job's queue alone and in which the job's driver begins well. This means
/// that two conditions hold just before the driver's first event. Its port and queue number identify the job's queue,
/// and the device's frame limit matches the maximum length of the job's frames. If the worker's result has a fault,
/// both sides of the queue must also be off at that point, with no enable request pending. The worker's result is then
/// in order over this history.
///
/// Two facts hold over such a history, up to the last call recorded in the worker's pass. The packets that the result
/// reports as handed out are a prefix of those delivered on the queue. The frames sent on the queue are a prefix of
/// those that the driver accepted. Delivered and sent frames are counted since the sides were enabled after that event.
/// If the driver has no event there, it handed out and accepted no packet.
pub fn ends_are_in_order()
    ensures { EndsAreInOrder }
{}

/// Take a history of a new device in which `begins_well` is true of a driver. Just before the driver's first event, its
/// port and queue number identify the watched queue, and the device's frame limit matches the maximum length of the
/// driver's frames. The clause `order` of `run_workers` requires this. So do the laws in `driver_laws` about the life
/// of a driver that starts after the same calls made by its pass.
pub fn worker_begins_well()
    ensures { BegunHasGround }
{}

/// Take a history of a new device in which `begins_well` is true of a driver and `never_asked_on` of its queue. Just
/// before the driver's first event, both sides of the queue are off with no enable request pending. The clause `order`
/// of `run_workers` requires this if a worker's result has a fault.
pub fn worker_starts_quiet()
    ensures { NeverAskedIsQuiet }
{}

/// Take a legal history of a new device in which `others_lend_none` is true of a driver and of its arena's blocks.
/// Consider those of the blocks that the driver's pass tries to lend. After the first entry of the driver's pass, no
/// other pass tries to lend any of them. Just before the driver's first event, none of them is lent. Three laws require
/// this of a driver's blocks: `driver_laws::no_call_finds_the_device_at_fault`, `no_start_finds_the_device_at_fault`
/// and `blocks_out_are_lent_at_the_device`.
pub fn worker_has_its_blocks_alone()
    ensures { OthersLendNoneIsAlone }
{}

/// Take a legal history of a new device in which `frames_fit` is true of a driver. The frames that wait for the
/// driver's queue just before its first event fit the number of blocks that its packets may take. Two laws require this
/// of these frames: `driver_laws::no_call_finds_the_device_at_fault` and `no_start_finds_the_device_at_fault`.
pub fn frames_of_a_worker_fit()
    ensures { FramesFitIsShort }
{}
