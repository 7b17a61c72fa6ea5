//! Laws about a driver's whole life so far: the driver was started, and since then it has received and sent packets.
//! The module `starting` contains the laws about the driver's start, and about its receive and transmit halves after
//! the start.
//!
//! Each law is the contract of a function that does nothing. `specs/Course` defines the histories over which a driver
//! is started, and when packets and frames are in order. `specs/Life` defines a life by the calls of the driver's pass,
//! and `specs/Reported` by what the driver's calls return. `specs/Lends` is about the blocks that the driver lends.
//! `specs/InHand` defines the history of a device in hand. `specs/Order` states what holds for a life over a history of
//! a shared device. `specs/Faultless` states that neither the driver's start nor its calls fail with `DeviceFault`.
//! `specs/Looks` is about polls that find no packet, and `specs/Waits` about polls that find a packet waiting.
//! `specs/Places` states where the driver's blocks are, and `specs/FullRing` how many slots are taken when a ring is
//! reported as full. `specs/Ends` is about the records that a stopped driver returns, and `specs/Stopped` about the
//! calls of its stop. `specs/Silent` states that nothing is delivered or sent after these calls have switched both
//! sides of the queue off. `specs/Refused` is about a refused start, and `specs/Room` about an arena with room for a
//! driver's rings. `specs/Beside` is about a driver whose author makes any other calls alongside it. For such a driver,
//! `specs/BesideApart` is about its blocks, `specs/BesideRoom` about its full ring, `specs/BesideStart` about its
//! start, and `specs/BesideStop` about its stop.
//!
//! A driver begins well in a history if two conditions hold just before its first access. Its port and queue number
//! identify the watched queue, and the device's frame limit is the driver's packet limit (`specs/Start`).
#![tactic(auto)]

ghost use Rattle.driver_laws.specs.Beside as beside;
ghost use Rattle.driver_laws.specs.BesideApart as apart;
ghost use Rattle.driver_laws.specs.BesideRoom as room;
ghost use Rattle.driver_laws.specs.BesideStart as start;
ghost use Rattle.driver_laws.specs.BesideStop as stop;
ghost use Rattle.driver_laws.specs.Closed.{CallsStand};
ghost use Rattle.driver_laws.specs.Ends.{HandedOverStop, LeftIsPrefix, SentOverStop};
ghost use Rattle.driver_laws.specs.Faultless.{NoBurstMeetsFault, NoCallFindsFault, NoFillingFindsFault};
ghost use Rattle.driver_laws.specs.Faultless.{NoStartFindsFault};
ghost use Rattle.driver_laws.specs.FullRing.{FullHasNoRoom, NoneHasNoRoom};
ghost use Rattle.driver_laws.specs.InHand.{ClosedIsHistory, DirectIsHistory, InterleavedIsHistory};
ghost use Rattle.driver_laws.specs.Lends.{LifeLendsApart};
ghost use Rattle.driver_laws.specs.Looks.{CallsEnd, NoneIsAllAtFirst, NoneIsAllBefore};
ghost use Rattle.driver_laws.specs.Order.{HandedIsPrefix, NoneIsAll, NoneIsAllTaken, SentIsPrefix, IdleIsAllSent};
ghost use Rattle.driver_laws.specs.Places.{BooksGoOn, EachInOnePlace, LentIsOut, OutIsLent};
ghost use Rattle.driver_laws.specs.Refused.{LeftOfRefusedIsPrefix, RefusedSendsNothing};
ghost use Rattle.driver_laws.specs.Room.{TwoRunsAreFound};
ghost use Rattle.driver_laws.specs.Silent.{SilentOnceOff, SilentOverStop};
ghost use Rattle.driver_laws.specs.Stopped as stopped;
ghost use Rattle.driver_laws.specs.Reported as reported;
ghost use Rattle.driver_laws.specs.Waits.{WaitingIsNotAllBefore, WaitingIsNotAllAsReported};

pub mod starting;

/// The laws in this crate are about histories that begin in any state that a device can be in, new or used, with or
/// without an installed EEPROM image. The calls through a `pmd_access::Direct` form such a history; all of them belong
/// to pass 0. They follow the history's earlier part, which contains what is known to have happened to the device
/// before it came into hand. Pass 0 made no call in that earlier part. The calls through an `Interleaved` form such a
/// history too: its own calls belong to pass 0, the foreign calls to pass 1. The history leads to the device in hand.
/// The laws require that, when the `Direct` or `Interleaved` was created, the device was in the state that the earlier
/// part leads to. For a newly created `Direct` or `Interleaved`, the clause `began` ensures this, and each driver call
/// preserves it. The laws also require that the history leaves the queue alone. For a `Direct`, it is enough that
/// `device_lock::left_alone` returns true, whatever the device's state. For an `Interleaved`, this is enough if the
/// device had no image and no pool mode when the history began.
///
/// The calls through a `pmd_access::ThroughLock` form a history of a device that was new. It is the history that
/// `close` returned for the device's passes, cut after the last of these calls. The pass may have any tag. The premise
/// is that `left_alone`, called on the result of `close`, returns true for that tag and the queue. The closed history
/// contains all of these calls. Unless it is empty, the part before the cut ends with an entry of that pass.
/// `pmd::begins_well` reports whether a driver begins well, as `pmd::laws::worker_begins_well` says.
pub fn calls_in_hand_are_a_history()
    ensures direct { DirectIsHistory }
    ensures interleaved { InterleavedIsHistory }
    ensures stands { CallsStand }
    ensures closed { ClosedIsHistory }
{}

/// Take a legal history of any sound device. The history leaves the driver's queue alone, and the driver begins well in
/// it. The driver's pass made the calls of a start that brought both rings up, then calls of the two halves. Between
/// these calls, the pass may have made harmless calls, which lend, take and poke no block and write no register that a
/// queue relies on. The packets that the driver handed out are a prefix of those delivered on its queue. If the next
/// poll finds its slot not done, each delivered packet was handed out, or is complete and will be handed out when the
/// tail advances. If, in addition, no packet is complete, all delivered packets were handed out. The frames sent on the
/// queue are a prefix of those that the driver accepted. If no packet is outstanding, all accepted frames were sent.
/// Packets and frames are counted since the sides were last enabled.
pub fn life_in_order()
    ensures handed { HandedIsPrefix }
    ensures taken { NoneIsAllTaken }
    ensures none { NoneIsAll }
    ensures sent { SentIsPrefix }
    ensures idle { IdleIsAllSent }
{}

/// After both sides of its queue are on, a driver lends only blocks of the arena that was handed to it. Each of its
/// halves lends only blocks that the other half hasn't lent. This holds for the blocks that the driver's start posts
/// and for those that its calls lend.
pub fn lives_lend_apart()
    ensures { LifeLendsApart }
{}

/// After the driver's start, no call to `rx`, `tx`, `reap`, `rx_burst` or `tx_burst` gets a reply that no healthy queue
/// sends. By their clause `finds`, none therefore fails with `DeviceFault`. Nor does a `tx_burst` that returns the
/// number of accepted packets get such a reply. The premises: The history is legal and leaves the queue alone, and the
/// driver begins well in it. Between the driver's calls, the driver's author may make any harmless calls through the
/// same pass. Just before the driver's first access, each frame that waits for the queue fits the blocks that one of
/// the driver's packets may take. At that point, none of the arena's blocks that the driver's pass tries to lend is
/// already lent. After the pass's first entry, no other pass tries to lend any of these blocks.
pub fn no_call_finds_the_device_at_fault()
    ensures finds { NoCallFindsFault }
    ensures meets { NoBurstMeetsFault }
{}

/// No start fails with `DeviceFault` at or after its first event, whether it is filling its receive ring at the time or
/// not. The premises are those of `no_call_finds_the_device_at_fault`. In addition, just before the driver's first
/// access, both sides of the queue are off with no enable request pending.
pub fn no_start_finds_the_device_at_fault()
    ensures filling { NoFillingFindsFault }
    ensures during { NoStartFindsFault }
{}

/// Take a legal history of any sound device. The history leaves the queue alone, and the driver begins well in it. In
/// the history, a `start` returned a driver, and the driver's calls followed. A block is out if one of the driver's
/// halves still has it in use; such a block isn't free in the arena. Each block that is out is lent to the device. Now
/// take the blocks of the driver's arena that the driver's pass tries to lend. Suppose that none of these blocks is
/// lent just before the driver's first access. Suppose also that no other pass tries to lend any of them after the
/// pass's first entry. Then each of them that is lent to the device is out. Together with the accounting of
/// `calls_keep_the_books`, this means that each block is in one place: free in the arena, in hand, or lent to the
/// device. This holds for each block that was free in the arena when the arena was handed to the driver. It also holds
/// for each block that was outside the arena at that time, for example in hand. Others may have lent blocks that were
/// outside the arena then, or that the driver handed out.
pub fn blocks_out_are_lent_at_the_device()
    ensures lent { OutIsLent }
    ensures known { LentIsOut }
    ensures once { EachInOnePlace }
{}

/// If some blocks of an arena are in hand when a driver starts with that arena, the driver has all blocks of the arena
/// except these. If the driver has all blocks except those in hand before one of its calls, the same is true after the
/// call, by the call's clause `blocks`. After the call, the blocks that the call handed out are in hand too. The blocks
/// that were passed to the call are no longer in hand, even if they were in hand when the driver started.
pub fn calls_keep_the_books()
    ensures { BooksGoOn }
{}

/// Suppose that a `start` returned a driver, the driver's calls followed, and then `tx` reports that the ring is full.
/// Then the outstanding packets have fewer parts than the ring has descriptors (the number given to the start).
/// Together with the parts of the packet passed to `tx`, there are at least as many parts as descriptors. So if that
/// packet has one part, all slots except one are taken. The same bounds hold after a call to `tx_burst` that returns 0
/// and leaves packets; the parts counted are then those of the first packet left.
pub fn full_ring_has_no_room()
    ensures reported { FullHasNoRoom }
    ensures none { NoneHasNoRoom }
{}

/// Suppose that a pass made the calls in a list, and perhaps more calls after them. Then the history has an entry with
/// the event and the reply of the list's last call. Before that entry, the pass made exactly the other calls in the
/// list. The law doesn't state that the entry belongs to the pass.
pub fn calls_end_at_an_entry()
    ensures { CallsEnd }
{}

/// Suppose that a driver call polls and finds nothing: `rx` returns none, or `rx_burst` returns 0 although packets were
/// requested. Then the driver had handed out everything that was delivered before the entry of the call's last poll,
/// even if the history continues after that entry. The driver had also handed out everything that was delivered before
/// the call's own first event. Before that event, other passes may have made any calls, and the driver's own pass may
/// have made harmless calls.
pub fn empty_look_leaves_nothing()
    ensures before { NoneIsAllBefore }
    ensures first { NoneIsAllAtFirst }
{}

/// Suppose that a driver call in a life ends with a packet outstanding, as a call to `reap` does if it doesn't report
/// idle. Then the call's last event was a poll. When the call's own first event occurred, some of what the driver had
/// accepted had not yet been sent. Before that event, other passes may have made any calls, and the driver's own pass
/// may have made harmless calls. The same follows from what the calls of a `pmd_driver::Pmd` return; nothing else about
/// the calls needs to be known.
pub fn waiting_look_leaves_some_unsent()
    ensures before { WaitingIsNotAllBefore }
    ensures reported { WaitingIsNotAllAsReported }
{}

/// Packets and frames are in order over a history as in `life_in_order`. Unlike that law, this one relies only on what
/// the calls of a `pmd_driver::Pmd` return. Suppose that a `start` returned the driver, and that calls to `rx`, `tx`,
/// `reap`, `rx_burst`, `tx_burst`, `packet` and `release` followed, in any order and with any results. Between these
/// calls, the pass may have made harmless calls, such as frame arrivals. The packets that the driver handed out are a
/// prefix of those delivered. Suppose that `rx` returns none, or that `rx_burst` returns 0 although packets were
/// requested. Then the packets handed out are all those delivered before the call's last poll, and so all those
/// delivered before the call's first event. The frames sent are a prefix of those that the driver accepted. If no
/// packet is outstanding, for example if `reap` reports this, all accepted frames were sent.
pub fn driver_in_order()
    ensures handed { reported.HandedIsPrefix }
    ensures none { reported.NoneIsAllBefore }
    ensures first { reported.NoneIsAllAtFirst }
    ensures sent { reported.SentIsPrefix }
    ensures idle { reported.IdleIsAllSent }
{}

/// Packets are also in order if the driver's author makes any calls to the device before the driver's start and between
/// the driver's calls. These may be, for example, the calls of a second driver on another queue. The author's calls
/// must meet the conditions for other passes: if each of them carried another pass's tag instead, the history would
/// leave the queue alone. So after the first entry of the driver's pass, the author's calls write no row of the queue
/// and no setting, and don't reset the queue's pool. They lend, take and poke no block that the driver itself lends.
/// The history with these other tags is the retagged history. The driver must begin well in it. In the retagged
/// history, the driver's pass makes only the driver's own calls. For these calls by themselves, the driver's clauses
/// hold (`reported`), and the calls form a life (`lived`). So the laws about a driver's reports and about its life
/// apply to the retagged history. What they state about packets and frames also holds for the original history. For a
/// device in hand, marks say which calls are the driver's own (`in_hand`, `interleaved`). The marks may also span
/// several `Direct`s or `Interleaved`s in succession, for example if a `Direct` is finished and another one steps the
/// other driver's queue.
pub fn driver_among_any_calls_in_order()
    ensures reported { beside.OwnAreReported }
    ensures lived { beside.ReportedIsLived }
    ensures handed { beside.HandedIsPrefix }
    ensures none { beside.NoneIsAllBefore }
    ensures first { beside.NoneIsAllAtFirst }
    ensures sent { beside.SentIsPrefix }
    ensures idle { beside.IdleIsAllSent }
    ensures waits { beside.WaitingIsNotAll }
    ensures in_hand { beside.DirectIsRetagged }
    ensures interleaved { beside.InterleavedIsRetagged }
{}

/// Take a driver as in `driver_among_any_calls_in_order`, and suppose that two conditions hold. Neither another pass
/// nor the driver's author, in calls alongside the driver, tries to lend a block of the driver's arena that the driver
/// tries to lend. Just before the driver's first access, none of these blocks is lent, and the frames that wait for the
/// driver's queue fit the driver's packets. Then no call of the driver gets a reply that no healthy queue sends, and so
/// none fails with `DeviceFault`. Each block that the driver still has in use (that is out) is lent to the device.
/// Conversely, each block that the driver tries to lend is out if it is lent to the device. Each block is in one place,
/// as in `blocks_out_are_lent_at_the_device`.
pub fn driver_among_any_calls_keeps_its_blocks()
    ensures finds { apart.NoCallFindsFault }
    ensures meets { apart.NoBurstMeetsFault }
    ensures lent { apart.OutIsLent }
    ensures known { apart.LentIsOut }
    ensures once { apart.EachInOnePlace }
{}

/// No start of a driver as in `driver_among_any_calls_in_order` fails with `DeviceFault` at or after its first event,
/// whatever calls the driver's author made before. The conditions are those of
/// `driver_among_any_calls_keeps_its_blocks`. In addition, just before the driver's first access, both sides of its
/// queue are off with no enable request pending. A start that brings both rings up adds calls to those already made,
/// and the driver's first access is among the added calls.
pub fn driver_among_any_calls_starts()
    ensures adds { start.StartAdds }
    ensures filling { start.NoFillingFindsFault }
    ensures during { start.NoStartFindsFault }
{}

/// Take a driver as in `driver_among_any_calls_in_order`. If its `tx` reports that the ring is full, or its `tx_burst`
/// returns 0 and leaves a packet, the ring has no room for that packet.
pub fn full_ring_among_any_calls_has_no_room()
    ensures reported { room.FullHasNoRoom }
    ensures none { room.NoneHasNoRoom }
{}

/// Suppose that a driver as in `driver_among_any_calls_in_order` is stopped. At any point during the calls of its stop,
/// and at their end, the packets that the driver handed out are a prefix of those delivered. If the stop takes blocks
/// back only after both sides have read as off, the frames sent are a prefix of those that the driver accepted. After
/// the stop's calls have switched both sides off, nothing more is delivered or sent on the queue. A stop never requests
/// that a side be enabled, as `stop_calls_ask_for_no_side` states. It takes blocks back only after both sides have read
/// as off, as `stops_take_blocks_once_off` states.
pub fn driver_among_any_calls_stops_in_order()
    ensures handed { stop.HandedIsPrefix }
    ensures sent { stop.SentIsPrefix }
    ensures silent { stop.SilentOnceOff }
{}

/// Take a legal history that leaves the queue alone and in which the driver begins well. The driver's start brought
/// both rings up, and the history ends just before the driver's stop, as `pmd::run_worker` states for its driver. The
/// packets that the driver's stop returns as handed out are a prefix of those delivered. The frames sent are a prefix
/// of those that the stop returns as accepted. The same holds if the history continues to any point during the stop, or
/// to the end of the stop, successful or not.
pub fn what_is_left_is_in_order()
    ensures before { LeftIsPrefix }
    ensures handed { HandedOverStop }
    ensures sent { SentOverStop }
{}

/// Suppose that a driver's start was refused, as `pmd::run_worker` states for a driver that never ran. The history is
/// legal and leaves the queue alone. Just before the start's first event, the driver begins well, and both sides are
/// off with no enable request pending. From that event on, nothing is sent on the queue, neither during the start nor
/// during the stop of a driver that the start returned. So packets and frames are also in order, at any point up to the
/// end of the start and the stop: the packets returned as handed out, and the frames sent since that event.
pub fn refused_start_sends_nothing()
    ensures sent { RefusedSendsNothing }
    ensures left { LeftOfRefusedIsPrefix }
{}

/// Suppose that a life as in `life_in_order` is followed by calls of a stop, none of which requests that a side be
/// enabled. The packets that the driver had handed out are a prefix of those delivered in the whole history, including
/// everything delivered after the life. Suppose also that the stop's calls take blocks back only after both sides have
/// read as off. Then the frames sent on the queue in the whole history are a prefix of those that the driver had
/// accepted.
pub fn stopped_life_in_order()
    ensures handed { stopped.HandedIsPrefix }
    ensures sent { stopped.SentIsPrefix }
{}

/// The calls of a stop of a `pmd_driver::Pmd`, including the device steps between them, never request that a side be
/// enabled. Nor do the calls of a failed stop.
pub fn stop_calls_ask_for_no_side()
    ensures stops { stopped.StopEnds }
    // Nor do the calls of a failed stop.
    ensures fails { stopped.FailedStopEnds }
{}

/// The calls of a stop take blocks back only after both sides have read as off, and so do the calls of a failed stop.
/// If this is true for some earlier calls, it is true for the earlier calls followed by the stop's calls. It is also
/// true if there are no calls at all.
pub fn stops_take_blocks_once_off()
    ensures none { stopped.NoCallTakes }
    ensures stops { stopped.StopTakesOnceOff }
    ensures fails { stopped.FailedStopTakesOnceOff }
{}

/// Suppose that a life as in `life_in_order` is followed by calls of a stop that take blocks back only after both sides
/// have read as off. After these calls have switched both sides off, nothing more is delivered or sent on the queue, as
/// long as the driver's pass makes only calls of a stop. The same holds for a driver that was started and later
/// stopped, as `pmd::run_worker` states for its driver. In that case, nothing is delivered or sent from the point where
/// the stop has switched both sides off. This includes the rest of the stop and its end, successful or not.
pub fn switched_off_queue_is_silent()
    ensures once { SilentOnceOff }
    ensures over { SilentOverStop }
{}

/// A start finds two runs of `count` free blocks each, where `count` is at least 1, exactly if there are two such runs
/// that share no block.
pub fn two_runs_are_found()
    ensures { TwoRunsAreFound }
{}
