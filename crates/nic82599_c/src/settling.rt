//! Runs the device's own steps, in rounds, until no step has anything left to do.

ghost use Rattle.std.specs.Prelude.{◌≡◌, ◌≢◌, ◌<◌, ◌≤◌, true, length};
ghost use Rattle.nic_device.specs.Step.{after, reply_to, TakesMemory};
ghost use Rattle.nic_device.specs.declared.event.Reply.TheVariants.{NoGroup};
ghost use Rattle.nic82599_c.specs.Settling.{event_of, named, is_quiet, round_of};
ghost use Rattle.nic82599_c.specs.Settling.{course, is_over, stepped, walked, rounds, settled};
ghost use Rattle.nic82599_c.specs.Settling.{Stops, StopsIn};

use crate::handle::Handle;
use crate::outcome::{Outcome, group_of, outcome_of, status_of};
use crate::status::{DONE, IDLE, MORE, NO_GROUP, NO_QUEUE, OUT_OF_MEMORY};
use arrayvec::ArrayVec;
use card::Card;
use nic_device::{Dir, Event, MAX_VFS, QUEUES};

/// The number of interrupt groups: the physical function's, and one per virtual function.
const GROUPS: u8 = MAX_VFS + 1;

/// The maximum number of steps in a round: three per queue, one EEPROM step, one receive step, and one per group.
const STEPS: usize = 450;

/// A step of the device.
#[derive(Clone, Copy, Debug, PartialEq, Eq, Default)]
enum Step {
    /// An enable step for the receive side of a queue.
    RxEnable(u16),
    /// An enable step for the transmit side of a queue.
    TxEnable(u16),
    /// An EEPROM step, which completes a read that EERD requests.
    #[default]
    Eeprom,
    /// A transmit step for a queue.
    Transmit(u16),
    /// A receive step, which writes one part of a frame.
    Receive,
    /// An interrupt step for a group: 0 for the physical function, v + 1 for virtual function v.
    Interrupt(u8),
}

/// Returns the event that runs a step.
fn event_of(step: Step) -> Event
    ensures { result ≡ event_of step }
{
    match step {
        Step::RxEnable(queue) => Event::QueueStep(Dir::Rx, queue),
        Step::TxEnable(queue) => Event::QueueStep(Dir::Tx, queue),
        Step::Eeprom => Event::EepromStep,
        Step::Transmit(queue) => Event::TxStep(queue),
        Step::Receive => Event::RxStep,
        Step::Interrupt(group) => Event::IntStep(group_of(group)),
    }
}

/// Adds the number of a step's kind, and the number of the step's queue or group, to the step's report.
fn named(outcome: Outcome, step: Step) -> Outcome
    ensures { result ≡ named outcome step }
{
    let (step, of) = match step {
        Step::RxEnable(queue) => (0, queue),
        Step::TxEnable(queue) => (1, queue),
        Step::Eeprom => (2, 0),
        Step::Transmit(queue) => (3, queue),
        Step::Receive => (4, 0),
        Step::Interrupt(group) => (5, u16::from(group)),
    };
    Outcome {
        step,
        of,
        ..outcome
    }
}

/// Whether a status means that the step did nothing.
fn is_quiet(status: u8) -> bool
    ensures { result ≡ is_quiet status }
{
    status == IDLE || status == NO_QUEUE || status == NO_GROUP
}

/// Returns the steps of a round that serves this many queues.
#[tactic(auto, unfolding(crate::specs::Settling::enables, crate::specs::Settling::of_each))]
fn round_of(queues: u16) -> ArrayVec<Step, STEPS>
    requires { queues ≤ 128 }
    ensures { result.items ≡ round_of queues }
{
    let mut steps = ArrayVec::new();
    for queue in 0..queues {
        steps.push(Step::RxEnable(queue));
        steps.push(Step::TxEnable(queue));
    }
    steps.push(Step::Eeprom);
    for queue in 0..queues {
        steps.push(Step::Transmit(queue));
    }
    steps.push(Step::Receive);
    for group in 0..GROUPS {
        steps.push(Step::Interrupt(group));
    }
    steps
}

/// Whether a step belongs to a virtual function that the card doesn't have. Such a step does nothing.
fn is_absent(card: &Card, step: Step) -> bool
    ensures quiet { result ≡ true → reply_to card.now.device (event_of step) ≡ NoGroup }
    ensures kept { result ≡ true → after card.now.device (event_of step) ≡ card.now.device }
{
    match step {
        Step::Interrupt(group) => group > card.vfs(),
        _ => false,
    }
}

/// Runs a step and reports it if the step did something. Returns MORE, without running the step, if the array is full;
/// OUT_OF_MEMORY if memory ran out and the step didn't run; otherwise DONE.
fn make(card: &mut Card, step: Step, outcome: &mut [Outcome], count: &mut usize) -> u8
    requires { count.old ≤ length outcome.old }
    ensures room { length outcome.new ≡ length outcome.old }
    ensures count { count.new ≤ length outcome.new }
    ensures course { result ≢ OUT_OF_MEMORY → course card.new outcome.new count.new result
        ≡ stepped (length outcome.old) (course card.old outcome.old count.old 0) step }
    ensures unchanged { result ≡ OUT_OF_MEMORY
        → (card.new ≡ card.old) × (outcome.new ≡ outcome.old) × (count.new ≡ count.old) }
    ensures memory { result ≡ OUT_OF_MEMORY → TakesMemory card.old.device (event_of step) }
{
    if *count >= outcome.len() {
        return MORE;
    }
    if is_absent(card, step) {
        return DONE;
    }
    match card.make(event_of(step)) {
        Ok(reply) => {
            if !is_quiet(status_of(&reply)) {
                outcome[*count] = named(outcome_of(&reply), step);
                *count += 1;
            }
            DONE
        }
        Err(_) => OUT_OF_MEMORY,
    }
}

/// Runs steps in order while there is room for their reports. Returns OUT_OF_MEMORY at the first step for which memory
/// runs out.
fn walk(card: &mut Card, steps: &[Step], outcome: &mut [Outcome], count: &mut usize) -> u8
    requires { count.old ≤ length outcome.old }
    ensures room { length outcome.new ≡ length outcome.old }
    ensures count { count.new ≤ length outcome.new }
    ensures course { result ≢ OUT_OF_MEMORY → course card.new outcome.new count.new result
        ≡ walked (length outcome.old) (course card.old outcome.old count.old 0) steps.now }
    ensures stopped { result ≡ OUT_OF_MEMORY → Stops (length outcome.old) steps.now
        (course card.old outcome.old count.old 0) (course card.new outcome.new count.new 0) }
{
    let mut left = steps;
    'each: while let Some((step, rest)) = left.split_first() {
        let ended = make(card, *step, outcome, count);
        if ended != DONE {
            return ended;
        }
        left = rest;
    }
    DONE
}

/// Whether a round is the last, given its status and the number of reports before and after it.
fn is_over(ended: u8, before: usize, after: usize) -> bool
    ensures { result ≡ is_over ended before after }
{
    ended != DONE || before == after
}

/// Runs rounds until a round does nothing, the array is full, or memory runs out.
fn rounds(card: &mut Card, steps: &[Step], outcome: &mut [Outcome], count: &mut usize) -> u8
    requires { count.old ≤ length outcome.old }
    ensures room { length outcome.new ≡ length outcome.old }
    ensures count { count.new ≤ length outcome.new }
    ensures course { result ≢ OUT_OF_MEMORY → course card.new outcome.new count.new result
        ≡ rounds (length outcome.old) (length outcome.old) steps.now (course card.old outcome.old count.old 0) }
    ensures stopped { result ≡ OUT_OF_MEMORY → StopsIn (length outcome.old) (length outcome.old) steps.now
        (course card.old outcome.old count.old 0) (course card.new outcome.new count.new 0) }
{
    for _round in 0..outcome.len() {
        let before = *count;
        let ended = walk(card, steps, outcome, count);
        if is_over(ended, before, *count) {
            return ended;
        }
    }
    MORE
}

/// Runs the device's steps in rounds until no step has anything left to do. A round serves the queues below `queues` (0
/// to 128). It consists of a receive enable step and a transmit enable step for each of these queues; the EEPROM step;
/// a transmit step for each of these queues; a receive step; and an interrupt step for each interrupt group. The first
/// `count` entries of `outcome` report the steps that did something.
///
/// Returns DONE after a round that did nothing. Returns MORE if the array is full; there may be more to do. Returns
/// OUT_OF_MEMORY if memory ran out for a transmit step: the steps before this transmit step ran and are reported, but
/// the transmit step itself didn't run. Returns NO_QUEUE if `queues` is above 128; in that case no step runs, and
/// `count` is 0. The contract doesn't specify the entries at index `count` and above, except that NO_QUEUE leaves all
/// entries unchanged.
#[unsafe(no_mangle)]
pub extern "C" fn nic_settle(
    nic: &mut Handle,
    queues: u16,
    outcome: &mut [Outcome],
    count: &mut usize,
) -> u8
    ensures room { length outcome.new ≡ length outcome.old }
    ensures count { count.new ≤ length outcome.new }
    ensures settled { queues ≤ 128 → result ≢ OUT_OF_MEMORY → course nic.new.card outcome.new count.new result
        ≡ settled queues (length outcome.old) nic.old.card }
    // After OUT_OF_MEMORY, all steps before a step that needs memory have run, in order, and no earlier round was the
    // last one.
    ensures stopped { queues ≤ 128 → result ≡ OUT_OF_MEMORY → StopsIn (length outcome.old) (length outcome.old)
        (round_of queues) (course nic.old.card outcome.old 0 0) (course nic.new.card outcome.new count.new 0) }
    ensures no_queue { 128 < queues → result ≡ NO_QUEUE }
    ensures unchanged { 128 < queues → (nic.new.card ≡ nic.old.card) × (outcome.new ≡ outcome.old) × (count.new ≡ 0) }
{
    *count = 0;
    if queues > QUEUES {
        return NO_QUEUE;
    }
    let steps = round_of(queues);
    rounds(nic.get_mut(), &steps, outcome, count)
}
