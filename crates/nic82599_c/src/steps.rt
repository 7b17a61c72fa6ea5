//! The device's own steps.

ghost use Rattle.std.specs.Prelude.{◌≡◌, ◌≢◌, IsFalse};
ghost use Rattle.nic_device.specs.Step.{reply_to, moves_block, TakesMemory};
ghost use Rattle.card.specs.Card.{made};
ghost use Rattle.nic82599_c.specs.Outcome.{status_of, outcome_of, group_of, dir_of};

use crate::handle::Handle;
use crate::outcome::{Outcome, group_of, outcome_of, status_of};
use crate::status::OUT_OF_MEMORY;
use card::Card;
use nic_device::{Dir, Event};

/// Runs an event that neither lends nor takes back a block, and reports the device's reply in `outcome`.
#[inline(always)]
pub(crate) fn tell(card: &mut Card, event: Event, outcome: &mut Outcome) -> u8
    requires { IsFalse (moves_block event) }
    ensures status { result ≢ OUT_OF_MEMORY → result ≡ status_of (reply_to card.old.device event) }
    ensures outcome { result ≢ OUT_OF_MEMORY → outcome.new ≡ outcome_of (reply_to card.old.device event) }
    ensures card { result ≢ OUT_OF_MEMORY → card.new ≡ made card.old event }
    ensures unchanged { result ≡ OUT_OF_MEMORY → (card.new ≡ card.old) × (outcome.new ≡ outcome.old) }
    ensures memory { result ≡ OUT_OF_MEMORY → TakesMemory card.old.device event }
{
    match card.make(event) {
        Ok(reply) => {
            *outcome = outcome_of(&reply);
            status_of(&reply)
        }
        Err(_) => OUT_OF_MEMORY,
    }
}

/// Runs a receive step: writes the next part of the oldest frame in the receive list. Returns WROTE, DROPPED, FAULT or
/// IDLE; `outcome` contains the details.
#[unsafe(no_mangle)]
pub extern "C" fn nic_rx_step(nic: &mut Handle, outcome: &mut Outcome) -> u8
    ensures status { result ≡ status_of (reply_to nic.old.card.device Event.RxStep) }
    ensures outcome { outcome.new ≡ outcome_of (reply_to nic.old.card.device Event.RxStep) }
    ensures card { nic.new.card ≡ made nic.old.card Event.RxStep }
{
    tell(nic.get_mut(), Event::RxStep, outcome)
}

/// Runs a transmit step: fetches one descriptor of a queue, 0 to 127. Returns ADVANCED, SENT, FAULT, IDLE or NO_QUEUE;
/// `outcome` contains the details. Or returns OUT_OF_MEMORY, which changes nothing; only a step that needs memory can
/// return OUT_OF_MEMORY.
#[unsafe(no_mangle)]
pub extern "C" fn nic_tx_step(nic: &mut Handle, queue: u16, outcome: &mut Outcome) -> u8
    ensures status { result ≢ OUT_OF_MEMORY → result ≡ status_of (reply_to nic.old.card.device (Event.TxStep queue)) }
    ensures outcome { result ≢ OUT_OF_MEMORY
        → outcome.new ≡ outcome_of (reply_to nic.old.card.device (Event.TxStep queue)) }
    ensures card { result ≢ OUT_OF_MEMORY → nic.new.card ≡ made nic.old.card (Event.TxStep queue) }
    ensures unchanged { result ≡ OUT_OF_MEMORY → (nic.new.card ≡ nic.old.card) × (outcome.new ≡ outcome.old) }
    ensures memory { result ≡ OUT_OF_MEMORY → TakesMemory nic.old.card.device (Event.TxStep queue) }
{
    tell(nic.get_mut(), Event::TxStep(queue), outcome)
}

/// Runs an enable step: enables or disables one side of a queue, as its enable bit requests. The side is the
/// transmit side if `transmit` is true, otherwise the receive side. Returns DONE, IDLE or NO_QUEUE; `outcome` contains
/// the details.
#[unsafe(no_mangle)]
pub extern "C" fn nic_queue_step(
    nic: &mut Handle,
    transmit: bool,
    queue: u16,
    outcome: &mut Outcome,
) -> u8
    ensures status { result ≡ status_of (reply_to nic.old.card.device (Event.QueueStep (dir_of transmit) queue)) }
    ensures outcome { outcome.new
        ≡ outcome_of (reply_to nic.old.card.device (Event.QueueStep (dir_of transmit) queue)) }
    ensures card { nic.new.card ≡ made nic.old.card (Event.QueueStep (dir_of transmit) queue) }
{
    let dir = if transmit { Dir::Tx } else { Dir::Rx };
    tell(nic.get_mut(), Event::QueueStep(dir, queue), outcome)
}

/// Runs an EEPROM step: the word that EERD requests becomes ready. Returns DONE or IDLE; `outcome` contains the
/// details.
#[unsafe(no_mangle)]
pub extern "C" fn nic_eeprom_step(nic: &mut Handle, outcome: &mut Outcome) -> u8
    ensures status { result ≡ status_of (reply_to nic.old.card.device Event.EepromStep) }
    ensures outcome { outcome.new ≡ outcome_of (reply_to nic.old.card.device Event.EepromStep) }
    ensures card { nic.new.card ≡ made nic.old.card Event.EepromStep }
{
    tell(nic.get_mut(), Event::EepromStep, outcome)
}

/// Runs an interrupt step: sends the next due message of an interrupt group, 0 for the physical function or v + 1 for
/// virtual function v. Returns MESSAGE, IDLE or NO_GROUP; `outcome` contains the details.
#[unsafe(no_mangle)]
pub extern "C" fn nic_int_step(nic: &mut Handle, group: u8, outcome: &mut Outcome) -> u8
    ensures status { result ≡ status_of (reply_to nic.old.card.device (Event.IntStep (group_of group))) }
    ensures outcome { outcome.new ≡ outcome_of (reply_to nic.old.card.device (Event.IntStep (group_of group))) }
    ensures card { nic.new.card ≡ made nic.old.card (Event.IntStep (group_of group)) }
{
    tell(nic.get_mut(), Event::IntStep(group_of(group)), outcome)
}
