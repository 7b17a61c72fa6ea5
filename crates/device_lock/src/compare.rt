//! Compares the returned passes with the history.

ghost use Rattle.std.specs.Prelude.{◌≡◌, ◌≢◌, ◌<◌, ◌↔◌, ℕ, IsTrue, IfSome, IfNone, All, List, [], ◌∷◌, ◌++◌, slice_index};
ghost use Rattle.device_lock.specs.Calls.{made_calls, rested_calls};
ghost use Rattle.device_lock.specs.Closing.{tag_count, AllThere, AreAll, StandsIn, TagStands, IsMissing, IsMismatch};
ghost use Rattle.device_lock.specs.History.{calls_of};
ghost use Rattle.device_lock.specs.Kept.{entries_of};
ghost use Rattle.device_lock.specs.Pass.{IsOwn};
ghost use Rattle.device_lock.specs.Resting.{idle_calls, step_if};
ghost use Rattle.device_lock.specs.declared.entry.Call.{Call};

use crate::calls::{Calls, Made};
use crate::entry::{Call, Entry};
use crate::locked::Counts;
use crate::pass::Pass;
use crate::resting::{IdleSteps, idle_call};
use crate::shared::MAX_PASSES;
use nic_device::{Dir, Event, EventNote};

/// Returns the entries after the next one with this tag, or `None` if no such entry exists or it doesn't record this
/// call.
fn after_call<'a>(history: &'a [Entry], tag: u8, call: &Call) -> Option<&'a [Entry]>
    ensures some { IfSome result (λ rest. calls_of tag history.now ≡ call.now ∷ calls_of tag rest.now) }
    ensures none { IfNone result ((more : List Call) → calls_of tag history.now ≢ call.now ∷ more) }
{
    for at in 0..history.len() {
        if history[at].pass == tag {
            if call.is_in(&history[at]) {
                return Some(&history[at + 1..]);
            }
            return None;
        }
    }
    None
}

/// If the step ran, skips past the next entry with this tag, which must record this event as idle. If the step didn't
/// run, skips nothing. Returns the remaining entries, or `None` if the step ran but the next entry doesn't record it.
fn after_step<'a>(
    history: &'a [Entry],
    tag: u8,
    made: bool,
    event: EventNote,
) -> Option<&'a [Entry]>
    ensures some { IfSome result
        (λ rest. calls_of tag history.now ≡ idle_calls (step_if made event) ++ calls_of tag rest.now) }
    ensures none { IfNone result
        ((more : List Call) → calls_of tag history.now ≢ idle_calls (step_if made event) ++ more) }
{
    if made {
        after_call(history, tag, &idle_call(event))
    } else {
        Some(history)
    }
}

/// Skips past the next entries with this tag, which must record these idle device steps. Returns the remaining entries,
/// or `None` if the next ones don't record these steps.
fn after_rested<'a>(history: &'a [Entry], tag: u8, rested: IdleSteps) -> Option<&'a [Entry]>
    ensures some { IfSome result (λ rest. calls_of tag history.now ≡ rested_calls rested ++ calls_of tag rest.now) }
    ensures none { IfNone result ((more : List Call) → calls_of tag history.now ≢ rested_calls rested ++ more) }
{
    let queue = u16::from(rested.queue);
    let rest = after_step(
        history,
        tag,
        rested.receive_side,
        Event::QueueStep(Dir::Rx, queue),
    )?;
    let rest = after_step(
        rest,
        tag,
        rested.transmit_side,
        Event::QueueStep(Dir::Tx, queue),
    )?;
    let rest = after_step(rest, tag, rested.sending, Event::TxStep(queue))?;
    after_step(rest, tag, rested.receiving, Event::RxStep)
}

/// Skips past the next entries with this tag, which must record a call and the steps before the call. Returns the
/// remaining entries, or `None` if the next ones don't record them.
fn after_made<'a>(history: &'a [Entry], tag: u8, made: &Made) -> Option<&'a [Entry]>
    ensures some { IfSome result
        (λ rest. calls_of tag history.now ≡ made_calls (made.now ∷ []) ++ calls_of tag rest.now) }
    ensures none { IfNone result
        ((more : List Call) → calls_of tag history.now ≢ made_calls (made.now ∷ []) ++ more) }
{
    let rest = after_rested(history, tag, made.rested)?;
    after_call(rest, tag, &made.call)
}

/// Returns whether no entry has this tag.
fn is_silent(history: &[Entry], tag: u8) -> bool
    ensures { IsTrue result ↔ (calls_of tag history.now ≡ []) }
{
    for entry in history {
        if entry.pass == tag {
            return false;
        }
    }
    true
}

/// Returns whether the calls are exactly the entries with this tag, in order.
pub(crate) fn stands(history: &[Entry], tag: u8, calls: &Calls) -> bool
    ensures { IsTrue result ↔ (calls_of tag history.now ≡ calls.now) }
{
    let (made, rested) = calls.kept();
    let mut rest = history;
    for it in made {
        match after_made(rest, tag, it) {
            Some(more) => rest = more,
            None => return false,
        }
    }
    match after_rested(rest, tag, rested) {
        Some(more) => is_silent(more, tag),
        None => false,
    }
}

/// Returns whether each pass with this tag has the calls that the history records for the tag. If the history records
/// such calls, also requires that a pass with this tag exists.
fn tag_stands(history: &[Entry], count: u32, tag: u8, passes: &[Pass]) -> bool
    requires { count ≡ entries_of tag history.now }
    ensures { IsTrue result ↔ TagStands history.now tag passes.now }
{
    own_stand(history, tag, passes) && (count == 0 || !is_unused(tag, passes))
}

/// Returns whether no pass has this tag.
fn is_unused(tag: u8, passes: &[Pass]) -> bool
    ensures { IsTrue result ↔ All (λ p. p.tag ≢ tag) passes.now }
{
    passes.iter().all(|pass| pass.tag() != tag)
}

/// Returns whether each pass with this tag has the calls that the history records for the tag.
fn own_stand(history: &[Entry], tag: u8, passes: &[Pass]) -> bool
    ensures { IsTrue result ↔ All (λ p. p.tag ≡ tag → StandsIn history.now p) passes.now }
{
    passes.iter().all(|pass| stands_as(history, tag, pass))
}

/// Returns whether the pass has another tag, or has the calls that the history records for this tag.
fn stands_as(history: &[Entry], tag: u8, pass: &Pass) -> bool
    ensures { IsTrue result ↔ (pass.now.tag ≡ tag → StandsIn history.now pass.now) }
{
    pass.tag() != tag || stands(history, tag, pass.calls())
}

/// Returns how many of the bench's passes have this tag.
fn tag_count(bench: u64, tag: u8, passes: &[Pass]) -> usize
    ensures { result ≡ tag_count bench tag passes.now }
{
    passes
        .iter()
        .filter(|pass| pass.bench() == bench && pass.tag() == tag)
        .count()
}

/// Returns the lowest tag below `count` that no pass of the bench has, or `None` if no tag is missing.
pub(crate) fn lowest_missing(bench: u64, count: u8, passes: &[Pass]) -> Option<u8>
    ensures some { IfSome result (λ tag. IsMissing bench count passes.now tag) }
    ensures none { IfNone result (AllThere bench count passes.now) }
{
    for tag in 0..count {
        if tag_count(bench, tag, passes) == 0 {
            return Some(tag);
        }
    }
    None
}

/// Returns whether these are all of the bench's passes, exactly one for each tag.
pub(crate) fn are_all(bench: u64, count: u8, passes: &[Pass]) -> bool
    ensures { IsTrue result ↔ AreAll bench count passes.now }
{
    are_own(bench, count, passes) && is_each_once(bench, count, passes)
}

/// Returns whether each pass belongs to the bench and has a tag below `count`.
fn are_own(bench: u64, count: u8, passes: &[Pass]) -> bool
    ensures { IsTrue result ↔ All (IsOwn bench count) passes.now }
{
    passes
        .iter()
        .all(|pass| pass.bench() == bench && pass.tag() < count)
}

/// Returns whether exactly one pass of the bench has each tag below `count`.
fn is_each_once(bench: u64, count: u8, passes: &[Pass]) -> bool
    ensures { IsTrue result ↔ ((tag : ℕ) → tag < count → tag_count bench tag passes.now ≡ 1) }
{
    for tag in 0..count {
        if tag_count(bench, tag, passes) != 1 {
            return false;
        }
    }
    true
}

/// Returns the lowest tag for which the entries aren't the calls of its pass, or which has entries but no pass.
/// `counts` contains the number of entries with each tag.
pub(crate) fn lowest_mismatch(history: &[Entry], counts: &Counts, passes: &[Pass]) -> Option<u8>
    requires { (tag : ℕ) → tag < 64 → slice_index counts.now tag ≡ entries_of tag history.now }
    ensures some { IfSome result (λ tag. IsMismatch history.now passes.now tag) }
    ensures none { IfNone result ((tag : ℕ) → tag < 64 → TagStands history.now tag passes.now) }
{
    for tag in 0..MAX_PASSES {
        if !tag_stands(history, counts[usize::from(tag)], tag, passes) {
            return Some(tag);
        }
    }
    None
}
