//! Whether a thread's own entries fit the operations of its walk.

use crate::refusals::{error_of, is_so, mode_behind, own_behind, refusals_behind};
use std::alloc::{AllocError, Global};
use ti_live::Refusal;
use ti_replay::rules::is_running;
use ti_types::{Entry, Event, Limits, Mode, Safe};

/// Whether only its own operation leaves this entry: a start, a step, a hand-over to native or blocked, an end.
fn is_walked(entry: Entry) -> bool
    ensures { result ≡ is_walked entry }
{
    matches!(
        entry,
        Entry::Start
            | Entry::Own(_)
            | Entry::Hand(Safe::Native)
            | Entry::Hand(Safe::Blocked(_))
            | Entry::End
    )
}

/// The entry that an operation leaves by itself.
fn own_entry(event: Event) -> Option<Entry>
    ensures { result ≡ own_entry event }
{
    match event {
        Event::Start(_) => Some(Entry::Start),
        Event::Own(_, step) => Some(Entry::Own(step)),
        Event::ToNative(_) => Some(Entry::Hand(Safe::Native)),
        Event::ToBlocked(_, kind) => Some(Entry::Hand(Safe::Blocked(kind))),
        Event::Back(_) => Some(Entry::Back),
        Event::End(_) => Some(Entry::End),
        _ => None,
    }
}

/// An entry, if only its operation leaves it.
fn one_walked(entry: Option<Entry>) -> Option<Entry>
    ensures { listed result ≡ one_walked entry }
{
    match entry {
        Some(entry) if is_walked(entry) => Some(entry),
        _ => None,
    }
}

/// The entry that only this operation leaves. `None` if it leaves none, or if it was refused.
fn left_by(error: Option<u32>, event: Event) -> Option<Entry>
    ensures { listed result ≡ left_by error event }
{
    match error {
        Some(_) => None,
        None => one_walked(own_entry(event)),
    }
}

/// The entries of a history that only a walk's operations leave.
fn walked(alloc: Global, history: &[Entry]) -> Result<Vec<Entry>, AllocError>
    ensures { IfOk result (λ w. w.items ≡ walked_in history.now) }
{
    let mut walked = Vec::new(alloc);
    for entry in history {
        if is_walked(*entry) {
            walked.push(*entry)?;
        }
    }
    Ok(walked)
}

fn same_entry(one: Entry, other: Entry) -> bool
    ensures { (result ≡ true) ↔ (one ≡ other) }
{
    one == other
}

/// The entries after the one that an operation left, if that one comes first. If it left none, all entries.
fn entries_behind(entries: &[Entry], left: Option<Entry>) -> Option<&[Entry]>
    ensures { MatchOption result ((rest : List Entry) → entries.now ≡ listed left ++ rest → ⊥) (λ rest. entries.now ≡ listed left ++ rest.now) }
{
    let Some(entry) = left else {
        return Some(entries);
    };
    let Some((first, rest)) = entries.split_first() else {
        return None;
    };
    if same_entry(*first, entry) {
        Some(rest)
    } else {
        None
    }
}

/// Whether just the end is left of a thread that runs, and nothing of any other thread.
fn is_last(mode: Mode, entries: &[Entry]) -> bool
    ensures { (result ≡ true) ↔ (entries.now ≡ last_of mode) }
{
    if !is_running(mode) {
        return entries.is_empty();
    }
    entries.len() == 1 && same_entry(entries[0], Entry::End)
}

/// Whether no refusal is left, and no entry but the end of a thread that runs.
fn is_done(mode: Mode, refused: &[Refusal], entries: &[Entry]) -> bool
    ensures { (result ≡ true) ↔ IsDone mode refused.now entries.now }
{
    refused.is_empty() && is_last(mode, entries)
}

/// Whether a new thread that goes through the operations has just these refusals, and leaves just these entries.
fn goes_through(
    limits: Limits,
    spent: bool,
    walk: &[Event],
    refused: &[Refusal],
    entries: &[Entry],
) -> bool
    ensures { (result ≡ true) ↔ GoneThrough limits spent mode.New 0 0 walk.now refused.now entries.now }
{
    let mut mode = Mode::New;
    let mut own = 0u64;
    let mut refused = refused;
    let mut entries = entries;
    for i in 0..walk.len() {
        if spent && is_done(mode, refused, entries) {
            return true;
        }
        let operation = walk[i];
        let error = error_of(refused, i);
        if !is_so(limits, mode, own, operation, error) {
            return false;
        }
        let Some(rest) = entries_behind(entries, left_by(error, operation)) else {
            return false;
        };
        entries = rest;
        refused = refusals_behind(refused, i);
        own = own_behind(limits, own, operation, error);
        mode = mode_behind(mode, operation, error);
    }
    is_done(mode, refused, entries)
}

/// Whether a thread's refusals and entries are those of its walk, or of a prefix of it if lists ended early.
///
/// An operation that does not fit the mode in which the walk left its thread is refused for that. Any other is refused only
/// with an error that its frames may cause, or for its budget if that cannot pay. It does not test which frames the thread
/// has, since pops change them. The error is lack of memory.
pub fn walk_fits(
    alloc: Global,
    limits: Limits,
    spent: bool,
    walk: &[Event],
    refused: &[Refusal],
    history: &[Entry],
) -> Result<bool, AllocError>
    ensures { IfOk result (λ yes. (yes ≡ true) ↔ WalkFits limits spent walk.now refused.now history.now) }
{
    let entries = walked(alloc, history)?;
    let fits = goes_through(limits, spent, walk, refused, &entries);
    Ok(fits)
}

ghost use Rattle.std.specs.Prelude.{◌≡◌, ◌↔◌, ◌++◌, List, true, IfOk, MatchOption};
ghost use Rattle.ti_types.specs.declared.entry.Entry.{Entry};
ghost use Rattle.ti_types.specs.declared.state.Mode.TheVariants as mode;
ghost use Rattle.ti_replay.specs.Events.{own_entry};
ghost use Rattle.ti_report.specs.Walks.{is_walked, one_walked, last_of, left_by, listed, walked_in, IsDone, GoneThrough, WalkFits};
