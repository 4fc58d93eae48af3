//! Whether a trace of several threads fits its stacks.

use crate::account::Account;
use crate::book::Book;
use crate::same::same_frames;
use ti_types::{Answer, Event, Frame, Limits, StackInfo, ThreadNo, TiError};

/// Whether a stack has this thread, state and frames.
fn same_info(info: &StackInfo, thread: ThreadNo, state: u32, frames: &[Frame]) -> bool
    ensures { (result ≡ true) ↔ (said_info info.now ≡ record { thread = thread; state = state; frames = bare_trace frames.now }) }
{
    info.thread == thread && info.state == state && same_frames(info.frames.frames(), frames)
}

/// The place after a stack. The stack at the place `next` has to be this one, unless only threads that are alive count and
/// this one is not. `None` if it is another.
fn behind_stack(
    thread: ThreadNo,
    state: u32,
    frames: &[Frame],
    live: bool,
    infos: &[StackInfo],
    next: usize,
) -> Option<usize>
    ensures some { IfSome result (λ n. (rest : List (Option StackInfo)) → (said_infos (drop next infos.now) ≡ kept live (Some (record { thread = thread; state = state; frames = bare_trace frames.now }) ∷ rest)) ↔ (said_infos (drop n infos.now) ≡ kept live rest)) }
    ensures none { IfNone result ((rest : List (Option StackInfo)) → said_infos (drop next infos.now) ≡ kept live (Some (record { thread = thread; state = state; frames = bare_trace frames.now }) ∷ rest) → ⊥) }
{
    if live && state & 1 != 1 {
        return Some(next);
    }
    if next >= infos.len() {
        return None;
    }
    if !same_info(&infos[next], thread, state, frames) {
        return None;
    }
    Some(next + 1)
}

/// The place after the stack that an event gives. A stop or a go gives none, and has to be done. `None` if the stack at the
/// place `next` is another. `why` says why the event does not reach its thread.
fn next_stack(
    account: &Account,
    limits: Limits,
    books: &[Book<'_>],
    why: Option<TiError>,
    event: Event,
    live: bool,
    infos: &[StackInfo],
    next: usize,
) -> Option<usize>
    ensures some { IfSome result (λ n. (rest : List (Option StackInfo)) → (said_infos (drop next infos.now) ≡ kept live (stack_told event (told_with limits (λ t. page_in (slice_get books.now t) account.now.env) account.now why event) ++ rest)) ↔ (said_infos (drop n infos.now) ≡ kept live rest)) }
    ensures none { IfNone result ((rest : List (Option StackInfo)) → said_infos (drop next infos.now) ≡ kept live (stack_told event (told_with limits (λ t. page_in (slice_get books.now t) account.now.env) account.now why event) ++ rest) → ⊥) }
    ensures room { IfSome result (λ n. CanCount account.now why event) }
{
    let Event::Read(_, thread, _) = event else {
        if !account.says(limits, books, why, event, &Answer::Done) {
            return None;
        }
        return Some(next);
    };
    match account.stack(limits, books, why, event) {
        Some((state, frames)) => behind_stack(thread, state, frames, live, infos, next),
        None => None,
    }
}

/// Whether these are the stacks that these events give, one after another. If `live`, only the threads that are alive count.
pub fn stacks_fit(
    account: &mut Account,
    limits: Limits,
    books: &[Book<'_>],
    wanting: bool,
    events: &[Event],
    live: bool,
    infos: &[StackInfo],
) -> bool
    ensures fits { (result ≡ true) ↔ (said_infos infos.now ≡ kept live (stacks_now limits (λ t. page_in (slice_get books.now t) account.old.env) account.old wanting events.now)) }
    ensures account { result ≡ true → account.new ≡ accounted_all limits account.old wanting events.now }
{
    let mut next = 0;
    for i in 0..events.len() {
        let why = account.why(limits, wanting, events[i]);
        let Some(place) = next_stack(account, limits, books, why, events[i], live, infos, next)
        else {
            return false;
        };
        next = place;
        account.account(why, events[i]);
    }
    next >= infos.len()
}

ghost use Rattle.std.specs.Prelude.{◌≡◌, ◌↔◌, ◌++◌, true, ◌∷◌, Some, drop, slice_get, IfSome, IfNone, List, Option};
ghost use Rattle.ti_types.specs.declared.stack.StackInfo.{StackInfo};
ghost use Rattle.ti_report.specs.Books.{page_in};
ghost use Rattle.ti_report.specs.Fits.{stack_told, said_info};
ghost use Rattle.ti_report.specs.Accounts.{CanCount, told_with, stacks_now, accounted_all, kept, said_infos};
ghost use Rattle.ti_types.specs.Frames.{bare_trace};
