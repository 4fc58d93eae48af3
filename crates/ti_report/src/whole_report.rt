//! Whether a whole report fits its script.

use crate::agents::agent_fits;
use crate::book::{Book, read_book};
use crate::walks::walk_fits;
use std::alloc::{AllocError, Global};
use ti_live::{AgentCall, Listed, LiveReport, Refusal, Reply, Script};
use ti_types::{Entry, EnvNo, Event, Limits};

/// What the histories of all threads give their agents, or `None` if one of them is not legal.
fn read_books<'a>(
    alloc: Global,
    limits: Limits,
    histories: &'a [Listed<Entry>],
) -> Result<Option<Vec<Book<'a>>>, AllocError>
    requires { length histories.now ≡ limits.threads }
    ensures some { IfOk result (λ r. IfSome r (λ books. AreBooks limits histories.now books.items)) }
    ensures legal { IfOk result (λ r. IfSome r (λ books. (t : ThreadNo) → t.0 < limits.threads → is_legal limits (history_at histories.now t) ≡ true)) }
    ensures none { IfOk result (λ r. IfNone r ((t : ThreadNo) × (t.0 < limits.threads) × (is_legal limits (history_at histories.now t) ≡ false))) }
{
    let mut books = Vec::new(alloc);
    for i in 0..histories.len() {
        match read_book(alloc, limits, histories[i].as_slice())? {
            Some(book) => books.push(book)?,
            None => return Ok(None),
        }
    }
    Ok(Some(books))
}

/// Whether each agent's calls fit.
fn agents_fit(
    alloc: Global,
    limits: Limits,
    books: &[Book<'_>],
    spent: bool,
    calls: &[Listed<AgentCall>],
    replies: &[Listed<Reply>],
) -> Result<bool, AllocError>
    requires calls { length calls.now ≡ limits.envs }
    requires replies { length replies.now ≡ limits.envs }
    ensures { IfOk result (λ yes. (histories : List (List Entry)) → AreBooks limits histories books.now → (yes ≡ true) ↔ ((e : EnvNo) → e.0 < limits.envs → AgentFits limits histories e spent (slice_index_or calls.now e.0 []) (slice_index_or replies.now e.0 []))) }
{
    for i in 0..limits.envs {
        let index = i as usize;
        let list = calls[index].as_slice();
        let told = replies[index].as_slice();
        if !agent_fits(alloc, limits, books, EnvNo(i), spent, list, told)? {
            return Ok(false);
        }
    }
    Ok(true)
}

/// Whether each thread's walk fits.
fn walks_fit(
    alloc: Global,
    limits: Limits,
    spent: bool,
    walks: &[Listed<Event>],
    refused: &[Listed<Refusal>],
    histories: &[Listed<Entry>],
) -> Result<bool, AllocError>
    requires walks { length walks.now ≡ limits.threads }
    requires refused { length refused.now ≡ limits.threads }
    requires histories { length histories.now ≡ limits.threads }
    ensures { IfOk result (λ yes. (yes ≡ true) ↔ ((t : ThreadNo) → t.0 < limits.threads → WalkFits limits spent (slice_index_or walks.now t.0 []) (slice_index_or refused.now t.0 []) (history_at histories.now t))) }
{
    for i in 0..limits.threads {
        let index = i as usize;
        let walk = walks[index].as_slice();
        let list = refused[index].as_slice();
        if !walk_fits(
            alloc,
            limits,
            spent,
            walk,
            list,
            histories[index].as_slice(),
        )? {
            return Ok(false);
        }
    }
    Ok(true)
}

/// Whether there are as many lists as the limits say.
fn has_shape(script: &Script, report: &LiveReport) -> bool
    ensures { (result ≡ true) ↔ HasShape script.now report.now }
{
    let threads = script.limits.threads as usize;
    let agents = script.limits.envs as usize;
    script.calls.as_slice().len() == agents
        && script.walks.as_slice().len() == threads
        && report.replies.as_slice().len() == agents
        && report.histories.as_slice().len() == threads
        && report.refused.as_slice().len() == threads
}

/// Whether a live report fits its script (this profile, `specs/Fits`). It does if all of this is so:
///
/// - There are as many lists as the limits say, and every history is legal.
/// - Each agent's calls, with their replies, use up in order the entries that the agent left in the histories. Each call has
///   the reply of its own entry.
/// - Each thread's starts, steps, and hand-overs to native code or blocked are its walk's operations, without the refused
///   ones.
///
/// If `spent` is true, an agent's last calls may have no reply, and a walk's last operations no entry. Neither argument need
/// come from a run. The only error is lack of memory for the test.
pub fn fits(alloc: Global, script: &Script, report: &LiveReport) -> Result<bool, AllocError>
    ensures { IfOk result (λ yes. (yes ≡ true) ↔ Fits script.now report.now) }
{
    if !has_shape(script, report) {
        return Ok(false);
    }
    let limits = script.limits;
    let histories = report.histories.as_slice();
    let Some(books) = read_books(alloc, limits, histories)? else {
        return Ok(false);
    };
    let calls = script.calls.as_slice();
    if !agents_fit(
        alloc,
        limits,
        &books,
        report.spent,
        calls,
        report.replies.as_slice(),
    )? {
        return Ok(false);
    }
    let walks = script.walks.as_slice();
    let refused = report.refused.as_slice();
    let fits = walks_fit(alloc, limits, report.spent, walks, refused, histories)?;
    Ok(fits)
}

ghost use Rattle.std.specs.Prelude.{◌≡◌, ◌↔◌, ◌<◌, [], true, false, length, List, IfOk, IfSome, IfNone, slice_index_or};
ghost use Rattle.ti_types.specs.declared.numbers.EnvNo.{EnvNo};
ghost use Rattle.ti_types.specs.declared.numbers.ThreadNo.{ThreadNo};
ghost use Rattle.ti_types.specs.declared.entry.Entry.{Entry};
ghost use Rattle.ti_replay.specs.Legal.{is_legal};
ghost use Rattle.ti_report.specs.Told.{history_at};
ghost use Rattle.ti_report.specs.Books.{AreBooks};
ghost use Rattle.ti_report.specs.Walks.{WalkFits};
ghost use Rattle.ti_report.specs.Fits.{Fits, HasShape, AgentFits};
