//! Whether one agent's calls fit their replies.

use crate::account::Account;
use crate::book::Book;
use crate::one_call::call_fits;
use std::alloc::{AllocError, Global};
use ti_live::{AgentCall, Reply};
use ti_types::{EnvNo, Limits, ThreadNo};

/// Whether these are the replies to the first of these calls, one after another.
fn calls_fit(
    alloc: Global,
    account: &mut Account,
    limits: Limits,
    books: &[Book<'_>],
    calls: &[AgentCall],
    replies: &[Reply],
) -> Result<bool, AllocError>
    ensures fits { IfOk result (λ yes. (yes ≡ true) ↔ CallsNow limits (λ t. page_in (slice_get books.now t) account.old.env) account.old calls.now replies.now) }
    ensures account { IfOk result (λ yes. yes ≡ true → account.new ≡ all_called limits account.old calls.now replies.now) }
{
    if replies.len() > calls.len() {
        return Ok(false);
    }
    for i in 0..replies.len() {
        if !call_fits(alloc, account, limits, books, &calls[i], &replies[i])? {
            return Ok(false);
        }
    }
    Ok(true)
}

/// Whether the agent has used all entries that it left.
fn used_up(account: &Account, limits: Limits, books: &[Book<'_>]) -> bool
    ensures { (result ≡ true) ↔ UsedUp limits (λ t. page_in (slice_get books.now t) account.now.env) account.now }
{
    for n in 0..limits.threads {
        if !account.is_used_up(books, ThreadNo(n)) {
            return false;
        }
    }
    true
}

/// Whether an agent's calls, with their replies, use up the entries that it left. If `spent` is false, each call needs a
/// reply. The error is lack of memory.
pub fn agent_fits(
    alloc: Global,
    limits: Limits,
    books: &[Book<'_>],
    env: EnvNo,
    spent: bool,
    calls: &[AgentCall],
    replies: &[Reply],
) -> Result<bool, AllocError>
    requires { env.0 < limits.envs }
    ensures { IfOk result (λ yes. (histories : List (List Entry)) → AreBooks limits histories books.now → (yes ≡ true) ↔ AgentFits limits histories env spent calls.now replies.now) }
{
    if !spent && replies.len() != calls.len() {
        return Ok(false);
    }
    let mut account = Account::new(alloc, limits, env)?;
    if !calls_fit(alloc, &mut account, limits, books, calls, replies)? {
        return Ok(false);
    }
    let used = used_up(&account, limits, books);
    Ok(used)
}

ghost use Rattle.std.specs.Prelude.{◌≡◌, ◌↔◌, ◌<◌, true, List, slice_get, IfOk};
ghost use Rattle.ti_types.specs.declared.entry.Entry.{Entry};
ghost use Rattle.ti_report.specs.Books.{page_in, AreBooks};
ghost use Rattle.ti_report.specs.Fits.{AgentFits};
ghost use Rattle.ti_report.specs.Accounts.{CallsNow, all_called, UsedUp};
