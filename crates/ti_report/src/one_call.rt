//! Whether one call fits its reply.

use crate::account::Account;
use crate::book::Book;
use crate::events::events_of;
use crate::list_codes::codes_fit;
use crate::stacks::stacks_fit;
use crate::whole::why_whole;
use std::alloc::{AllocError, Global};
use ti_live::{AgentCall, Reply};
use ti_types::{Answer, Call, EnvNo, Event, Limits, TiError};

/// Whether the reply says that memory ran out.
fn wants(reply: &Reply) -> bool
    ensures { result ≡ wants reply.now }
{
    matches!(reply, Reply::Plain(Answer::Refused(TiError::OutOfMemory)))
}

/// Whether the reply is the refusal with this error.
fn is_refusal(reply: &Reply, error: TiError) -> bool
    ensures { (result ≡ true) ↔ (reply.now ≡ Plain (Refused error)) }
{
    match reply {
        Reply::Plain(Answer::Refused(other)) => *other == error,
        _ => false,
    }
}

/// Whether this is the answer to the one event.
fn one_fits(
    account: &mut Account,
    limits: Limits,
    books: &[Book<'_>],
    wanting: bool,
    events: &[Event],
    answer: &Answer,
) -> bool
    ensures fits { (result ≡ true) ↔ (told_one limits (λ t. page_in (slice_get books.now t) account.old.env) account.old wanting events.now ≡ Some (said answer.now)) }
    ensures account { result ≡ true → account.new ≡ accounted_all limits account.old wanting events.now }
{
    match events {
        [event] => {
            let why = account.why(limits, wanting, *event);
            if !account.says(limits, books, why, *event, answer) {
                return false;
            }
            account.account(why, *event);
            true
        }
        _ => false,
    }
}

/// The events that a call makes. A list of suspensions or resumptions gives none here, since its threads are enough.
fn events_to_check(
    alloc: Global,
    limits: Limits,
    env: EnvNo,
    call: &AgentCall,
) -> Result<Vec<Event>, AllocError>
    ensures { IfOk result (λ v. (sort_of call.now ≡ coded → ⊥) → v.items ≡ events_of limits env call.now) }
{
    match call {
        AgentCall::SuspendList(_) | AgentCall::ResumeList(_) => Ok(Vec::new(alloc)),
        _ => events_of(alloc, limits, env, call),
    }
}

/// Whether this is the reply to a call. `events` are the call's events, unless it is a list of suspensions or resumptions.
fn reply_fits(
    account: &mut Account,
    limits: Limits,
    books: &[Book<'_>],
    wanting: bool,
    call: &AgentCall,
    events: &[Event],
    reply: &Reply,
) -> bool
    requires { (sort_of call.now ≡ coded → ⊥) → events.now ≡ events_of limits account.old.env call.now }
    ensures fits { (result ≡ true) ↔ IsReplyNow limits (λ t. page_in (slice_get books.now t) account.old.env) account.old wanting (sort_of call.now) (events_of limits account.old.env call.now) reply.now }
    ensures account { result ≡ true → account.new ≡ accounted_all limits account.old wanting (events_of limits account.old.env call.now) }
{
    match (call, reply) {
        (AgentCall::SuspendList(threads), Reply::Codes(codes)) => {
            codes_fit(
                account,
                limits,
                books,
                wanting,
                threads.as_slice(),
                Call::Suspend,
                codes.as_slice(),
            )
        }
        (AgentCall::ResumeList(threads), Reply::Codes(codes)) => {
            codes_fit(
                account,
                limits,
                books,
                wanting,
                threads.as_slice(),
                Call::Resume,
                codes.as_slice(),
            )
        }
        (AgentCall::AllStacks(_), Reply::Stacks(infos)) => {
            stacks_fit(
                account,
                limits,
                books,
                wanting,
                events,
                true,
                infos.as_slice(),
            )
        }
        (AgentCall::ListStacks(_, _), Reply::Stacks(infos)) => {
            stacks_fit(
                account,
                limits,
                books,
                wanting,
                events,
                false,
                infos.as_slice(),
            )
        }
        (
            AgentCall::SuspendList(_)
            | AgentCall::ResumeList(_)
            | AgentCall::AllStacks(_)
            | AgentCall::ListStacks(_, _),
            _,
        ) => false,
        (_, Reply::Plain(answer)) => one_fits(account, limits, books, wanting, events, answer),
        _ => false,
    }
}

/// Whether this is the reply to a call. The error is lack of memory.
pub fn call_fits(
    alloc: Global,
    account: &mut Account,
    limits: Limits,
    books: &[Book<'_>],
    call: &AgentCall,
    reply: &Reply,
) -> Result<bool, AllocError>
    ensures fits { IfOk result (λ yes. (yes ≡ true) ↔ CallNow limits (λ t. page_in (slice_get books.now t) account.old.env) account.old call.now reply.now) }
    ensures account { IfOk result (λ yes. yes ≡ true → account.new ≡ called_now limits account.old call.now reply.now) }
{
    let wanting = wants(reply);
    if let Some(error) = why_whole(alloc, account, limits, wanting, call)? {
        return Ok(is_refusal(reply, error));
    }
    let env = account.env();
    let events = events_to_check(alloc, limits, env, call)?;
    let fits = reply_fits(account, limits, books, wanting, call, &events, reply);
    Ok(fits)
}

ghost use Rattle.std.specs.Prelude.{◌≡◌, ◌↔◌, true, Some, slice_get, IfOk};
ghost use Rattle.ti_types.specs.Answer.{said};
ghost use Rattle.ti_types.specs.declared.answer.Answer.TheVariants.{Refused};
ghost use Rattle.ti_live.specs.declared.reply.Reply.TheVariants.{Plain};
ghost use Rattle.ti_report.specs.Doings.{wants, events_of};
ghost use Rattle.ti_report.specs.Fits.{coded, sort_of};
ghost use Rattle.ti_report.specs.Books.{page_in};
ghost use Rattle.ti_report.specs.Accounts.{told_one, accounted_all, IsReplyNow, CallNow, called_now};
