//! One event at the threads and environments of a core.

use crate::thread::OneThread;
use std::alloc::Global;
use ti_env::EnvState;
use ti_types::{
    Answer, Call, Caps, Entry, EnvNo, Event, Limits, Outcome, Safe, ThreadNo, TiError, TraceBuf,
};

/// Where an environment is in its list. `None` if there is no such environment.
fn index_of_env(envs: &[EnvState], e: EnvNo) -> Option<usize>
    ensures there { IfSome result (λ at. (at ≡ e.0) × (e.0 < length envs.now)) }
    ensures none { IfNone result (length envs.now ≤ e.0) }
{
    let at = e.0 as usize;
    if at < envs.len() { Some(at) } else { None }
}

/// Where a thread is in its list. `None` if there is no such thread.
pub(crate) fn index_of_thread(threads: &[OneThread], t: ThreadNo) -> Option<usize>
    ensures there { IfSome result (λ at. (at ≡ t.0) × (t.0 < length threads.now)) }
    ensures none { IfNone result (length threads.now ≤ t.0) }
{
    let at = t.0 as usize;
    if at < threads.len() { Some(at) } else { None }
}

fn refused(error: TiError) -> Outcome
    ensures { result ≡ Outcome.Gave (Answer.Refused error) }
{
    Outcome::Gave(Answer::Refused(error))
}

/// The outcome of an event of a thread's own.
fn outcome_of(own: Result<(), TiError>) -> Outcome
    ensures { told_now result ≡ made_told own }
{
    match own {
        Ok(()) => Outcome::Done,
        Err(error) => Outcome::Refused(error),
    }
}

/// Binds the environment of this number. If there is none, the function that asks ends with the refusal of the event.
macro_rules! env_at {
    ($env:ident = $envs:ident, $e:ident) => {
        let Some(at) = index_of_env($envs, $e) else {
            return refused(TiError::InvalidEnvironment);
        };
        let $env = &mut $envs[at];
    };
}

/// An event of a thread's own that is no poll.
fn make(limits: &Limits, threads: &mut [OneThread], t: ThreadNo, entry: Entry) -> Outcome
    requires own { is_made entry ≡ true }
    ensures threads { threads.new ≡ (stepped_own limits.now [] threads.old t entry).threads }
    ensures told { told_now result ≡ (stepped_own limits.now [] threads.old t entry).told }
{
    match index_of_thread(threads, t) {
        Some(at) => outcome_of(threads[at].make(entry)),
        None => Outcome::Refused(TiError::InvalidThread),
    }
}

fn poll(limits: &Limits, threads: &mut [OneThread], t: ThreadNo) -> Outcome
    ensures threads { threads.new ≡ (stepped_poll limits.now [] threads.old t).threads }
    ensures told { told_now result ≡ (stepped_poll limits.now [] threads.old t).told }
{
    match index_of_thread(threads, t) {
        Some(at) => threads[at].poll(),
        None => Outcome::Refused(TiError::InvalidThread),
    }
}

/// The buffer for a call's answer. The error is 110 if there is no memory for it.
fn buffer(alloc: Global, limits: &Limits, call: Call) -> Result<TraceBuf, TiError>
    requires well_formed { is_well_formed call ≡ true }
    ensures made { IfOk result (λ b. IsBufferOf limits.now call b) }
    ensures memory { IfErr result (λ e. e ≡ TiError.OutOfMemory) }
    ensures taken { IfErr result (λ e. takes_buffer call ≡ true) }
{
    match call {
        Call::Trace { max_count, .. } => TraceBuf::make(alloc, max_count, limits.depth),
        _ => Ok(TraceBuf::none()),
    }
}

/// A call of an environment at a thread.
fn ask(
    alloc: Global,
    limits: &Limits,
    envs: &mut [EnvState],
    threads: &mut [OneThread],
    e: EnvNo,
    t: ThreadNo,
    call: Call,
) -> Outcome
    requires reached { IsReached (core_of limits.now envs.old threads.old) }
    ensures envs { envs.new ≡ (stepped_ask limits.now envs.old threads.old (was_for_memory (told_now result)) e t call).envs }
    ensures threads { threads.new ≡ (stepped_ask limits.now envs.old threads.old (was_for_memory (told_now result)) e t call).threads }
    ensures told { told_now result ≡ (stepped_ask limits.now envs.old threads.old (was_for_memory (told_now result)) e t call).told }
    ensures ticket { IfPosted result (λ k. IsTicketOf limits.now envs.old threads.old (Event.Ask e t call) k) }
{
    env_at!(env = envs, e);
    if let Err(error) = env.admit(t, call) {
        return refused(error);
    }
    let index = t.0 as usize;
    match buffer(alloc, limits, call) {
        Ok(buf) => {
            env.spend(t);
            let thread = &mut threads[index];
            thread.ask(e, call, buf)
        }
        Err(error) => refused(error),
    }
}

/// A stop of an environment at a thread.
fn stop(
    limits: &Limits,
    envs: &mut [EnvState],
    threads: &mut [OneThread],
    e: EnvNo,
    t: ThreadNo,
) -> Outcome
    requires reached { IsReached (core_of limits.now envs.old threads.old) }
    ensures envs { envs.new ≡ (stepped_stop limits.now envs.old threads.old e t).envs }
    ensures threads { threads.new ≡ (stepped_stop limits.now envs.old threads.old e t).threads }
    ensures told { told_now result ≡ (stepped_stop limits.now envs.old threads.old e t).told }
{
    env_at!(env = envs, e);
    if let Err(error) = env.admit_stop(t) {
        return refused(error);
    }
    let index = t.0 as usize;
    env.spend(t);
    let thread = &mut threads[index];
    thread.stop(e)
}

/// A read of a stopped thread by an environment.
fn read(
    alloc: Global,
    limits: &Limits,
    envs: &mut [EnvState],
    threads: &mut [OneThread],
    e: EnvNo,
    t: ThreadNo,
    max_count: i32,
) -> Outcome
    requires reached { IsReached (core_of limits.now envs.old threads.old) }
    ensures envs { envs.new ≡ (stepped_read limits.now envs.old threads.old (was_for_memory (told_now result)) e t max_count).envs }
    ensures threads { threads.new ≡ (stepped_read limits.now envs.old threads.old (was_for_memory (told_now result)) e t max_count).threads }
    ensures told { told_now result ≡ (stepped_read limits.now envs.old threads.old (was_for_memory (told_now result)) e t max_count).told }
    ensures gave { is_some (told_now result) ≡ true }
{
    env_at!(env = envs, e);
    if let Err(error) = env.admit_read(t, max_count) {
        return refused(error);
    }
    let index = t.0 as usize;
    match TraceBuf::make(alloc, max_count, limits.depth) {
        Ok(buf) => {
            env.spend(t);
            let thread = &mut threads[index];
            thread.read(e, max_count, buf)
        }
        Err(error) => refused(error),
    }
}

/// An environment lets a thread go.
fn go(
    limits: &Limits,
    envs: &[EnvState],
    threads: &mut [OneThread],
    e: EnvNo,
    t: ThreadNo,
) -> Outcome
    requires reached { IsReached (core_of limits.now envs.now threads.old) }
    ensures threads { threads.new ≡ (stepped_go limits.now envs.now threads.old e t).threads }
    ensures told { told_now result ≡ (stepped_go limits.now envs.now threads.old e t).told }
{
    if index_of_env(envs, e).is_none() {
        return refused(TiError::InvalidEnvironment);
    }
    let Some(at) = index_of_thread(threads, t) else {
        return refused(TiError::InvalidThread);
    };
    let thread = &mut threads[at];
    thread.go(e)
}

fn add(envs: &mut [EnvState], e: EnvNo, caps: Caps) -> Outcome
    ensures envs { envs.new ≡ (stepped_add envs.old [] e caps).envs }
    ensures told { told_now result ≡ (stepped_add envs.old [] e caps).told }
{
    env_at!(env = envs, e);
    match env.add(caps) {
        Ok(()) => Outcome::Gave(Answer::Done),
        Err(error) => refused(error),
    }
}

fn relinquish(envs: &mut [EnvState], e: EnvNo, caps: Caps) -> Outcome
    ensures envs { envs.new ≡ (stepped_relinquish envs.old [] e caps).envs }
    ensures told { told_now result ≡ (stepped_relinquish envs.old [] e caps).told }
{
    env_at!(env = envs, e);
    env.relinquish(caps);
    Outcome::Gave(Answer::Done)
}

fn set_word(envs: &mut [EnvState], e: EnvNo, word: u64) -> Outcome
    ensures envs { envs.new ≡ (with_env envs.old [] e (with_word (env_at envs.old e) word) (Some (Outcome.Gave Answer.Done))).envs }
    ensures told { told_now result ≡ (with_env envs.old [] e (with_word (env_at envs.old e) word) (Some (Outcome.Gave Answer.Done))).told }
{
    env_at!(env = envs, e);
    env.set_word(word);
    Outcome::Gave(Answer::Done)
}

fn word(envs: &[EnvState], e: EnvNo) -> Outcome
    ensures { told_now result ≡ (stepped_tell envs.now [] e (Answer.Word (env_at envs.now e).word)).told }
{
    match index_of_env(envs, e) {
        Some(at) => Outcome::Gave(Answer::Word(envs[at].word())),
        None => refused(TiError::InvalidEnvironment),
    }
}

fn caps(envs: &[EnvState], e: EnvNo) -> Outcome
    ensures { told_now result ≡ (stepped_tell envs.now [] e (Answer.Caps (env_at envs.now e).caps)).told }
{
    match index_of_env(envs, e) {
        Some(at) => Outcome::Gave(Answer::Caps(envs[at].caps())),
        None => refused(TiError::InvalidEnvironment),
    }
}

/// Lets one event happen.
pub fn step(
    alloc: Global,
    limits: &Limits,
    envs: &mut [EnvState],
    threads: &mut [OneThread],
    event: Event,
) -> Outcome
    requires reached { IsReached (core_of limits.now envs.old threads.old) }
    ensures envs { envs.new ≡ (stepped_by limits.now envs.old threads.old (was_for_memory (told_now result)) event).envs }
    ensures threads { threads.new ≡ (stepped_by limits.now envs.old threads.old (was_for_memory (told_now result)) event).threads }
    ensures told { told_now result ≡ (stepped_by limits.now envs.old threads.old (was_for_memory (told_now result)) event).told }
    ensures ticket { IfPosted result (λ k. IsTicketOf limits.now envs.old threads.old event k) }
{
    match event {
        Event::Start(t) => make(limits, threads, t, Entry::Start),
        Event::Own(t, step) => make(limits, threads, t, Entry::Own(step)),
        Event::Poll(t) => poll(limits, threads, t),
        Event::ToNative(t) => make(limits, threads, t, Entry::Hand(Safe::Native)),
        Event::ToBlocked(t, kind) => make(limits, threads, t, Entry::Hand(Safe::Blocked(kind))),
        Event::Back(t) => make(limits, threads, t, Entry::Back),
        Event::End(t) => make(limits, threads, t, Entry::End),
        Event::Ask(e, t, call) => ask(alloc, limits, envs, threads, e, t, call),
        Event::Stop(e, t) => stop(limits, envs, threads, e, t),
        Event::Read(e, t, max_count) => read(alloc, limits, envs, threads, e, t, max_count),
        Event::Go(e, t) => go(limits, envs, threads, e, t),
        Event::AddCaps(e, c) => add(envs, e, c),
        Event::Relinquish(e, c) => relinquish(envs, e, c),
        Event::GetCaps(e) => caps(envs, e),
        Event::SetEnvWord(e, w) => set_word(envs, e, w),
        Event::GetEnvWord(e) => word(envs, e),
    }
}

ghost use Rattle.std.specs.Prelude.{◌≡◌, ◌<◌, ◌≤◌, length, IfOk, IfErr, IfSome, IfNone, true, [], Some, is_some};
ghost use Rattle.ti_replay.specs.Admission.{takes_buffer};
ghost use Rattle.ti_replay.specs.Answers.{or_zero as or_zero_of};
ghost use Rattle.ti_replay.specs.Legal.{is_well_formed, is_not_negative};
ghost use Rattle.ti_replay.specs.Outcomes.{told_now, was_for_memory};
ghost use Rattle.ti_slot.specs.Waiting.{IsBufferOf, HasRoomFor};
ghost use Rattle.ti_core.specs.Thread.{is_made, made_told};
ghost use Rattle.ti_core.specs.Refines.{IsReached};
ghost use Rattle.ti_slot.specs.Thread.{ticket_of};
ghost use Rattle.ti_env.specs.Env.{with_word};
ghost use Rattle.ti_core.specs.Threads.{IfPosted};
ghost use Rattle.ti_core.specs.Core.{IsTicketOf, CoreState, core_of, thread_at, stepped_own, stepped_poll, stepped_ask, stepped_stop, stepped_read, stepped_go, stepped_add, stepped_relinquish, stepped_tell, stepped_by, with_env, env_at};
