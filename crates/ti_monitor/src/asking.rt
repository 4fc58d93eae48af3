//! What a thread is asked.

use crate::metrics::Histogram;
use crate::watched::{Out, Watched};
use std::alloc::Global;
use ti_service::Agent;
use ti_slot::Asked;
use ti_types::{Answer, Call, TiError, TraceBuf};

/// How many frames of a stack are read at most.
pub(crate) const DEPTH: usize = 512;

/// The trace that is asked for: the newest frames.
const TRACE: Call = Call::Trace {
    start: 0,
    max_count: 512,
};

/// What a thread told of its stack.
#[derive(Drop)]
pub(crate) enum Told {
    Stack(TraceBuf),
    /// It has not started, or has ended.
    NotAlive,
    /// It was refused for another reason.
    Unanswered,
    /// It has not answered yet, or could not be asked yet.
    NotYet,
}

/// What an answer to a trace tells.
fn told_by(answer: Answer) -> Told
    ensures { IsToldBy answer result }
{
    match answer {
        Answer::Trace(trace) => Told::Stack(trace),
        Answer::Refused(error) => refused_by(error),
        _ => Told::Unanswered,
    }
}

/// What a refusal of a trace tells.
fn refused_by(error: TiError) -> Told
    ensures { IsRefusedBy error result }
{
    match error {
        TiError::ThreadNotAlive => Told::NotAlive,
        TiError::Busy => Told::NotYet,
        _ => Told::Unanswered,
    }
}

/// Asks a thread for its state. The errors are those of `Agent::post_now`, and the thread's own. Then nothing is known that was not
/// known before.
pub(crate) fn probe(alloc: Global, agent: &mut Agent, watched: &mut Watched) -> Result<(), TiError>
    ensures probes { OnOk result (Probes agent.old agent.new watched.old watched.new) }
    ensures kept { OnErr result (ProbesNot agent.old agent.new watched.old watched.new) }
    ensures why { IfErr result (λ e. e ≡ ThreadNotAlive → IsNotAlive agent.old agent.new watched.old.thread State) }
{
    match agent.post_now(alloc, watched.thread, Call::State)? {
        Asked::Answered(Answer::State(bits)) => {
            watched.see(bits);
            Ok(())
        }
        Asked::Answered(Answer::Refused(error)) => Err(error),
        _ => Err(TiError::Busy),
    }
}

/// Asks a thread for its state, unless it was let go of. If it tells nothing, it is seen as before.
pub(crate) fn probe_if_there(alloc: Global, agent: &mut Agent, watched: &mut Watched)
    ensures { MayProbe agent.old agent.new watched.old watched.new }
{
    if watched.gone {
        return;
    }
    let _as_before = probe(alloc, agent, watched);
}

/// What a thread told of its stack, if it then told its state. One that has ended since tells no stack.
fn seen_with(told: Told, has_ended: bool) -> Told
    ensures { result ≡ seen_with has_ended told }
{
    match told {
        Told::Stack(trace) => {
            if has_ended {
                Told::NotAlive
            } else {
                Told::Stack(trace)
            }
        }
        Told::NotAlive => Told::NotAlive,
        Told::Unanswered => Told::Unanswered,
        Told::NotYet => Told::NotYet,
    }
}

/// What a thread told of its stack, if it then did not tell its state. A stack without a state is none.
fn unseen_by(told: Told, error: TiError) -> Told
    ensures { IsUnseenBy error told result }
{
    match told {
        Told::Stack(_) => refused_by(error),
        Told::NotAlive => Told::NotAlive,
        Told::Unanswered => Told::Unanswered,
        Told::NotYet => Told::NotYet,
    }
}

/// Asks a thread for its state after its stack. So no stack is counted under a state that is older.
fn see_after(alloc: Global, agent: &mut Agent, watched: &mut Watched, told: Told) -> Told
    ensures sees { SeesAfter agent.old agent.new watched.old watched.new told result }
    ensures thread { watched.new.thread ≡ watched.old.thread }
{
    match probe(alloc, agent, watched) {
        Ok(()) => seen_with(told, watched.has_ended()),
        Err(error) => unseen_by(told, error),
    }
}

/// Asks a thread at which no call is out for its stack.
fn ask_stack(alloc: Global, agent: &mut Agent, watched: &mut Watched, now: u64) -> Told
    ensures asks { AsksStack agent.old agent.new watched.old watched.new result }
    ensures thread { watched.new.thread ≡ watched.old.thread }
{
    match agent.post_now(alloc, watched.thread, TRACE) {
        Ok(Asked::Answered(answer)) => told_by(answer),
        Ok(Asked::Waiting(ticket)) => {
            watched.out = Some(Out { ticket, since: now });
            Told::NotYet
        }
        Err(error) => refused_by(error),
    }
}

/// Asks a thread at which no call is out for its stack, and then for its state. One that was let go of is asked nothing.
pub(crate) fn ask(alloc: Global, agent: &mut Agent, watched: &mut Watched, now: u64) -> Told
    ensures tells { TellsAtOnce agent.old agent.new watched.old watched.new result }
    ensures thread { watched.new.thread ≡ watched.old.thread }
{
    if watched.gone {
        return Told::NotAlive;
    }
    let told = ask_stack(alloc, agent, watched, now);
    see_after(alloc, agent, watched, told)
}

/// Collects the answer to the call that is out at a thread.
fn collect_stack(
    agent: &mut Agent,
    watched: &mut Watched,
    answers: &mut Histogram,
    now: u64,
) -> Told
    ensures collects { CollectsStack agent.old agent.new watched.old watched.new result }
    ensures thread { watched.new.thread ≡ watched.old.thread }
{
    let Some(out) = watched.out else {
        return Told::NotYet;
    };
    match agent.collect_now(out.ticket) {
        Ok(Some(answer)) => {
            watched.out = None;
            answers.add(now.saturating_sub(out.since));
            told_by(answer)
        }
        Ok(None) | Err(_) => Told::NotYet,
    }
}

/// Collects the answer to the call that is out at a thread, and then asks for its state.
pub(crate) fn collect(
    alloc: Global,
    agent: &mut Agent,
    watched: &mut Watched,
    answers: &mut Histogram,
    now: u64,
) -> Told
    ensures tells { TellsLater agent.old agent.new watched.old watched.new result }
    ensures thread { watched.new.thread ≡ watched.old.thread }
{
    match collect_stack(agent, watched, answers, now) {
        Told::NotYet => Told::NotYet,
        told => see_after(alloc, agent, watched, told),
    }
}

ghost use Rattle.std.specs.Prelude.{◌≡◌, IfErr, OnOk, OnErr};
ghost use Rattle.ti_types.specs.declared.call.Call.TheVariants.{State};
ghost use Rattle.ti_types.specs.declared.error.TiError.TheVariants.{ThreadNotAlive};
ghost use Rattle.ti_monitor.specs.Asking.{AsksStack, CollectsStack, IsNotAlive, IsRefusedBy, IsToldBy, IsUnseenBy, MayProbe, Probes, ProbesNot, SeesAfter, TellsAtOnce, TellsLater, seen_with};
