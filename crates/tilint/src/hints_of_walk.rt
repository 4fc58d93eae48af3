//! Warnings about a walk: each event that is refused, and each call that is never answered.

use crate::explanation::Explanation;
use crate::place::Place;
use crate::texts::quoted;
use std::alloc::{AllocError, Global};
use ti_script::{MemberName, Names, Walk};
use ti_types::{Answer, Call, Caps, EnvNo, Event, Outcome, ThreadNo, TiError, needs};

/// The name of a number in a list of names, or the number if it has none.
pub(crate) fn name_of(alloc: Global, names: &Names, number: u32) -> Result<String, AllocError> {
    match names.name(number) {
        Some(name) => quoted(alloc, name),
        None => format!(in alloc; "{number}"),
    }
}

/// The thread that an event is about.
fn thread_of(event: Event) -> Option<ThreadNo> {
    match event {
        Event::Start(thread)
        | Event::Own(thread, _)
        | Event::Poll(thread)
        | Event::ToNative(thread)
        | Event::ToBlocked(thread, _)
        | Event::Back(thread)
        | Event::End(thread)
        | Event::Ask(_, thread, _)
        | Event::Stop(_, thread)
        | Event::Read(_, thread, _)
        | Event::Go(_, thread) => Some(thread),
        _ => None,
    }
}

/// The environment that makes an event.
fn agent_of(event: Event) -> Option<EnvNo> {
    match event {
        Event::Ask(env, _, _)
        | Event::Stop(env, _)
        | Event::Read(env, _, _)
        | Event::Go(env, _)
        | Event::AddCaps(env, _)
        | Event::Relinquish(env, _)
        | Event::GetCaps(env)
        | Event::SetEnvWord(env, _)
        | Event::GetEnvWord(env) => Some(env),
        _ => None,
    }
}

/// The capability that a call needs.
pub(crate) fn needed(call: Call) -> &'static str {
    if needs(call) == Caps::CAN_POP_FRAME {
        "can_pop_frame"
    } else {
        "can_suspend"
    }
}

/// What is said of a number that may not be there.
pub(crate) fn bad_number(call: Call) -> &'static str {
    match call {
        Call::Location { .. } => "a depth is 0 or more: depths start at 0",
        Call::Trace { max_count, .. } => if max_count < 0 {
            "a count is 0 or more"
        } else {
            "there is no frame at this start"
        },
        _ => "a number is out of its range",
    }
}

/// What is said of a call that was refused, by its error.
fn why_asked(
    alloc: Global,
    error: TiError,
    call: Call,
    agent: &str,
    thread: &str,
) -> Result<String, AllocError> {
    match error {
        TiError::MustPossessCapability => {
            let cap = needed(call);
            format!(in alloc; "{agent} does not hold {cap}: add it first, by 'add'")
        }
        TiError::IllegalArgument => String::from_str(alloc, bad_number(call)),
        TiError::ThreadNotSuspended => format!(in alloc;
            "{thread} is not suspended here. A suspension of a thread that runs waits for its next hand-over"
        ),
        TiError::NoMoreFrames => match call {
            Call::Location { .. } => format!(in alloc; "{thread} has no frame at this depth"),
            _ => format!(in alloc; "{thread} has fewer than two frames"),
        },
        _ => why_at(alloc, error, agent, thread),
    }
}

/// What is said of a thread at which an event was refused, before its name and after it.
fn of_thread(error: TiError) -> Option<(&'static str, &'static str)> {
    match error {
        TiError::InvalidThread => Some(("there is no thread ", "")),
        TiError::ThreadSuspended => Some(("", " is suspended already")),
        TiError::ThreadNotAlive => Some(("", " has not started, or has ended")),
        TiError::OpaqueFrame => Some(("one of the two newest frames of ", " is native")),
        TiError::Overflow => Some(("", " has as many frames as limits.depth allows")),
        TiError::NoFrame => Some(("", " has no frame: 'enter' first")),
        TiError::NotJavaFrame => Some((
            "the newest frame of ",
            " is native, and a native frame has no position",
        )),
        TiError::NotRunning => Some((
            "",
            " does not run: it has not started, is safe, or has ended",
        )),
        TiError::NotSafe => Some(("", " is not safe, so it has nothing to return from")),
        TiError::Barred => Some(("", " is suspended or stopped: 'resume' or 'go' first")),
        TiError::NoNativeFrame => Some((
            "the newest frame of ",
            " is not native: 'enter_native' first",
        )),
        TiError::NotNew => Some(("", " has started before")),
        TiError::AlreadyStopped => Some(("a stop is in force at ", ": 'go' first")),
        TiError::StillRunning => Some((
            "",
            " still runs: it has to hand over, or poll, after the stop",
        )),
        _ => None,
    }
}

/// What is said of an event that was refused, whichever thread it is about.
fn of_any(error: TiError) -> &'static str {
    match error {
        TiError::NotAvailable => "can_tag_objects cannot be had",
        TiError::IllegalArgument => "a count is 0 or more",
        TiError::OutOfMemory => "there was no memory",
        _ => "refused",
    }
}

/// What is said of any event at a thread that was refused, by its error.
fn why_at(alloc: Global, error: TiError, agent: &str, thread: &str) -> Result<String, AllocError> {
    if let Some((before, after)) = of_thread(error) {
        return format!(in alloc; "{before}{thread}{after}");
    }
    match error {
        TiError::CallsSpent => format!(in alloc; "{agent} has spent limits.calls at {thread}"),
        TiError::NotStopped => format!(in alloc;
            "no stop of {agent} is in force at {thread}: 'stop' first"
        ),
        _ => String::from_str(alloc, of_any(error)),
    }
}

/// The error by which an event was refused.
fn refused_by(outcome: &Outcome) -> Option<TiError> {
    match outcome {
        Outcome::Refused(error) => Some(*error),
        Outcome::Gave(Answer::Refused(error)) => Some(*error),
        _ => None,
    }
}

/// The names of the agent and of the thread of an event.
fn parties(alloc: Global, walk: &Walk, event: Event) -> Result<(String, String), AllocError> {
    let agent = match agent_of(event) {
        Some(env) => name_of(alloc, &walk.agents, env.0)?,
        None => String::new(alloc),
    };
    let thread = match thread_of(event) {
        Some(thread) => name_of(alloc, &walk.threads, thread.0)?,
        None => String::new(alloc),
    };
    Ok((agent, thread))
}

/// Why an event was refused, in words.
fn why(
    alloc: Global,
    own: u64,
    event: Event,
    error: TiError,
    agent: &str,
    thread: &str,
) -> Result<String, AllocError> {
    match event {
        Event::Own(_, _) | Event::ToNative(_) | Event::ToBlocked(_, _)
            if error == TiError::OwnSpent => format!(in alloc;
            "limits.own is {own}, and {thread} has spent it; further ones are left out"
        ),
        Event::Ask(_, _, call) => why_asked(alloc, error, call, agent, thread),
        _ => why_at(alloc, error, agent, thread),
    }
}

/// What is said of an event that was refused.
fn refusal(alloc: Global, walk: &Walk, event: Event, error: TiError) -> Result<String, AllocError> {
    let (agent, thread) = parties(alloc, walk, event)?;
    let own = walk.limits.own;
    let words = why(alloc, own, event, error, agent.as_str(), thread.as_str())?;
    format!(in alloc; "answers {}: {words}", error.number())
}

/// What is said of an event and its outcome, if it was refused or never answered.
fn hint_of(
    alloc: Global,
    walk: &Walk,
    event: Event,
    outcome: &Option<Outcome>,
) -> Result<Option<String>, AllocError> {
    match outcome {
        Some(outcome) => match refused_by(outcome) {
            Some(error) => Ok(Some(refusal(alloc, walk, event, error)?)),
            None => Ok(None),
        },
        None => {
            let (_agent, thread) = parties(alloc, walk, event)?;
            let words = format!(in alloc; "never answered: {thread} makes no hand-over after it")?;
            Ok(Some(words))
        }
    }
}

/// Whether an event was refused because its thread has spent its own budget, and an earlier one was too. The thread is noted.
fn is_spent_again(
    event: Event,
    outcome: &Option<Outcome>,
    spent: &mut Vec<ThreadNo>,
) -> Result<bool, AllocError> {
    if let (Some(Outcome::Refused(TiError::OwnSpent)), Some(thread)) = (outcome, thread_of(event)) {
        if spent.contains(&thread) {
            return Ok(true);
        }
        spent.push(thread)?;
    }
    Ok(false)
}

/// Adds the warnings about a walk, by the outcomes of its events. The threads that have spent their budgets are noted.
fn put_hints(
    alloc: Global,
    walk: &Walk,
    outcomes: &[Option<Outcome>],
    spent: &mut Vec<ThreadNo>,
    hints: &mut Vec<Explanation>,
) -> Result<(), AllocError> {
    for (event, (number, outcome)) in walk
        .events
        .as_slice()
        .iter()
        .zip(outcomes.iter().enumerate())
    {
        if is_spent_again(*event, outcome, spent)? {
            continue;
        }
        if let Some(words) = hint_of(alloc, walk, *event, outcome)? {
            let place = Place::of_element(MemberName::Events, number);
            hints.push(Explanation::at(place, words))?;
        }
    }
    Ok(())
}

/// The warnings about a walk, by the outcomes of its events.
pub(crate) fn walk_hints(
    alloc: Global,
    walk: &Walk,
    outcomes: &[Option<Outcome>],
) -> Result<Vec<Explanation>, AllocError> {
    let mut hints = Vec::new(alloc);
    let mut spent = Vec::new(alloc);
    put_hints(alloc, walk, outcomes, &mut spent, &mut hints)?;
    Ok(hints)
}
