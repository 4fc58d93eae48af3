//! Warnings about a live script, without running it.

use crate::explanation::Explanation;
use crate::hints_of_walk::{bad_number, name_of, needed};
use crate::place::Place;
use std::alloc::{AllocError, Global};
use ti_live::AgentCall;
use ti_script::{Live, MemberName};
use ti_types::{Call, Caps, Event, ThreadNo, needs};

/// The number of a thread or an agent, by its place. A document has at most 64 of them.
fn number_of(place: usize) -> u32 {
    if place < 65536 { place as u32 } else { 65536 }
}

/// Whether a list of operations has a start.
fn starts(walk: &[Event]) -> bool {
    walk.iter()
        .any(|operation| matches!(operation, Event::Start(_)))
}

/// The warnings about threads that have operations and never start.
fn of_threads(alloc: Global, live: &Live, hints: &mut Vec<Explanation>) -> Result<(), AllocError> {
    for (number, walk) in live.walks.as_slice().iter().enumerate() {
        let operations = walk.as_slice();
        if !operations.is_empty() && !starts(operations) {
            let thread = name_of(alloc, &live.threads, number_of(number))?;
            let words = format!(in alloc;
                "this list belongs to {thread}, which never starts: its operations are refused"
            )?;
            hints.push(Explanation::at(Place::of_element(MemberName::Walks, number), words))?;
        }
    }
    Ok(())
}

/// Adds a thread of the script, if it is not there yet. Numbers that no thread has are left out.
fn add_thread(
    live: &Live,
    thread: ThreadNo,
    threads: &mut Vec<ThreadNo>,
) -> Result<(), AllocError> {
    if thread.0 < live.limits.threads && !threads.contains(&thread) {
        threads.push(thread)?;
    }
    Ok(())
}

/// The threads that some call of a script resumes.
fn resumed_in(alloc: Global, live: &Live) -> Result<Vec<ThreadNo>, AllocError> {
    let mut resumed = Vec::new(alloc);
    for calls in live.calls.as_slice() {
        for call in calls.as_slice() {
            match call {
                AgentCall::Ask(thread, Call::Resume) => add_thread(live, *thread, &mut resumed)?,
                AgentCall::ResumeList(threads) => {
                    for thread in threads.as_slice() {
                        add_thread(live, *thread, &mut resumed)?;
                    }
                }
                _ => (),
            }
        }
    }
    Ok(resumed)
}

/// Whether a thread of the script is none of those that are resumed.
fn stays_suspended(live: &Live, resumed: &[ThreadNo], thread: ThreadNo) -> bool {
    thread.0 < live.limits.threads && !resumed.contains(&thread)
}

/// The first thread that a call suspends, and that no call of the script resumes.
fn left_suspended(live: &Live, resumed: &[ThreadNo], call: &AgentCall) -> Option<ThreadNo> {
    match call {
        AgentCall::Ask(thread, Call::Suspend) => if stays_suspended(live, resumed, *thread) {
            Some(*thread)
        } else {
            None
        },
        AgentCall::SuspendList(threads) => {
            for thread in threads.as_slice() {
                if stays_suspended(live, resumed, *thread) {
                    return Some(*thread);
                }
            }
            None
        }
        _ => None,
    }
}

/// The capabilities that a call needs.
fn needed_by(call: &AgentCall) -> Caps {
    match call {
        AgentCall::Ask(_, call) => needs(*call),
        AgentCall::SuspendList(_) | AgentCall::ResumeList(_) => Caps::CAN_SUSPEND,
        _ => Caps::none(),
    }
}

/// The capabilities that an agent holds after a call.
fn held_after(held: Caps, call: &AgentCall) -> Caps {
    match call {
        AgentCall::AddCaps(caps) => if caps.relinquish(Caps::CAN_TAG_OBJECTS) == *caps {
            held.add(*caps)
        } else {
            held
        },
        AgentCall::Relinquish(caps) => held.relinquish(*caps),
        _ => held,
    }
}

/// What is said of a call that is refused in every run.
fn refused_call(held: Caps, call: &AgentCall) -> Option<(u32, &'static str)> {
    let wanted = needed_by(call);
    if wanted.relinquish(held) != Caps::none() {
        let cap = match call {
            AgentCall::Ask(_, call) => needed(*call),
            _ => "can_suspend",
        };
        return Some((99, cap));
    }
    match call {
        AgentCall::Ask(_, call) => if call.is_well_formed() {
            None
        } else {
            Some((103, bad_number(*call)))
        },
        AgentCall::AllStacks(most) | AgentCall::ListStacks(_, most) => if *most < 0 {
            Some((103, "a count is 0 or more"))
        } else {
            None
        },
        AgentCall::AddCaps(caps) => if caps.relinquish(Caps::CAN_TAG_OBJECTS) == *caps {
            None
        } else {
            Some((98, "can_tag_objects cannot be had"))
        },
        _ => None,
    }
}

/// What is said of a call, if anything is.
fn hint_of(
    alloc: Global,
    live: &Live,
    resumed: &[ThreadNo],
    agent: u32,
    held: Caps,
    call: &AgentCall,
) -> Result<Option<String>, AllocError> {
    if let Some((error, why)) = refused_call(held, call) {
        let words = if error == 99 {
            let agent = name_of(alloc, &live.agents, agent)?;
            format!(in alloc; "answers 99: {agent} does not hold {why}: add it first, by 'add'")?
        } else {
            format!(in alloc; "answers {error}: {why}")?
        };
        return Ok(Some(words));
    }
    match left_suspended(live, resumed, call) {
        Some(thread) => {
            let thread = name_of(alloc, &live.threads, thread.0)?;
            let words = format!(in alloc;
                "{thread} is suspended, and no call resumes it: this run may never end"
            )?;
            Ok(Some(words))
        }
        None => Ok(None),
    }
}

/// The warnings about an agent's calls.
fn of_calls(
    alloc: Global,
    live: &Live,
    resumed: &[ThreadNo],
    agent: usize,
    calls: &[AgentCall],
    hints: &mut Vec<Explanation>,
) -> Result<(), AllocError> {
    let mut held = Caps::none();
    for (number, call) in calls.iter().enumerate() {
        if let Some(words) = hint_of(alloc, live, resumed, number_of(agent), held, call)? {
            let place = Place {
                member: Some(MemberName::Calls),
                first: Some(agent),
                second: Some(number),
                third: None,
            };
            hints.push(Explanation::at(place, words))?;
        }
        held = held_after(held, call);
    }
    Ok(())
}

/// Adds the warnings about a live script.
fn put_hints(alloc: Global, live: &Live, hints: &mut Vec<Explanation>) -> Result<(), AllocError> {
    of_threads(alloc, live, hints)?;
    let resumed = resumed_in(alloc, live)?;
    for (agent, calls) in live.calls.as_slice().iter().enumerate() {
        of_calls(
            alloc,
            live,
            resumed.as_slice(),
            agent,
            calls.as_slice(),
            hints,
        )?;
    }
    Ok(())
}

/// The warnings about a live script.
pub(crate) fn live_hints(alloc: Global, live: &Live) -> Result<Vec<Explanation>, AllocError> {
    let mut hints = Vec::new(alloc);
    put_hints(alloc, live, &mut hints)?;
    Ok(hints)
}
