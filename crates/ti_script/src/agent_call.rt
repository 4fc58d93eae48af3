//! Reads a call of an agent in a live script: a word, and what comes after it.

use crate::element::{signed_in, thread_in, u32_in};
use crate::event::ask_event;
use crate::item::{Item, Spot};
use crate::located::LocatedFault;
use crate::names::Cast;
use crate::said::Said;
use crate::service_event::env_event;
use crate::tree::array_in;
use serde_json::Value;
use std::alloc::Global;
use ti_live::{AgentCall, Listed};
use ti_types::{EnvNo, Event, ThreadNo};

/// The call that this event makes.
fn as_call(event: Event) -> AgentCall
    ensures { result ≡ as_call event }
{
    match event {
        Event::Ask(_, thread, call) => AgentCall::Ask(thread, call),
        Event::AddCaps(_, caps) => AgentCall::AddCaps(caps),
        Event::Relinquish(_, caps) => AgentCall::Relinquish(caps),
        Event::SetEnvWord(_, word) => AgentCall::SetEnvWord(word),
        Event::GetEnvWord(_) => AgentCall::GetEnvWord,
        _ => AgentCall::GetCaps,
    }
}

/// The call of a word that also makes an event of a walk.
fn one_event(said: &Said<'_>, agent: EnvNo) -> Result<Event, LocatedFault>
    ensures { result ≡ word_event said.now.cast.now said.now.item (one_table agent) said.now.word.now (map view said.now.rest.now) }
{
    match ask_event(said, agent) {
        Some(event) => event,
        None => env_event(said, agent),
    }
}

/// Whether a value has the form of a thread: a text, or a whole number of 32 bits.
fn is_thread_element(value: &Value) -> bool
    ensures { result ≡ is_thread_element (view value.now) }
{
    value.is_string() || u32_in(value).is_some()
}

fn are_thread_elements(values: &[Value]) -> bool
    ensures { result ≡ list_all (λ value. is_thread_element (view value)) values.now }
{
    values.iter().all(|value| is_thread_element(value))
}

/// The threads that these values mean. `Name` if a text is no thread's name.
fn threads_given(
    alloc: Global,
    cast: &Cast,
    spot: Spot,
    values: &[Value],
) -> Result<Listed<ThreadNo>, LocatedFault>
    ensures { Gives (λ threads. threads) result (threads_given cast.now spot (map view values.now)) }
{
    let mut threads = Listed::with_room(alloc, values.len())?;
    for value in values {
        let thread = thread_in(cast, spot, value)?;
        threads.push(thread)?;
    }
    Ok(threads)
}

/// The list of threads that comes first after a word: at most 1,024, each a number or a name.
///
/// It looks at the form of all values only if one of them means no thread. The first of those need not be the first fault.
#[tactic(auto, using(crate::proofs::TreeLaws::list_all_views, crate::proofs::TreeLaws::length_of_map, crate::proofs::LiveLaws::all_elements))]
fn threads_in(
    alloc: Global,
    said: &Said<'_>,
    value: &Value,
) -> Result<Listed<ThreadNo>, LocatedFault>
    ensures { Gives (λ threads. threads) result (threads_in said.now.cast.now (behind_word said.now.item 1) (view value.now)) }
{
    let spot = said.item.behind_word(1);
    let Some(values) = array_in(value) else {
        return Err(spot.shape());
    };
    if values.len() > 1024 {
        return Err(spot.shape());
    }
    match threads_given(alloc, said.cast, spot, values) {
        Ok(threads) => Ok(threads),
        Err(fault) => if are_thread_elements(values) {
            Err(fault)
        } else {
            Err(spot.shape())
        },
    }
}

/// SuspendThreadList for a list of threads.
fn suspend_list(alloc: Global, said: &Said<'_>) -> Result<AgentCall, LocatedFault>
    ensures { Gives (λ call. call) result (of_threads said.now.cast.now said.now.item SuspendList (map view said.now.rest.now)) }
{
    match said.rest {
        [threads] => Ok(AgentCall::SuspendList(threads_in(alloc, said, threads)?)),
        _ => Err(said.item.shape()),
    }
}

/// ResumeThreadList for a list of threads.
fn resume_list(alloc: Global, said: &Said<'_>) -> Result<AgentCall, LocatedFault>
    ensures { Gives (λ call. call) result (of_threads said.now.cast.now said.now.item ResumeList (map view said.now.rest.now)) }
{
    match said.rest {
        [threads] => Ok(AgentCall::ResumeList(threads_in(alloc, said, threads)?)),
        _ => Err(said.item.shape()),
    }
}

/// GetAllStackTraces with a greatest count of frames.
fn all_stacks(said: &Said<'_>) -> Result<AgentCall, LocatedFault>
    ensures { Gives (λ call. call) result (of_count said.now.cast.now said.now.item (map view said.now.rest.now)) }
{
    match said.rest {
        [max_count] => Ok(AgentCall::AllStacks(signed_in(said.item.behind_word(1), max_count)?)),
        _ => Err(said.item.shape()),
    }
}

/// GetThreadListStackTraces for a list of threads, with a greatest count of frames.
fn list_stacks(alloc: Global, said: &Said<'_>) -> Result<AgentCall, LocatedFault>
    ensures { Gives (λ call. call) result (of_both said.now.cast.now said.now.item (map view said.now.rest.now)) }
{
    match said.rest {
        [threads, max_count] => {
            let threads = threads_in(alloc, said, threads)?;
            let max_count = signed_in(said.item.behind_word(2), max_count)?;
            Ok(AgentCall::ListStacks(threads, max_count))
        }
        _ => Err(said.item.shape()),
    }
}

/// The call of a word, from what comes after it.
fn word_call(alloc: Global, said: &Said<'_>, agent: EnvNo) -> Result<AgentCall, LocatedFault>
    ensures { Gives (λ call. call) result (word_call said.now.cast.now said.now.item agent said.now.word.now (map view said.now.rest.now)) }
{
    match said.word {
        "suspend_list" => suspend_list(alloc, said),
        "resume_list" => resume_list(alloc, said),
        "all" => all_stacks(said),
        "list" => list_stacks(alloc, said),
        _ => {
            let event = one_event(said, agent)?;
            Ok(as_call(event))
        }
    }
}

/// A call of an agent, from the item of this number: a word, and what comes after it.
pub(crate) fn call_in(
    alloc: Global,
    cast: &Cast,
    number: u32,
    agent: EnvNo,
    value: &Value,
) -> Result<AgentCall, LocatedFault>
    ensures { Gives (λ call. call) result (call_in cast.now number agent (view value.now)) }
{
    let item = Item::of_list(number);
    let Some([word, rest @ ..]) = array_in(value) else {
        return Err(item.shape());
    };
    let Some(word) = word.as_str() else {
        return Err(item.word().shape());
    };
    word_call(alloc, &Said::new(cast, item, word, rest), agent)
}

ghost use Rattle.std.specs.Prelude.{◌≡◌, map};
ghost use Rattle.std.specs.List.{list_all};
ghost use Rattle.serde_json.specs.View.{view};
ghost use Rattle.ti_live.specs.declared.call.AgentCall.TheVariants.{SuspendList, ResumeList};
ghost use Rattle.ti_script.specs.Faults.{Gives};
ghost use Rattle.ti_script.specs.Spots.{behind_word};
ghost use Rattle.ti_script.specs.Events.{word_event};
ghost use Rattle.ti_script.specs.Lives.{as_call, one_table, is_thread_element, threads_given, threads_in, of_threads, of_count, of_both, word_call, call_in};
