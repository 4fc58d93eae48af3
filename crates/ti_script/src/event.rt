//! Reads an event of a walk.

use crate::element::{signed_in, thread_in, word_in};
use crate::item::Item;
use crate::located::LocatedFault;
use crate::names::Cast;
use crate::said::{Said, event_of};
use crate::service_event::service_event;
use crate::thread_event::thread_event;
use crate::tree::array_in;
use serde_json::Value;
use ti_types::{Call, EnvNo, Event, ThreadNo};

/// A call that has nothing after its thread.
fn plain_ask(said: &Said<'_>, agent: EnvNo, call: Call) -> Result<Event, LocatedFault>
    ensures { result ≡ row_event said.now.cast.now said.now.item (map view said.now.rest.now) (row (thread ∷ []) (λ t. Ask agent t call)) }
{
    event_of!(said, [1: thread = thread_in(cast)] => Event::Ask(agent, thread, call))
}

fn trace_ask(said: &Said<'_>, agent: EnvNo) -> Result<Event, LocatedFault>
    ensures { result ≡ row_event said.now.cast.now said.now.item (map view said.now.rest.now) (row (thread ∷ signed ∷ signed ∷ []) (λ t s n. Ask agent t (Trace s n))) }
{
    event_of!(said, [1: thread = thread_in(cast), 2: start = signed_in(), 3: max_count = signed_in()] =>
        Event::Ask(agent, thread, Call::Trace { start, max_count }))
}

fn location_ask(said: &Said<'_>, agent: EnvNo) -> Result<Event, LocatedFault>
    ensures { result ≡ row_event said.now.cast.now said.now.item (map view said.now.rest.now) (row (thread ∷ signed ∷ []) (λ t d. Ask agent t (Location d))) }
{
    event_of!(said, [1: thread = thread_in(cast), 2: depth = signed_in()] =>
        Event::Ask(agent, thread, Call::Location { depth }))
}

fn set_ask(said: &Said<'_>, agent: EnvNo) -> Result<Event, LocatedFault>
    ensures { result ≡ row_event said.now.cast.now said.now.item (map view said.now.rest.now) (row (thread ∷ word ∷ []) (λ t w. Ask agent t (SetWord w))) }
{
    event_of!(said, [1: thread = thread_in(cast), 2: word = word_in(cast)] =>
        Event::Ask(agent, thread, Call::SetWord(word)))
}

/// The event of a word that asks a thread. `None` if the word is none of these.
pub(crate) fn ask_event(said: &Said<'_>, agent: EnvNo) -> Option<Result<Event, LocatedFault>>
    ensures { result ≡ option_map (row_event said.now.cast.now said.now.item (map view said.now.rest.now)) (lookup (bytes_eq said.now.word.now) (ask_table agent)) }
{
    match said.word {
        "state" => Some(plain_ask(said, agent, Call::State)),
        "count" => Some(plain_ask(said, agent, Call::FrameCount)),
        "trace" => Some(trace_ask(said, agent)),
        "location" => Some(location_ask(said, agent)),
        "suspend" => Some(plain_ask(said, agent, Call::Suspend)),
        "resume" => Some(plain_ask(said, agent, Call::Resume)),
        "get" => Some(plain_ask(said, agent, Call::GetWord)),
        "set" => Some(set_ask(said, agent)),
        "pop" => Some(plain_ask(said, agent, Call::Pop)),
        _ => None,
    }
}

fn agent_event(said: &Said<'_>, agent: EnvNo) -> Result<Event, LocatedFault>
    ensures { result ≡ word_event said.now.cast.now said.now.item (agent_table agent) said.now.word.now (map view said.now.rest.now) }
{
    match ask_event(said, agent) {
        Some(event) => event,
        None => service_event(said, agent),
    }
}

/// The event in the item of this number: a subject, a word, and what comes after the word.
pub(crate) fn event_in(cast: &Cast, number: u32, value: &Value) -> Result<Event, LocatedFault>
    ensures { result ≡ event_in cast.now number (view value.now) }
{
    let item = Item::of_walk(number);
    let Some([subject, word, rest @ ..]) = array_in(value) else {
        return Err(item.shape());
    };
    let Some(subject) = subject.as_str() else {
        return Err(item.subject().shape());
    };
    let Some(word) = word.as_str() else {
        return Err(item.word().shape());
    };
    let said = Said::new(cast, item, word, rest);
    if let Some(thread) = cast.threads.number(subject) {
        return thread_event(&said, ThreadNo(thread));
    }
    if let Some(agent) = cast.agents.number(subject) {
        return agent_event(&said, EnvNo(agent));
    }
    Err(item.subject().name())
}

ghost use Rattle.std.specs.Prelude.{◌≡◌, [], ◌∷◌, map};
ghost use Rattle.std.specs.Option.{option_map};
ghost use Rattle.std.specs.Map.{lookup};
ghost use Rattle.std.specs.Str.{bytes_eq};
ghost use Rattle.serde_json.specs.View.{view};
ghost use Rattle.ti_types.specs.declared.event.Event.TheVariants.{Ask};
ghost use Rattle.ti_types.specs.declared.call.Call.TheVariants.{Trace, Location, SetWord};
ghost use Rattle.ti_script.specs.Events.{thread, signed, word, row, ask_table, agent_table, row_event, word_event, event_in};
