//! Reads the events of an agent about stops, capabilities and its environment's own word.

use crate::element::{caps_of, signed_in, thread_in, word_in};
use crate::item::Item;
use crate::located::LocatedFault;
use crate::names::Cast;
use crate::said::{Said, event_of};
use crate::thread_event::plain_event;
use serde_json::Value;
use ti_types::{EnvNo, Event};

/// The event of a word about the environment alone. `Shape` if the word is none of these.
pub(crate) fn env_event(said: &Said<'_>, agent: EnvNo) -> Result<Event, LocatedFault>
    ensures { result ≡ word_event said.now.cast.now said.now.item (env_table agent) said.now.word.now (map view said.now.rest.now) }
{
    match said.word {
        "add" => event_of!(said, [1: caps = caps_of(cast)] => Event::AddCaps(agent, caps)),
        "relinquish" =>
            event_of!(said, [1: caps = caps_of(cast)] => Event::Relinquish(agent, caps)),
        "caps" => plain_event(said, Event::GetCaps(agent)),
        "setenv" => event_of!(said, [1: word = word_in(cast)] => Event::SetEnvWord(agent, word)),
        "getenv" => plain_event(said, Event::GetEnvWord(agent)),
        _ => Err(said.item.word().shape()),
    }
}

/// The event of a word about stops, capabilities and the environment's own word. `Shape` if the word is none of these.
pub(crate) fn service_event(said: &Said<'_>, agent: EnvNo) -> Result<Event, LocatedFault>
    ensures { result ≡ word_event said.now.cast.now said.now.item (service_table agent) said.now.word.now (map view said.now.rest.now) }
{
    match said.word {
        "stop" => event_of!(said, [1: thread = thread_in(cast)] => Event::Stop(agent, thread)),
        "read" => {
            event_of!(said, [1: thread = thread_in(cast), 2: max_count = signed_in()] =>
                Event::Read(agent, thread, max_count))
        },
        "go" => event_of!(said, [1: thread = thread_in(cast)] => Event::Go(agent, thread)),
        _ => env_event(said, agent),
    }
}

ghost use Rattle.std.specs.Prelude.{◌≡◌, [], ◌∷◌, map};
ghost use Rattle.serde_json.specs.View.{view};
ghost use Rattle.ti_types.specs.declared.event.Event.TheVariants.{Stop, Read, Go, AddCaps, Relinquish, SetEnvWord};
ghost use Rattle.ti_script.specs.Events.{thread, signed, word, caps, row, env_table, service_table, row_event, word_event};
