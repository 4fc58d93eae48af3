//! Reads a thread's own events.

use crate::element::{kind_in, method_in, number_in};
use crate::item::Item;
use crate::located::LocatedFault;
use crate::names::Cast;
use crate::said::{Said, event_of};
use serde_json::Value;
use ti_types::{Event, Step, ThreadNo};

/// An event with nothing after its word.
pub(crate) fn plain_event(said: &Said<'_>, event: Event) -> Result<Event, LocatedFault>
    ensures { result ≡ row_event said.now.cast.now said.now.item (map view said.now.rest.now) (row [] event) }
{
    match said.rest {
        [] => Ok(event),
        _ => Err(said.item.shape()),
    }
}

/// The event of a thread's word. `Shape` if a thread has no such word.
pub(crate) fn thread_event(said: &Said<'_>, thread: ThreadNo) -> Result<Event, LocatedFault>
    ensures { result ≡ word_event said.now.cast.now said.now.item (thread_table thread) said.now.word.now (map view said.now.rest.now) }
{
    match said.word {
        "start" => plain_event(said, Event::Start(thread)),
        "enter" =>
            event_of!(said, [1: method = method_in(cast)] => Event::Own(thread, Step::Enter(method))),
        "enter_native" =>
            event_of!(said, [1: method = method_in(cast)] => Event::Own(thread, Step::EnterNative(method))),
        "at" => event_of!(said, [1: place = number_in()] => Event::Own(thread, Step::At(place))),
        "leave" => plain_event(said, Event::Own(thread, Step::Leave)),
        "poll" => plain_event(said, Event::Poll(thread)),
        "native" => plain_event(said, Event::ToNative(thread)),
        "block" => event_of!(said, [1: kind = kind_in(cast)] => Event::ToBlocked(thread, kind)),
        "back" => plain_event(said, Event::Back(thread)),
        "end" => plain_event(said, Event::End(thread)),
        _ => Err(said.item.word().shape()),
    }
}

ghost use Rattle.std.specs.Prelude.{◌≡◌, [], ◌∷◌, map};
ghost use Rattle.serde_json.specs.View.{view};
ghost use Rattle.ti_types.specs.declared.event.Event.TheVariants.{Own, ToBlocked};
ghost use Rattle.ti_types.specs.declared.step.Step.TheVariants.{Enter, EnterNative, At};
ghost use Rattle.ti_script.specs.Events.{method, number, kind, row, thread_table, row_event, word_event};
