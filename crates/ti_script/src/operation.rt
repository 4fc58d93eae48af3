//! Reads an operation of a thread in a live script: a thread's event of a walk, without the thread.

use crate::item::Item;
use crate::located::LocatedFault;
use crate::names::Cast;
use crate::said::Said;
use crate::thread_event::thread_event;
use crate::tree::array_in;
use serde_json::Value;
use ti_types::{Event, ThreadNo};

/// An operation of a thread, from the item of this number: a word, and what comes after it.
pub(crate) fn operation_in(
    cast: &Cast,
    number: u32,
    thread: ThreadNo,
    value: &Value,
) -> Result<Event, LocatedFault>
    ensures { result ≡ operation_in cast.now number thread (view value.now) }
{
    let item = Item::of_list(number);
    let Some([word, rest @ ..]) = array_in(value) else {
        return Err(item.shape());
    };
    let Some(word) = word.as_str() else {
        return Err(item.word().shape());
    };
    thread_event(&Said::new(cast, item, word, rest), thread)
}

ghost use Rattle.std.specs.Prelude.{◌≡◌};
ghost use Rattle.serde_json.specs.View.{view};
ghost use Rattle.ti_script.specs.Lives.{operation_in};
