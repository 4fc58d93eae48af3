//! What an item says of a subject: its word, and what comes after it.

use crate::item::Item;
use crate::names::Cast;
use serde_json::Value;

/// The event that the values after an item's word make. Each is read in its place behind the word, from left to right, by
/// the function beside it, which is also given the part of the item that stands in its parentheses. `Shape` of the item if
/// there are more or fewer values.
macro_rules! event_of {
    ($said:ident, [$($places:literal: $value:ident = $read:ident($($part:ident)?)),+] => $event:expr) => {
        match $said.rest {
            [$($value),+] => {
                $(let $value = $read($($said.$part,)? $said.item.behind_word($places), $value)?;)+
                Ok($event)
            }
            _ => Err($said.item.shape()),
        }
    };
}

pub(crate) use event_of;

/// An item's word, and the values after it.
#[derive(Clone, Copy)]
pub(crate) struct Said<'a> {
    /// The names that the document declares.
    pub(crate) cast: &'a Cast,
    pub(crate) item: Item,
    pub(crate) word: &'a str,
    pub(crate) rest: &'a [Value],
}

impl<'a> Said<'a> {
    /// What an item says by this word.
    pub(crate) fn new(cast: &'a Cast, item: Item, word: &'a str, rest: &'a [Value]) -> Self
        ensures names { result.cast.now ≡ cast.now }
        ensures item { result.item ≡ item }
        ensures word { result.word.now ≡ word.now }
        ensures rest { result.rest.now ≡ rest.now }
    {
        Said {
            cast,
            item,
            word,
            rest,
        }
    }
}

ghost use Rattle.std.specs.Prelude.{◌≡◌};
