//! Words about a fault of an item: an event, an operation, a call or an entry.

use crate::kind::Kind;
use crate::place::Place;
use crate::texts::{meant, quoted, shown, stands};
use crate::tree::{elements, has_text, texts_in, value_at};
use crate::values::{no_such, wrong_value};
use crate::vocabulary::{Speaker, Takes, meant_by};
use serde_json::Value;
use std::alloc::{AllocError, Global};
use ti_script::MemberName;

/// An item that is at fault, with what is known about it.
#[derive(Clone, Copy)]
struct Item<'a> {
    kind: Kind,
    tree: &'a Value,
    /// Its elements.
    parts: &'a [Value],
    /// How many elements come before its word.
    lead: usize,
    speaker: Speaker,
}

/// The text at this place of an item, or an empty one.
fn text_at(parts: &[Value], place: usize) -> &str {
    match parts.get(place) {
        Some(value) => value.as_str().unwrap_or(""),
        None => "",
    }
}

/// Whose words an item has.
fn speaker_of(kind: Kind, tree: &Value, member: Option<MemberName>, subject: &str) -> Speaker {
    match kind {
        Kind::History => Speaker::History,
        Kind::Live => if member == Some(MemberName::Walks) {
            Speaker::Thread
        } else {
            Speaker::Caller
        },
        Kind::Walk => if has_text(tree, "threads", subject) {
            Speaker::Thread
        } else {
            Speaker::Agent
        },
    }
}

/// What these elements are, with commas and an `and`.
fn all_of(alloc: Global, takes: &[Takes]) -> Result<String, AllocError> {
    let mut text = String::new(alloc);
    for (place, one) in takes.iter().enumerate() {
        if place > 0 {
            text.push_str(if place < takes.len() - 1 {
                ", "
            } else {
                " and "
            })?;
        }
        text.push_str(one.text())?;
    }
    Ok(text)
}

/// Explains a word that has this many elements after it, and takes others.
fn wrong_count(
    alloc: Global,
    word: &str,
    takes: &[Takes],
    given: usize,
) -> Result<String, AllocError> {
    if takes.is_empty() {
        return format!(in alloc; "'{word}' takes nothing; {given} given");
    }
    let all = all_of(alloc, takes)?;
    if given < takes.len() {
        return format!(in alloc; "'{word}' takes {all}; {given} of {} given", takes.len());
    }
    format!(in alloc; "'{word}' takes {all}; {given} given")
}

/// Explains an item that as a whole has the wrong shape.
fn wrong_item(alloc: Global, item: &Item<'_>) -> Result<String, AllocError> {
    if item.parts.len() <= item.lead {
        return String::from_str(
            alloc,
            match item.kind {
                Kind::Walk => "an event is an array with a subject and a word: [\"t0\",\"start\"]",
                Kind::Live => "an operation or a call is an array with a word: [\"start\"]",
                Kind::History => "an entry is an array with a word: [\"start\"]",
            },
        );
    }
    let given = item.parts.len() - item.lead - 1;
    let word = text_at(item.parts, item.lead);
    if word == "asked" && given > 2 {
        let call = text_at(item.parts, 3);
        if let Some(takes) = Speaker::Asked.takes(call) {
            return wrong_count(alloc, call, takes, given - 3);
        }
    }
    match item.speaker.takes(word) {
        Some(takes) => wrong_count(alloc, word, takes, given),
        None => no_word(alloc, item, word),
    }
}

/// Explains the subject of an event.
fn wrong_subject(alloc: Global, item: &Item<'_>, value: &Value) -> Result<String, AllocError> {
    let Some(text) = value.as_str() else {
        return stands(
            alloc,
            value,
            "an event begins with the name of a thread or an agent",
        );
    };
    let second = text_at(item.parts, 1);
    let is_word = Speaker::Thread.takes(text).is_some() || Speaker::Agent.takes(text).is_some();
    if is_word && is_subject(item.tree, second) {
        return format!(in alloc; "the subject comes first: [\"{second}\",\"{text}\"]");
    }
    no_subject(alloc, item.tree, text)
}

/// Whether a text is the name of a thread or an agent.
fn is_subject(tree: &Value, text: &str) -> bool {
    has_text(tree, "threads", text) || has_text(tree, "agents", text)
}

/// The names of the threads, and then those of the agents.
fn subjects(alloc: Global, tree: &Value) -> Result<Vec<&str>, AllocError> {
    let mut names = texts_in(alloc, tree, "threads")?;
    for agent in texts_in(alloc, tree, "agents")? {
        names.push(agent)?;
    }
    Ok(names)
}

/// Explains a text that is no thread's and no agent's name.
fn no_subject(alloc: Global, tree: &Value, text: &str) -> Result<String, AllocError> {
    let names = subjects(alloc, tree)?;
    no_such(alloc, None, text, "thread and no agent", names.as_slice())
}

/// Where a word belongs that is another speaker's.
fn belongs(item: &Item<'_>, word: &str) -> Option<&'static str> {
    let is_operation = Speaker::Thread.takes(word).is_some();
    let is_call = Speaker::Agent.takes(word).is_some() || Speaker::Caller.takes(word).is_some();
    match item.speaker {
        Speaker::Thread => if !is_call {
            None
        } else if item.kind == Kind::Live {
            Some("is a call: it goes into 'calls'")
        } else {
            Some("is a word of agents, and the subject is a thread")
        },
        Speaker::Agent => if is_operation {
            Some("is a word of threads, and the subject is an agent")
        } else if is_call {
            Some("is a word of live scripts alone")
        } else {
            None
        },
        Speaker::Caller => if is_operation {
            Some("is an operation: it goes into 'walks'")
        } else if is_call {
            Some("is a word of walks alone")
        } else {
            None
        },
        Speaker::History => if word == "poll" || word == "native" || word == "block" {
            Some("is a hand-over: 'hand', and then 'native', 'poll' or a kind of block")
        } else if Speaker::Asked.takes(word).is_some() {
            Some(
                "is a call: 'asked', the agent's number, the number of its call, and then the call",
            )
        } else {
            None
        },
        Speaker::Asked => if word == "pop" {
            Some("is there from format 2 on")
        } else {
            None
        },
    }
}

/// Explains a text that is no word of its speaker.
fn no_word(alloc: Global, item: &Item<'_>, word: &str) -> Result<String, AllocError> {
    let name = quoted(alloc, word)?;
    if item.kind == Kind::Live && is_subject(item.tree, word) {
        return format!(in alloc; "drop {name}: the list says whose it is");
    }
    if let Some(words) = belongs(item, word) {
        return format!(in alloc; "{name} {words}");
    }
    unknown_word(alloc, item.speaker, word)
}

/// Explains a text that nobody says.
fn unknown_word(alloc: Global, speaker: Speaker, word: &str) -> Result<String, AllocError> {
    let name = quoted(alloc, word)?;
    let near = meant(alloc, meant_by(word), word, speaker.words())?;
    let all = speaker.words().join(alloc, ", ")?;
    format!(in alloc;
        "{name} is no word of {}{near}; there are {all}",
        speaker.text()
    )
}

/// Explains the value at the place of a word.
fn wrong_word(alloc: Global, item: &Item<'_>, value: &Value) -> Result<String, AllocError> {
    match value.as_str() {
        Some(text) => no_word(alloc, item, text),
        None => stands(alloc, value, "a word is wanted"),
    }
}

/// What the element at this place is to be.
fn wanted_at(item: &Item<'_>, place: usize) -> Option<Takes> {
    let word = text_at(item.parts, item.lead);
    if word == "asked" && place > 3 {
        let takes = Speaker::Asked.takes(text_at(item.parts, 3))?;
        return takes.get(place - 4).copied();
    }
    let takes = item.speaker.takes(word)?;
    takes
        .get(place.checked_sub(item.lead)?.checked_sub(1)?)
        .copied()
}

/// Explains the element at this place, where `Asked` has words of its own.
fn wrong_element(
    alloc: Global,
    item: &Item<'_>,
    place: usize,
    value: &Value,
) -> Result<String, AllocError> {
    match wanted_at(item, place) {
        Some(Takes::Asked) => {
            let asked = Item {
                speaker: Speaker::Asked,
                ..*item
            };
            wrong_word(alloc, &asked, value)
        }
        Some(takes) => wrong_value(alloc, item.tree, takes, value),
        None => {
            let here = shown(alloc, value)?;
            format!(in alloc; "{here} stands there, which is not wanted")
        }
    }
}

/// What is wrong with an item at a place, or with this element of it.
pub(crate) fn item_words(
    alloc: Global,
    kind: Kind,
    tree: &Value,
    whole: &Place,
    element: Option<usize>,
) -> Result<String, AllocError> {
    let Some(value) = value_at(tree, whole) else {
        return String::from_str(alloc, "there is nothing");
    };
    if !value.is_array() {
        return stands(alloc, value, "an array is wanted");
    }
    let parts = elements(value);
    let item = Item {
        kind,
        tree,
        parts,
        lead: if kind == Kind::Walk { 1 } else { 0 },
        speaker: speaker_of(kind, tree, whole.member, text_at(parts, 0)),
    };
    let Some(place) = element else {
        return wrong_item(alloc, &item);
    };
    let Some(part) = parts.get(place) else {
        return wrong_item(alloc, &item);
    };
    if place < item.lead {
        wrong_subject(alloc, &item, part)
    } else if place == item.lead {
        wrong_word(alloc, &item, part)
    } else {
        wrong_element(alloc, &item, place, part)
    }
}
