//! Words about a fault of the head.

use crate::explanation::Explanation;
use crate::kind::Kind;
use crate::place::Place;
use crate::texts::{is_one_of, listed, nearest, quoted, shown, stands};
use crate::tree::{elements, keys_of, listed_in, member_in};
use crate::values::no_number;
use crate::vocabulary::meant_by;
use serde_json::Value;
use std::alloc::{AllocError, Global};
use ti_script::{LimitName, MemberName};

/// The members of an object in a document's head.
fn members_beside(kind: Kind, member: MemberName) -> &'static [&'static str] {
    match member {
        MemberName::Depth | MemberName::Own | MemberName::CallLimit => &["depth", "own", "calls"],
        _ => kind.members(),
    }
}

/// The first of the keys that is none of these members.
fn unknown<'a>(keys: &[&'a str], members: &[&str]) -> Option<&'a str> {
    for key in keys {
        let key: &'a str = *key;
        if !is_one_of(key, members) {
            return Some(key);
        }
    }
    None
}

/// Whether a key is none of the members, and seems to mean this one.
fn means(alloc: Global, key: &str, members: &[&str], wanted: &str) -> Result<bool, AllocError> {
    if is_one_of(key, members) {
        return Ok(false);
    }
    if meant_by(key) == Some(wanted) {
        return Ok(true);
    }
    let near = nearest(alloc, key, &[wanted])?;
    Ok(near.is_some())
}

/// The first key of an object that is none of the members, and seems to mean this one.
fn misspelt<'a>(
    alloc: Global,
    value: &'a Value,
    members: &[&str],
    wanted: &str,
) -> Result<Option<&'a str>, AllocError> {
    let keys = keys_of(alloc, value)?;
    for key in keys.as_slice() {
        let key: &'a str = *key;
        if means(alloc, key, members, wanted)? {
            return Ok(Some(key));
        }
    }
    Ok(None)
}

/// Explains a document that is of another kind than was asked for.
pub(crate) fn of_other_kind(
    alloc: Global,
    kind: Kind,
    tree: &Value,
) -> Result<Option<Explanation>, AllocError>
    ensures { IfOk result (λ x. IfSome x (λ x. x.place ≡ document)) }
{
    match Kind::of(tree) {
        Some(other) => {
            if other == kind {
                return Ok(None);
            }
            let words = format!(in alloc;
                "this is {}: run 'tiwalk {}'",
                other.text(),
                other.argument()
            )?;
            Ok(Some(Explanation::at(Place::document(), words)))
        }
        None => Ok(None),
    }
}

/// Explains a member that is missing.
fn missing(
    alloc: Global,
    kind: Kind,
    tree: &Value,
    member: MemberName,
) -> Result<String, AllocError> {
    let wanted = member.key();
    let around = match member {
        MemberName::Depth | MemberName::Own | MemberName::CallLimit => tree
            .get("limits")
            .unwrap_or(tree),
        _ => tree,
    };
    match misspelt(alloc, around, members_beside(kind, member), wanted)? {
        Some(key) => {
            let key = quoted(alloc, key)?;
            format!(in alloc; "member '{wanted}' is missing; call member {key} '{wanted}'")
        }
        None => format!(in alloc; "member '{wanted}' is missing"),
    }
}

/// Explains an object that has a member too many, or a value that is no object.
fn no_such_object(alloc: Global, value: &Value, members: &[&str]) -> Result<String, AllocError> {
    let all = listed(alloc, members)?;
    if !value.is_object() {
        let wanted = format!(in alloc; "an object with {all} is wanted")?;
        return stands(alloc, value, wanted.as_str());
    }
    let keys = keys_of(alloc, value)?;
    let key = quoted(alloc, unknown(keys.as_slice(), members).unwrap_or(""))?;
    format!(in alloc; "member {key} is not allowed; allowed are {all}")
}

/// Explains a whole document that is no object, or has a member too many.
pub(crate) fn wrong_document(
    alloc: Global,
    kind: Kind,
    tree: &Value,
) -> Result<Explanation, AllocError>
    ensures { IfOk result (λ x. x.place ≡ document) }
{
    let words = no_such_object(alloc, tree, kind.members())?;
    Ok(Explanation::at(Place::document(), words))
}

/// Explains an array of texts that has another value in it, or is no array.
fn wrong_texts(alloc: Global, member: MemberName, value: &Value) -> Result<Explanation, AllocError>
    ensures { IfOk result (λ x. IsInHead x.place) }
{
    let Some(texts) = value.as_array() else {
        let words = stands(alloc, value, "an array of names is wanted")?;
        return Ok(Explanation::at(Place::of_member(member), words));
    };
    for (number, text) in texts.iter().enumerate() {
        if !text.is_string() {
            let words = stands(alloc, text, "a name is a text")?;
            return Ok(Explanation::at(Place::in_head(member, number), words));
        }
    }
    Explanation::fixed(
        alloc,
        Place::of_member(member),
        "an array of names is wanted",
    )
}

/// Explains `walks` and `calls` of a live script.
fn wrong_lists(
    alloc: Global,
    tree: &Value,
    member: MemberName,
    value: &Value,
) -> Result<Explanation, AllocError>
    ensures { IfOk result (λ x. IsInHead x.place) }
{
    let (owners, items) = match member {
        MemberName::Walks => ("threads", "operations"),
        _ => ("agents", "calls"),
    };
    let all = format!(in alloc; "an array of {items} is wanted for each of the {owners}")?;
    let Some(lists) = value.as_array() else {
        let words = stands(alloc, value, all.as_str())?;
        return Ok(Explanation::at(Place::of_member(member), words));
    };
    let wanted = listed_in(tree, owners).len();
    if lists.len() == wanted {
        return wrong_list(alloc, member, lists, items);
    }
    let words = format!(in alloc; "{all}; {} given for {wanted}", lists.len())?;
    Ok(Explanation::at(Place::of_member(member), words))
}

/// Explains lists of which one is no array.
fn wrong_list(
    alloc: Global,
    member: MemberName,
    lists: &[Value],
    items: &str,
) -> Result<Explanation, AllocError>
    ensures { IfOk result (λ x. IsInHead x.place) }
{
    let wanted = format!(in alloc; "an array of {items} is wanted")?;
    for (number, list) in lists.iter().enumerate() {
        if !list.is_array() {
            let words = stands(alloc, list, wanted.as_str())?;
            return Ok(Explanation::at(Place::in_head(member, number), words));
        }
    }
    Ok(Explanation::at(Place::of_member(member), wanted))
}

/// Explains a member whose value has a wrong shape.
fn wrong_shape(
    alloc: Global,
    kind: Kind,
    tree: &Value,
    member: MemberName,
    value: &Value,
) -> Result<Explanation, AllocError>
    ensures { IfOk result (λ x. IsInHead x.place) }
{
    let place = Place::of_member(member);
    match member {
        MemberName::Limits => {
            let words = no_such_object(alloc, value, &["depth", "own", "calls"])?;
            Ok(Explanation::at(place, words))
        }
        MemberName::Depth | MemberName::Own | MemberName::CallLimit | MemberName::Format => {
            let words = no_number(alloc, value, member.key(), "0 or more")?;
            Ok(Explanation::at(place, words))
        }
        MemberName::Agents if kind == Kind::History => {
            let words = no_number(alloc, value, "agents", "0 or more: how many there are")?;
            Ok(Explanation::at(place, words))
        }
        MemberName::Threads | MemberName::Agents | MemberName::Methods => {
            wrong_texts(alloc, member, value)
        }
        MemberName::Walks | MemberName::Calls => wrong_lists(alloc, tree, member, value),
        MemberName::Events | MemberName::Entries => {
            let wanted = format!(in alloc; "an array of {} is wanted", member.key())?;
            Ok(Explanation::at(place, stands(alloc, value, wanted.as_str())?))
        }
    }
}

/// Explains a member that is missing, or has a wrong shape.
pub(crate) fn wrong_member(
    alloc: Global,
    kind: Kind,
    tree: &Value,
    member: MemberName,
) -> Result<Explanation, AllocError>
    ensures { IfOk result (λ x. IsInHead x.place) }
{
    match member_in(tree, member) {
        Some(value) => wrong_shape(alloc, kind, tree, member, value),
        None => {
            let words = missing(alloc, kind, tree, member)?;
            Ok(Explanation::at(Place::of_member(member), words))
        }
    }
}

/// The member that a limit is about, and the range of its number.
fn limited_number(kind: Kind, which: LimitName) -> Option<(MemberName, &'static str)> {
    match which {
        LimitName::Depth => Some((MemberName::Depth, "1 to 4,096")),
        LimitName::Own => Some((MemberName::Own, "1 to 65,536")),
        LimitName::Calls => Some((MemberName::CallLimit, "1 to 1,024")),
        LimitName::Format => Some((MemberName::Format, "1 or 2")),
        LimitName::Agents => if kind == Kind::History {
            Some((
                MemberName::Agents,
                "1 to 8 in format 1, 1 to 32 in format 2",
            ))
        } else {
            None
        },
        _ => None,
    }
}

/// The member whose elements a limit is about, what they are, and how many there may be.
fn limited_count(which: LimitName) -> (MemberName, &'static str, &'static str) {
    match which {
        LimitName::Threads => (MemberName::Threads, "threads", "64"),
        LimitName::Agents => (MemberName::Agents, "agents", "32"),
        LimitName::Methods => (MemberName::Methods, "methods", "65,536"),
        LimitName::Walks => (MemberName::Walks, "operations in all", "65,536"),
        LimitName::CallsList => (MemberName::Calls, "calls in all", "65,536"),
        LimitName::Entries => (MemberName::Entries, "entries", "262,144"),
        _ => (MemberName::Events, "events", "65,536"),
    }
}

/// How many items there are: of a live script in all lists of the member.
fn count_of(which: LimitName, values: &[Value]) -> usize {
    match which {
        LimitName::Walks | LimitName::CallsList => {
            let mut count = 0usize;
            for list in values {
                count = count.saturating_add(elements(list).len());
            }
            count
        }
        _ => values.len(),
    }
}

/// Explains a number or a count that is out of its range.
pub(crate) fn out_of_range(
    alloc: Global,
    kind: Kind,
    tree: &Value,
    which: LimitName,
) -> Result<Explanation, AllocError>
    ensures { IfOk result (λ x. item_at (view tree.now) x.place ≡ 0) }
{
    if which == LimitName::Input {
        return Explanation::fixed(
            alloc,
            Place::document(),
            "more than 8,388,608 bytes, the most that are read",
        );
    }
    if let Some((member, range)) = limited_number(kind, which) {
        let here = match member_in(tree, member) {
            Some(value) => shown(alloc, value)?,
            None => String::new(alloc),
        };
        let words = format!(in alloc; "{} is {here}; {range}", member.key())?;
        return Ok(Explanation::at(Place::of_member(member), words));
    }
    let (member, counted, most) = limited_count(which);
    let count = count_of(which, listed_in(tree, member.key()));
    let words = if count == 0 {
        format!(in alloc; "no {counted}; at least 1")?
    } else {
        format!(in alloc; "{count} {counted}; at most {most}")?
    };
    Ok(Explanation::at(Place::of_member(member), words))
}

ghost use Rattle.std.specs.Prelude.{◌≡◌, IfOk, IfSome};
ghost use Rattle.serde_json.specs.View.{view};
ghost use Rattle.tilint.specs.Places.{document, item_at, IsInHead};
