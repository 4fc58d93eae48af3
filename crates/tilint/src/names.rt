//! Words about a fault of the names of threads, agents and methods.

use crate::explanation::Explanation;
use crate::place::Place;
use crate::texts::quoted;
use crate::tree::{has_text, listed_in};
use serde_json::Value;
use std::alloc::{AllocError, Global};
use ti_script::{MemberName, Names};

/// Whether a character may be in a name.
fn is_name_letter(letter: char) -> bool {
    letter.is_ascii_alphanumeric() || "_.$/<>".contains(letter)
}

/// What is wrong with the form of a name, if anything is.
fn wrong_form(alloc: Global, text: &str) -> Result<Option<String>, AllocError> {
    if text.is_empty() {
        return Ok(Some(String::from_str(
            alloc,
            "a name has 1 to 64 letters, and this one has none",
        )?));
    }
    for letter in text.chars() {
        if !is_name_letter(letter) {
            let name = quoted(alloc, text)?;
            return Ok(Some(format!(in alloc;
                "{name}: '{letter}' is not allowed in names; tools/plain_names.py makes names that are"
            )?));
        }
    }
    if text.len() > 64 {
        return Ok(Some(format!(in alloc;
            "a name has 1 to 64 letters, and this one has {}",
            text.len()
        )?));
    }
    Ok(None)
}

/// What is wrong with the name of this number, if anything is. Those before it are right.
fn wrong_at(
    alloc: Global,
    tree: &Value,
    member: MemberName,
    before: &Names,
    number: usize,
    text: &str,
) -> Result<Option<String>, AllocError> {
    if let Some(words) = wrong_form(alloc, text)? {
        return Ok(Some(words));
    }
    let key = member.key();
    let name = quoted(alloc, text)?;
    if let Some(place) = before.number(text) {
        let words = format!(in alloc; "{name} is given at {key}[{place}] and {key}[{number}]")?;
        return Ok(Some(words));
    }
    if key == "agents" && has_text(tree, "threads", text) {
        let words = format!(in alloc; "{name} is also a thread; no agent is called like a thread")?;
        return Ok(Some(words));
    }
    Ok(None)
}

/// The number of the first wrong name of a member, and what is wrong with it. The names before it go into `before`.
fn first_wrong(
    alloc: Global,
    tree: &Value,
    member: MemberName,
    before: &mut Names,
) -> Result<Option<(usize, String)>, AllocError> {
    for (number, name) in listed_in(tree, member.key()).iter().enumerate() {
        let text = name.as_str().unwrap_or("");
        if let Some(words) = wrong_at(alloc, tree, member, before, number, text)? {
            return Ok(Some((number, words)));
        }
        if before.len() < 65536 {
            before.add(alloc, text)?;
        }
    }
    Ok(None)
}

/// Explains a member with a name that is malformed, or given twice.
pub(crate) fn wrong_names(
    alloc: Global,
    tree: &Value,
    member: MemberName,
) -> Result<Explanation, AllocError>
    ensures { IfOk result (λ x. IsInHead x.place) }
{
    let mut before = Names::new(alloc);
    match first_wrong(alloc, tree, member, &mut before)? {
        Some((number, words)) => Ok(Explanation::at(Place::in_head(member, number), words)),
        None => Explanation::fixed(
            alloc,
            Place::of_member(member),
            "a name is malformed, or given twice",
        ),
    }
}

ghost use Rattle.std.specs.Prelude.{IfOk};
ghost use Rattle.tilint.specs.Places.{IsInHead};
