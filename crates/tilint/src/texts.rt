//! Small texts: values as they stand in a document, lists of names, and the nearest name.

use serde_json::Value;
use std::alloc::{AllocError, Global};
use std::fmt::Write;
use strsim::levenshtein;

/// At most this many characters of a value are shown.
const SHOWN: usize = 60;

/// At most this many names of a list are shown.
const NAMES: usize = 8;

/// A text of which at most `SHOWN` characters are shown.
fn cut(alloc: Global, text: &str) -> Result<String, AllocError> {
    let mut shown = String::new(alloc);
    for (place, letter) in text.chars().enumerate() {
        if place >= SHOWN {
            shown.push_str("..")?;
            return Ok(shown);
        }
        shown.push(letter)?;
    }
    Ok(shown)
}

/// A text between single quotes.
pub(crate) fn quoted(alloc: Global, text: &str) -> Result<String, AllocError> {
    let shown = cut(alloc, text)?;
    format!(in alloc; "'{shown}'")
}

/// A value as it stands in a document, without its blanks.
pub(crate) fn shown(alloc: Global, value: &Value) -> Result<String, AllocError> {
    let text = value.to_string(alloc)?;
    cut(alloc, text.as_str())
}

/// That a value stands there, and what is wanted in its place.
pub(crate) fn stands(alloc: Global, value: &Value, wanted: &str) -> Result<String, AllocError> {
    let here = shown(alloc, value)?;
    format!(in alloc; "{here} stands there; {wanted}")
}

/// Whether a text is one of these.
pub(crate) fn is_one_of(text: &str, texts: &[&str]) -> bool {
    texts.iter().any(|one| *one == text)
}

/// The names between single quotes, with commas between them. If there are many: the first ones, and how many there are.
pub(crate) fn listed(alloc: Global, names: &[&str]) -> Result<String, AllocError> {
    let mut text = String::new(alloc);
    for (place, name) in names.iter().enumerate() {
        if place >= NAMES && names.len() > NAMES + 4 {
            write!(text, ", .. ({} in all)", names.len())?;
            return Ok(text);
        }
        if place > 0 {
            text.push_str(", ")?;
        }
        let name = quoted(alloc, name)?;
        text.push_str(name.as_str())?;
    }
    if names.is_empty() {
        text.push_str("none")?;
    }
    Ok(text)
}

/// The name that is nearest to this text, if it is near: at most a third of its letters differ, and at least one may.
pub(crate) fn nearest<'a>(
    alloc: Global,
    text: &str,
    names: &[&'a str],
) -> Result<Option<&'a str>, AllocError> {
    let mut best = None;
    let mut least = 1 + text.len() / 3;
    for name in names {
        if text.len() > 64 {
            return Ok(None);
        }
        let edits = levenshtein(alloc, text, name)?;
        if edits < text.len() && (edits < least || edits == least && best.is_none()) {
            least = edits;
            best = Some(*name);
        }
    }
    Ok(best)
}

/// ` (did you mean 'NAME'?)`, or nothing if no name is near. A word that users write for another stands for it.
pub(crate) fn meant(
    alloc: Global,
    known: Option<&str>,
    text: &str,
    names: &[&str],
) -> Result<String, AllocError> {
    if let Some(word) = known {
        if is_one_of(word, names) {
            return format!(in alloc; " (write '{word}')");
        }
    }
    match nearest(alloc, text, names)? {
        Some(name) => format!(in alloc; " (did you mean '{name}'?)"),
        None => Ok(String::new(alloc)),
    }
}
