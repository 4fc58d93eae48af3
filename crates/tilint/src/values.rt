//! Words about a value that stands where another is wanted.

use crate::texts::{is_one_of, listed, meant, quoted, shown, stands};
use crate::tree::{elements, has_text, texts_in};
use crate::vocabulary::{Takes, capabilities, hands, kinds, meant_by};
use serde_json::Value;
use std::alloc::{AllocError, Global};

/// A text without a point and a zero at its end.
fn without_point(text: &str) -> &str {
    match text.strip_suffix(".0") {
        Some(front) => front,
        None => text,
    }
}

/// The digits of a text, if it is a whole number, or one with a point and a zero.
fn digits_of(alloc: Global, text: &str) -> Result<Option<String>, AllocError> {
    let digits = without_point(text);
    let bytes = digits.as_bytes();
    if bytes.is_empty() || bytes.len() > 20 || !bytes.iter().all(|byte| byte.is_ascii_digit()) {
        return Ok(None);
    }
    Ok(Some(String::from_str(alloc, digits)?))
}

/// The whole number that is meant by a text, or by a number with a point.
fn whole_meant(alloc: Global, value: &Value) -> Result<Option<String>, AllocError> {
    match value.as_str() {
        Some(text) => digits_of(alloc, text),
        None => {
            let text = value.to_string(alloc)?;
            digits_of(alloc, text.as_str())
        }
    }
}

/// Explains a value that is no whole number in this range.
pub(crate) fn no_number(
    alloc: Global,
    value: &Value,
    what: &str,
    range: &str,
) -> Result<String, AllocError> {
    let here = shown(alloc, value)?;
    if value.is_u64() || value.is_i64() {
        return format!(in alloc; "{here} stands there; {what} is {range}");
    }
    match whole_meant(alloc, value)? {
        Some(digits) => {
            format!(in alloc;
                "{here} stands there; write {digits}, a whole number without quotes or point"
            )
        }
        None => { format!(in alloc; "{here} stands there; {what} is a whole number, {range}") }
    }
}

/// Explains a text that is none of these names. `known` is the word that it is known to stand for.
pub(crate) fn no_such(
    alloc: Global,
    known: Option<&str>,
    text: &str,
    what: &str,
    names: &[&str],
) -> Result<String, AllocError> {
    let name = quoted(alloc, text)?;
    let near = meant(alloc, known, text, names)?;
    let all = listed(alloc, names)?;
    format!(in alloc; "{name} is no {what}{near}; there are {all}")
}

/// Explains a text that is none of these names. It may be a word of JVM TI for one of them.
fn no_name(alloc: Global, text: &str, what: &str, names: &[&str]) -> Result<String, AllocError> {
    no_such(alloc, meant_by(text), text, what, names)
}

/// Explains a text that names no thread.
fn no_thread(alloc: Global, tree: &Value, text: &str) -> Result<String, AllocError> {
    let names = texts_in(alloc, tree, "threads")?;
    if has_text(tree, "agents", text) {
        let name = quoted(alloc, text)?;
        let all = listed(alloc, names.as_slice())?;
        return format!(in alloc; "{name} is an agent; a thread is wanted; there are {all}");
    }
    no_name(alloc, text, "thread", names.as_slice())
}

/// Whether a value can be a thread: a text, or a number of 32 bits.
fn may_be_thread(value: &Value) -> bool {
    value.is_string() || value.as_u64().is_some_and(|number| number < 4294967296)
}

fn of_thread(alloc: Global, tree: &Value, value: &Value) -> Result<String, AllocError> {
    match value.as_str() {
        Some(text) => no_thread(alloc, tree, text),
        None => stands(
            alloc,
            value,
            "a thread is a name, or a number from 0 to 4,294,967,295",
        ),
    }
}

fn of_threads(alloc: Global, tree: &Value, value: &Value) -> Result<String, AllocError> {
    if !value.is_array() {
        let here = shown(alloc, value)?;
        return format!(in alloc; "threads are an array: [{here}]");
    }
    let threads = elements(value);
    if threads.len() > 1024 {
        return format!(in alloc; "{} threads; at most 1,024", threads.len());
    }
    for thread in threads {
        if !may_be_thread(thread) {
            return of_thread(alloc, tree, thread);
        }
    }
    for thread in threads {
        if let Some(text) = thread.as_str() {
            if !has_text(tree, "threads", text) {
                return no_thread(alloc, tree, text);
            }
        }
    }
    String::from_str(alloc, "an array of threads is wanted")
}

fn of_method(alloc: Global, tree: &Value, value: &Value) -> Result<String, AllocError> {
    match value.as_str() {
        Some(text) => {
            let names = texts_in(alloc, tree, "methods")?;
            no_name(alloc, text, "method", names.as_slice())
        }
        None => stands(alloc, value, "a method is a name"),
    }
}

fn of_caps(alloc: Global, value: &Value) -> Result<String, AllocError> {
    if !value.is_array() {
        let here = shown(alloc, value)?;
        return format!(in alloc; "capabilities are an array: [{here}]");
    }
    for cap in elements(value) {
        if !cap.is_string() {
            let here = shown(alloc, cap)?;
            return format!(in alloc; "{here} stands in the array; a capability is a text");
        }
    }
    for cap in elements(value) {
        let text = cap.as_str().unwrap_or("");
        if !is_one_of(text, capabilities()) {
            return no_name(alloc, text, "capability", capabilities());
        }
    }
    String::from_str(alloc, "an array of capabilities is wanted")
}

/// Explains a kind of block, or what may come after `hand`.
fn of_kind(alloc: Global, value: &Value, words: &[&str]) -> Result<String, AllocError> {
    match value.as_str() {
        Some(text) => no_name(alloc, text, "kind of block", words),
        None => {
            let all = listed(alloc, words)?;
            let wanted = format!(in alloc; "there are {all}")?;
            stands(alloc, value, wanted.as_str())
        }
    }
}

/// What is wrong with an element that is to be this.
pub(crate) fn wrong_value(
    alloc: Global,
    tree: &Value,
    takes: Takes,
    value: &Value,
) -> Result<String, AllocError> {
    match takes {
        Takes::Thread => of_thread(alloc, tree, value),
        Takes::Threads => of_threads(alloc, tree, value),
        Takes::Method => of_method(alloc, tree, value),
        Takes::Caps => of_caps(alloc, value),
        Takes::Block => of_kind(alloc, value, kinds()),
        Takes::Hand => of_kind(alloc, value, hands()),
        _ => no_number(alloc, value, takes.text(), takes.range().unwrap_or("")),
    }
}
