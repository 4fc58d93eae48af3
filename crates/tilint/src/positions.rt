//! The line and the column of a place, in the text of a document that is JSON.

use crate::place::Place;
use ti_script::MemberName;

/// A line and a column, counted from 1. A column is a byte.
#[derive(Clone, Copy, Debug, PartialEq, Eq)]
pub struct Position {
    pub line: usize,
    pub column: usize,
}

fn is_blank(byte: u8) -> bool {
    byte == b' ' || byte == b'\n' || byte == b'\r' || byte == b'\t'
}

/// The first byte from here on that is no blank.
fn begin(text: &[u8], from: usize) -> usize {
    for at in from..text.len() {
        if !is_blank(text[at]) {
            return at;
        }
    }
    text.len()
}

/// The comma, colon or bracket that ends the value, or the pair, that stands here.
fn end(text: &[u8], from: usize, colon: bool) -> usize {
    let mut depth = 0usize;
    let mut quoted = false;
    let mut escaped = false;
    for at in from..text.len() {
        let byte = text[at];
        if escaped {
            escaped = false;
        } else if quoted {
            escaped = byte == b'\\';
            quoted = byte != b'"';
        } else if byte == b'"' {
            quoted = true;
        } else if byte == b'[' || byte == b'{' {
            depth = depth.saturating_add(1);
        } else if depth == 0 && ends(byte, colon) {
            return at;
        } else if byte == b']' || byte == b'}' {
            depth = depth.saturating_sub(1);
        }
    }
    text.len()
}

fn ends(byte: u8, colon: bool) -> bool {
    byte == b',' || byte == b']' || byte == b'}' || colon && byte == b':'
}

/// The next value of an array, or the next pair of an object, behind the one that stands here.
fn next(text: &[u8], from: usize) -> Option<usize> {
    let at = end(text, from, false);
    if text.get(at) == Some(&b',') {
        Some(begin(text, at.saturating_add(1)))
    } else {
        None
    }
}

/// The element of this number, of the array that begins here.
fn element_at(text: &[u8], from: usize, number: usize) -> Option<usize> {
    if text.get(from) != Some(&b'[') {
        return None;
    }
    let mut at = begin(text, from.saturating_add(1));
    for _ in 0..number {
        at = next(text, at)?;
    }
    Some(at)
}

/// Whether this key stands here, without escapes.
fn has_key(text: &[u8], from: usize, key: &str) -> bool {
    let key = key.as_bytes();
    let first = from.saturating_add(1);
    let last = first.saturating_add(key.len());
    text.get(from) == Some(&b'"')
        && text.get(first..last) == Some(key)
        && text.get(last) == Some(&b'"')
}

/// The value of this member, of the object that begins here. If a member is given twice, the last one counts.
fn member_at(text: &[u8], from: usize, key: &str) -> Option<usize> {
    if text.get(from) != Some(&b'{') {
        return None;
    }
    let mut found = None;
    let mut pair = Some(begin(text, from.saturating_add(1)));
    for _ in 0..text.len() {
        let Some(at) = pair else {
            return found;
        };
        if has_key(text, at, key) {
            let colon = end(text, at, true);
            found = Some(begin(text, colon.saturating_add(1)));
        }
        pair = next(text, at);
    }
    found
}

/// The line and the column of a byte.
fn position_of(text: &[u8], place: usize) -> Position {
    let mut line = 1usize;
    let mut column = 1usize;
    for (at, byte) in text.iter().enumerate() {
        if at >= place {
            return Position { line, column };
        }
        if *byte == b'\n' {
            line = line.saturating_add(1);
            column = 1;
        } else {
            column = column.saturating_add(1);
        }
    }
    Position { line, column }
}

/// The byte at which the value at a place begins, if it is found.
fn found(text: &[u8], place: &Place) -> Option<usize> {
    let member = place.member?;
    let mut at = begin(text, 0);
    if let MemberName::Depth | MemberName::Own | MemberName::CallLimit = member {
        at = member_at(text, at, "limits")?;
    }
    at = member_at(text, at, member.key())?;
    for step in [place.first, place.second, place.third] {
        if let Some(number) = step {
            at = element_at(text, at, number)?;
        }
    }
    Some(at)
}

/// The line and the column at which the value at a place begins. `None` if the text has no such value, and for the whole
/// document. The text is that of a document that is JSON. No clause speaks of any other text.
pub fn line_and_column(text: &[u8], place: &Place) -> Option<Position> {
    let at = found(text, place)?;
    Some(position_of(text, at))
}
