//! Words about a document that is no JSON.

use std::alloc::{AllocError, Global};

/// The byte at a line and a column, counted from 1, and how many arrays and objects are open before it.
fn byte_at(text: &[u8], line: usize, column: usize) -> (Option<u8>, usize) {
    let mut here = 1usize;
    let mut along = 0usize;
    let mut depth = 0usize;
    for byte in text {
        along = along.saturating_add(1);
        if here == line && along == column {
            return (Some(*byte), depth);
        }
        if *byte == b'\n' {
            here = here.saturating_add(1);
            along = 0;
        } else if *byte == b'[' || *byte == b'{' {
            depth = depth.saturating_add(1);
        } else if *byte == b']' || *byte == b'}' {
            depth = depth.saturating_sub(1);
        }
    }
    (None, depth)
}

/// What is said of a byte that may not stand where it does.
fn of_byte(byte: u8) -> &'static str {
    match byte {
        b'[' | b'{' | b'"' => "an element begins there; is a comma or a colon missing before it?",
        b']' | b'}' =>
            "a bracket closes there; is a comma too many before it, or another bracket meant?",
        b',' => "a comma stands there; is it one too many?",
        b'\'' => "a single quote stands there; texts stand between double quotes",
        b'/' | b'#' => "JSON has no comments",
        _ => if byte < 32 {
            "a control character stands there; write it with a backslash"
        } else {
            "this is not allowed there"
        },
    }
}

/// What is said of a text that is refused at this line and column.
pub(crate) fn json_words(
    alloc: Global,
    text: &[u8],
    line: usize,
    column: usize,
) -> Result<String, AllocError> {
    let words = if text.starts_with(b"\xef\xbb\xbf") {
        "a byte order mark stands there; save the document without it"
    } else if str::from_utf8(text).is_err() {
        "the document is no UTF-8"
    } else {
        match byte_at(text, line, column) {
            (_, 127..) => "more than 127 arrays and objects inside each other",
            (Some(byte), _) => of_byte(byte),
            (None, _) => "the text ends there; a bracket or a quote is not closed",
        }
    };
    String::from_str(alloc, words)
}
