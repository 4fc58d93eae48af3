//! A JSON parser that counts the values of a document and sums up its numbers.

use crate::method::Method;
use crate::worker::{Spent, Worker};
use std::alloc::{AllocError, Global};
use std::fmt::Write;
use std::sync::Wait;

/// How deep arrays and objects may be nested.
const DEPTH: u32 = 16;

/// It polls once in this many bytes.
const STRIDE: usize = 64;

/// What was found in a document.
#[derive(Clone, Copy)]
pub struct Found {
    /// How many numbers, strings, arrays and objects there are.
    pub values: u64,
    /// The sum of the numbers, modulo 2^64.
    pub sum: u64,
    /// Whether the text has one value, and nothing but white space after it.
    pub whole: bool,
}

/// A document, and how far it was read.
#[derive(Drop)]
struct Reader<'t> {
    text: &'t [u8],
    at: usize,
    values: u64,
    sum: u64,
}

impl<'t> Reader<'t> {
    /// The next byte, or 0 at the end.
    fn peek(&self) -> u8 {
        match self.text.get(self.at) {
            Some(byte) => *byte,
            None => 0,
        }
    }

    /// Goes past one byte.
    fn advance(&mut self) {
        self.at = self.at.saturating_add(1);
    }

    /// Goes past white space.
    fn skip_space(&mut self) {
        for _ in self.at..self.text.len() {
            match self.peek() {
                b' ' | b'\n' | b'\t' | b'\r' => self.advance(),
                _ => return,
            }
        }
    }

    /// Goes past white space and this byte, and gives whether the byte was there.
    fn eat(&mut self, byte: u8) -> bool {
        self.skip_space();
        let there = self.peek() == byte;
        if there {
            self.advance();
        }
        there
    }

    /// Goes past the digits of a number, and adds the number to the sum.
    fn number(&mut self) {
        let mut number: u64 = 0;
        for _ in self.at..self.text.len() {
            let byte = self.peek();
            if !byte.is_ascii_digit() {
                break;
            }
            number = number.wrapping_mul(10).wrapping_add(u64::from(byte - b'0'));
            self.advance();
        }
        self.sum = self.sum.wrapping_add(number);
    }

    /// Goes past the key of a member and the colon after it, and gives whether both were there.
    fn key(&mut self) -> bool {
        if !self.eat(b'"') {
            return false;
        }
        for _ in self.at..self.text.len() {
            let byte = self.peek();
            self.advance();
            if byte == b'"' {
                return self.eat(b':');
            }
        }
        false
    }
}

/// Goes past the rest of a string, and gives whether it ends.
fn parse_string<R: Wait>(
    rt: &R,
    worker: &mut Worker,
    reader: &mut Reader<'_>,
) -> Result<bool, Spent>
    ensures same { worker.new ≡ worker.old }
{
    worker.enter(Method::ParseString)?;
    let mut ends = false;
    for i in reader.at..reader.text.len() {
        if i % STRIDE == 0 {
            worker.poll(rt);
        }
        let byte = reader.peek();
        reader.advance();
        if byte == b'"' {
            ends = true;
            break;
        }
        if byte == b'\\' {
            reader.advance();
        }
    }
    worker.leave()?;
    Ok(ends)
}

/// What has values inside.
#[derive(Clone, Copy)]
enum Group {
    Array,
    Object,
}

impl Group {
    /// The method in which it is parsed.
    fn method(self) -> Method {
        match self {
            Group::Array => Method::ParseArray,
            Group::Object => Method::ParseObject,
        }
    }

    /// The byte that ends it.
    fn end(self) -> u8 {
        match self {
            Group::Array => b']',
            Group::Object => b'}',
        }
    }

    /// Goes past what comes before a value in it, and gives whether it was there.
    fn begin_value(self, reader: &mut Reader<'_>) -> bool {
        match self {
            Group::Array => true,
            Group::Object => reader.key(),
        }
    }
}

#[cycle(parsing)]
/// Goes past the rest of an array or an object, and gives whether it is well formed.
fn parse_group<R: Wait>(
    rt: &R,
    worker: &mut Worker,
    reader: &mut Reader<'_>,
    group: Group,
    depth: u32,
) -> Result<bool, Spent>
    ensures same { worker.new ≡ worker.old }
{
    worker.enter(group.method())?;
    let mut well = reader.eat(group.end());
    if !well {
        for _ in reader.at..reader.text.len() {
            worker.poll(rt);
            if !group.begin_value(reader) || !parse_value(rt, worker, reader, depth)? {
                break;
            }
            if !reader.eat(b',') {
                well = reader.eat(group.end());
                break;
            }
        }
    }
    worker.leave()?;
    Ok(well)
}

#[cycle(parsing)]
/// Goes past a value, and gives whether it is well formed and no deeper than `depth`.
fn parse_value<R: Wait>(
    rt: &R,
    worker: &mut Worker,
    reader: &mut Reader<'_>,
    depth: u32,
) -> Result<bool, Spent>
    ensures same { worker.new ≡ worker.old }
{
    if depth == 0 {
        return Ok(false);
    }
    reader.skip_space();
    reader.values = reader.values.wrapping_add(1);
    match reader.peek() {
        b'{' => {
            reader.advance();
            parse_group(rt, worker, reader, Group::Object, depth - 1)
        }
        b'[' => {
            reader.advance();
            parse_group(rt, worker, reader, Group::Array, depth - 1)
        }
        b'"' => {
            reader.advance();
            parse_string(rt, worker, reader)
        }
        byte => {
            reader.number();
            Ok(byte.is_ascii_digit())
        }
    }
}

/// Parses a document, with polls and a frame for each method. `Spent` if the thread can go no further.
pub fn parse<R: Wait>(rt: &R, worker: &mut Worker, text: &[u8]) -> Result<Found, Spent>
    ensures same { worker.new ≡ worker.old }
{
    worker.enter(Method::Parse)?;
    let mut reader = Reader {
        text,
        at: 0,
        values: 0,
        sum: 0,
    };
    let well = parse_value(rt, worker, &mut reader, DEPTH)?;
    reader.skip_space();
    worker.leave()?;
    Ok(Found {
        values: reader.values,
        sum: reader.sum,
        whole: well && reader.at >= text.len(),
    })
}

/// Writes an array of `count` numbers.
fn write_series(text: &mut String, count: u32) -> Result<(), AllocError> {
    text.push_str("[0")?;
    for i in 1..count {
        let number = i.wrapping_mul(7919) % 100_000;
        write!(text, ", {number}")?;
    }
    text.push_str("]")
}

/// Writes a string of `count` letters.
fn write_letters(text: &mut String, count: u32) -> Result<(), AllocError> {
    text.push_str("\"")?;
    for _ in 0..count / 8 {
        text.push_str("a letter")?;
    }
    text.push_str("\"")
}

/// Writes an object of a few arrays and strings.
fn write_document(text: &mut String, numbers: u32) -> Result<(), AllocError> {
    let letters = numbers.saturating_mul(5) / 2;
    text.push_str("{\"series\": ")?;
    write_series(text, numbers)?;
    text.push_str(", \"inner\": {\"letters\": ")?;
    write_letters(text, letters)?;
    text.push_str(", \"rows\": [")?;
    write_series(text, numbers / 4)?;
    text.push_str(", ")?;
    write_series(text, numbers / 4)?;
    text.push_str("]}, \"more\": ")?;
    write_letters(text, letters)?;
    text.push_str("}")
}

/// A document: an object of a few arrays and strings. The longest array has so many numbers, and there are some 15 bytes for
/// each. The error is lack of memory.
pub fn document(alloc: Global, numbers: u32) -> Result<String, AllocError> {
    let mut text = String::new(alloc);
    write_document(&mut text, numbers)?;
    Ok(text)
}

ghost use Rattle.std.specs.Prelude.{◌≡◌};
