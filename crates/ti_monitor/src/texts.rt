//! Pieces of texts: numbers, names within quotes, and lines.

use itoa::Buffer;
use std::alloc::{AllocError, Global};

/// Appends bytes. The error is lack of memory.
pub(crate) fn push(out: &mut Vec<u8>, bytes: &[u8]) -> Result<(), AllocError>
    ensures { OnOk result (out.new.items ≡ out.old.items ++ bytes.now) }
{
    out.extend_from_slice(bytes)
}

/// Appends a number in decimal. The error is lack of memory.
pub(crate) fn push_number(out: &mut Vec<u8>, number: u64) -> Result<(), AllocError>
    ensures { OnOk result (out.new.items ≡ out.old.items ++ decimal number) }
{
    let mut buffer = Buffer::new();
    out.extend_from_slice(buffer.format(number).as_bytes())
}

/// Appends a number with its sign, if it is below 0, in decimal. The error is lack of memory.
pub(crate) fn push_signed(out: &mut Vec<u8>, number: i32) -> Result<(), AllocError>
    ensures { OnOk result (out.new.items ≡ out.old.items ++ signed_decimal number) }
{
    let mut buffer = Buffer::new();
    out.extend_from_slice(buffer.format(number).as_bytes())
}

/// What one nanosecond is at each digit behind the point.
const DIGITS: [u64; 9] = [
    100_000_000,
    10_000_000,
    1_000_000,
    100_000,
    10_000,
    1_000,
    100,
    10,
    1,
];

/// Appends nanoseconds as seconds with nine digits behind the point. The error is lack of memory.
pub(crate) fn push_seconds(out: &mut Vec<u8>, nanos: u64) -> Result<(), AllocError>
    ensures { OnOk result (out.new.items ≡ out.old.items ++ seconds nanos) }
{
    push_number(out, nanos / 1_000_000_000)?;
    out.push(b'.')?;
    push_digits(out, nanos, &DIGITS)
}

/// Appends the digits of a number at these places. The error is lack of memory.
fn push_digits(out: &mut Vec<u8>, number: u64, places: &[u64]) -> Result<(), AllocError>
    requires { All (λ p. 0 < p) places.now }
    ensures { OnOk result (out.new.items ≡ out.old.items ++ map (digit_at number) places.now) }
{
    for place in places {
        out.push((48 + number / *place % 10) as u8)?;
    }
    Ok(())
}

/// A hexadecimal digit.
fn hex_digit(value: u8) -> u8
    requires { value < 16 }
    ensures { result ≡ hex_digit value }
{
    if value < 10 { 48 + value } else { 87 + value }
}

/// Appends a byte of a text within quotes. The error is lack of memory.
fn push_escaped_byte(out: &mut Vec<u8>, byte: u8) -> Result<(), AllocError>
    ensures { OnOk result (out.new.items ≡ out.old.items ++ escaped_byte byte) }
{
    match byte {
        b'"' => push(out, b"\\\""),
        b'\\' => push(out, b"\\\\"),
        8 => push(out, b"\\b"),
        9 => push(out, b"\\t"),
        10 => push(out, b"\\n"),
        12 => push(out, b"\\f"),
        13 => push(out, b"\\r"),
        _ => push_other_byte(out, byte),
    }
}

/// Whether a byte is a control character.
fn is_control(byte: u8) -> bool
    ensures { result ≡ is_control byte }
{
    byte < 32 || byte == 127
}

/// Appends a byte as it is, or a control character by its number. The error is lack of memory.
fn push_other_byte(out: &mut Vec<u8>, byte: u8) -> Result<(), AllocError>
    ensures { OnOk result (out.new.items ≡ out.old.items ++ numbered_byte byte) }
{
    if !is_control(byte) {
        out.push(byte)?;
        return Ok(());
    }
    push(out, b"\\u00")?;
    out.push(hex_digit(byte / 16))?;
    out.push(hex_digit(byte % 16))?;
    Ok(())
}

/// Appends a text as it stands within quotes: `"`, `\` and control characters are escaped as in JSON. The error is lack of
/// memory.
pub(crate) fn push_escaped(out: &mut Vec<u8>, text: &str) -> Result<(), AllocError>
    ensures { OnOk result (out.new.items ≡ out.old.items ++ escaped text.now) }
{
    let bytes = text.as_bytes();
    for byte in bytes {
        push_escaped_byte(out, *byte)?;
    }
    Ok(())
}

/// Appends a byte as it is, or a control character as within quotes. The error is lack of memory.
fn push_visible_byte(out: &mut Vec<u8>, byte: u8) -> Result<(), AllocError>
    ensures { OnOk result (out.new.items ≡ out.old.items ++ visible_byte byte) }
{
    if is_control(byte) {
        return push_escaped_byte(out, byte);
    }
    out.push(byte)?;
    Ok(())
}

/// Appends a text, with its control characters as they stand within quotes. The error is lack of memory.
fn push_visible(out: &mut Vec<u8>, text: &str) -> Result<(), AllocError>
    ensures { OnOk result (out.new.items ≡ out.old.items ++ visible text.now) }
{
    let bytes = text.as_bytes();
    for byte in bytes {
        push_visible_byte(out, *byte)?;
    }
    Ok(())
}

/// A text with its control characters as they stand within quotes. The error is lack of memory.
pub(crate) fn visible(alloc: Global, text: &str) -> Result<String, AllocError>
    ensures { IfOk result (λ s. string_bytes s ≡ visible text.now) }
{
    let mut bytes = Vec::new(alloc);
    push_visible(&mut bytes, text)?;
    // What is ASCII stays so, and the rest as it is. So this is UTF-8, and an error never comes.
    match String::from_utf8(bytes) {
        Ok(text) => Ok(text),
        Err(_) => Err(AllocError),
    }
}

/// Appends a byte of a text in JSON, which has all control characters but this one escaped. The error is lack of memory.
fn push_json_byte(out: &mut Vec<u8>, byte: u8) -> Result<(), AllocError>
    ensures { OnOk result (out.new.items ≡ out.old.items ++ json_byte byte) }
{
    if byte == 127 {
        return push(out, b"\\u007f");
    }
    out.push(byte)?;
    Ok(())
}

/// Appends a text in JSON, with the control character that JSON leaves as it is escaped. The error is lack of memory.
pub(crate) fn push_json(out: &mut Vec<u8>, bytes: &[u8]) -> Result<(), AllocError>
    ensures { OnOk result (out.new.items ≡ out.old.items ++ plain_json bytes.now) }
{
    for byte in bytes {
        push_json_byte(out, *byte)?;
    }
    Ok(())
}

ghost use Rattle.std.specs.Prelude.{◌≡◌, ◌++◌, ◌<◌, All, IfOk, OnOk, decimal, map};
ghost use Rattle.std.specs.Fmt.{signed_decimal};
ghost use Rattle.std.specs.String.{string_bytes};
ghost use Rattle.ti_monitor.specs.Texts.{digit_at, escaped, escaped_byte, hex_digit, is_control, json_byte, numbered_byte, plain_json, seconds, visible, visible_byte};
