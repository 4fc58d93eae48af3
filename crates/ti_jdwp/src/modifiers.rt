//! The modifiers of an event request, which say which events it is for.

use crate::error::JdwpError;
use crate::fields::{int, long};
use crate::request::Range;

/// Modifiers of a request, at most.
pub const MAX_MODIFIERS: u32 = 64;

/// Which events a request is for, as far as one modifier says. Ranges are those of patterns, within the data of the request.
#[derive(Clone, Copy, Debug, PartialEq, Eq)]
pub enum Modifier {
    /// 1: the event with this number of those that the other modifiers let through, and none after it. 1 to 2^31 - 1.
    Count(i32),
    /// 3: events at the thread with this id.
    ThreadOnly(u64),
    /// 4: events of the class with this id.
    ClassOnly(u64),
    /// 5: events of classes whose names match the pattern.
    ClassMatch(Range),
    /// 6: events of classes whose names do not match the pattern.
    ClassExclude(Range),
    /// 7: breakpoints at this location of a method, by the ids of its class and of it. The tag of the class is not looked at.
    LocationOnly { class: u64, method: u64, index: u64 },
    /// 10: steps of the thread with this id. A size of 0 is MIN and 1 LINE. A depth of 0 is INTO, 1 OVER and 2 OUT.
    Step { thread: u64, size: u32, depth: u32 },
    /// Another one that JDWP has: 2, 8, 9, or 11 to 13.
    Other,
}

/// How many bytes the fields of a modifier take, where `rest` begins with them.
fn fields_len(number: u8, rest: &[u8]) -> Result<usize, JdwpError>
    ensures { result ≡ fields_len number rest.now }
{
    match number {
        1 | 2 => within(4, rest),
        3 | 4 | 11 => within(8, rest),
        5 | 6 | 12 => text_len(rest),
        7 => within(25, rest),
        8 => within(10, rest),
        9 | 10 => within(16, rest),
        13 => within(0, rest),
        _ => Err(JdwpError::IllegalArgument),
    }
}

/// This many bytes, if they are there.
fn within(len: usize, rest: &[u8]) -> Result<usize, JdwpError>
    ensures { result ≡ within len rest.now }
{
    if len <= rest.len() {
        Ok(len)
    } else {
        Err(JdwpError::IllegalArgument)
    }
}

/// How many bytes a text takes, with its length, where `rest` begins with one.
pub(crate) fn text_len(rest: &[u8]) -> Result<usize, JdwpError>
    ensures { result ≡ text_len rest.now }
{
    if rest.len() < 4 {
        return Err(JdwpError::IllegalArgument);
    }
    let len = int(rest, 0);
    if len > i32::MAX as u32 {
        return Err(JdwpError::IllegalArgument);
    }
    within(4 + len as usize, rest)
}

/// What a modifier says whose fields begin `rest`, and stand from `start` to `end` in the data.
fn made(number: u8, rest: &[u8], start: usize, end: usize) -> Result<Modifier, JdwpError>
    requires fields { fields_len number rest.now ≡ Ok (end - start) }
    requires end { start ≤ end }
    ensures { result ≡ made number rest.now start end }
{
    match number {
        1 => {
            let count = int(rest, 0);
            if count == 0 || count > i32::MAX as u32 {
                Err(JdwpError::IllegalArgument)
            } else {
                Ok(Modifier::Count(count as i32))
            }
        }
        3 => Ok(Modifier::ThreadOnly(long(rest, 0))),
        4 => Ok(Modifier::ClassOnly(long(rest, 0))),
        5 => Ok(Modifier::ClassMatch(Range {
            start: start + 4,
            end,
        })),
        6 => Ok(Modifier::ClassExclude(Range {
            start: start + 4,
            end,
        })),
        7 => Ok(Modifier::LocationOnly {
            class: long(rest, 1),
            method: long(rest, 9),
            index: long(rest, 17),
        }),
        10 => Ok(Modifier::Step {
            thread: long(rest, 0),
            size: int(rest, 8),
            depth: int(rest, 12),
        }),
        _ => Ok(Modifier::Other),
    }
}

/// Reads the modifier at this place in the data of a request, and says where the next one begins.
///
/// Fails with 103 ILLEGAL_ARGUMENT if the number of the modifier is not 1 to 13, if its fields are not all there, or if it is
/// a count below 1.
pub fn read_modifier(bytes: &[u8], at: usize) -> Result<(Modifier, usize), JdwpError>
    // What is read is what the bytes spell.
    ensures found { IfOk result (λ m. StandsAt at bytes.now m.0 m.1) }
    // What the bytes spell is read.
    ensures only { (m : Modifier) → (next : ℕ) → StandsAt at bytes.now m next → result ≡ Ok (m, next) }
    ensures exact { result ≡ modifier_at at bytes.now }
{
    said_at(bytes, at)
}

fn said_at(bytes: &[u8], at: usize) -> Result<(Modifier, usize), JdwpError>
    ensures { result ≡ modifier_at at bytes.now }
{
    if at >= bytes.len() {
        return Err(JdwpError::IllegalArgument);
    }
    let rest = &bytes[at + 1..];
    let end = at + 1 + fields_len(bytes[at], rest)?;
    let said = made(bytes[at], rest, at + 1, end)?;
    Ok((said, end))
}

/// Where the data goes on behind this many modifiers, which begin at `at`.
pub(crate) fn end_of_modifiers(bytes: &[u8], at: usize, count: u32) -> Result<usize, JdwpError>
    ensures { result ≡ modifiers_end count at bytes.now }
{
    let mut end = at;
    for _ in 0..count {
        let (_, next) = said_at(bytes, end)?;
        end = next;
    }
    Ok(end)
}

ghost use Rattle.std.specs.Prelude.{◌≡◌, ℕ, ◌-◌, ◌≤◌, drop, Ok, IfOk};
ghost use Rattle.ti_jdwp.specs.declared.modifiers.Modifier.{Modifier};
ghost use Rattle.ti_jdwp.specs.Patterns.{StandsAt};
ghost use Rattle.ti_jdwp.specs.Modifiers.{fields_len, within, text_len, made, modifier_at, modifiers_end};
