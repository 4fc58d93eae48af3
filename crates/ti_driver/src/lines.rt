//! Writes the lines of a walk, in chunks.

use crate::fault::Fault;
use crate::output::write_whole;
use std::alloc::{AllocError, Global};
use std::io::Write;
use ti_script::{Names, line_bound, line_text};
use ti_types::Outcome;

/// This many bytes are gathered before they are written.
pub(crate) const CHUNK: usize = 65_536;

/// A line that has at most this many bytes, by its bound, is not made to measure it.
pub(crate) const ESTIMATE: usize = 1_048_576;

/// A length in bytes that the line of an outcome does not exceed. It is the line's bound, if that is small. Otherwise the
/// line is made and measured. No method's name may be longer than `longest_name` bytes.
fn line_room(
    line: &mut String,
    methods: &Names,
    longest_name: usize,
    index: usize,
    outcome: &Option<Outcome>,
) -> Result<usize, AllocError>
    requires { AreNamesWithin longest_name methods.now }
    ensures { IfOk result (λ n. length (line_text methods.now index outcome.now) ≤ n) }
{
    if let Some(bound) = line_bound(longest_name, outcome) {
        if bound <= ESTIMATE {
            return Ok(bound);
        }
    }
    line.clear();
    line_text(line, methods, index, outcome)?;
    Ok(line.len())
}

/// A length in bytes that no line of these outcomes exceeds.
fn longest_line(
    alloc: Global,
    methods: &Names,
    outcomes: &[Option<Outcome>],
) -> Result<usize, AllocError>
    ensures { IfOk result (λ n. AreWithin n methods.now 0 outcomes.now) }
{
    let longest_name = methods.longest();
    let mut line = String::new(alloc);
    let mut longest = 0;
    for (index, outcome) in outcomes.iter().enumerate() {
        let room = line_room(&mut line, methods, longest_name, index, outcome)?;
        longest = longest.max(room);
    }
    Ok(longest)
}

/// Adds a line for which there is room.
fn add_line(text: &mut String, methods: &Names, index: usize, outcome: &Option<Outcome>)
    requires { string_len text.old + length (line_text methods.now index outcome.now) ≤ string_capacity text.old }
    ensures bytes { string_bytes text.new ≡ string_bytes text.old ++ line_text methods.now index outcome.now }
    ensures len { string_len text.new ≡ string_len text.old + length (line_text methods.now index outcome.now) }
    ensures room { string_capacity text.old ≤ string_capacity text.new }
{
    match line_text(text, methods, index, outcome) {
        Ok(()) => (),
        Err(_) => unreachable!(),
    }
}

/// Writes the text and empties it, if it has a whole chunk.
#[tactic(auto, using(crate::proofs::StreamLaws::parts))]
pub(crate) fn send_chunk<W: Write>(writer: &mut W, text: &mut String) -> Result<(), Fault>
    ensures ok { OnOk result (Sends (W.contents writer.old) (W.contents writer.new) (string_bytes text.old) (string_bytes text.new)) }
    ensures short { OnOk result (string_len text.new < 65536) }
    ensures room { string_capacity text.old ≤ string_capacity text.new }
    ensures err { IfErr result (λ e. e ≡ NotWritten) }
    ensures front { TakesFront (W.contents writer.old) (W.contents writer.new) (string_bytes text.old) }
{
    if text.len() < CHUNK {
        return Ok(());
    }
    write_whole(writer, text.as_bytes())?;
    text.clear();
    Ok(())
}

/// Writes the lines of the outcomes in chunks. The text is empty, and has room for a chunk and the longest line.
fn put_lines<W: Write>(
    writer: &mut W,
    methods: &Names,
    outcomes: &[Option<Outcome>],
    text: &mut String,
) -> Result<(), Fault>
    requires empty { string_bytes text.old ≡ [] }
    requires short { string_len text.old ≡ 0 }
    requires room { HasRoom (string_capacity text.old) methods.now 0 outcomes.now }
    ensures ok { OnOk result (Appends (W.contents writer.old) (W.contents writer.new) (lines_text methods.now 0 outcomes.now)) }
    ensures err { IfErr result (λ e. e ≡ NotWritten) }
    ensures front { TakesFront (W.contents writer.old) (W.contents writer.new) (lines_text methods.now 0 outcomes.now) }
{
    for (index, outcome) in outcomes.iter().enumerate() {
        add_line(text, methods, index, outcome);
        send_chunk(writer, text)?;
    }
    write_whole(writer, text.as_bytes())
}

/// An empty text that has room for a chunk and the longest line of these outcomes. The error is lack of memory.
fn room_for_lines(
    alloc: Global,
    methods: &Names,
    outcomes: &[Option<Outcome>],
) -> Result<String, AllocError>
    ensures empty { IfOk result (λ text. string_bytes text ≡ []) }
    ensures short { IfOk result (λ text. string_len text ≡ 0) }
    ensures room { IfOk result (λ text. HasRoom (string_capacity text) methods.now 0 outcomes.now) }
{
    let longest = longest_line(alloc, methods, outcomes)?;
    let Some(room) = CHUNK.checked_add(longest) else {
        return Err(AllocError);
    };
    String::with_capacity(alloc, room)
}

/// Writes the lines of the outcomes, in chunks of 64 KB and a line. All of its memory is taken before the first byte is
/// written.
pub(crate) fn write_lines<W: Write>(
    alloc: Global,
    writer: &mut W,
    methods: &Names,
    outcomes: &[Option<Outcome>],
) -> Result<(), Fault>
    ensures ok { OnOk result (Appends (W.contents writer.old) (W.contents writer.new) (lines_text methods.now 0 outcomes.now)) }
    ensures fault { IfErr result (λ e. e ≢ NotWritten → e ≡ Memory) }
    ensures front { result ≡ Err NotWritten → TakesFront (W.contents writer.old) (W.contents writer.new) (lines_text methods.now 0 outcomes.now) }
    ensures unwritten { IfErr result (λ e. e ≢ NotWritten → Keeps (W.contents writer.old) (W.contents writer.new)) }
{
    let mut text = room_for_lines(alloc, methods, outcomes)?;
    put_lines(writer, methods, outcomes, &mut text)
}

ghost use Rattle.std.specs.Prelude.{◌≡◌, ◌≢◌, ◌+◌, ◌++◌, ◌≤◌, ◌<◌, [], length, IfOk, OnOk, IfErr, Err, string_bytes};
ghost use Rattle.std.specs.Io.KnownBytes.{Appends, Keeps};
ghost use Rattle.std.specs.String.{string_len, string_capacity};
ghost use Rattle.ti_script.specs.Texts.{line_text, lines_text};
ghost use Rattle.ti_script.specs.Bounds.{AreNamesWithin};
ghost use Rattle.ti_driver.specs.declared.fault.Fault.TheVariants.{Memory, Write as NotWritten};
ghost use Rattle.ti_driver.specs.Lines.{AreWithin, HasRoom};
ghost use Rattle.ti_driver.specs.Streams.{TakesFront, Sends};
