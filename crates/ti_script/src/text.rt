//! The texts of answers and outcomes.
//!
//! Each function here adds its text to the end of `out`. It takes no memory if `out` has room for the text.

use crate::names::Names;
use itoa::Buffer;
use std::alloc::AllocError;
use ti_types::{Answer, Caps, Frame, Outcome, Place, TiError};

/// Adds a text.
pub(crate) fn put_text(out: &mut String, text: &str) -> Result<(), AllocError>
    ensures { Adds result (written out.old) (written out.new) text.now }
{
    out.push_str(text)
}

/// Adds the name of this number, or nothing if no name has it.
pub(crate) fn put_name(out: &mut String, names: &Names, number: u32) -> Result<(), AllocError>
    ensures { Adds result (written out.old) (written out.new) (name_text names.now number) }
{
    put_text(out, names.name(number).unwrap_or(""))
}

/// Adds a number in decimal.
#[tactic(auto, using(crate::proofs::RoomLaws::one_digit_decimal))]
pub(crate) fn put_number(out: &mut String, number: u64) -> Result<(), AllocError>
    ensures { Adds result (written out.old) (written out.new) (decimal number) }
{
    if number < 10 {
        return put_text(out, hexadecimal_digit(number as u32));
    }
    let mut digits = Buffer::new();
    put_text(out, digits.format(number))
}

/// A digit of a hexadecimal number, in small letters.
fn hexadecimal_digit(digit: u32) -> &'static str
    requires { digit < 16 }
    ensures { result.now ≡ digit_glyph false digit ∷ [] }
{
    match digit {
        0 => "0",
        1 => "1",
        2 => "2",
        3 => "3",
        4 => "4",
        5 => "5",
        6 => "6",
        7 => "7",
        8 => "8",
        9 => "9",
        10 => "a",
        11 => "b",
        12 => "c",
        13 => "d",
        14 => "e",
        _ => "f",
    }
}

#[tactic(auto, using(crate::proofs::RoomLaws::hexadecimal, crate::proofs::FrontLaws::fronts))]
fn put_hexadecimal(out: &mut String, number: u32) -> Result<(), AllocError>
    ensures { Adds result (written out.old) (written out.new) (digits 16 false number) }
{
    if number < 16 {
        return put_text(out, hexadecimal_digit(number));
    }
    put_hexadecimal(out, number / 16)?;
    put_text(out, hexadecimal_digit(number % 16))
}

fn put_place(out: &mut String, place: Place) -> Result<(), AllocError>
    ensures { Adds result (written out.old) (written out.new) (place_text place) }
{
    match place {
        Place::Java(place) => put_number(out, u64::from(place)),
        Place::Native => put_text(out, "-1"),
    }
}

fn put_frame(out: &mut String, methods: &Names, frame: Frame) -> Result<(), AllocError>
    ensures { Adds result (written out.old) (written out.new) (frame_text methods.now frame) }
{
    put_name(out, methods, frame.method.0)?;
    put_text(out, "@")?;
    put_place(out, frame.place)
}

/// Adds a word and a frame.
fn put_frame_behind(
    out: &mut String,
    word: &str,
    methods: &Names,
    frame: Frame,
) -> Result<(), AllocError>
    ensures { Adds result (written out.old) (written out.new) (word.now ++ frame_text methods.now frame) }
{
    put_text(out, word)?;
    put_frame(out, methods, frame)
}

/// Adds a space and a frame, for each frame.
fn put_frames(out: &mut String, methods: &Names, frames: &[Frame]) -> Result<(), AllocError>
    ensures { Adds result (written out.old) (written out.new) (frames_text methods.now frames.now) }
{
    for frame in frames {
        put_frame_behind(out, " ", methods, *frame)?;
    }
    Ok(())
}

/// Adds a space and a word.
fn put_behind(out: &mut String, word: &str) -> Result<(), AllocError>
    ensures { Adds result (written out.old) (written out.new) (codes " " ++ word.now) }
{
    put_text(out, " ")?;
    put_text(out, word)
}

#[tactic(auto, unfolding(crate::specs::Texts::held_text))]
fn put_held(out: &mut String, held: Caps, cap: Caps, name: &str) -> Result<(), AllocError>
    ensures { Adds result (written out.old) (written out.new) (held_text held cap.bits name.now) }
{
    if held.has(cap) {
        put_behind(out, name)
    } else {
        Ok(())
    }
}

fn put_later_caps(out: &mut String, held: Caps) -> Result<(), AllocError>
    ensures { Adds result (written out.old) (written out.new) (held_text held 2 (codes "can_pop_frame") ++ held_text held 4 (codes "can_tag_objects")) }
{
    put_held(out, held, Caps::CAN_POP_FRAME, "can_pop_frame")?;
    put_held(out, held, Caps::CAN_TAG_OBJECTS, "can_tag_objects")
}

fn put_caps(out: &mut String, held: Caps) -> Result<(), AllocError>
    ensures { Adds result (written out.old) (written out.new) (codes "caps" ++ caps_text held) }
{
    put_text(out, "caps")?;
    put_held(out, held, Caps::CAN_SUSPEND, "can_suspend")?;
    put_later_caps(out, held)
}

/// Adds `0x` and state bits in hexadecimal.
fn put_bits(out: &mut String, bits: u32) -> Result<(), AllocError>
    ensures { Adds result (written out.old) (written out.new) (bits_text bits) }
{
    put_text(out, "0x")?;
    put_hexadecimal(out, bits)
}

/// Adds a word and a number.
pub(crate) fn put_counted(out: &mut String, word: &str, number: u64) -> Result<(), AllocError>
    ensures { Adds result (written out.old) (written out.new) (word.now ++ decimal number) }
{
    put_text(out, word)?;
    put_number(out, number)
}

/// Adds `error` and the number of an error.
pub(crate) fn put_error(out: &mut String, error: TiError) -> Result<(), AllocError>
    ensures { Adds result (written out.old) (written out.new) (error_text error) }
{
    put_counted(out, "error ", u64::from(error.number()))
}

/// Adds a word, state bits and frames.
pub(crate) fn put_look(
    out: &mut String,
    word: &str,
    methods: &Names,
    state: u32,
    frames: &[Frame],
) -> Result<(), AllocError>
    ensures { Adds result (written out.old) (written out.new) (word.now ++ (bits_text state ++ frames_text methods.now frames.now)) }
{
    put_text(out, word)?;
    put_bits(out, state)?;
    put_frames(out, methods, frames)
}

fn put_state(out: &mut String, bits: u32) -> Result<(), AllocError>
    ensures { Adds result (written out.old) (written out.new) (codes "state " ++ bits_text bits) }
{
    put_text(out, "state ")?;
    put_bits(out, bits)
}

fn put_trace(out: &mut String, methods: &Names, frames: &[Frame]) -> Result<(), AllocError>
    ensures { Adds result (written out.old) (written out.new) (codes "trace" ++ frames_text methods.now frames.now) }
{
    put_text(out, "trace")?;
    put_frames(out, methods, frames)
}

/// Adds the text of an answer.
pub(crate) fn put_answer(
    out: &mut String,
    methods: &Names,
    answer: &Answer,
) -> Result<(), AllocError>
    ensures { Adds result (written out.old) (written out.new) (answer_text methods.now answer.now) }
{
    match answer {
        Answer::Done => put_text(out, "ok"),
        Answer::State(bits) => put_state(out, *bits),
        Answer::Count(count) => put_counted(out, "count ", u64::from(*count)),
        Answer::Trace(trace) => put_trace(out, methods, trace.frames()),
        Answer::Location(frame) => put_frame_behind(out, "location ", methods, *frame),
        Answer::Word(word) => put_counted(out, "word ", *word),
        Answer::Caps(caps) => put_caps(out, *caps),
        Answer::Stack { state, frames } => {
            put_look(out, "stack ", methods, *state, frames.frames())
        }
        Answer::Refused(error) => put_error(out, *error),
    }
}

/// Adds the text of an outcome to the end of `out`: `ok`, `clear`, `count 3`, `error 15`, `trace b@0 a@3` and the like.
///
/// A call that is still unanswered, or has only a ticket, is `unanswered`. A method's number without a name adds no name. It
/// takes no memory if `out` has room for the text. An error says that there was no room, and that memory ran out. Then a
/// prefix of the text has been added. Source: this profile.
#[tactic(auto, using(crate::proofs::FrontLaws::fronts))]
pub fn outcome_text(
    out: &mut String,
    methods: &Names,
    outcome: &Option<Outcome>,
) -> Result<(), AllocError>
    ensures ok { OnOk result (string_bytes out.new ≡ string_bytes out.old ++ outcome_text methods.now outcome.now) }
    ensures len { OnOk result (string_len out.new ≡ string_len out.old + length (outcome_text methods.now outcome.now)) }
    ensures room { string_capacity out.old ≤ string_capacity out.new }
    ensures full { OnErr result (string_capacity out.old < string_len out.old + length (outcome_text methods.now outcome.now)) }
    ensures front { AddsFront (string_bytes out.old) (string_bytes out.new) (outcome_text methods.now outcome.now) }
{
    match outcome {
        None => out.push_str("unanswered"),
        Some(Outcome::Done) => out.push_str("ok"),
        Some(Outcome::Clear) => out.push_str("clear"),
        Some(Outcome::Went) => out.push_str("went"),
        Some(Outcome::Held) => out.push_str("held"),
        Some(Outcome::Refused(error)) => put_error(out, *error),
        Some(Outcome::Gave(answer)) => put_answer(out, methods, answer),
        Some(Outcome::Posted(_)) => out.push_str("unanswered"),
    }
}

/// Adds the line of an outcome to the end of `out`: the event's index from 0, a space, the outcome's text, and a line feed.
///
/// It takes no memory if `out` has room for the line. An error says that there was no room, and that memory ran out. Then a
/// prefix of the line has been added. Source: this profile.
#[tactic(auto, using(crate::proofs::RoomLaws::lengths, crate::proofs::FrontLaws::fronts))]
pub fn line_text(
    out: &mut String,
    methods: &Names,
    index: usize,
    outcome: &Option<Outcome>,
) -> Result<(), AllocError>
    ensures ok { OnOk result (string_bytes out.new ≡ string_bytes out.old ++ line_text methods.now index outcome.now) }
    ensures len { OnOk result (string_len out.new ≡ string_len out.old + length (line_text methods.now index outcome.now)) }
    ensures room { string_capacity out.old ≤ string_capacity out.new }
    ensures full { OnErr result (string_capacity out.old < string_len out.old + length (line_text methods.now index outcome.now)) }
    ensures front { AddsFront (string_bytes out.old) (string_bytes out.new) (line_text methods.now index outcome.now) }
{
    put_number(out, index as u64)?;
    out.push_str(" ")?;
    outcome_text(out, methods, outcome)?;
    out.push_str("\n")
}

ghost use Rattle.std.specs.Prelude.{◌≡◌, ◌++◌, ◌+◌, ◌<◌, ◌≤◌, ◌∷◌, [], false, codes, length, decimal, OnOk, OnErr, string_bytes};
ghost use Rattle.std.specs.String.{string_len, string_capacity};
ghost use Rattle.std.specs.Fmt.{digits, digit_glyph};
ghost use Rattle.ti_script.specs.Texts.{place_text, frame_text, frames_text, held_text, caps_text, bits_text, error_text, answer_text, outcome_text, line_text, written, Adds, AddsFront};
ghost use Rattle.ti_script.specs.LiveTexts.{name_text};
