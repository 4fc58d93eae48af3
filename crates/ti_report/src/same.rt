//! Whether calls, frames and answers are the same.

use ti_types::{Answer, Call, Entry, Event, Frame};

/// Whether two calls are the same.
pub fn same_call(one: Call, other: Call) -> bool
    ensures { result ≡ same_call one other }
{
    match (one, other) {
        (Call::State, Call::State)
        | (Call::FrameCount, Call::FrameCount)
        | (Call::Suspend, Call::Suspend)
        | (Call::Resume, Call::Resume)
        | (Call::GetWord, Call::GetWord)
        | (Call::Pop, Call::Pop) => true,
        (
            Call::Trace { start, max_count },
            Call::Trace {
                start: other_start,
                max_count: other_count,
            },
        ) => {
            start <= other_start
                && other_start <= start
                && (max_count <= other_count && other_count <= max_count)
        }
        (Call::Location { depth }, Call::Location { depth: other_depth }) => {
            depth <= other_depth && other_depth <= depth
        }
        (Call::SetWord(word), Call::SetWord(other_word)) => word == other_word,
        _ => false,
    }
}

/// Whether an event leaves this entry.
#[inline(always)]
pub fn asks_same(event: Event, entry: Entry) -> bool
    ensures { result ≡ asks_same event entry }
{
    match (event, entry) {
        (Event::Ask(_, _, call), Entry::Asked(_, _, other)) => same_call(call, other),
        (Event::Read(_, _, count), Entry::Read(_, other)) => count <= other && other <= count,
        (Event::Stop(_, _), Entry::Stop(_)) | (Event::Go(_, _), Entry::Go(_)) => true,
        _ => false,
    }
}

fn same_frame(one: Frame, other: Frame) -> bool
    ensures { (result ≡ true) ↔ (one ≡ other) }
{
    one == other
}

/// Whether two lists of frames are the same.
pub fn same_frames(one: &[Frame], other: &[Frame]) -> bool
    ensures { (result ≡ true) ↔ (one.now ≡ other.now) }
{
    if one.len() != other.len() {
        return false;
    }
    for i in 0..one.len() {
        if !same_frame(one[i], other[i]) {
            return false;
        }
    }
    true
}

/// Whether two answers say the same.
pub fn same_answer(one: &Answer, other: &Answer) -> bool
    ensures { (result ≡ true) ↔ (said one.now ≡ said other.now) }
{
    match (one, other) {
        (Answer::Done, Answer::Done) => true,
        (Answer::State(a), Answer::State(b)) => a == b,
        (Answer::Count(a), Answer::Count(b)) => a == b,
        (Answer::Trace(a), Answer::Trace(b)) => same_frames(a.frames(), b.frames()),
        (Answer::Location(a), Answer::Location(b)) => a == b,
        (Answer::Word(a), Answer::Word(b)) => a == b,
        (Answer::Caps(a), Answer::Caps(b)) => a == b,
        (
            Answer::Stack { state, frames },
            Answer::Stack {
                state: other_state,
                frames: other_frames,
            },
        ) => state == other_state && same_frames(frames.frames(), other_frames.frames()),
        (Answer::Refused(a), Answer::Refused(b)) => a == b,
        _ => false,
    }
}

ghost use Rattle.std.specs.Prelude.{◌≡◌, ◌↔◌, true};
ghost use Rattle.ti_types.specs.Answer.{said};
ghost use Rattle.ti_report.specs.Told.{same_call, asks_same};
