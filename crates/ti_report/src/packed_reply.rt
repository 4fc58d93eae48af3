//! What an entry got, in few bytes.

use crate::same::same_frames;
use std::alloc::AllocError;
use ti_types::{Answer, Caps, Frame, TiError};

/// Some frames among all those of a book.
#[derive(Clone, Copy)]
pub struct Span {
    /// The index of the first of them.
    pub first: u32,
    /// How many frames they are.
    pub count: u32,
}

/// What an entry got: its answer, with the frames kept in a book. It is half as large as an answer.
#[derive(Clone, Copy)]
pub enum Got {
    /// There is no answer.
    Nothing,
    Done,
    State(u32),
    Count(u32),
    Trace(Span),
    Location(Frame),
    Word(u64),
    Caps(Caps),
    Stack(u32, Span),
    Refused(TiError),
}

/// Whether a list of frames ends with these.
fn ends_with(frames: &[Frame], these: &[Frame]) -> bool
    ensures { result ≡ true → (front : List Frame) × (frames.now ≡ front ++ these.now) }
{
    if these.len() > frames.len() {
        return false;
    }
    same_frames(&frames[frames.len() - these.len()..], these)
}

/// Where these frames are in the list, after they were added at its end if they were not there already. So all traces of a
/// thread that does not move are at one place.
///
/// The error is lack of memory, or more than 2^32 - 1 frames in all.
fn keep(frames: &mut Vec<Frame>, these: &[Frame]) -> Result<Span, AllocError>
    ensures grows { OnOk result ((more : List Frame) × (frames.new.items ≡ frames.old.items ++ more)) }
    ensures span { IfOk result (λ s. (more : List Frame) → spanned (frames.new.items ++ more) s ≡ these.now) }
{
    if !ends_with(frames, these) {
        frames.extend_from_slice(these)?;
    }
    let end = frames.len();
    if end > u32::MAX as usize {
        return Err(AllocError);
    }
    Ok(Span {
        first: (end - these.len()) as u32,
        count: these.len() as u32,
    })
}

/// What an entry with this reply got. The errors are those of `keep`.
#[inline(always)]
pub fn got_of(frames: &mut Vec<Frame>, reply: &Option<Answer>) -> Result<Got, AllocError>
    ensures grows { OnOk result ((more : List Frame) × (frames.new.items ≡ frames.old.items ++ more)) }
    ensures got { IfOk result (λ g. (more : List Frame) → told_in (frames.new.items ++ more) g ≡ option_map said reply.now) }
{
    let Some(answer) = reply else {
        return Ok(Got::Nothing);
    };
    Ok(match answer {
        Answer::Done => Got::Done,
        Answer::State(bits) => Got::State(*bits),
        Answer::Count(count) => Got::Count(*count),
        Answer::Trace(trace) => Got::Trace(keep(frames, trace.frames())?),
        Answer::Location(frame) => Got::Location(*frame),
        Answer::Word(word) => Got::Word(*word),
        Answer::Caps(caps) => Got::Caps(*caps),
        Answer::Stack {
            state,
            frames: these,
        } => Got::Stack(*state, keep(frames, these.frames())?),
        Answer::Refused(error) => Got::Refused(*error),
    })
}

/// Whether an entry got the same as an answer says. `frames` are those of the book.
pub fn same_got(frames: &[Frame], got: Got, answer: &Answer) -> bool
    ensures { (result ≡ true) ↔ (told_in frames.now got ≡ Some (said answer.now)) }
{
    match (got, answer) {
        (Got::Done, Answer::Done) => true,
        (Got::State(a), Answer::State(b)) => a == *b,
        (Got::Count(a), Answer::Count(b)) => a == *b,
        (Got::Trace(a), Answer::Trace(b)) => same_frames(part(frames, a), b.frames()),
        (Got::Location(a), Answer::Location(b)) => a == *b,
        (Got::Word(a), Answer::Word(b)) => a == *b,
        (Got::Caps(a), Answer::Caps(b)) => a == *b,
        (
            Got::Stack(a, these),
            Answer::Stack {
                state,
                frames: others,
            },
        ) => { a == *state && same_frames(part(frames, these), others.frames()) }
        (Got::Refused(a), Answer::Refused(b)) => a == *b,
        _ => false,
    }
}

/// The frames of a span. `frames` are those of the book.
pub fn part(frames: &[Frame], span: Span) -> &[Frame]
    ensures { result.now ≡ spanned frames.now span }
{
    let first = span.first as usize;
    if first >= frames.len() {
        return &[];
    }
    let rest = &frames[first..];
    let count = span.count as usize;
    if count >= rest.len() {
        return rest;
    }
    &rest[..count]
}

ghost use Rattle.std.specs.Prelude.{◌≡◌, ◌↔◌, Some, ◌++◌, true, List, IfOk, OnOk};
ghost use Rattle.std.specs.Option.{option_map};
ghost use Rattle.ti_types.specs.declared.place.Frame.{Frame};
ghost use Rattle.ti_types.specs.Answer.{said};
ghost use Rattle.ti_report.specs.Gots.{spanned, told_in};
