//! What a thread answers.

use crate::rules::is_alive;
use crate::view::pop_refusal;
use std::alloc::{AllocError, Global};
use ti_types::{Answer, Call, Entry, EnvNo, FrameList, ThreadView, TiError, TraceBuf, state_bits};

#[tactic(auto, using(crate::proofs::TraceLaws::take_more))]
/// At most `max_count` frames, from the one at the depth `start` on. None if `max_count` is negative. The error is lack of
/// memory.
fn trace(
    alloc: Global,
    frames: &FrameList,
    start: usize,
    max_count: i32,
) -> Result<TraceBuf, AllocError>
    requires { start ≤ length frames.now }
    ensures { IfOk result (λ b. b.frames ≡ take (or_zero_of max_count) (drop start frames.now)) }
{
    let left = frames.len() - start;
    let most = if max_count >= 0 { max_count } else { 0 };
    let count = if left < most as usize {
        left as u32
    } else {
        most as u32
    };
    let Ok(mut buf) = TraceBuf::make(alloc, most, count) else {
        return Err(AllocError);
    };
    for i in 0..count as usize {
        buf.push(frames.get(start + i));
    }
    Ok(buf)
}

/// The depth at which a trace of a stack of `count` frames starts (JVM TI 11, GetStackTrace). A `start` of 0 or more counts
/// from the newest frame, and a negative one from the oldest, -1 for the oldest.
///
/// `None` if there is no such frame, which is refused with 103. On an empty stack a `start` of 0 is there too.
pub fn trace_start(start: i32, count: usize) -> Option<usize>
    ensures start { result ≡ first_of_trace start count }
    ensures within { IfSome result (λ s. s ≤ count) }
{
    let at = if start >= 0 {
        start as i128
    } else {
        count as i128 + start as i128
    };
    if start == 0 {
        Some(0)
    } else if 0 <= at && at < count as i128 {
        Some(at as usize)
    } else {
        None
    }
}

/// `Done`, or the refusal if there is one.
pub fn done_or(refusal: Option<TiError>) -> Answer
    ensures { said result ≡ done_or_of refusal }
{
    match refusal {
        None => Answer::Done,
        Some(error) => Answer::Refused(error),
    }
}

#[inline(always)]
fn answer_alive(
    alloc: Global,
    view: &ThreadView,
    env: EnvNo,
    call: Call,
) -> Result<Answer, AllocError>
    requires { length view.now.frames < 2 ^ 32 }
    ensures { IfOk result (λ a. said a ≡ alive_answer_of view.now env call) }
{
    Ok(match call {
        Call::State => Answer::State(state_bits(view.mode, view.suspended)),
        Call::FrameCount => Answer::Count(view.frames.len() as u32),
        Call::Trace { start, max_count } => match trace_start(start, view.frames.len()) {
            Some(first) => { Answer::Trace(trace(alloc, &view.frames, first, max_count)?) }
            None => Answer::Refused(TiError::IllegalArgument),
        },
        Call::Location { depth } => match view.frames.at_depth(or_zero(depth) as usize) {
            Some(frame) => Answer::Location(frame),
            None => Answer::Refused(TiError::NoMoreFrames),
        },
        Call::Suspend => {
            if view.suspended {
                Answer::Refused(TiError::ThreadSuspended)
            } else {
                Answer::Done
            }
        }
        Call::Resume => {
            if view.suspended {
                Answer::Done
            } else {
                Answer::Refused(TiError::ThreadNotSuspended)
            }
        }
        Call::GetWord => Answer::Word(view.words.get(env.0 as usize)),
        Call::SetWord(_) => Answer::Done,
        Call::Pop => done_or(pop_refusal(view)),
    })
}

/// The number, or 0 for a negative one. No call that is well formed has a negative count or depth (this profile).
pub fn or_zero(n: i32) -> u32
    ensures { result ≡ or_zero_of n }
{
    if n >= 0 { n as u32 } else { 0 }
}

/// What a thread of this view answers. The error is lack of memory.
#[inline(always)]
fn answer(alloc: Global, view: &ThreadView, env: EnvNo, call: Call) -> Result<Answer, AllocError>
    requires { length view.now.frames < 2 ^ 32 }
    ensures { IfOk result (λ a. said a ≡ answer_of view.now env call) }
{
    if is_alive(view.mode) || matches!(call, Call::State) {
        answer_alive(alloc, view, env, call)
    } else {
        Ok(Answer::Refused(TiError::ThreadNotAlive))
    }
}

/// What is answered when an entry takes place at a thread of this view.
///
/// A call has its answer (JVM TI 11, the function named at each `Call`). If the thread refuses it, that is 15, 103, 31, 14,
/// 13 or 32. A read has the state and the newest frames. Every other entry has `None`. The error is lack of memory for the
/// frames of a trace or a read.
#[inline(always)]
pub fn answer_entry(
    alloc: Global,
    view: &ThreadView,
    entry: Entry,
) -> Result<Option<Answer>, AllocError>
    requires { length view.now.frames < 2 ^ 32 }
    ensures { IfOk result (λ a. option_map said a ≡ answer_to view.now entry) }
{
    Ok(match entry {
        Entry::Asked(env, _, call) => Some(answer(alloc, view, env, call)?),
        Entry::Read(_, max_count) => Some(Answer::Stack {
            state: state_bits(view.mode, view.suspended),
            frames: trace(alloc, &view.frames, 0, max_count)?,
        }),
        _ => None,
    })
}

ghost use Rattle.std.specs.Prelude.{◌≡◌, IfOk, IfSome, take, drop, length, ◌≤◌, ◌<◌, ◌^◌};
ghost use Rattle.std.specs.Option.{option_map};
ghost use Rattle.ti_types.specs.Answer.{said};
ghost use Rattle.ti_replay.specs.Answers.{answer_of, answer_alive as alive_answer_of, or_zero as or_zero_of, first_of_trace, done_or as done_or_of};
ghost use Rattle.ti_replay.specs.Replies.{answer_to};
