//! How a thread in a given state answers a call.

use crate::condition::{Condition, pop_refusal, take_call};
use ti_frames::Frames;
use ti_ops::{Pending, PendingOps};
use ti_replay::answers::{done_or, or_zero, trace_start};
use ti_replay::rules::is_alive;
use ti_types::{Answer, Call, EnvNo, Limits, TiError, TraceBuf, state_bits};

/// At most `most` frames from a start on. 103 if there is no frame at `start`, as for `trace_start`.
fn trace(frames: &Frames, start: i32, most: u32, buf: TraceBuf) -> Answer
    requires empty { buf.frames ≡ [] }
    requires room { min most frames.now.depth ≤ buf.room }
    ensures { said result ≡ trace_from (first_of_trace start (length frames.now.frames)) most frames.now.frames }
{
    let mut buf = buf;
    match trace_start(start, frames.len()) {
        Some(first) => {
            frames.copy_into(first, most, &mut buf);
            buf.fit();
            Answer::Trace(buf)
        }
        None => Answer::Refused(TiError::IllegalArgument),
    }
}

/// What a thread with these frames answers to a call that waits for them, whoever asks it.
#[inline(always)]
pub fn answer_by_frames(
    condition: &Condition,
    frames: &Frames,
    limits: &Limits,
    call: Call,
    buf: TraceBuf,
) -> Answer
    requires waits { waits_is call ≡ true }
    requires depth { frames.now.depth ≡ limits.now.depth }
    requires buf { IsBufferOf limits.now call buf }
    ensures { (env : EnvNo) → said result ≡ answer_of (view_of condition.now frames.now.frames) env call }
{
    if !is_alive(condition.mode) {
        return Answer::Refused(TiError::ThreadNotAlive);
    }
    match call {
        Call::FrameCount => Answer::Count(frames.len() as u32),
        Call::Trace { start, max_count } => trace(frames, start, or_zero(max_count), buf),
        Call::Location { depth } => match frames.top(or_zero(depth) as usize) {
            Some(frame) => Answer::Location(frame),
            None => Answer::Refused(TiError::NoMoreFrames),
        },
        Call::Suspend => {
            if condition.suspended {
                Answer::Refused(TiError::ThreadSuspended)
            } else {
                Answer::Done
            }
        }
        Call::Pop => done_or(pop_refusal(condition, frames)),
        _ => unreachable!(),
    }
}

/// What a thread answers to a call that takes place at once, whatever its frames are.
#[inline(always)]
pub fn answer_at_once(condition: &Condition, env: EnvNo, call: Call) -> Answer
    requires { waits_is call ≡ false }
    ensures { (frames : List Frame) → said result ≡ answer_of (view_of condition.now frames) env call }
{
    if matches!(call, Call::State) {
        return Answer::State(state_bits(condition.mode, condition.suspended));
    }
    if !is_alive(condition.mode) {
        return Answer::Refused(TiError::ThreadNotAlive);
    }
    match call {
        Call::Resume => {
            if condition.suspended {
                Answer::Done
            } else {
                Answer::Refused(TiError::ThreadNotSuspended)
            }
        }
        Call::GetWord => Answer::Word(condition.words.get(env.0 as usize)),
        Call::SetWord(_) => Answer::Done,
        _ => unreachable!(),
    }
}

/// The state bits of a thread, and at most `max_count` of its newest frames.
pub fn stack(condition: &Condition, frames: &Frames, max_count: i32, buf: TraceBuf) -> Answer
    requires empty { buf.frames ≡ [] }
    requires room { min (or_zero_of max_count) frames.now.depth ≤ buf.room }
    ensures { said result ≡ stack_of (view_of condition.now frames.now.frames) max_count }
{
    let mut buf = buf;
    // For the prover alone: `len` says that there are at most `depth` frames, so the buffer has room for them.
    let _count = frames.len();
    frames.copy_into(0, or_zero(max_count), &mut buf);
    buf.fit();
    Answer::Stack {
        state: state_bits(condition.mode, condition.suspended),
        frames: buf,
    }
}

/// Lets the waiting calls take place, one after another. A pop among them takes a frame away.
#[inline(never)]
pub fn serve(condition: &mut Condition, frames: &mut Frames, limits: &Limits, ops: &mut PendingOps)
    requires ready { AreReady limits.now ops.old.waiting }
    requires depth { frames.old.depth ≡ limits.now.depth }
    requires calls { list_all waits_is (calls_of ops.old.waiting) ≡ true }
    requires awaited { AreAwaited ops.old.statuses ops.old.waiting }
    requires apart { AreApart ops.old.waiting }
    ensures view { view_of condition.new frames.new.frames ≡ fold after (view_of condition.old frames.old.frames) (entries_of ops.old.waiting) }
    ensures depth { frames.new.depth ≡ limits.now.depth }
    ensures waiting { ops.new.waiting ≡ [] }
    ensures given { said_in ops.new.statuses ≡ delivered (answers_of (view_of condition.old frames.old.frames) ops.old.waiting) (said_in ops.old.statuses) }
    ensures window { ops.new.window ≡ ops.old.window }
{
    while let Some(p) = ops.take_first() {
        let Pending { ticket, call, buf } = p;
        let answer = answer_by_frames(condition, frames, limits, call, buf);
        take_call(condition, frames, ticket.env, call);
        ops.deliver(ticket, answer);
    }
}

ghost use Rattle.std.specs.Prelude.{◌≡◌, ◌≤◌, ◌+◌, ◌++◌, [], length, List, Some, None, IfSome, false, true, min};
ghost use Rattle.std.specs.List.{fold, list_all};
ghost use Rattle.ti_types.specs.declared.numbers.EnvNo.{EnvNo};
ghost use Rattle.ti_types.specs.declared.place.Frame.{Frame};
ghost use Rattle.ti_types.specs.Answer.{said};
ghost use Rattle.ti_replay.specs.Answers.{answer_of, stack_of, first_of_trace, trace_from, or_zero as or_zero_of};
ghost use Rattle.ti_replay.specs.Settling.{waits as waits_is};
ghost use Rattle.ti_replay.specs.View.{after};
ghost use Rattle.ti_slot.specs.Condition.{view_of};
ghost use Rattle.ti_slot.specs.Waiting.{entries_of, IsBufferOf, AreReady, calls_of, said_in, answers_of, delivered};
ghost use Rattle.ti_slot.specs.Tickets.{AreAwaited, AreApart};
