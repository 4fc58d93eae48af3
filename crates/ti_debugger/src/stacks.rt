//! What is told of a thread's state and stack.

use crate::desk::Desk;
use crate::refusal::{Refusal, refusal_of_call, refusal_of_class};
use crate::status::{is_suspended, is_terminated, status_of};
use std::alloc::Global;
use ti_jdwp::{FrameRow, JdwpError, frames_body, int_body, status_body};
use ti_service::ClassCalls;
use ti_slot::Asked;
use ti_types::{Answer, Call, Frame, Place, ThreadNo, TiError, TraceBuf};

/// The location of a frame in a native method: -1.
const NATIVE_INDEX: u64 = u64::MAX;

/// The greatest count of frames that the protocol has.
const MOST_FRAMES: u32 = 0x7fff_ffff;

/// A part of a stack, or of a table.
#[derive(Clone, Copy)]
pub(crate) struct Part {
    pub(crate) start: i32,
    pub(crate) count: i32,
}

/// How many frames are asked for from `start` on: `length`, or all that are left for -1.
pub(crate) fn wanted_of(count: i32, start: i32, length: i32) -> i64
    ensures { IsWanted count start length result }
{
    if length == -1 {
        i64::from(count) - i64::from(start)
    } else {
        i64::from(length)
    }
}

/// The part of a stack of this many frames that a debugger asks for. `None` if it asks for no frame.
///
/// - 503 INVALID_INDEX: the stack has no frame at the start.
/// - 504 INVALID_LENGTH: it has fewer frames than were asked for.
pub(crate) fn part_of(count: i32, start: i32, wanted: i64) -> Result<Option<Part>, JdwpError>
    ensures { IsPart count start wanted result }
{
    if wanted == 0 {
        return Ok(None);
    }
    if start < 0 || start >= count {
        return Err(JdwpError::InvalidIndex);
    }
    if wanted < 0 || wanted > i64::from(count) - i64::from(start) {
        return Err(JdwpError::InvalidLength);
    }
    Ok(Some(Part {
        start,
        count: wanted as i32,
    }))
}

/// The call that reads a part of a stack.
pub(crate) fn trace_of(part: Part) -> Call
    ensures { result ≡ call.Trace part.start part.count }
{
    Call::Trace {
        start: part.start,
        max_count: part.count,
    }
}

/// Where a frame is in its method.
fn index_of(place: Place) -> u64
    ensures { result ≡ index_of place }
{
    match place {
        Place::Java(location) => u64::from(location),
        Place::Native => NATIVE_INDEX,
    }
}

/// The bits of a thread that told its state. `None` if it has ended.
fn bits_in(answer: Answer) -> Option<u32>
    ensures { result ≡ bits_in answer }
{
    match answer {
        Answer::State(bits) => if is_terminated(bits) {
            None
        } else {
            Some(bits)
        },
        _ => None,
    }
}

/// How many frames a thread told. `None` if it told something else.
fn count_in(answer: Answer) -> Option<u32>
    ensures { result ≡ count_in answer }
{
    match answer {
        Answer::Count(count) => Some(count),
        _ => None,
    }
}

/// The body of the reply for a thread with these bits, or for one that has ended. The error is lack of memory.
fn state_body(alloc: Global, bits: Option<u32>) -> Result<Vec<u8>, JdwpError>
    ensures { IfOk result (λ v. v.items ≡ state_text bits) }
{
    match bits {
        Some(bits) => status_body(alloc, status_of(bits), is_suspended(bits)),
        None => status_body(alloc, 0, false),
    }
}

impl Desk {
    /// The answer of a thread that answers at once. A thread that is not there, or that still runs, has none: 13.
    pub(crate) fn ask_now(&mut self, thread: u32, call: Call) -> Result<Answer, Refusal>
        ensures told { IfOk result (λ a. Posts self.old.agent.env self.new.agent.env (record { 0 = thread }) call (Answered a)) }
        ensures home { OnOk result (self.new.agent.home ≡ self.old.agent.home) }
        ensures rest { self.new ≡ record self.old { agent = self.new.agent } }
    {
        match self.agent.post_now(self.alloc, ThreadNo(thread), call) {
            Ok(Asked::Answered(Answer::Refused(error))) => Err(refusal_of_call(error)),
            Ok(Asked::Answered(answer)) => Ok(answer),
            Ok(Asked::Waiting(ticket)) => {
                let _it_goes_with_the_agent = self.agent.cancel_now(self.alloc, ticket);
                let _it_makes_room = self.discard(ticket.thread);
                Err(Refusal::Error(JdwpError::ThreadNotSuspended))
            }
            Err(TiError::Full) => Err(self.discard(ThreadNo(thread))),
            Err(error) => Err(refusal_of_call(error)),
        }
    }

    /// Discards the answer to a call that was taken back at a thread, if one is there: then there is room for another call.
    /// 13 THREAD_NOT_SUSPENDED if not, since the thread has not handed over.
    fn discard(&mut self, thread: ThreadNo) -> Refusal
        ensures { self.new ≡ record self.old { agent = self.new.agent } }
    {
        match self.agent.discard_now(thread) {
            Ok(None) => Refusal::Error(JdwpError::ThreadNotSuspended),
            _ => Refusal::Later,
        }
    }

    /// The bits of a thread's state, `None` if it has ended, or is not watched any more. 10 INVALID_THREAD if no thread with a higher
    /// number is watched either.
    fn state_bits(&mut self, thread: u32) -> Result<Option<u32>, Refusal>
        ensures told { IfOk result (λ bits. HasState self.old self.new thread bits) }
        ensures rest { self.new ≡ record self.old { agent = self.new.agent } }
    {
        let Some(place) = self.crowd.place_of(thread) else {
            if self.crowd.has_later(thread) {
                return Ok(None);
            }
            return Err(Refusal::Error(JdwpError::InvalidThread));
        };
        if self.crowd.list[place].ended {
            return Ok(None);
        }
        let answer = self.ask_now(thread, Call::State)?;
        Ok(bits_in(answer))
    }

    /// The status of a thread (11/4): that of one that has ended is 0, and not suspended.
    pub(crate) fn status(&mut self, thread: u32) -> Result<Vec<u8>, Refusal>
        ensures told { IfOk result (λ v. TellsState self.old self.new thread v.items) }
        ensures rest { self.new ≡ record self.old { agent = self.new.agent } }
    {
        let bits = self.state_bits(thread)?;
        Ok(state_body(self.alloc, bits)?)
    }

    /// How many frames a suspended thread has. 13 THREAD_NOT_SUSPENDED if it has ended or still runs.
    pub(crate) fn depth(&mut self, thread: u32) -> Result<i32, Refusal>
        ensures told { IfOk result (λ n. HasDepth self.old self.new thread n) }
        ensures rest { self.new ≡ record self.old { agent = self.new.agent } }
    {
        match self.state_bits(thread)? {
            Some(bits) if is_suspended(bits) => (),
            _ => return Err(Refusal::Error(JdwpError::ThreadNotSuspended)),
        }
        let answer = self.ask_now(thread, Call::FrameCount)?;
        match count_in(answer) {
            Some(count) => Ok(count.min(MOST_FRAMES).cast_signed()),
            None => Err(Refusal::Error(JdwpError::ThreadNotSuspended)),
        }
    }

    /// The number of frames of a suspended thread (11/7).
    pub(crate) fn frame_count(&mut self, thread: u32) -> Result<Vec<u8>, Refusal>
        ensures told { IfOk result (λ v. TellsDepth self.old self.new thread v.items) }
        ensures rest { self.new ≡ record self.old { agent = self.new.agent } }
    {
        let count = self.depth(thread)?;
        Ok(int_body(self.alloc, count)?)
    }

    /// Frames of a suspended thread (11/6).
    pub(crate) fn frames(
        &mut self,
        thread: u32,
        start: i32,
        length: i32,
    ) -> Result<Vec<u8>, Refusal>
        ensures told { IfOk result (λ v. TellsFrames self.old self.new thread start length v.items) }
        ensures rest { self.new ≡ record self.old { agent = self.new.agent } }
    {
        let count = self.depth(thread)?;
        let wanted = wanted_of(count, start, length);
        match part_of(count, start, wanted)? {
            None => Ok(frames_body(self.alloc, thread, &[])?),
            Some(part) => self.trace(thread, start.cast_unsigned(), trace_of(part)),
        }
    }

    /// The frames that a call reads, the newest of which is at a depth.
    fn trace(&mut self, thread: u32, depth: u32, call: Call) -> Result<Vec<u8>, Refusal>
        ensures told { IfOk result (λ v. TellsTrace self.old self.new thread depth call v.items) }
        ensures rest { self.new ≡ record self.old { agent = self.new.agent } }
    {
        match self.ask_now(thread, call)? {
            Answer::Trace(trace) => self.stack(thread, depth, &trace),
            _ => Err(Refusal::Error(JdwpError::ThreadNotSuspended)),
        }
    }

    /// The frames of a trace whose newest frame is at a depth.
    fn stack(&mut self, thread: u32, depth: u32, trace: &TraceBuf) -> Result<Vec<u8>, Refusal>
        ensures told { IfOk result (λ v. TellsRows (classes_of self.new.agent) thread depth trace.now.frames v.items) }
        ensures rest { self.new ≡ record self.old { agent = self.new.agent } }
    {
        let mut rows = Vec::new(self.alloc);
        let mut next = depth;
        for frame in trace.frames() {
            rows.reserve(1)?;
            rows.push_reserved(self.row(next, *frame)?);
            next = next.saturating_add(1);
        }
        Ok(frames_body(self.alloc, thread, rows.as_slice())?)
    }

    /// A frame at a depth. 23 INVALID_METHODID if nobody defined its method.
    fn row(&mut self, depth: u32, frame: Frame) -> Result<FrameRow, Refusal>
        ensures told { IfOk result (λ r. IsRowOf (classes_of self.new.agent) depth frame r) }
        ensures grows { IsPrefix (classes_of self.old.agent) (classes_of self.new.agent) }
        ensures rest { self.new ≡ record self.old { agent = self.new.agent } }
    {
        let class = match self.agent.get_method_declaring_class(frame.method) {
            Ok(class) => class,
            Err(error) => return Err(refusal_of_class(error)),
        };
        Ok(FrameRow {
            depth,
            class: class.0,
            method: frame.method.0,
            index: index_of(frame.place),
        })
    }
}

ghost use Rattle.std.specs.Prelude.{◌≡◌, IfOk, OnOk};
ghost use mathlib.Core.List.{IsPrefix};
ghost use Rattle.ti_types.specs.declared.call.Call.TheVariants as call;
ghost use Rattle.ti_slot.specs.declared.asked.Asked.TheVariants.{Answered};
ghost use Rattle.ti_agent.specs.Posts.{Posts};
ghost use Rattle.ti_service.specs.Classes.{classes_of};
ghost use Rattle.ti_debugger.specs.StackReplies.{HasDepth, HasState, IsRowOf, IsWanted, TellsDepth, TellsFrames, TellsRows, TellsState, TellsTrace, bits_in, count_in, state_text};
ghost use Rattle.ti_debugger.specs.Stacks.{IsPart, index_of};
