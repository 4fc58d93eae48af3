//! What is written to memory of the caller's: as much as there is room for.

use crate::codes::CQ_OK;
use crate::for_c::ForC;
use crate::values::{CqAnswer, CqFrame, CqStackInfo, frame_out};
use ti_types::{Answer, StackInfo};

/// How many of these items there is room for.
pub(crate) fn smaller(items: usize, room: usize) -> usize
    ensures { result ≡ min items room }
{
    if items < room { items } else { room }
}

/// Writes as many of the items as there is room for.
pub(crate) fn write_each<T: ForC<U>, U: Copy>(items: &[T], room: &mut [U])
    ensures { room.new ≡ over (map T.written items.now) room.old }
{
    for i in 0..smaller(items.len(), room.len()) {
        room[i] = items[i].for_c();
    }
}

/// Writes as many of the bytes as there is room for.
pub(crate) fn write_bytes(bytes: &[u8], room: &mut [u8])
    ensures { room.new ≡ over bytes.now room.old }
{
    for i in 0..smaller(bytes.len(), room.len()) {
        room[i] = bytes[i];
    }
}

/// Writes what is told of a thread.
pub(crate) fn write_stack(stack: &StackInfo, out: &mut CqStackInfo, room: &mut [CqFrame])
    ensures info { out.new ≡ stack_written stack.now }
    ensures frames { room.new ≡ over (map frame_written stack.now.frames.frames) room.old }
{
    let frames = stack.frames.frames();
    *out = CqStackInfo {
        thread: stack.thread.0,
        state: stack.state,
        frame_count: frames.len() as u64,
    };
    write_each(frames, room);
}

/// Writes an answer, and gives its code.
#[inline(always)]
pub(crate) fn write_answer(answer: Answer, out: &mut CqAnswer, room: &mut [CqFrame]) -> u32
    ensures { IsWritten answer result out.old out.new room.old room.new }
{
    match answer {
        Answer::Done => (),
        Answer::State(bits) => out.number = u64::from(bits),
        Answer::Count(count) => out.number = u64::from(count),
        Answer::Trace(trace) => {
            let frames = trace.frames();
            out.number = frames.len() as u64;
            write_each(frames, room);
        }
        Answer::Location(frame) => out.frame = frame_out(frame),
        Answer::Word(word) => out.number = word,
        Answer::Caps(caps) => out.number = u64::from(caps.bits),
        Answer::Stack { frames, .. } => {
            let frames = frames.frames();
            out.number = frames.len() as u64;
            write_each(frames, room);
        }
        Answer::Refused(error) => return error.number(),
    }
    CQ_OK
}

ghost use Rattle.std.specs.Prelude.{◌≡◌, map, min};
ghost use Rattle.ti_capi.specs.Values.{frame_written, over, stack_written};
ghost use Rattle.ti_capi.specs.Answers.{IsWritten};
