//! How frames are popped for a debugger.

use crate::asked::Asked;
use crate::desk::Desk;
use crate::popping::Popping;
use crate::refusal::Refusal;
use crate::stacks::{Part, trace_of};
use ti_jdwp::{JdwpError, frame_of, new_capabilities_body};
use ti_slot::Asked as Posted;
use ti_types::{Answer, Call, Caps, Frame, Place, ThreadNo, TiError};

/// What a reply says where the service refuses a pop: 10, 13, 31, 32, 99 or 110.
fn error_of_pop(error: TiError) -> JdwpError
    ensures { result ≡ pop_error error }
{
    match error {
        TiError::InvalidThread => JdwpError::InvalidThread,
        TiError::ThreadNotAlive | TiError::ThreadNotSuspended => JdwpError::ThreadNotSuspended,
        TiError::NoMoreFrames => JdwpError::NoMoreFrames,
        TiError::OpaqueFrame => JdwpError::OpaqueFrame,
        TiError::MustPossessCapability => JdwpError::NotImplemented,
        _ => JdwpError::OutOfMemory,
    }
}

/// The frames that are looked at before the one at a depth is popped: those that are popped, and their caller.
///
/// - 30 INVALID_FRAMEID: the stack has no frame at the depth.
/// - 31 NO_MORE_FRAMES: it is the oldest one.
fn popped_of(count: i32, depth: u32) -> Result<Part, JdwpError>
    ensures { IsPopped count depth result }
{
    let wanted = i64::from(depth) + 2;
    if i64::from(count) <= i64::from(depth) {
        return Err(JdwpError::InvalidFrameId);
    }
    if wanted > i64::from(count) {
        return Err(JdwpError::NoMoreFrames);
    }
    Ok(Part {
        start: 0,
        count: wanted as i32,
    })
}

/// Whether some of the frames is a native method's.
fn any_native(frames: &[Frame]) -> bool
    ensures { result ≡ any_native frames.now }
{
    frames
        .iter()
        .any(|frame: &Frame| matches!(frame.place, Place::Native))
}

impl Desk {
    /// Whether frames can be popped: the agent may.
    fn can_pop(&self) -> bool
        ensures { result ≡ can_pop self.now.agent }
    {
        match self.agent.get_capabilities() {
            Ok(caps) => caps.has(Caps::CAN_POP_FRAME),
            Err(_) => false,
        }
    }

    /// The capabilities (1/17), of which canPopFrames is there if the agent may pop frames.
    pub(crate) fn capabilities(&self) -> Result<Vec<u8>, Refusal>
        ensures { IfOk result (λ v. v.items ≡ capabilities_text (can_pop self.now.agent)) }
    {
        Ok(new_capabilities_body(self.alloc, self.can_pop())?)
    }

    /// Pops the frame with this id and all newer ones (16/4). If the thread's cell is in use, those that are left are popped later.
    ///
    /// - 99 NOT_IMPLEMENTED: the agent may pop no frames.
    /// - 13 THREAD_NOT_SUSPENDED: the thread has ended, or still runs.
    /// - 30 INVALID_FRAMEID: it has no such frame.
    /// - 31 NO_MORE_FRAMES: the frame is the oldest.
    /// - 32 OPAQUE_FRAME: it, a newer frame or its caller is native.
    pub(crate) fn pop_frames(&mut self, thread: u32, frame: u64) -> Result<Vec<u8>, Refusal>
        ensures told { IfOk result (λ v. PopsFrames self.old self.new thread frame × (v.items ≡ [])) }
        ensures later { IsErrOf result Later → WaitsToPop self.old self.new thread frame }
        ensures rest { self.new ≡ record self.old { agent = self.new.agent; asked = self.new.asked } }
    {
        let popping = self.popping_of(thread, frame)?;
        self.pop_all(popping)?;
        Ok(Vec::new(self.alloc))
    }

    /// What is to be popped: what an earlier try left, or the frame with this id and all newer ones.
    fn popping_of(&mut self, thread: u32, frame: u64) -> Result<Popping, Refusal>
        ensures told { IfOk result (λ p. (p.thread ≡ thread) × (frame_id thread p.depth ≡ frame) × IsToPop self.old self.new p) }
        ensures rest { self.new ≡ record self.old { agent = self.new.agent } }
    {
        if !self.can_pop() {
            return Err(Refusal::Error(JdwpError::NotImplemented));
        }
        let (of, depth) = frame_of(frame);
        if of != thread {
            return Err(Refusal::Error(JdwpError::InvalidFrameId));
        }
        match self.asked {
            Asked::Popping(popping) if popping.thread == thread && popping.depth == depth => {
                return Ok(popping);
            }
            _ => (),
        }
        self.look_at(thread, depth)?;
        Ok(Popping {
            thread,
            depth,
            left: depth + 1,
        })
    }

    /// Looks at the frames that are to be popped, and at their caller.
    fn look_at(&mut self, thread: u32, depth: u32) -> Result<(), Refusal>
        ensures told { OnOk result (CanPop self.old self.new thread depth) }
        ensures rest { self.new ≡ record self.old { agent = self.new.agent } }
    {
        let count = self.depth(thread)?;
        let part = popped_of(count, depth)?;
        match self.ask_now(thread, trace_of(part))? {
            Answer::Trace(trace) => {
                if any_native(trace.frames()) {
                    Err(Refusal::Error(JdwpError::OpaqueFrame))
                } else {
                    Ok(())
                }
            }
            _ => Err(Refusal::Error(JdwpError::ThreadNotSuspended)),
        }
    }

    /// Pops what is to be popped. If the thread's cell is in use, it keeps how many are left.
    fn pop_all(&mut self, popping: Popping) -> Result<(), Refusal>
        ensures all { OnOk result (PopsAll self.old self.new popping) }
        ensures later { IsErrOf result Later → PopsSome self.old self.new popping }
        ensures rest { self.new ≡ record self.old { agent = self.new.agent; asked = self.new.asked } }
    {
        for done in 0..popping.left {
            if let Err(refusal) = self.pop_newest(popping.thread) {
                self.asked = Asked::Popping(Popping {
                    thread: popping.thread,
                    depth: popping.depth,
                    left: popping.left - done,
                });
                return Err(refusal);
            }
        }
        Ok(())
    }

    /// Pops the newest frame of a thread. A pop that waits is cancelled: the thread has run since it was looked at.
    fn pop_newest(&mut self, thread: u32) -> Result<(), Refusal>
        ensures popped { OnOk result (Posts self.old.agent.env self.new.agent.env (record { 0 = thread }) call.Pop (Answered answer.Done)) }
        ensures later { IsErrOf result Later → self.new ≡ self.old }
        ensures rest { self.new ≡ record self.old { agent = self.new.agent } }
    {
        match self.agent.post_now(self.alloc, ThreadNo(thread), Call::Pop) {
            Ok(Posted::Answered(Answer::Done)) => Ok(()),
            Ok(Posted::Answered(Answer::Refused(error))) => {
                Err(Refusal::Error(error_of_pop(error)))
            }
            Ok(Posted::Answered(_)) => Err(Refusal::Error(JdwpError::ThreadNotSuspended)),
            Ok(Posted::Waiting(ticket)) => {
                let _it_goes_with_the_agent = self.agent.cancel_now(self.alloc, ticket);
                Err(Refusal::Error(JdwpError::ThreadNotSuspended))
            }
            Err(TiError::Busy) => Err(Refusal::Later),
            Err(error) => Err(Refusal::Error(error_of_pop(error))),
        }
    }
}

ghost use Rattle.std.specs.Prelude.{◌≡◌, [], IfOk, IsErrOf, OnOk};
ghost use Rattle.ti_types.specs.declared.answer.Answer.TheVariants as answer;
ghost use Rattle.ti_types.specs.declared.call.Call.TheVariants as call;
ghost use Rattle.ti_slot.specs.declared.asked.Asked.TheVariants.{Answered};
ghost use Rattle.ti_agent.specs.Posts.{Posts};
ghost use Rattle.ti_jdwp.specs.Ids.{frame_id};
ghost use Rattle.ti_debugger.specs.declared.refusal.Refusal.TheVariants.{Later};
ghost use Rattle.ti_debugger.specs.Pops.{CanPop, IsPopped, IsToPop, PopsAll, PopsFrames, PopsSome, WaitsToPop, any_native, can_pop, capabilities_text, pop_error};
