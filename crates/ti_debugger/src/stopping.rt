//! Breakpoints and steps: what the agent asks of the service, and how threads that stopped go on.

use crate::desk::Desk;
use crate::halted::{Halted, Stage};
use crate::nearest::line_in;
use crate::refusal::{Refusal, refusal_of_class};
use ti_jdwp::{JdwpError, Standing};
use ti_service::{
    Agent, ClassCalls, ClassError, Lines, StopCall, StopCalls, StopError, StopKind, StopReply,
};
use ti_types::{Answer, Call, MethodNo, Place, ThreadNo};

/// A location of a method at which the agent has a breakpoint.
#[derive(Clone, Copy)]
pub(crate) struct Spot {
    pub(crate) class: u32,
    pub(crate) method: u32,
    pub(crate) index: u32,
}

/// What a reply says where a call about stops is refused.
pub(crate) fn refusal_of_stop(error: StopError) -> Refusal
    ensures { result ≡ stop_refusal error }
{
    match error {
        StopError::InvalidMethod => Refusal::Error(JdwpError::InvalidMethodId),
        StopError::InvalidLocation => Refusal::Error(JdwpError::InvalidLocation),
        StopError::Busy => Refusal::Later,
        _ => Refusal::Error(JdwpError::OutOfMemory),
    }
}

/// Ends a stop of a thread, if the roster is free. It gives whether the thread stops no more.
fn end_stop(agent: &mut Agent, thread: ThreadNo) -> bool {
    !matches!(
        agent.stop_now(StopCall::LetGo(thread)),
        Err(StopError::Busy)
    )
}

impl Desk {
    /// A call about stops.
    fn stop(&mut self, call: StopCall) -> Result<StopReply, Refusal>
        ensures { self.new ≡ record self.old { agent = self.new.agent } }
    {
        match self.agent.stop_now(call) {
            Ok(reply) => Ok(reply),
            Err(error) => Err(refusal_of_stop(error)),
        }
    }

    /// The agent is told of this kind of stop from now on, at one thread or at all.
    fn hear(&mut self, kind: StopKind, thread: Option<ThreadNo>) -> Result<(), Refusal>
        ensures heard { OnOk result (Hears kind thread self.old.agent self.new.agent) }
        ensures refused { IfErr result (HearsNot kind thread self.old.agent self.new.agent) }
        ensures rest { self.new ≡ record self.old { agent = self.new.agent } }
    {
        match self.agent.stop_now(StopCall::Enable(kind, thread)) {
            Ok(_) => Ok(()),
            Err(error) => Err(refusal_of_stop(error)),
        }
    }

    /// Looks whether the class of a breakpoint declares its method. 23 INVALID_METHODID if not.
    fn check_class(&mut self, spot: Spot) -> Result<(), Refusal>
        ensures told { OnOk result (IsOfClass spot self.old.agent self.new.agent) }
        ensures refused { IfErr result (IsNotOfClass spot self.old.agent self.new.agent) }
        ensures rest { self.new ≡ record self.old { agent = self.new.agent } }
    {
        match self.agent.get_method_declaring_class(MethodNo(spot.method)) {
            Ok(class) => {
                if class.0 == spot.class {
                    Ok(())
                } else {
                    Err(Refusal::Error(JdwpError::InvalidMethodId))
                }
            }
            Err(error) => Err(refusal_of_class(error)),
        }
    }

    /// Sets a breakpoint. One that is there already is no error.
    pub(crate) fn place(&mut self, spot: Spot) -> Result<(), Refusal>
        ensures set { OnOk result (IsSet spot self.old.agent self.new.agent) }
        ensures refused { IfErr result (IsNotSet spot self.old.agent self.new.agent) }
        ensures rest { self.new ≡ record self.old { agent = self.new.agent; stops = self.new.stops } }
    {
        self.check_class(spot)?;
        self.stops.spots.reserve(1)?;
        self.hear(StopKind::Breakpoint, None)?;
        self.stops.hears = true;
        match self
            .agent
            .set_breakpoint_now(self.alloc, MethodNo(spot.method), spot.index)
        {
            Ok(()) => {
                self.stops.spots.push_reserved(spot);
                Ok(())
            }
            Err(error) => {
                if error == StopError::Duplicate {
                    Ok(())
                } else {
                    Err(refusal_of_stop(error))
                }
            }
        }
    }

    /// The line of a location of a method. `None` if it is not known.
    pub(crate) fn line_at(&mut self, method: MethodNo, index: u32) -> Result<Option<u32>, Refusal>
        ensures told { IfOk result (λ line. TellsLine (place.Java index) method self.old.agent self.new.agent line) }
        ensures rest { self.new ≡ record self.old { agent = self.new.agent } }
    {
        match self.agent.get_line_number_table(self.alloc, method) {
            Ok(Lines::Table(entries)) => Ok(line_in(entries.as_slice(), index)),
            Ok(Lines::Locations) => Ok(Some(index)),
            Ok(Lines::Absent) | Err(ClassError::AbsentInformation | ClassError::NativeMethod) => {
                Ok(None)
            }
            Err(error) => Err(refusal_of_class(error)),
        }
    }

    /// How many frames a thread that stands has.
    pub(crate) fn frames_at(&mut self, thread: u32) -> Result<u32, Refusal>
        ensures told { IfOk result (λ n. Posts self.old.agent.env self.new.agent.env (record { 0 = thread }) call.FrameCount (Answered (answer.Count n))) }
        ensures home { OnOk result (self.new.agent.home ≡ self.old.agent.home) }
        ensures rest { self.new ≡ record self.old { agent = self.new.agent } }
    {
        match self.ask_now(thread, Call::FrameCount)? {
            Answer::Count(count) => Ok(count),
            _ => Err(Refusal::Error(JdwpError::ThreadNotSuspended)),
        }
    }

    /// Where a thread stands: its frames, and the method and the line of the newest one.
    fn standing(&mut self, thread: u32) -> Result<Standing, Refusal>
        ensures told { IfOk result (Stands thread self.old.agent self.new.agent) }
        ensures rest { self.new ≡ record self.old { agent = self.new.agent } }
    {
        let frames = self.frames_at(thread)?;
        let Answer::Location(frame) = self.ask_now(thread, Call::Location { depth: 0 })? else {
            return Err(Refusal::Error(JdwpError::ThreadNotSuspended));
        };
        let line = match frame.place {
            Place::Java(index) => self.line_at(frame.method, index)?,
            Place::Native => None,
        };
        Ok(Standing {
            frames,
            method: frame.method.0,
            line,
        })
    }

    /// Where a suspended thread stands. From now on it makes single steps.
    pub(crate) fn locate(&mut self, thread: u32) -> Result<Standing, Refusal>
        ensures told { IfOk result (Steps thread self.old.agent self.new.agent) }
        ensures rest { self.new ≡ record self.old { agent = self.new.agent; stops = self.new.stops } }
    {
        let standing = self.standing(thread)?;
        self.stops.steppers.reserve(1)?;
        self.step(thread)?;
        self.hear(StopKind::FramePop, Some(ThreadNo(thread)))?;
        if !self.stops.steppers.contains(&thread) {
            self.stops.steppers.push_reserved(thread);
        }
        Ok(standing)
    }

    /// Clears a breakpoint. False if the roster is in use.
    pub(crate) fn clear(&mut self, spot: Spot) -> bool
        ensures { self.new ≡ record self.old { agent = self.new.agent } }
    {
        let cleared = self
            .agent
            .clear_breakpoint_now(self.alloc, MethodNo(spot.method), spot.index);
        !matches!(cleared, Err(StopError::Busy | StopError::OutOfMemory))
    }

    /// The agent is told of breakpoints no more. False if the roster is in use.
    pub(crate) fn mute(&mut self) -> bool
        ensures { self.new ≡ record self.old { agent = self.new.agent } }
    {
        self.stop(StopCall::Disable(StopKind::Breakpoint, None))
            .is_ok()
    }

    /// A thread makes no single steps any more. False if the roster is in use.
    pub(crate) fn walk(&mut self, thread: u32) -> bool
        ensures { self.new ≡ record self.old { agent = self.new.agent } }
    {
        let thread = Some(ThreadNo(thread));
        self.stop(StopCall::Disable(StopKind::SingleStep, thread))
            .is_ok()
            && self
                .stop(StopCall::Disable(StopKind::FramePop, thread))
                .is_ok()
    }

    /// A thread makes single steps from now on.
    pub(crate) fn step(&mut self, thread: u32) -> Result<(), Refusal>
        ensures heard { OnOk result (Hears SingleStep (Some (record { 0 = thread })) self.old.agent self.new.agent) }
        ensures rest { self.new ≡ record self.old { agent = self.new.agent } }
    {
        self.hear(StopKind::SingleStep, Some(ThreadNo(thread)))
    }

    /// A thread runs without single steps until it is about to have this many frames.
    fn run_to(&mut self, thread: u32, frames: u32) -> Result<(), Refusal>
        ensures { self.new ≡ record self.old { agent = self.new.agent } }
    {
        let pop = StopCall::NotifyFramePop(ThreadNo(thread), frames.saturating_add(1));
        match self.agent.stop_now(pop) {
            Ok(_) | Err(StopError::Duplicate) => (),
            Err(error) => return Err(refusal_of_stop(error)),
        }
        self.stop(StopCall::Disable(StopKind::SingleStep, Some(ThreadNo(thread))))?;
        Ok(())
    }

    /// Lets a thread go on that stopped, as far as it can now. What could not be done is done by `tend_stops`.
    pub(crate) fn let_go(&mut self, thread: u32)
        ensures { LetsGo thread self.old self.new }
    {
        self.stops.let_go(thread);
        self.let_go_on();
    }

    /// Lets all go on that stopped, likewise.
    pub(crate) fn let_go_of_all(&mut self)
        ensures rest { self.new ≡ record self.old { agent = self.new.agent; stops = self.new.stops; resumptions = self.new.resumptions } }
        ensures grows { self.old.resumptions ≤ self.new.resumptions }
    {
        self.stops.let_go_of_all();
        self.let_go_on();
    }

    /// Lets go on whoever nobody wants to stop any more, as far as the roster is free.
    pub(crate) fn let_go_on(&mut self)
        ensures rest { self.new ≡ record self.old { agent = self.new.agent; stops = record self.old.stops { halted = self.new.stops.halted }; resumptions = self.new.resumptions } }
        ensures stopped { stopped_in self.new.stops.halted.items ≡ stopped_in self.old.stops.halted.items }
        ensures grows { self.old.resumptions ≤ self.new.resumptions }
    {
        for index in (0..self.stops.halted.len()).rev() {
            self.let_go_at(index);
        }
    }

    /// Lets a thread go on, if nobody wants it to stop any more and the roster is free.
    fn let_go_at(&mut self, index: usize)
        ensures rest { self.new ≡ record self.old { agent = self.new.agent; stops = record self.old.stops { halted = self.new.stops.halted }; resumptions = self.new.resumptions } }
        ensures stopped { stopped_in self.new.stops.halted.items ≡ stopped_in self.old.stops.halted.items }
        ensures grows { self.old.resumptions ≤ self.new.resumptions }
    {
        let Some(halted) = self.stops.halted.get(index) else {
            return;
        };
        let Halted { stop, stage } = *halted;
        if !stage.may_go() || self.waits_to_run(stop.thread, stage) {
            return;
        }
        if end_stop(&mut self.agent, stop.thread) {
            let _gone = self.stops.halted.remove(index);
            self.resumptions = self.resumptions.saturating_add(1);
        }
    }

    /// Lets a thread run to the end of a frame, if it is to. Whether the roster was in use, so that it does not yet.
    fn waits_to_run(&mut self, thread: ThreadNo, stage: Stage) -> bool
        ensures { self.new ≡ record self.old { agent = self.new.agent } }
    {
        match stage {
            Stage::RunsTo(frames) => {
                matches!(self.run_to(thread.0, frames), Err(Refusal::Later))
            }
            _ => false,
        }
    }
}

ghost use Rattle.std.specs.Prelude.{◌≡◌, ◌≤◌, Some, IfErr, IfOk, OnOk};
ghost use Rattle.ti_types.specs.declared.answer.Answer.TheVariants as answer;
ghost use Rattle.ti_types.specs.declared.call.Call.TheVariants as call;
ghost use Rattle.ti_types.specs.declared.place.Place.TheVariants as place;
ghost use Rattle.ti_slot.specs.declared.asked.Asked.TheVariants.{Answered};
ghost use Rattle.ti_agent.specs.Posts.{Posts};
ghost use Rattle.ti_stops.specs.declared.kind.StopKind.TheVariants.{SingleStep};
ghost use Rattle.ti_debugger.specs.Placing.{Hears, HearsNot, IsNotOfClass, IsNotSet, IsOfClass, IsSet, Stands, Steps, TellsLine};
ghost use Rattle.ti_debugger.specs.Serving.{LetsGo};
ghost use Rattle.ti_debugger.specs.Stopping.{stop_refusal, stopped_in};
