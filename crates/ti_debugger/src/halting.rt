//! What a session is told of threads that stopped.

use crate::desk::Desk;
use crate::halted::{Halted, Stage};
use crate::refusal::Refusal;
use crate::seat::Seat;
use crate::stopping::Spot;
use ti_jdwp::{JdwpError, Session, Stopped, Verdict};
use ti_service::{ClassCalls, ClassNo, Stop, StopCall, StopCalls, StopReply};
use ti_types::Place;

/// Stops that are taken at once, at most.
const MOST_STOPS: u32 = 1_024;

/// What is told of a stop beside the stop itself.
#[derive(Drop)]
struct Report {
    class: ClassNo,
    index: u32,
    line: Option<u32>,
    frames: u32,
    signature: String,
}

/// Takes the stops that there are, tells the session of them, if there is one, and lets go on who may. What nobody wants any more is
/// taken back.
pub(crate) fn tend_stops(seat: &mut Option<Seat>, desk: &mut Desk)
    ensures told { ToldOfLives (session_in seat.old) (session_in seat.new) }
    ensures due { due_in seat.new ≡ due_in seat.old }
    ensures rest { Works desk.old desk.new }
    ensures asked { desk.new.asked ≡ desk.old.asked }
    ensures objects { desk.new.objects ≡ desk.old.objects }
{
    if !desk.stops.are_any() {
        return;
    }
    desk.take_stops();
    for index in 0..desk.stops.halted.len() {
        tell_stop(seat, desk, index);
    }
    desk.let_go_on();
    desk.tidy_spots(seat);
    desk.tidy_steppers(seat);
}

/// Tells the session, if there is one, of a stop that it was not told. Without one the thread goes on.
fn tell_stop(seat: &mut Option<Seat>, desk: &mut Desk, index: usize)
    ensures told { ToldOfLives (session_in seat.old) (session_in seat.new) }
    ensures due { due_in seat.new ≡ due_in seat.old }
    ensures rest { Works desk.old desk.new }
    ensures asked { desk.new.asked ≡ desk.old.asked }
    ensures objects { desk.new.objects ≡ desk.old.objects }
{
    let Some(halted) = desk.stops.halted.get(index) else {
        return;
    };
    if !matches!(halted.stage, Stage::New) {
        return;
    }
    let stop = halted.stop;
    let stage = match seat {
        Some(seat) => desk.stage_of(&mut seat.session, stop),
        None => Some(Stage::Goes),
    };
    if let Some(stage) = stage {
        desk.stops.set_stage(index, stage);
    }
}

/// Whether the session wants a breakpoint.
fn wants_spot(seat: &Option<Seat>, spot: Spot) -> bool {
    match seat {
        Some(seat) => seat
            .session
            .wants_breakpoint(spot.class, spot.method, spot.index),
        None => false,
    }
}

/// Whether the session wants a thread to step.
fn wants_steps(seat: &Option<Seat>, thread: u32) -> bool {
    match seat {
        Some(seat) => seat.session.steps_at(thread),
        None => false,
    }
}

impl Desk {
    /// Takes the stops that there are, as far as there is memory and the roster is free.
    fn take_stops(&mut self)
        ensures { self.new ≡ record self.old { agent = self.new.agent; stops = self.new.stops } }
    {
        for _ in 0..MOST_STOPS {
            if self.stops.halted.reserve(1).is_err() {
                return;
            }
            let Ok(StopReply::Told(Some(stop))) = self.agent.stop_now(StopCall::Next) else {
                return;
            };
            self.stops.halted.push_reserved(Halted {
                stop,
                stage: Stage::New,
            });
        }
    }

    /// What is told of a stop. 13 THREAD_NOT_SUSPENDED as long as the thread has not handed over.
    fn report(&mut self, stop: Stop) -> Result<Report, Refusal>
        ensures { self.new ≡ record self.old { agent = self.new.agent } }
    {
        let Place::Java(index) = stop.at.place else {
            return Err(Refusal::Error(JdwpError::InvalidLocation));
        };
        let class = self.agent.get_method_declaring_class(stop.at.method)?;
        Ok(Report {
            class,
            index,
            line: self.line_at(stop.at.method, index)?,
            frames: self.frames_at(stop.thread.0)?,
            signature: self.agent.get_class_signature(self.alloc, class)?,
        })
    }

    /// What becomes of a thread that stopped, once the session is told. `None` if it is told later.
    fn stage_of(&mut self, session: &mut Session, stop: Stop) -> Option<Stage>
        ensures told { TellsLives session.old session.new }
        ensures rest { self.new ≡ record self.old { agent = self.new.agent } }
    {
        if stop.frame_pop {
            return self.step_again(session, stop.thread.0);
        }
        match self.report(stop) {
            Ok(report) => Some(tell(session, stop, &report)),
            Err(Refusal::Later | Refusal::Error(JdwpError::ThreadNotSuspended)) => {
                self.if_ended(stop.thread.0)
            }
            Err(_) => Some(Stage::Goes),
        }
    }

    /// A thread that has ended does not stop.
    fn if_ended(&self, thread: u32) -> Option<Stage> {
        let place = self.crowd.place_of(thread)?;
        if self.crowd.list[place].ended {
            Some(Stage::Goes)
        } else {
            None
        }
    }

    /// A thread that ran to the end of a frame steps again, if the session wants it to.
    fn step_again(&mut self, session: &Session, thread: u32) -> Option<Stage>
        ensures { self.new ≡ record self.old { agent = self.new.agent } }
    {
        if session.steps_at(thread) && matches!(self.step(thread), Err(Refusal::Later)) {
            return None;
        }
        Some(Stage::Goes)
    }

    /// Clears the breakpoints that the session does not want, as far as the roster is free.
    fn tidy_spots(&mut self, seat: &Option<Seat>)
        ensures { self.new ≡ record self.old { agent = self.new.agent; stops = self.new.stops } }
    {
        for index in (0..self.stops.spots.len()).rev() {
            self.tidy_spot(seat, index);
        }
        self.hear_no_more();
    }

    /// Clears a breakpoint, if the session does not want it.
    fn tidy_spot(&mut self, seat: &Option<Seat>, index: usize)
        ensures { self.new ≡ record self.old { agent = self.new.agent; stops = self.new.stops } }
    {
        let Some(spot) = self.stops.spots.get(index) else {
            return;
        };
        let spot = *spot;
        if !wants_spot(seat, spot) && self.clear(spot) {
            let _cleared = self.stops.spots.remove(index);
        }
    }

    /// The agent is told of breakpoints no more, once it has none.
    fn hear_no_more(&mut self)
        ensures { self.new ≡ record self.old { agent = self.new.agent; stops = self.new.stops } }
    {
        if self.stops.hears && self.stops.spots.is_empty() && self.mute() {
            self.stops.hears = false;
        }
    }

    /// Ends the single steps that the session does not want, as far as the roster is free.
    fn tidy_steppers(&mut self, seat: &Option<Seat>)
        ensures { self.new ≡ record self.old { agent = self.new.agent; stops = self.new.stops } }
    {
        for index in (0..self.stops.steppers.len()).rev() {
            self.tidy_stepper(seat, index);
        }
    }

    /// Ends the single steps of a thread, if the session does not want them.
    fn tidy_stepper(&mut self, seat: &Option<Seat>, index: usize)
        ensures { self.new ≡ record self.old { agent = self.new.agent; stops = self.new.stops } }
    {
        let Some(thread) = self.stops.steppers.get(index) else {
            return;
        };
        let thread = *thread;
        if !wants_steps(seat, thread) && self.walk(thread) {
            let _gone = self.stops.steppers.remove(index);
        }
    }
}

/// Tells the session of a stop.
fn tell(session: &mut Session, stop: Stop, report: &Report) -> Stage
    ensures { TellsLives session.old session.new }
{
    let at = Stopped {
        thread: stop.thread.0,
        class: report.class.0,
        method: stop.at.method.0,
        index: report.index,
        line: report.line,
        frames: report.frames,
        signature: report.signature.as_bytes(),
        breakpoint: stop.breakpoint,
        single_step: stop.single_step,
    };
    let verdict = session.stopped(&at);
    stage_by(verdict)
}

/// What becomes of a thread by what the session says.
fn stage_by(verdict: Verdict) -> Stage {
    match verdict {
        Verdict::Told => Stage::Told,
        Verdict::Passed => Stage::Goes,
        Verdict::Deeper(frames) => Stage::RunsTo(frames),
    }
}

ghost use Rattle.std.specs.Prelude.{◌≡◌};
ghost use Rattle.ti_debugger.specs.Desks.{Works};
ghost use Rattle.ti_debugger.specs.Sessions.{due_in, session_in};
ghost use Rattle.ti_debugger.specs.Told.{TellsLives, ToldOfLives};
