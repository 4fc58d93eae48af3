//! Threads that stop while a debugger is there.

use crate::error::JdwpError;
use crate::event::{Event, Spot};
use crate::event_text::{EventRow, Occurrence, composite_body};
use crate::notice::Notice;
use crate::requests_in_force::{Requests, Told, stronger};
use crate::session::Session;
use crate::session_events::rows_of;
use crate::stops::{Stopped, Verdict};
use crate::text::Text;
use std::alloc::Global;

impl Session {
    /// A thread stopped at a place, and waits there. What becomes of it:
    ///
    /// - `Told`: requests ask for it, and the event waits. Once it is told, [`Action::LetGo`](crate::Action::LetGo) comes.
    /// - `Passed`: the driver lets the thread go on. Nobody asked for it, or the session ends, or the event is lost, since 4,096 events
    ///   wait or there is no memory.
    /// - `Deeper(frames)`: nobody asked for it, and the requests for steps of the thread wait all for a step that ends with at most so
    ///   many frames, which are fewer than the thread has. The driver lets it go on, without single steps until then.
    pub fn stopped(&mut self, at: &Stopped<'_>) -> Verdict
        ensures { Stops (spot_of at.now) self.old result self.new }
    {
        if self.is_over() {
            return Verdict::Passed;
        }
        let Ok(told) = tell_stop(self.alloc, &mut self.requests, at) else {
            self.events.lose();
            return Verdict::Passed;
        };
        if told.steps.numbers.is_empty() && told.breakpoints.numbers.is_empty() {
            return match self.requests.deeper(at.thread, at.frames) {
                Some(frames) => Verdict::Deeper(frames),
                None => Verdict::Passed,
            };
        }
        let Ok(notice) = stop_of(self.alloc, at, &told) else {
            self.events.lose();
            return Verdict::Passed;
        };
        if self.events.note(notice) {
            Verdict::Told
        } else {
            Verdict::Passed
        }
    }

    /// Whether a request in force waits for a breakpoint at this location of a method of a class.
    pub fn wants_breakpoint(&self, class: u32, method: u32, index: u32) -> bool
        ensures { result ≡ list_any (wants_breakpoint class method index) self.now.requests.list }
    {
        self.requests.want_breakpoint(class, method, index)
    }

    /// Whether a request in force waits for the end of a step of this thread.
    pub fn steps_at(&self, thread: u32) -> bool
        ensures { result ≡ list_any (steps_at thread) self.now.requests.list }
    {
        self.requests.step_at(thread)
    }
}

/// The requests that a stop meets.
#[derive(Drop)]
struct StopTold {
    steps: Told,
    breakpoints: Told,
}

/// Tells the requests of a stop: those for steps first.
///
/// - 110 OUT_OF_MEMORY: there is no memory for their numbers. Those for steps may have been told.
fn tell_stop(
    alloc: Global,
    requests: &mut Requests,
    at: &Stopped<'_>,
) -> Result<StopTold, JdwpError>
    ensures after { OnOk result (requests.new ≡ after_stop (spot_of at.now) requests.old) }
    ensures steps { IfOk result (λ t. t.steps.numbers.items ≡ numbers_of (steps_told (spot_of at.now) requests.old)) }
    ensures step_policy { IfOk result (λ t. t.steps.policy ≡ strongest (steps_told (spot_of at.now) requests.old)) }
    ensures breakpoints { IfOk result (λ t. t.breakpoints.numbers.items ≡ numbers_of (breakpoints_told (spot_of at.now) requests.old)) }
    ensures breakpoint_policy { IfOk result (λ t. t.breakpoints.policy ≡ strongest (breakpoints_told (spot_of at.now) requests.old)) }
    ensures err { OnErr result (IsPartlyTold (spot_of at.now) requests.old requests.new) }
{
    let steps = requests.tell(alloc, &Event::SingleStep(Spot::new(alloc, at)?))?;
    let breakpoints = requests.tell(alloc, &Event::Breakpoint(Spot::new(alloc, at)?))?;
    Ok(StopTold { steps, breakpoints })
}

/// All that is told of a stop. 110 OUT_OF_MEMORY if there is no memory for it.
fn stop_of(alloc: Global, at: &Stopped<'_>, told: &StopTold) -> Result<Notice, JdwpError>
    ensures ok { IfOk result (λ n. n ≡ stop_with (spot_of at.now) (stronger told.now.steps.policy told.now.breakpoints.policy) told.now.steps.numbers.items told.now.breakpoints.numbers.items) }
    ensures memory { IfErr result (λ e. e ≡ OutOfMemory) }
{
    let policy = stronger(told.steps.policy, told.breakpoints.policy);
    let step = Occurrence::SingleStep {
        thread: at.thread,
        class: at.class,
        method: at.method,
        index: at.index,
    };
    let breakpoint = Occurrence::Breakpoint {
        thread: at.thread,
        class: at.class,
        method: at.method,
        index: at.index,
    };
    let mut rows = rows_of(alloc, told.steps.numbers.as_slice(), step)?;
    let more = rows_of(alloc, told.breakpoints.numbers.as_slice(), breakpoint)?;
    add_rows(&mut rows, more.as_slice())?;
    let body = composite_body(alloc, policy, rows.as_slice())?;
    Ok(Notice {
        policy,
        thread: at.thread,
        stop: true,
        body: Text::new(body),
    })
}

pub(crate) fn add_rows<'a>(
    rows: &mut Vec<EventRow<'a>>,
    more: &[EventRow<'a>],
) -> Result<(), JdwpError>
    ensures ok { OnOk result (rows.new.items ≡ rows.old.items ++ more.now) }
    ensures memory { IfErr result (λ e. e ≡ OutOfMemory) }
{
    rows.extend_from_slice(more)?;
    Ok(())
}

ghost use Rattle.std.specs.Prelude.{◌≡◌, ◌++◌, IfOk, IfErr, OnOk, OnErr};
ghost use Rattle.std.specs.List.{list_any};
ghost use Rattle.ti_jdwp.specs.InForce.{stronger, strongest, wants_breakpoint, steps_at};
ghost use Rattle.ti_jdwp.specs.StopNotes.{Stops, numbers_of, steps_told, breakpoints_told, after_stop, IsPartlyTold, stop_with};
ghost use Rattle.ti_jdwp.specs.Stops.{spot_of};
ghost use Rattle.ti_jdwp.specs.declared.error.JdwpError.TheVariants.{OutOfMemory};
