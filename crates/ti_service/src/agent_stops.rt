//! Breakpoints, steps and pops of frames, by their names of JVM TI.

use crate::agent::Agent;
use crate::agent_classes::ClassCalls;
use crate::membership::Membership;
use std::alloc::Global;
use std::sync::Wait;
use ti_agent::Env;
use ti_methods::{ClassError, LineEntry, Lines};
use ti_roster::{StopCall, StopError, StopReply};
use ti_types::{Frame, MethodNo, Place};

/// What an agent asks of stops of threads. Its breakpoints, modes and pops are its own: no other agent sees or changes them.
pub trait StopCalls {
    /// A call about stops, as `Service::stop_now` makes it.
    fn stop_now(&mut self, call: StopCall) -> Result<StopReply, StopError>;

    /// The same, once the roster is free.
    fn stop<R: Wait>(&mut self, rt: &R, call: StopCall) -> Result<StopReply, StopError>;

    /// SetBreakpoint (JVM TI 11). Threads stop there once Breakpoint events are enabled (`StopCall::Enable`).
    ///
    /// The error is the first of these that fits. Then nothing changes but what the agent has seen:
    ///
    /// - 23 INVALID_METHODID: no method of this number was defined.
    /// - 24 INVALID_LOCATION: the method is native, or its table of lines has no entry that begins at the location.
    /// - 40 DUPLICATE: the agent has a breakpoint there.
    /// - 110 OUT_OF_MEMORY, 215 `Busy`, 216 `Full` (this profile): as for `stop_now`, and 215 if the method is just being defined.
    fn set_breakpoint_now(
        &mut self,
        alloc: Global,
        method: MethodNo,
        location: u32,
    ) -> Result<(), StopError>;

    /// ClearBreakpoint (JVM TI 11). 41 NOT_FOUND if the agent has no breakpoint there. The other errors are those of
    /// `set_breakpoint_now`.
    fn clear_breakpoint_now(
        &mut self,
        alloc: Global,
        method: MethodNo,
        location: u32,
    ) -> Result<(), StopError>;
}

/// Whether an entry of a table begins at a location.
fn has_entry(entries: &[LineEntry], location: u32) -> bool
    ensures { result ≡ list_any (begins_at location) entries.now }
{
    entries
        .iter()
        .any(|entry: &LineEntry| entry.start_location == location)
}

/// Whether lines have this location: a table where an entry begins, and others everywhere.
fn has_location(lines: &Lines, location: u32) -> bool
    ensures { result ≡ has_location lines.now location }
{
    match lines {
        Lines::Table(table) => has_entry(table.as_slice(), location),
        Lines::Absent | Lines::Locations => true,
    }
}

/// Whether there may be a breakpoint at a location: 23, 24, 110 or 215 if not.
fn check_place(
    agent: &mut Agent,
    alloc: Global,
    method: MethodNo,
    location: u32,
) -> Result<(), StopError>
    ensures sees { SeesClasses agent.old agent.new }
    ensures place { OnOk result (IsPlace (classes_of agent.new) method location) }
    ensures none { IfErr result (λ e. IsNoPlace (classes_of agent.new) method location e) }
{
    match agent.get_line_number_table(alloc, method) {
        Ok(lines) => {
            if has_location(&lines, location) {
                Ok(())
            } else {
                Err(StopError::InvalidLocation)
            }
        }
        Err(ClassError::AbsentInformation) => Ok(()),
        Err(ClassError::NativeMethod) => Err(StopError::InvalidLocation),
        Err(ClassError::InvalidMethod) => Err(StopError::InvalidMethod),
        Err(ClassError::Busy) => Err(StopError::Busy),
        Err(_) => Err(StopError::OutOfMemory),
    }
}

/// Sets or clears a breakpoint, if there may be one.
fn set_or_clear(
    agent: &mut Agent,
    alloc: Global,
    method: MethodNo,
    location: u32,
    call: StopCall,
) -> Result<(), StopError>
    ensures done { OnOk result (Breaks agent.old agent.new method location call) }
    ensures refused { IfErr result (λ e. BreaksNot agent.old agent.new method location call e) }
{
    check_place(agent, alloc, method, location)?;
    match agent.stop_now(call) {
        Ok(_) => Ok(()),
        Err(error) => Err(error),
    }
}

/// A location of a method.
fn place_in(method: MethodNo, location: u32) -> Frame
    ensures { result ≡ place_of method location }
{
    Frame {
        method,
        place: Place::Java(location),
    }
}

impl StopCalls for Env<Membership> {
    fn stop_now(&mut self, call: StopCall) -> Result<StopReply, StopError>
        ensures took { IfOk result (λ r. AgentCalls self.old self.new call r) }
        ensures refused { IfErr result (λ e. AgentRefuses self.old self.new call e) }
    {
        self.home.service.stop_now(call)
    }

    fn stop<R: Wait>(&mut self, rt: &R, call: StopCall) -> Result<StopReply, StopError>
        ensures took { IfOk result (λ r. AgentCalls self.old self.new call r) }
        ensures refused { IfErr result (λ e. AgentRefuses self.old self.new call e) }
        ensures held { IfErr result (λ e. RefusesHeld self.old.home.service self.new.home.service call e) }
    {
        self.home.service.stop(rt, call)
    }

    fn set_breakpoint_now(
        &mut self,
        alloc: Global,
        method: MethodNo,
        location: u32,
    ) -> Result<(), StopError>
        ensures done { OnOk result (Breaks self.old self.new method location (SetBreakpoint (place_of method location))) }
        ensures refused { IfErr result (λ e. BreaksNot self.old self.new method location (SetBreakpoint (place_of method location)) e) }
    {
        let call = StopCall::SetBreakpoint(place_in(method, location));
        set_or_clear(self, alloc, method, location, call)
    }

    fn clear_breakpoint_now(
        &mut self,
        alloc: Global,
        method: MethodNo,
        location: u32,
    ) -> Result<(), StopError>
        ensures done { OnOk result (Breaks self.old self.new method location (ClearBreakpoint (place_of method location))) }
        ensures refused { IfErr result (λ e. BreaksNot self.old self.new method location (ClearBreakpoint (place_of method location)) e) }
    {
        let call = StopCall::ClearBreakpoint(place_in(method, location));
        set_or_clear(self, alloc, method, location, call)
    }
}

ghost use Rattle.std.specs.Prelude.{◌≡◌, IfErr, IfOk, OnOk};
ghost use Rattle.std.specs.List.{list_any};
ghost use Rattle.ti_service.specs.Classes.{SeesClasses, classes_of};
ghost use Rattle.ti_service.specs.Stops.{AgentCalls, AgentRefuses, Breaks, BreaksNot, IsNoPlace, IsPlace, RefusesHeld, begins_at, has_location, place_of};
ghost use Rattle.ti_stops.specs.declared.call.StopCall.TheVariants.{ClearBreakpoint, SetBreakpoint};
