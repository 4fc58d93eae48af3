//! Whether a thread has to stop.

use crate::codes::{CQ_MISUSED, CQ_OK};
use crate::handle::CqThread;
use ti_service::{StopCall, StopReply};
use ti_types::{Frame, MethodNo, Place, ThreadNo};

/// What a thread reached, or may reach.
#[derive(Clone, Copy)]
pub enum Reach {
    /// A location.
    At(Frame),
    /// The end of its newest frame, here, and how many frames it has with that.
    Leaving(Frame, u32),
    /// Nothing: it waits at a stop.
    Waiting,
    /// One of so many methods, from this one on, at some time.
    Within(MethodNo, u32),
}

impl Reach {
    /// The call that says so.
    fn call(self, thread: ThreadNo) -> StopCall
        ensures { result ≡ call_of self thread }
    {
        match self {
            Reach::At(frame) => StopCall::Reached(thread, frame),
            Reach::Leaving(frame, frames) => StopCall::Leaves(thread, frame, frames),
            Reach::Waiting => StopCall::IsStopped(thread),
            Reach::Within(first, count) => StopCall::MayStopIn(thread, first, count),
        }
    }
}

/// A location of a method.
fn place(method: u32, location: u32) -> Frame
    ensures { result ≡ place_of (method_no method) location }
{
    Frame {
        method: MethodNo(method),
        place: Place::Java(location),
    }
}

/// Says what the thread reached, and tells whether it has to wait, or may have to.
fn tell(thread: &mut CqThread, what: Reach, stops: &mut bool) -> u32
    ensures { ReachesBehind (thread_in thread.old) (thread_in thread.new) what stops.old stops.new thread.old thread.new result }
{
    let Some(held) = thread.held_thread() else {
        return CQ_MISUSED;
    };
    let Some(host) = &held.thread else {
        return CQ_MISUSED;
    };
    let number = host.thread.thread();
    match held.service.stop_now(what.call(number)) {
        Ok(StopReply::Stops(told)) => {
            *stops = told;
            CQ_OK
        }
        Ok(StopReply::Waits(told)) => {
            *stops = told;
            CQ_OK
        }
        Ok(_) => unreachable!(),
        Err(error) => error.number(),
    }
}

/// Whether a thread may have to stop at what it reaches next.
#[unsafe(no_mangle)]
pub extern "C" fn cq_may_stop(thread: &mut CqThread) -> bool
    ensures { MayStopBehind (thread_in thread.old) (thread_in thread.new) thread.old thread.new result }
{
    let Some(held) = thread.held_thread() else {
        return false;
    };
    held.service.may_stop()
}

/// A number that grows with each change about stops, and with each thread and environment that comes or goes.
#[unsafe(no_mangle)]
pub extern "C" fn cq_stops_version(thread: &mut CqThread) -> u64
    ensures { VersionBehind (thread_in thread.old) (thread_in thread.new) thread.old thread.new result }
{
    let Some(held) = thread.held_thread() else {
        return 0;
    };
    held.service.happened()
}

/// Whether a thread may have to stop in one of so many methods.
#[unsafe(no_mangle)]
pub extern "C" fn cq_may_stop_in(
    thread: &mut CqThread,
    first: u32,
    count: u32,
    may: &mut bool,
) -> u32
    ensures { ReachesBehind (thread_in thread.old) (thread_in thread.new) (reach.Within (method_no first) count) may.old may.new thread.old thread.new result }
{
    tell(thread, Reach::Within(MethodNo(first), count), may)
}

/// A thread reached a location.
#[unsafe(no_mangle)]
pub extern "C" fn cq_reached(
    thread: &mut CqThread,
    method: u32,
    location: u32,
    stops: &mut bool,
) -> u32
    ensures { ReachesBehind (thread_in thread.old) (thread_in thread.new) (reach.At (place_of (method_no method) location)) stops.old stops.new thread.old thread.new result }
{
    tell(thread, Reach::At(place(method, location)), stops)
}

/// A thread is about to leave its newest frame.
#[unsafe(no_mangle)]
pub extern "C" fn cq_leaves(
    thread: &mut CqThread,
    method: u32,
    location: u32,
    frames: u32,
    stops: &mut bool,
) -> u32
    ensures { ReachesBehind (thread_in thread.old) (thread_in thread.new) (reach.Leaving (place_of (method_no method) location) frames) stops.old stops.new thread.old thread.new result }
{
    tell(
        thread,
        Reach::Leaving(place(method, location), frames),
        stops,
    )
}

/// Whether a thread waits at a stop.
#[unsafe(no_mangle)]
pub extern "C" fn cq_is_stopped(thread: &mut CqThread, stops: &mut bool) -> u32
    ensures { ReachesBehind (thread_in thread.old) (thread_in thread.new) reach.Waiting stops.old stops.new thread.old thread.new result }
{
    tell(thread, Reach::Waiting, stops)
}

ghost use Rattle.std.specs.Prelude.{◌≡◌};
ghost use Rattle.ti_service.specs.Stops.{place_of};
ghost use Rattle.ti_capi.specs.Handles.{thread_in};
ghost use Rattle.ti_capi.specs.Stops.{MayStopBehind, ReachesBehind, VersionBehind, call_of};
ghost use Rattle.ti_capi.specs.Threads.{method_no};
ghost use Rattle.ti_capi.specs.declared.thread_stops.Reach.TheVariants as reach;
