//! The values that cross to C and back.

use ti_roster::{LifeKind, Stop, StopKind};
use ti_service::{Event, EventKind, NextEvent};
use ti_types::{EnvNo, Frame, Kind, MethodNo, Place, ThreadNo, Ticket};

/// The number that stands for all threads, which is no thread's.
const ALL_THREADS: u32 = u32::MAX;

/// A frame: its method, and its location, which is -1 if it is native (JVM TI 11, jlocation).
#[repr(C)]
#[derive(Clone, Copy)]
pub struct CqFrame {
    pub method: u32,
    pub location: i64,
}

/// The name of a call that waits.
#[repr(C)]
#[derive(Clone, Copy)]
pub struct CqTicket {
    pub env: u32,
    pub thread: u32,
    pub no: u64,
}

/// What a call at a thread gives: a number, a frame, or a ticket.
#[repr(C)]
#[derive(Clone, Copy)]
pub struct CqAnswer {
    pub number: u64,
    pub frame: CqFrame,
    pub ticket: CqTicket,
}

/// What is told of a thread: the length of its name in bytes, and its priority.
#[repr(C)]
#[derive(Clone, Copy)]
pub struct CqThreadInfo {
    pub name_length: u64,
    pub priority: i32,
}

/// An event of a thread's life, and how many events were lost before it.
#[repr(C)]
#[derive(Clone, Copy)]
pub struct CqEvent {
    pub kind: u32,
    pub number: u32,
    pub lost: u64,
}

/// A stop of a thread: where it is, and why it stops there, by the bits 1 (a breakpoint), 2 (a single step) and 4 (the end of a frame).
#[repr(C)]
#[derive(Clone, Copy)]
pub struct CqStop {
    pub thread: u32,
    pub method: u32,
    pub location: i64,
    pub why: u32,
}

/// What a trace of several threads tells of one: its number, its state, and how many of its frames were read.
#[repr(C)]
#[derive(Clone, Copy)]
pub struct CqStackInfo {
    pub thread: u32,
    pub state: u32,
    pub frame_count: u64,
}

/// A frame as C has it.
pub(crate) fn frame_out(frame: Frame) -> CqFrame
    ensures { result ≡ frame_written frame }
{
    CqFrame {
        method: frame.method.0,
        location: match frame.place {
            Place::Java(at) => i64::from(at),
            Place::Native => -1,
        },
    }
}

/// A frame that C gives. `None` if its location is below -1 or above 2^32 - 1.
pub(crate) fn frame_in(frame: CqFrame) -> Option<Frame>
    ensures { result ≡ if is_frame frame then Some (frame_of frame) else None }
{
    if frame.location < -1 || frame.location > 0xFFFF_FFFF {
        return None;
    }
    let place = if frame.location < 0 {
        Place::Native
    } else {
        Place::Java(frame.location as u32)
    };
    Some(Frame {
        method: MethodNo(frame.method),
        place,
    })
}

/// A ticket as C has it.
pub(crate) fn ticket_out(ticket: Ticket) -> CqTicket
    ensures { result ≡ ticket_written ticket }
{
    CqTicket {
        env: ticket.env.0,
        thread: ticket.thread.0,
        no: ticket.no,
    }
}

/// A ticket that C gives.
pub(crate) fn ticket_in(ticket: CqTicket) -> Ticket
    ensures { result ≡ ticket_read ticket }
{
    Ticket {
        env: EnvNo(ticket.env),
        thread: ThreadNo(ticket.thread),
        no: ticket.no,
    }
}

/// A kind of event by C's number. `None` if there is no such kind.
pub(crate) fn event_kind_in(kind: u32) -> Option<EventKind>
    ensures { result ≡ event_kind_read kind }
{
    match kind {
        0 => Some(EventKind::ThreadStart),
        1 => Some(EventKind::ThreadEnd),
        2 => Some(EventKind::ClassPrepare),
        3 => Some(EventKind::ThreadAttached),
        4 => Some(EventKind::ThreadDetached),
        _ => None,
    }
}

/// An event as C has it.
pub(crate) fn event_out(next: NextEvent) -> CqEvent
    ensures { result ≡ event_written next }
{
    let (kind, number) = match next.event {
        Event::Life(life) => (life_kind_out(life.kind), life.thread.0),
        Event::ClassPrepare(class) => (2, class.0),
    };
    CqEvent {
        kind,
        number,
        lost: next.lost,
    }
}

/// C's number for a kind of event of a thread's life.
fn life_kind_out(kind: LifeKind) -> u32
    ensures { result ≡ life_kind_written kind }
{
    match kind {
        LifeKind::ThreadStart => 0,
        LifeKind::ThreadEnd => 1,
        LifeKind::ThreadAttached => 3,
        LifeKind::ThreadDetached => 4,
    }
}

/// A bit, if it is set.
fn bit(set: bool, value: u32) -> u32
    ensures { result ≡ bit set value }
{
    if set { value } else { 0 }
}

/// A stop as C has it.
pub(crate) fn stop_out(stop: Stop) -> CqStop
    ensures { result ≡ stop_written stop }
{
    let frame = frame_out(stop.at);
    CqStop {
        thread: stop.thread.0,
        method: frame.method,
        location: frame.location,
        why: bit(stop.breakpoint, 1) + bit(stop.single_step, 2) + bit(stop.frame_pop, 4),
    }
}

/// The kind of stop of this number. `None` if there is no such kind.
pub(crate) fn stop_kind_in(kind: u32) -> Option<StopKind>
    ensures { result ≡ kind_read kind }
{
    match kind {
        0 => Some(StopKind::Breakpoint),
        1 => Some(StopKind::SingleStep),
        2 => Some(StopKind::FramePop),
        _ => None,
    }
}

/// One thread, or all.
pub(crate) fn stop_thread_in(thread: u32) -> Option<ThreadNo>
    ensures { result ≡ thread_read thread }
{
    if thread == ALL_THREADS {
        None
    } else {
        Some(ThreadNo(thread))
    }
}

/// The reason to block of this number. `None` if there is no such reason.
pub(crate) fn reason_in(reason: u32) -> Option<Kind>
    ensures { result ≡ reason_read reason }
{
    match reason {
        0 => Some(Kind::MonitorEnter),
        1 => Some(Kind::ObjectWait),
        2 => Some(Kind::TimedWait),
        3 => Some(Kind::Sleep),
        4 => Some(Kind::Park),
        5 => Some(Kind::TimedPark),
        _ => None,
    }
}

ghost use Rattle.std.specs.Prelude.{◌≡◌, if◌then◌else◌, Some, None};
ghost use Rattle.ti_capi.specs.Values.{event_kind_read, event_written, frame_of, frame_written, is_frame, life_kind_written, reason_read, ticket_read, ticket_written};
ghost use Rattle.ti_capi.specs.Stops.{bit, kind_read, stop_written, thread_read};
