//! The body of a composite event: the command Event.Composite, 64/100, which goes to the debugger without a request.

use crate::error::JdwpError;
use crate::ids::thread_id;
use crate::request::{EventKind, Policy};
use crate::rows::{PutRow, put_rows};
use crate::writing::{put_byte, put_class, put_int, put_location, put_long, put_text};
use std::alloc::Global;

/// What took place.
#[derive(Clone, Copy, Debug)]
pub enum Occurrence<'a> {
    /// A thread, by its number, was started.
    ThreadStart {
        thread: u32,
    },
    /// A thread, by its number, ended.
    ThreadDeath {
        thread: u32,
    },
    /// A class was defined. The thread, by its number, is that which did so.
    ClassPrepare {
        thread: u32,
        class: u32,
        signature: &'a [u8],
    },
    /// A step of a thread ended at a location of a method. All have their numbers.
    SingleStep {
        thread: u32,
        class: u32,
        method: u32,
        index: u32,
    },
    /// A thread reached a breakpoint at a location of a method. All have their numbers.
    Breakpoint {
        thread: u32,
        class: u32,
        method: u32,
        index: u32,
    },
    /// The class with this signature is gone.
    ClassUnload {
        signature: &'a [u8],
    },
    /// The runtime began. The thread, by its number, is its first.
    VmStart {
        thread: u32,
    },
    /// The runtime ends.
    VmDeath,
}

/// An event for one event request. A request of 0 stands for none, as the end of the runtime may have it.
#[derive(Clone, Copy, Debug)]
pub struct EventRow<'a> {
    pub request: i32,
    pub occurrence: Occurrence<'a>,
}

/// The body of a composite event: which threads were suspended for it, and the events of one occurrence.
///
/// Fails with 110 OUT_OF_MEMORY alone: if there is no memory, or if there are 2^31 events or bytes of a signature or more.
pub fn composite_body(
    alloc: Global,
    policy: Policy,
    events: &[EventRow<'_>],
) -> Result<Vec<u8>, JdwpError>
    ensures ok { IfOk result (λ v. v.items ≡ composite policy events.now) }
    ensures fits { IfOk result (λ _. (length events.now < 2 ^ 31) × All (λ r. HasShortText r.occurrence) events.now) }
    ensures memory { IfErr result (λ e. e ≡ OutOfMemory) }
{
    let mut out = Vec::new(alloc);
    put_byte(&mut out, policy.number())?;
    put_rows(&mut out, &Events, events)?;
    Ok(out)
}

/// How events are listed.
struct Events;

impl PutRow<EventRow<'_>> for Events {
    ghost bytes = { λ _ row. event_row row };

    ghost Fits = { λ row. HasShortText row.occurrence };

    fn put(&self, out: &mut Vec<u8>, row: &EventRow<'_>) -> Result<(), JdwpError> {
        put_byte(out, kind(row.occurrence).number())?;
        put_int(out, row.request.cast_unsigned())?;
        put_occurrence(out, row.occurrence)
    }
}

fn kind(occurrence: Occurrence<'_>) -> EventKind
    ensures { result ≡ kind_of_occurrence occurrence.entry }
{
    match occurrence {
        Occurrence::ThreadStart { .. } => EventKind::ThreadStart,
        Occurrence::ThreadDeath { .. } => EventKind::ThreadDeath,
        Occurrence::ClassPrepare { .. } => EventKind::ClassPrepare,
        Occurrence::SingleStep { .. } => EventKind::SingleStep,
        Occurrence::Breakpoint { .. } => EventKind::Breakpoint,
        Occurrence::ClassUnload { .. } => EventKind::ClassUnload,
        Occurrence::VmStart { .. } => EventKind::VmStart,
        Occurrence::VmDeath => EventKind::VmDeath,
    }
}

fn put_occurrence(out: &mut Vec<u8>, occurrence: Occurrence<'_>) -> Result<(), JdwpError>
    ensures ok { OnOk result (out.new.items ≡ out.old.items ++ occurrence_fields occurrence.entry) }
    ensures fits { OnOk result (HasShortText occurrence.entry) }
    ensures memory { IfErr result (λ e. e ≡ OutOfMemory) }
{
    match occurrence {
        Occurrence::ThreadStart { thread }
        | Occurrence::ThreadDeath { thread }
        | Occurrence::VmStart { thread } => put_long(out, thread_id(thread)),
        Occurrence::ClassPrepare {
            thread,
            class,
            signature,
        } => put_prepared(out, thread, class, signature),
        Occurrence::SingleStep {
            thread,
            class,
            method,
            index,
        } => put_place(out, thread, class, method, index),
        Occurrence::Breakpoint {
            thread,
            class,
            method,
            index,
        } => put_place(out, thread, class, method, index),
        Occurrence::ClassUnload { signature } => put_text(out, signature),
        Occurrence::VmDeath => Ok(()),
    }
}

fn put_place(
    out: &mut Vec<u8>,
    thread: u32,
    class: u32,
    method: u32,
    index: u32,
) -> Result<(), JdwpError>
    ensures ok { OnOk result (out.new.items ≡ out.old.items ++ location_fields thread class method index) }
    ensures memory { IfErr result (λ e. e ≡ OutOfMemory) }
{
    put_long(out, thread_id(thread))?;
    put_location(out, class, method, u64::from(index))
}

fn put_prepared(
    out: &mut Vec<u8>,
    thread: u32,
    class: u32,
    signature: &[u8],
) -> Result<(), JdwpError>
    ensures ok { OnOk result (out.new.items ≡ out.old.items ++ prepared_fields thread class signature.now) }
    ensures fits { OnOk result (length signature.now < 2 ^ 31) }
    ensures memory { IfErr result (λ e. e ≡ OutOfMemory) }
{
    put_long(out, thread_id(thread))?;
    put_class(out, class)?;
    put_text(out, signature)?;
    put_int(out, 7)
}

ghost use Rattle.std.specs.Prelude.{◌≡◌, ◌<◌, ◌^◌, length, All, ◌++◌, OnOk, IfOk, IfErr};
ghost use Rattle.ti_jdwp.specs.Composites.{HasShortText, kind_of_occurrence, occurrence_fields, location_fields, prepared_fields, event_row, composite};
ghost use Rattle.ti_jdwp.specs.declared.error.JdwpError.TheVariants.{OutOfMemory};
