//! What takes place at the service, and a debugger can ask to be told.

use crate::error::JdwpError;
use crate::request::EventKind;
use crate::stops::{Depth, Size, Standing, Step, Stopped, Target};
use crate::text::Text;
use std::alloc::Global;

/// Whether two lines are the same. Without a line each is.
fn is_same_line(a: Option<u32>, b: Option<u32>) -> bool
    ensures { result ≡ is_same_line a b }
{
    match (a, b) {
        (None, None) => true,
        (Some(line), Some(other)) => line == other,
        _ => false,
    }
}

/// A place at which a thread stopped.
#[derive(Drop)]
pub(crate) struct Spot {
    pub(crate) thread: u32,
    pub(crate) class: u32,
    pub(crate) method: u32,
    pub(crate) index: u32,
    pub(crate) line: Option<u32>,
    pub(crate) frames: u32,
    pub(crate) signature: Text,
    pub(crate) breakpoint: bool,
    pub(crate) single_step: bool,
}

impl Spot {
    /// The place at which a thread stopped. 110 OUT_OF_MEMORY if there is no memory for the signature.
    pub(crate) fn new(alloc: Global, at: &Stopped<'_>) -> Result<Spot, JdwpError>
        ensures ok { IfOk result (λ s. s ≡ spot_of at.now) }
        ensures memory { IfErr result (λ e. e ≡ OutOfMemory) }
    {
        let bytes = Vec::from_slice(alloc, at.signature)?;
        Ok(Spot {
            thread: at.thread,
            class: at.class,
            method: at.method,
            index: at.index,
            line: at.line,
            frames: at.frames,
            signature: Text::new(bytes),
            breakpoint: at.breakpoint,
            single_step: at.single_step,
        })
    }

    /// Whether a request for a breakpoint is one for this place.
    fn is_place(&self, target: Target) -> bool
        ensures { result ≡ is_place self.now target }
    {
        match target {
            Target::Place {
                class,
                method,
                index,
            } => self.class == class && self.method == method && self.index == index,
            _ => false,
        }
    }

    /// Whether the step that a request is for ends at this place.
    fn is_end(&self, target: Target) -> bool
        ensures { result ≡ is_end self.now target }
    {
        match target {
            Target::Step(step) => self.thread == step.thread && self.is_done(step),
            _ => false,
        }
    }

    /// Whether a step of the thread ends at this place.
    fn is_done(&self, step: Step) -> bool
        ensures { result ≡ is_done self.now step }
    {
        let from = step.from;
        match step.depth {
            Depth::Into => self.frames != from.frames || self.has_moved(step.size, from),
            Depth::Over => {
                self.frames < from.frames
                    || self.frames == from.frames && self.has_moved(step.size, from)
            }
            Depth::Out => self.frames < from.frames,
        }
    }

    /// Whether the place is far enough from this one for a step of this size, with as many frames.
    fn has_moved(&self, size: Size, from: Standing) -> bool
        ensures { result ≡ has_moved self.now size from }
    {
        match size {
            Size::Min => true,
            Size::Line => self.method != from.method || !is_same_line(self.line, from.line),
        }
    }
}

/// What took place.
#[derive(Drop)]
pub(crate) enum Event {
    /// A thread stopped here. It is an event if the thread goes in single steps.
    SingleStep(Spot),
    /// A thread stopped here. It is an event if a breakpoint is set.
    Breakpoint(Spot),
    /// The thread with this number began.
    ThreadStart(u32),
    /// The thread with this number ended.
    ThreadDeath(u32),
    /// A class became known, at this thread.
    ClassPrepare {
        thread: u32,
        class: u32,
        signature: Text,
    },
    /// The runtime ends.
    VmDeath,
}

impl Event {
    /// A class became known. 110 OUT_OF_MEMORY if there is no memory for its signature.
    pub(crate) fn class_prepare(
        alloc: Global,
        thread: u32,
        class: u32,
        signature: &[u8],
    ) -> Result<Event, JdwpError>
        ensures ok { IfOk result (λ e. e ≡ ClassPrepare thread class signature.now) }
        ensures memory { IfErr result (λ e. e ≡ OutOfMemory) }
    {
        let bytes = Vec::from_slice(alloc, signature)?;
        Ok(Event::ClassPrepare {
            thread,
            class,
            signature: Text::new(bytes),
        })
    }

    /// The kind of event that a debugger asks for.
    pub(crate) fn kind(&self) -> EventKind
        ensures { result ≡ event_kind self.now }
    {
        match self {
            Event::SingleStep(_) => EventKind::SingleStep,
            Event::Breakpoint(_) => EventKind::Breakpoint,
            Event::ThreadStart(_) => EventKind::ThreadStart,
            Event::ThreadDeath(_) => EventKind::ThreadDeath,
            Event::ClassPrepare { .. } => EventKind::ClassPrepare,
            Event::VmDeath => EventKind::VmDeath,
        }
    }

    /// The thread at which it took place; 0 if it did at none.
    pub(crate) fn thread(&self) -> u32
        ensures { result ≡ event_thread self.now }
    {
        match self {
            Event::SingleStep(spot) => spot.thread,
            Event::Breakpoint(spot) => spot.thread,
            Event::ThreadStart(thread) => *thread,
            Event::ThreadDeath(thread) => *thread,
            Event::ClassPrepare { thread, .. } => *thread,
            Event::VmDeath => 0,
        }
    }

    /// Whether it took place at this thread.
    fn is_at(&self, thread: u32) -> bool
        ensures { result ≡ is_event_at self.now thread }
    {
        match self {
            Event::VmDeath => false,
            _ => self.thread() == thread,
        }
    }

    /// Whether it is what a request of its kind is made for.
    pub(crate) fn is_for(&self, target: Target) -> bool
        ensures { result ≡ is_for self.now target }
    {
        match self {
            Event::SingleStep(spot) => spot.single_step && spot.is_end(target),
            Event::Breakpoint(spot) => spot.breakpoint && spot.is_place(target),
            _ => true,
        }
    }

    /// Whether it is an event of this class.
    fn is_of(&self, class: u32) -> bool
        ensures { result ≡ is_event_of self.now class }
    {
        match self {
            Event::SingleStep(spot) => spot.class == class,
            Event::Breakpoint(spot) => spot.class == class,
            Event::ClassPrepare { class: own, .. } => *own == class,
            _ => false,
        }
    }

    /// The name of the class with `/` between its parts: the signature without its first byte, `L`, and its last, `;`. An event
    /// without a class has an empty name.
    fn name(&self) -> &[u8]
        ensures { result.now ≡ event_name self.now }
    {
        match self {
            Event::SingleStep(spot) => inner(spot.signature.as_slice()),
            Event::Breakpoint(spot) => inner(spot.signature.as_slice()),
            Event::ClassPrepare { signature, .. } => inner(signature.as_slice()),
            _ => &[],
        }
    }
}

/// The bytes without the first and the last.
fn inner(bytes: &[u8]) -> &[u8]
    ensures { result.now ≡ drop 1 (take (length bytes.now - 1) bytes.now) }
{
    if bytes.len() < 2 {
        return &[];
    }
    &bytes[1..bytes.len() - 1]
}

/// What an event has to meet beside its kind. Patterns have `/` between the parts of a name, and may begin or end with `*`.
#[derive(Drop)]
pub(crate) enum Filter {
    /// It takes place at this thread.
    Thread(u32),
    /// It is an event of this class.
    Class(u32),
    /// The name of its class matches the pattern.
    Matches(Text),
    /// The name of its class does not match the pattern.
    Excludes(Text),
}

/// Whether a name matches a pattern: a `*` at its beginning or, if there is none, at its end stands for any bytes.
fn is_match(pattern: &[u8], name: &[u8]) -> bool
    ensures { result ≡ is_match pattern.now name.now }
{
    if pattern.starts_with(b"*") {
        name.ends_with(&pattern[1..])
    } else if pattern.ends_with(b"*") {
        name.starts_with(&pattern[..pattern.len() - 1])
    } else {
        name == pattern
    }
}

impl Filter {
    /// Whether the event meets it.
    pub(crate) fn passes(&self, event: &Event) -> bool
        ensures { result ≡ passes event.now self.now }
    {
        match self {
            Filter::Thread(thread) => event.is_at(*thread),
            Filter::Class(class) => event.is_of(*class),
            Filter::Matches(pattern) => is_match(pattern.as_slice(), event.name()),
            Filter::Excludes(pattern) => !is_match(pattern.as_slice(), event.name()),
        }
    }
}

/// Whether the event meets all of them.
pub(crate) fn all_pass(filters: &[Filter], event: &Event) -> bool
    ensures { result ≡ list_all (passes event.now) filters.now }
{
    filters.iter().all(|filter| filter.passes(event))
}

ghost use Rattle.std.specs.Prelude.{◌≡◌, ◌-◌, length, take, drop, IfOk, IfErr};
ghost use Rattle.std.specs.List.{list_all};
ghost use Rattle.ti_jdwp.specs.Filters.{event_kind, event_thread, is_event_at, is_event_of, event_name, is_match, passes};
ghost use Rattle.ti_jdwp.specs.Stops.{is_same_line, spot_of, is_place, is_end, is_done, has_moved, is_for};
ghost use Rattle.ti_jdwp.specs.declared.error.JdwpError.TheVariants.{OutOfMemory};
ghost use Rattle.ti_jdwp.specs.declared.event.Event.TheVariants.{ClassPrepare};
