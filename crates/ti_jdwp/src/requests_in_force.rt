//! The requests for events that are in force, and which of them an event meets.

use crate::error::JdwpError;
use crate::event::{Event, Filter, all_pass};
use crate::request::{EventKind, Policy};
use crate::stops::{Step, Target};
use std::alloc::Global;
use std::marker::Model;

/// Requests in force, at most.
const MAX_IN_FORCE: usize = 1024;

/// The greatest number of a request, which is an `int`.
const MAX_NUMBER: u32 = 0x7fff_ffff;

/// The modifiers of a request: what it is made for, those before its count, the count, and those behind it. Without a count all
/// stand before it.
#[derive(Drop)]
pub(crate) struct Filters {
    pub(crate) target: Target,
    pub(crate) front: Vec<Filter>,
    pub(crate) count: Option<u32>,
    pub(crate) rest: Vec<Filter>,
}

/// A request in force.
#[derive(Drop)]
pub(crate) struct InForce {
    number: u32,
    kind: EventKind,
    policy: Policy,
    target: Target,
    front: Vec<Filter>,
    left: Option<u32>,
    rest: Vec<Filter>,
}

impl Model for InForce {
    ghost use Rattle.ti_jdwp.specs.InForce.{Asked};

    ghost Value = { Asked };

    ghost view = { λ r. record {
      number = r.number;
      kind = r.kind;
      policy = r.policy;
      target = r.target;
      front = r.front.items;
      left = r.left;
      rest = r.rest.items;
    } };
}

impl InForce {
    fn number(&self) -> u32
        ensures { result ≡ self.now.number }
    {
        self.number
    }

    fn policy(&self) -> Policy
        ensures { result ≡ self.now.policy }
    {
        self.policy
    }

    /// Whether it is the request of this kind and number.
    fn is_it(&self, kind: u8, number: u32) -> bool
        ensures { result ≡ is_it kind number self.now }
    {
        self.kind.number() == kind && self.number == number
    }

    /// Whether it may still be told of an event.
    fn is_live(&self) -> bool
        ensures { result ≡ is_live self.now }
    {
        !matches!(self.left, Some(0))
    }

    /// Whether it waits for a breakpoint at this place.
    fn wants_breakpoint(&self, class: u32, method: u32, index: u32) -> bool
        ensures { result ≡ wants_breakpoint class method index self.now }
    {
        match self.target {
            Target::Place {
                class: own,
                method: of,
                index: at,
            } => own == class && of == method && at == index && self.is_live(),
            _ => false,
        }
    }

    /// The step of this thread for whose end it waits.
    fn step_of(&self, thread: u32) -> Option<Step>
        ensures { result ≡ step_of thread self.now }
    {
        match self.target {
            Target::Step(step) if step.thread == thread && self.is_live() => Some(step),
            _ => None,
        }
    }

    /// Whether it waits for the end of a step of this thread.
    fn steps_at(&self, thread: u32) -> bool
        ensures { result ≡ steps_at thread self.now }
    {
        self.step_of(thread).is_some()
    }

    /// Whether it waits for no step of this thread, but for one that ends with fewer frames.
    fn is_above(&self, thread: u32, frames: u32) -> bool
        ensures { result ≡ is_passed thread frames self.now }
    {
        match self.step_of(thread) {
            Some(step) => step.is_above(frames),
            None => true,
        }
    }

    /// With at most so many frames the step of this thread may end for whose end it waits; 0 without one.
    fn bound(&self, thread: u32) -> u32
        ensures { result ≡ bound_at thread self.now }
    {
        match self.step_of(thread) {
            Some(step) => step.bound(),
            None => 0,
        }
    }

    /// Whether it is told of the event, which counts if it comes as far as the count.
    fn meets(&mut self, event: &Event) -> bool
        ensures told { result ≡ is_told event.now self.old }
        ensures after { self.new ≡ after event.now self.old }
    {
        if self.kind.number() != event.kind().number() || !event.is_for(self.target) {
            return false;
        }
        if !all_pass(self.front.as_slice(), event) {
            return false;
        }
        if let Some(left) = self.left {
            self.left = Some(left.saturating_sub(1));
            if left != 1 {
                return false;
            }
        }
        all_pass(self.rest.as_slice(), event)
    }
}

/// The stronger of two policies: ALL before EVENT_THREAD before NONE.
pub(crate) fn stronger(a: Policy, b: Policy) -> Policy
    ensures { result ≡ stronger a b }
{
    if a.number() < b.number() { b } else { a }
}

/// The requests that an event meets.
#[derive(Drop)]
pub(crate) struct Told {
    /// Their numbers, in the order in which they were made.
    pub(crate) numbers: Vec<u32>,
    /// The strongest of their policies; NONE without a request.
    pub(crate) policy: Policy,
}

/// Tells the requests of an event. The numbers of those that it meets are added to `numbers`.
fn tell(list: &mut [InForce], event: &Event, numbers: &mut Vec<u32>) -> Policy
    requires room { vec_len numbers.old + length list.old ≤ vec_capacity numbers.old }
    ensures list { list.new ≡ map (after event.now) list.old }
    ensures numbers { numbers.new.items ≡ numbers.old.items ++ map (λ r. r.number) (filter (is_told event.now) list.old) }
    ensures policy { result ≡ strongest (filter (is_told event.now) list.old) }
{
    let mut policy = Policy::None;
    for i in 0..list.len() {
        let request = &mut list[i];
        if request.meets(event) {
            numbers.push_reserved(request.number());
            policy = stronger(policy, request.policy());
        }
    }
    policy
}

/// The greatest of the numbers of frames with which steps of this thread may end.
fn greatest(list: &[InForce], thread: u32) -> u32
    ensures { result ≡ greatest thread list.now }
{
    let mut bound = 0;
    for request in list {
        bound = bound.max(request.bound(thread));
    }
    bound
}

/// Whether each waits for no step of this thread, but for one that ends with fewer frames.
fn are_above(list: &[InForce], thread: u32, frames: u32) -> bool
    ensures { result ≡ list_all (is_passed thread frames) list.now }
{
    list.iter().all(|request| request.is_above(thread, frames))
}

/// Whether one waits for the end of a step of this thread.
fn have_step(list: &[InForce], thread: u32) -> bool
    ensures { result ≡ list_any (steps_at thread) list.now }
{
    list.iter().any(|request| request.steps_at(thread))
}

/// With at most so many frames a step of this thread may end, if requests wait for some and for none that may end with as many
/// frames as it has.
fn deeper(list: &[InForce], thread: u32, frames: u32) -> Option<u32>
    ensures { result ≡ deeper thread frames list.now }
{
    if are_above(list, thread, frames) && have_step(list, thread) {
        Some(greatest(list, thread))
    } else {
        None
    }
}

/// The requests in force. Numbers count up from 1, and none is used again. Contracts see them as `InForceNow`.
#[derive(Drop)]
pub(crate) struct Requests {
    list: Vec<InForce>,
    given: u32,
}

impl Model for Requests {
    ghost use Rattle.std.specs.Prelude.{length, ◌≤◌};
    ghost use Rattle.ti_jdwp.specs.InForce.{AllAsked};

    ghost Value = { AllAsked };

    ghost view = { λ r. record { list = r.list.items; given = r.given } };

    ghost invariant = { λ r. length r.list.items ≤ 1024 };
}

impl Requests {
    /// No request is in force. It takes no memory yet.
    pub(crate) fn new(alloc: Global) -> Requests
        ensures { result ≡ no_requests }
    {
        Requests {
            list: Vec::new(alloc),
            given: 0,
        }
    }

    /// How many requests are in force, at most 1,024.
    pub(crate) fn count(&self) -> usize
        ensures count { result ≡ length self.now.list }
        ensures bound { result ≤ 1024 }
    {
        self.list.len()
    }

    /// Puts a request in force, and gives its number.
    ///
    /// - 110 OUT_OF_MEMORY: 1,024 requests are in force, all numbers up to 2,147,483,647 are used, or there is no memory. Nothing
    ///   changes.
    pub(crate) fn add(
        &mut self,
        kind: EventKind,
        policy: Policy,
        filters: Filters,
    ) -> Result<u32, JdwpError>
        ensures number { IfOk result (λ n. n ≡ self.old.given + 1) }
        ensures added { OnOk result (self.new ≡ with_request self.old kind policy filters.target filters.front.items filters.count filters.rest.items) }
        ensures full { 1024 ≤ length self.old.list → IsErr result }
        ensures memory { IfErr result (λ e. e ≡ OutOfMemory) }
        ensures err { OnErr result (self.new ≡ self.old) }
    {
        if self.list.len() >= MAX_IN_FORCE || self.given >= MAX_NUMBER {
            return Err(JdwpError::OutOfMemory);
        }
        self.list.reserve(1)?;
        let number = self.given + 1;
        self.list.push_reserved(InForce {
            number,
            kind,
            policy,
            target: filters.target,
            front: filters.front,
            left: filters.count,
            rest: filters.rest,
        });
        self.given = number;
        Ok(number)
    }

    /// Takes the request of this kind and number out of force. Without one it does nothing.
    pub(crate) fn clear(&mut self, kind: u8, number: u32)
        ensures { self.new ≡ without_request self.old kind number }
    {
        self.list.retain(|request| !request.is_it(kind, number));
    }

    /// Whether a request waits for a breakpoint at this place.
    pub(crate) fn want_breakpoint(&self, class: u32, method: u32, index: u32) -> bool
        ensures { result ≡ list_any (wants_breakpoint class method index) self.now.list }
    {
        self.list
            .iter()
            .any(|request| request.wants_breakpoint(class, method, index))
    }

    /// Whether a request waits for the end of a step of this thread.
    pub(crate) fn step_at(&self, thread: u32) -> bool
        ensures { result ≡ list_any (steps_at thread) self.now.list }
    {
        have_step(self.list.as_slice(), thread)
    }

    /// With at most so many frames a step of this thread may end, if requests wait for some and for none that may end with as many
    /// frames as it has.
    pub(crate) fn deeper(&self, thread: u32, frames: u32) -> Option<u32>
        ensures { result ≡ deeper thread frames self.now.list }
    {
        deeper(self.list.as_slice(), thread, frames)
    }

    /// Tells the requests of an event.
    ///
    /// - 110 OUT_OF_MEMORY: there is no memory for their numbers. Nothing changes.
    pub(crate) fn tell(&mut self, alloc: Global, event: &Event) -> Result<Told, JdwpError>
        ensures after { OnOk result (self.new ≡ all_after event.now self.old) }
        ensures numbers { IfOk result (λ t. t.numbers.items ≡ map (λ r. r.number) (filter (is_told event.now) self.old.list)) }
        ensures policy { IfOk result (λ t. t.policy ≡ strongest (filter (is_told event.now) self.old.list)) }
        ensures memory { IfErr result (λ e. e ≡ OutOfMemory) }
        ensures err { OnErr result (self.new ≡ self.old) }
    {
        let mut numbers = Vec::with_capacity(alloc, self.list.len())?;
        let policy = tell(self.list.as_mut_slice(), event, &mut numbers);
        Ok(Told { numbers, policy })
    }
}

ghost use Rattle.std.specs.Prelude.{◌≡◌, ◌+◌, ◌≤◌, ◌++◌, length, map, filter, vec_len, vec_capacity, IsErr, IfOk, IfErr, OnOk, OnErr};
ghost use Rattle.std.specs.List.{list_all, list_any};
ghost use Rattle.ti_jdwp.specs.InForce.{is_live, wants_breakpoint, step_of, steps_at, is_passed, bound_at, greatest, deeper, is_it, is_told, after, stronger, strongest, no_requests, with_request, without_request, all_after};
ghost use Rattle.ti_jdwp.specs.declared.error.JdwpError.TheVariants.{OutOfMemory};
