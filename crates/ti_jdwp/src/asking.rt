//! What a request for events says, read from its data.

use crate::error::JdwpError;
use crate::event::Filter;
use crate::ids::{class_of, method_of, thread_of};
use crate::modifiers::{Modifier, read_modifier};
use crate::plan::Wish;
use crate::request::EventKind;
use crate::requests_in_force::Filters;
use crate::stops::{Depth, Size, Standing, Step, Target};
use crate::text::Text;
use std::alloc::Global;

/// A pattern with `/` for each `.`. 110 OUT_OF_MEMORY if there is no memory for it.
fn slashed(alloc: Global, pattern: &[u8]) -> Result<Text, JdwpError>
    ensures ok { IfOk result (λ t. t ≡ map slashed pattern.now) }
    ensures memory { IfErr result (λ e. e ≡ OutOfMemory) }
{
    let bytes = pattern
        .iter()
        .map(|b| if *b == b'.' { b'/' } else { *b })
        .collect(alloc)?;
    Ok(Text::new(bytes))
}

/// What a modifier is to a request.
enum Meaning {
    /// The request is told of the event that comes after this many less one.
    Count(u32),
    Filter(Filter),
    /// What the request is made for.
    Target(Target),
}

/// The place with these ids.
///
/// - 21 INVALID_CLASS, 23 INVALID_METHODID: an id is no class's, or no method's.
/// - 24 INVALID_LOCATION: the location is 2^32 or more.
fn place_of(class: u64, method: u64, index: u64) -> Result<Meaning, JdwpError>
    ensures { result ≡ place_in class method index }
{
    let Some(class) = class_of(class) else {
        return Err(JdwpError::InvalidClass);
    };
    let Some(method) = method_of(method) else {
        return Err(JdwpError::InvalidMethodId);
    };
    if index > u64::from(u32::MAX) {
        return Err(JdwpError::InvalidLocation);
    }
    Ok(Meaning::Target(Target::Place {
        class,
        method,
        index: index as u32,
    }))
}

/// The size with this number. 103 ILLEGAL_ARGUMENT above 1.
fn size_of_step(number: u32) -> Result<Size, JdwpError>
    ensures { result ≡ size_in number }
{
    match number {
        0 => Ok(Size::Min),
        1 => Ok(Size::Line),
        _ => Err(JdwpError::IllegalArgument),
    }
}

/// The depth with this number. 103 ILLEGAL_ARGUMENT above 2.
fn depth_of_step(number: u32) -> Result<Depth, JdwpError>
    ensures { result ≡ depth_in number }
{
    match number {
        0 => Ok(Depth::Into),
        1 => Ok(Depth::Over),
        2 => Ok(Depth::Out),
        _ => Err(JdwpError::IllegalArgument),
    }
}

/// The step of the thread with this id, which stands there.
///
/// - 10 INVALID_THREAD: the id is no thread's.
/// - 103 ILLEGAL_ARGUMENT: the size is above 1, or the depth above 2.
fn step_of(thread: u64, size: u32, depth: u32, from: Standing) -> Result<Meaning, JdwpError>
    ensures { result ≡ step_in thread size depth from }
{
    let Some(thread) = thread_of(thread) else {
        return Err(JdwpError::InvalidThread);
    };
    let size = size_of_step(size)?;
    let depth = depth_of_step(depth)?;
    Ok(Meaning::Target(Target::Step(Step {
        thread,
        size,
        depth,
        from,
    })))
}

/// Reads a modifier of a request for events of this kind. A step begins at `standing`.
///
/// - 10 INVALID_THREAD, 21 INVALID_CLASS, 23 INVALID_METHODID: an id is no thread's, class's or method's.
/// - 24 INVALID_LOCATION: a location is 2^32 or more.
/// - 103 ILLEGAL_ARGUMENT: events of the kind have no class, the modifier is not one for the kind, or it has a size or a depth that
///   JDWP does not have.
/// - 110 OUT_OF_MEMORY: there is no memory for the pattern.
fn meaning_of(
    alloc: Global,
    kind: EventKind,
    standing: Standing,
    modifier: Modifier,
    bytes: &[u8],
) -> Result<Meaning, JdwpError>
    ensures ok { IfOk result (λ m. meaning_in kind standing modifier bytes.now ≡ Ok m) }
    ensures err { IfErr result (λ e. (e ≡ OutOfMemory) ⊎ (meaning_in kind standing modifier bytes.now ≡ Err e)) }
{
    match modifier {
        Modifier::Count(count) => Ok(Meaning::Count(count.cast_unsigned())),
        Modifier::ThreadOnly(id) => match thread_of(id) {
            Some(thread) => Ok(Meaning::Filter(Filter::Thread(thread))),
            None => Err(JdwpError::InvalidThread),
        },
        Modifier::ClassOnly(id) => {
            if !is_at_class(kind) {
                return Err(JdwpError::IllegalArgument);
            }
            match class_of(id) {
                Some(class) => Ok(Meaning::Filter(Filter::Class(class))),
                None => Err(JdwpError::InvalidClass),
            }
        }
        Modifier::ClassMatch(range) => {
            if !has_class(kind) {
                return Err(JdwpError::IllegalArgument);
            }
            let pattern = slashed(alloc, range.of(bytes))?;
            Ok(Meaning::Filter(Filter::Matches(pattern)))
        }
        Modifier::ClassExclude(range) => {
            if !has_class(kind) {
                return Err(JdwpError::IllegalArgument);
            }
            let pattern = slashed(alloc, range.of(bytes))?;
            Ok(Meaning::Filter(Filter::Excludes(pattern)))
        }
        Modifier::LocationOnly {
            class,
            method,
            index,
        } => {
            if !matches!(kind, EventKind::Breakpoint) {
                return Err(JdwpError::IllegalArgument);
            }
            place_of(class, method, index)
        }
        Modifier::Step {
            thread,
            size,
            depth,
        } => {
            if !matches!(kind, EventKind::SingleStep) {
                return Err(JdwpError::IllegalArgument);
            }
            step_of(thread, size, depth, standing)
        }
        Modifier::Other => Err(JdwpError::IllegalArgument),
    }
}

/// Whether events of the kind have a class.
fn has_class(kind: EventKind) -> bool
    ensures { result ≡ has_class kind }
{
    is_at_class(kind) || matches!(kind, EventKind::ClassUnload)
}

/// Whether events of the kind have a class that is there.
fn is_at_class(kind: EventKind) -> bool
    ensures { result ≡ is_at_class kind }
{
    matches!(
        kind,
        EventKind::SingleStep | EventKind::Breakpoint | EventKind::ClassPrepare
    )
}

/// The filters with one more. A second count can be met by no event that the first one lets through, unless it is 1.
///
/// - 103 ILLEGAL_ARGUMENT: it is a second place, or a second step.
/// - 110 OUT_OF_MEMORY: there is no memory for it.
fn with(mut filters: Filters, meaning: Meaning) -> Result<Filters, JdwpError>
    ensures ok { IfOk result (λ f. with_meaning (reading_of filters) meaning ≡ Ok (reading_of f)) }
    ensures err { IfErr result (λ e. (e ≡ OutOfMemory) ⊎ (with_meaning (reading_of filters) meaning ≡ Err e)) }
{
    match (meaning, filters.count) {
        (Meaning::Count(count), None) => filters.count = Some(count),
        (Meaning::Count(count), Some(_)) => {
            if count != 1 {
                filters.count = Some(0);
            }
        }
        (Meaning::Filter(filter), None) => push(&mut filters.front, filter)?,
        (Meaning::Filter(filter), Some(_)) => push(&mut filters.rest, filter)?,
        (Meaning::Target(target), _) => {
            if !matches!(filters.target, Target::Anywhere) {
                return Err(JdwpError::IllegalArgument);
            }
            filters.target = target;
        }
    }
    Ok(filters)
}

/// The filters with what the modifier at this place says, and the place behind it.
fn with_next(
    alloc: Global,
    kind: EventKind,
    standing: Standing,
    bytes: &[u8],
    place: usize,
    filters: Filters,
) -> Result<(Filters, usize), JdwpError>
    ensures ok { IfOk result (λ r. one_step kind standing bytes.now place (reading_of filters) ≡ Ok (reading_of r.0, r.1)) }
    ensures err { IfErr result (λ e. (e ≡ OutOfMemory) ⊎ (one_step kind standing bytes.now place (reading_of filters) ≡ Err e)) }
{
    let (modifier, next) = match read_modifier(bytes, place) {
        Ok(read) => read,
        Err(error) => return Err(error),
    };
    let meaning = match meaning_of(alloc, kind, standing, modifier, bytes) {
        Ok(meaning) => meaning,
        Err(error) => return Err(error),
    };
    match with(filters, meaning) {
        Ok(all) => Ok((all, next)),
        Err(error) => Err(error),
    }
}

fn push(list: &mut Vec<Filter>, filter: Filter) -> Result<(), JdwpError>
    ensures ok { OnOk result (list.new.items ≡ list.old.items ++ filter ∷ []) }
    ensures memory { IfErr result (λ e. e ≡ OutOfMemory) }
{
    list.reserve(1)?;
    list.push_reserved(filter);
    Ok(())
}

/// Reads this many modifiers of a request for events of this kind, which stand in the data from `at` on.
fn read_each(
    alloc: Global,
    kind: EventKind,
    standing: Standing,
    count: u32,
    bytes: &[u8],
    at: usize,
) -> Result<Filters, JdwpError>
    ensures ok { IfOk result (λ f. steps count kind standing bytes.now at no_filters ≡ Ok (reading_of f)) }
    ensures err { IfErr result (λ e. (e ≡ OutOfMemory) ⊎ (steps count kind standing bytes.now at no_filters ≡ Err e)) }
{
    let mut filters = Filters {
        target: Target::Anywhere,
        front: Vec::new(alloc),
        count: None,
        rest: Vec::new(alloc),
    };
    let mut place = at;
    for _ in 0..count {
        let (all, next) = match with_next(alloc, kind, standing, bytes, place, filters) {
            Ok(read) => read,
            Err(error) => return Err(error),
        };
        filters = all;
        place = next;
    }
    Ok(filters)
}

/// Whether a request of this kind is made for a place or a step, and this one is not.
fn lacks(kind: EventKind, target: Target) -> bool
    ensures { result ≡ lacks kind target }
{
    matches!(kind, EventKind::SingleStep | EventKind::Breakpoint)
        && matches!(target, Target::Anywhere)
}

/// Reads what a request for events says in its data. A step begins at `standing`.
///
/// - 10 INVALID_THREAD, 21 INVALID_CLASS, 23 INVALID_METHODID: an id is no thread's, class's or method's.
/// - 24 INVALID_LOCATION: a location is 2^32 or more.
/// - 103 ILLEGAL_ARGUMENT: events of the kind have no class, a modifier is not one for the kind, a step has a size or a depth that
///   JDWP does not have, or there is not one place for breakpoints, or not one step for steps.
/// - 110 OUT_OF_MEMORY: there is no memory for them.
pub(crate) fn read_filters(
    alloc: Global,
    wish: Wish,
    standing: Standing,
    bytes: &[u8],
) -> Result<Filters, JdwpError>
    ensures ok { IfOk result (λ f. filters_in wish standing bytes.now ≡ Ok (reading_of f)) }
    ensures err { IfErr result (λ e. (e ≡ OutOfMemory) ⊎ (filters_in wish standing bytes.now ≡ Err e)) }
{
    let filters = match read_each(alloc, wish.kind, standing, wish.count, bytes, wish.at) {
        Ok(filters) => filters,
        Err(error) => return Err(error),
    };
    if lacks(wish.kind, filters.target) {
        return Err(JdwpError::IllegalArgument);
    }
    Ok(filters)
}

ghost use Rattle.std.specs.Prelude.{◌≡◌, ◌++◌, ◌∷◌, [], ◌⊎◌, map, Ok, Err, IfOk, IfErr, OnOk};
ghost use Rattle.ti_jdwp.specs.Asking.{has_class, is_at_class, place_in, size_in, depth_in, step_in, meaning_in, reading_of, no_filters, with_meaning, one_step, steps, lacks, filters_in};
ghost use Rattle.ti_jdwp.specs.Filters.{slashed};
ghost use Rattle.ti_jdwp.specs.declared.error.JdwpError.TheVariants.{OutOfMemory};
