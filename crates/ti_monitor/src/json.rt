//! All threads and their stacks as JSON.

use crate::json_frames::frames_value;
use crate::reading::{Details, Reading, Seen};
use crate::stacks::{frames_in, row_of, state_of, text_at};
use crate::threads_text::UNKNOWN;
use serde_json::{Map, Value, put};
use std::alloc::{AllocError, Global};
use ti_pprof::{Names, Node, Row};

/// Whether the text of a state says that the thread is suspended.
fn is_suspended(state: &str) -> bool
    ensures { result ≡ is_suspended state.now }
{
    let bytes = state.as_bytes();
    let end = b", suspended".as_slice();
    bytes.len() >= end.len() && &bytes[bytes.len() - end.len()..] == end
}

/// The text of a state, or null if it is not known. The error is lack of memory.
fn state_value(alloc: Global, state: Option<&str>) -> Result<Value, AllocError>
    ensures { IfOk result (λ v. view v ≡ state_data (option_map (λ s. s.now) state.entry)) }
{
    match state {
        Some(state) => Value::try_from_str(alloc, state),
        None => Ok(Value::Null),
    }
}

/// Whether a thread is suspended. It is not if its state is not known.
fn suspended_value(state: Option<&str>) -> Value
    ensures { view result ≡ suspended_data (option_map (λ s. s.now) state.entry) }
{
    match state {
        Some(state) => Value::Bool(is_suspended(state)),
        None => Value::Bool(false),
    }
}

/// What is told of a thread, whose state is null if it is not known. The error is lack of memory.
fn thread_value(
    alloc: Global,
    name: &str,
    seen: Seen,
    state: Option<&str>,
    frames: Value,
) -> Result<Value, AllocError>
    ensures { IfOk result (λ v. view v ≡ thread_data name.now seen (option_map (λ s. s.now) state.entry) (view frames)) }
{
    let mut map = Map::new(alloc);
    put(&mut map, alloc, "suspended", suspended_value(state))?;
    put(&mut map, alloc, "state", state_value(alloc, state)?)?;
    put(&mut map, alloc, "priority", Value::from(seen.priority))?;
    put(&mut map, alloc, "number", Value::from(seen.thread.0))?;
    put(&mut map, alloc, "name", Value::try_from_str(alloc, name)?)?;
    put(&mut map, alloc, "frames", frames)?;
    Ok(Value::Object(map))
}

/// What is told of the thread at this place. The error is lack of memory.
fn thread_at(
    alloc: Global,
    names: &Names,
    details: &Details,
    nodes: &[Node],
    row: Option<Row>,
    seen: Seen,
    place: usize,
) -> Result<Value, AllocError>
    requires there { IfSome row (λ r. r.stack ≤ length nodes.now) }
    requires earlier { AreOnEarlier nodes.now }
    ensures { IfOk result (λ v. view v ≡ thread_at names.now details.now nodes.now row seen place) }
{
    let frames = frames_in(alloc, nodes, row)?;
    let frames = frames_value(alloc, &names.functions, &frames)?;
    let known = text_at(&details.threads, place);
    let name = known.unwrap_or(UNKNOWN);
    let state = state_of(&names.states, row, seen);
    thread_value(alloc, name, seen, state, frames)
}

/// What is told of these threads, the first of which has place 0. The error is lack of memory.
fn values_of(
    alloc: Global,
    names: &Names,
    details: &Details,
    nodes: &[Node],
    rows: &[Row],
    seen: &[Seen],
) -> Result<Vec<Value>, AllocError>
    requires there { AreNumbered rows.now (length nodes.now) }
    requires earlier { AreOnEarlier nodes.now }
    ensures { IfOk result (λ v. map view v.items ≡ threads_at names.now details.now nodes.now rows.now 0 seen.now) }
{
    let mut values = Vec::new(alloc);
    for place in 0..seen.len() {
        let row = row_of(rows, place);
        values.push(thread_at(alloc, names, details, nodes, row, seen[place], place)?)?;
    }
    Ok(values)
}

/// All threads of a reading, as a value. The error is lack of memory.
fn threads_value(alloc: Global, reading: &Reading) -> Result<Value, AllocError>
    ensures { IfOk result (λ v. view v ≡ threads_data reading.now) }
{
    let nodes = reading.counts.trie().nodes();
    let rows = reading.counts.table().rows();
    let values = values_of(
        alloc,
        &reading.names,
        &reading.details,
        nodes,
        rows,
        &reading.seen,
    )?;
    let mut map = Map::new(alloc);
    put(&mut map, alloc, "count", Value::from(reading.seen.len()))?;
    put(&mut map, alloc, "threads", Value::Array(values))?;
    Ok(Value::Object(map))
}

/// All threads of a reading and their stacks as JSON, in the order of their places, without spaces. The error is lack of memory.
pub fn threads_json(alloc: Global, reading: &Reading) -> Result<String, AllocError>
    ensures { IfOk result (λ s. string_bytes s ≡ compact_text (threads_data reading.now)) }
{
    let value = threads_value(alloc, reading)?;
    value.to_string(alloc)
}

ghost use Rattle.std.specs.Prelude.{◌≡◌, ◌≤◌, IfOk, IfSome, length, map};
ghost use Rattle.std.specs.Option.{option_map};
ghost use Rattle.std.specs.String.{string_bytes};
ghost use Rattle.serde_json.specs.View.{view};
ghost use Rattle.serde_json.specs.Written.{compact_text};
ghost use Rattle.ti_pprof.specs.Samples.{AreNumbered};
ghost use Rattle.ti_pprof.specs.Stacks.{AreOnEarlier};
ghost use Rattle.ti_monitor.specs.Json.{is_suspended, state_data, suspended_data, thread_at, thread_data, threads_at, threads_data};
