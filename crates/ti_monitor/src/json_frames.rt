//! Frames as JSON.

use crate::threads_text::UNKNOWN;
use serde_json::{Map, Value, put};
use std::alloc::{AllocError, Global};
use ti_pprof::{Frame, Function};

/// A text, or null if it is empty. The error is lack of memory.
fn text_value(alloc: Global, text: &str) -> Result<Value, AllocError>
    ensures { IfOk result (λ v. view v ≡ text_data text.now) }
{
    if text.is_empty() {
        return Ok(Value::Null);
    }
    Value::try_from_str(alloc, text)
}

/// A line, or null if it is 0.
fn line_value(line: u32) -> Value
    ensures { view result ≡ line_data line }
{
    if line == 0 {
        Value::Null
    } else {
        Value::from(line)
    }
}

/// A frame of a function of this name and file. The error is lack of memory.
fn named_value(alloc: Global, name: &str, file: &str, line: u32) -> Result<Value, AllocError>
    ensures { IfOk result (λ v. view v ≡ named_data name.now file.now line) }
{
    let mut map = Map::new(alloc);
    put(&mut map, alloc, "method", Value::try_from_str(alloc, name)?)?;
    put(&mut map, alloc, "file", text_value(alloc, file)?)?;
    put(&mut map, alloc, "line", line_value(line))?;
    Ok(Value::Object(map))
}

/// A frame. The error is lack of memory.
fn frame_value(alloc: Global, functions: &[Function], frame: Frame) -> Result<Value, AllocError>
    ensures { IfOk result (λ v. view v ≡ frame_data functions.now frame) }
{
    let place = frame.function as usize;
    if place >= functions.len() {
        return named_value(alloc, UNKNOWN, "", frame.line);
    }
    let function = &functions[place];
    named_value(
        alloc,
        function.name.as_str(),
        function.file.as_str(),
        frame.line,
    )
}

/// The frames of a stack. The error is lack of memory.
pub(crate) fn frames_value(
    alloc: Global,
    functions: &[Function],
    frames: &[Frame],
) -> Result<Value, AllocError>
    ensures { IfOk result (λ v. view v ≡ frames_data functions.now frames.now) }
{
    let mut values = Vec::new(alloc);
    for frame in frames {
        values.push(frame_value(alloc, functions, *frame)?)?;
    }
    Ok(Value::Array(values))
}

ghost use Rattle.std.specs.Prelude.{◌≡◌, IfOk};
ghost use Rattle.serde_json.specs.View.{view};
ghost use Rattle.ti_monitor.specs.Json.{frame_data, frames_data, line_data, named_data, text_data};
