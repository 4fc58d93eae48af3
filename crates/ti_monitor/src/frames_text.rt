//! Lines of text about frames.

use crate::texts::{push, push_escaped, push_number};
use std::alloc::AllocError;
use ti_pprof::{Frame, Function};

/// Whether the function at a place is a native method.
fn is_native(natives: &[bool], place: usize) -> bool
    ensures { result ≡ is_native natives.now place }
{
    natives.get(place).copied().unwrap_or(false)
}

/// Appends where a frame is: its file and its line, as far as they are known. The error is lack of memory.
fn push_source(out: &mut Vec<u8>, file: &str, line: u32) -> Result<(), AllocError>
    ensures { OnOk result (out.new.items ≡ out.old.items ++ source_text file.now line) }
{
    if file.is_empty() {
        return push(out, b"Unknown Source");
    }
    push_escaped(out, file)?;
    if line == 0 {
        return Ok(());
    }
    push(out, b":")?;
    push_number(out, u64::from(line))
}

/// Appends a function and where in it a frame is. The error is lack of memory.
fn push_function(
    out: &mut Vec<u8>,
    function: &Function,
    native: bool,
    line: u32,
) -> Result<(), AllocError>
    ensures { OnOk result (out.new.items ≡ out.old.items ++ function_text function.now native line) }
{
    push_escaped(out, function.name.as_str())?;
    if native {
        return push(out, b" (Native Method)");
    }
    push(out, b" (")?;
    push_source(out, function.file.as_str(), line)?;
    push(out, b")")
}

/// Appends what a frame is of. The error is lack of memory.
fn push_place(
    out: &mut Vec<u8>,
    functions: &[Function],
    natives: &[bool],
    frame: Frame,
) -> Result<(), AllocError>
    ensures { OnOk result (out.new.items ≡ out.old.items ++ place_text (slice_get functions.now frame.function) (is_native natives.now frame.function) frame.line) }
{
    let place = frame.function as usize;
    if place >= functions.len() {
        return push(out, b"(unknown) (Unknown Source)");
    }
    push_function(
        out,
        &functions[place],
        is_native(natives, place),
        frame.line,
    )
}

/// Appends the line of a frame. The error is lack of memory.
fn push_frame(
    out: &mut Vec<u8>,
    functions: &[Function],
    natives: &[bool],
    frame: Frame,
) -> Result<(), AllocError>
    ensures { OnOk result (out.new.items ≡ out.old.items ++ line (frame_line functions.now natives.now frame)) }
{
    push(out, b"    at ")?;
    push_place(out, functions, natives, frame)?;
    push(out, b"\n")
}

/// Appends a line for each frame. The error is lack of memory.
pub(crate) fn push_frames(
    out: &mut Vec<u8>,
    functions: &[Function],
    natives: &[bool],
    frames: &[Frame],
) -> Result<(), AllocError>
    ensures { OnOk result (out.new.items ≡ out.old.items ++ text_of (map (frame_line functions.now natives.now) frames.now)) }
{
    for frame in frames {
        push_frame(out, functions, natives, *frame)?;
    }
    Ok(())
}

ghost use Rattle.std.specs.Prelude.{◌≡◌, ◌++◌, OnOk, map, slice_get};
ghost use Rattle.ti_monitor.specs.Texts.{line, text_of};
ghost use Rattle.ti_monitor.specs.Threads.{frame_line, function_text, is_native, place_text, source_text};
