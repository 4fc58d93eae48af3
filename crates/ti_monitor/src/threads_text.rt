//! All threads and their stacks as text, thread by thread.

use crate::frames_text::push_frames;
use crate::reading::{Details, Reading, Seen};
use crate::stacks::{frames_in, row_of, state_of, text_at};
use crate::texts::{push, push_escaped, push_number, push_signed};
use std::alloc::AllocError;
use ti_pprof::{Names, Node, Row};

/// What stands where nothing is known.
pub(crate) const UNKNOWN: &str = "(unknown)";

/// Appends the name and the number of a thread. The error is lack of memory.
fn push_title(out: &mut Vec<u8>, name: &str, number: u32) -> Result<(), AllocError>
    ensures { OnOk result (out.new.items ≡ out.old.items ++ title name.now number) }
{
    push(out, b"\"")?;
    push_escaped(out, name)?;
    push(out, b"\" #")?;
    push_number(out, u64::from(number))
}

/// Appends the line that begins what is told of a thread. The error is lack of memory.
fn push_thread_head(
    out: &mut Vec<u8>,
    name: &str,
    seen: Seen,
    state: &str,
) -> Result<(), AllocError>
    ensures { OnOk result (out.new.items ≡ out.old.items ++ line (head_line name.now seen state.now)) }
{
    push_title(out, name, seen.thread.0)?;
    push(out, b" prio=")?;
    push_signed(out, seen.priority)?;
    push(out, b" ")?;
    push_escaped(out, state)?;
    push(out, b"\n")
}

/// Appends what is told of the thread at this place. The error is lack of memory.
fn push_thread(
    out: &mut Vec<u8>,
    names: &Names,
    details: &Details,
    nodes: &[Node],
    row: Option<Row>,
    seen: Seen,
    place: usize,
) -> Result<(), AllocError>
    requires there { IfSome row (λ r. r.stack ≤ length nodes.now) }
    requires earlier { AreOnEarlier nodes.now }
    ensures { OnOk result (out.new.items ≡ out.old.items ++ text_of (thread_text names.now details.now nodes.now row seen place)) }
{
    let known = text_at(&details.threads, place);
    let name = known.unwrap_or(UNKNOWN);
    let state = state_of(&names.states, row, seen).unwrap_or(UNKNOWN);
    let frames = frames_in(*out.allocator(), nodes, row)?;
    push_thread_head(out, name, seen, state)?;
    push_frames(out, &names.functions, &details.natives, &frames)?;
    push(out, b"\n")
}

/// Appends what is told of these threads, from the first place on. The error is lack of memory.
fn push_threads(
    out: &mut Vec<u8>,
    names: &Names,
    details: &Details,
    nodes: &[Node],
    rows: &[Row],
    seen: &[Seen],
) -> Result<(), AllocError>
    requires there { AreNumbered rows.now (length nodes.now) }
    requires earlier { AreOnEarlier nodes.now }
    ensures { OnOk result (out.new.items ≡ out.old.items ++ text_of (threads_from names.now details.now nodes.now rows.now 0 seen.now)) }
{
    for place in 0..seen.len() {
        let row = row_of(rows, place);
        push_thread(out, names, details, nodes, row, seen[place], place)?;
    }
    Ok(())
}

/// Appends all threads of a reading and their stacks, thread by thread in the order of their places. The error is lack of
/// memory.
pub fn push_listed(out: &mut Vec<u8>, reading: &Reading) -> Result<(), AllocError>
    ensures { OnOk result (out.new.items ≡ out.old.items ++ text_of (threads_lines reading.now)) }
{
    let nodes = reading.counts.trie().nodes();
    let rows = reading.counts.table().rows();
    push_number(out, reading.seen.len() as u64)?;
    push(out, b" threads\n\n")?;
    push_threads(
        out,
        &reading.names,
        &reading.details,
        nodes,
        rows,
        &reading.seen,
    )
}

ghost use Rattle.std.specs.Prelude.{◌≡◌, ◌≤◌, ◌++◌, IfSome, OnOk, length};
ghost use Rattle.ti_pprof.specs.Samples.{AreNumbered};
ghost use Rattle.ti_pprof.specs.Stacks.{AreOnEarlier};
ghost use Rattle.ti_monitor.specs.Texts.{line, text_of};
ghost use Rattle.ti_monitor.specs.Threads.{head_line, thread_text, threads_from, threads_lines, title};
