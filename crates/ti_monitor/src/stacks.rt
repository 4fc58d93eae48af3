//! What was read of a thread: its state and its frames.

use crate::reading::Seen;
use std::alloc::{AllocError, Global};
use ti_pprof::{Frame, Node, Row};

/// The frames of a stack by its number, the newest first. The error is lack of memory.
pub(crate) fn frames_of(alloc: Global, nodes: &[Node], stack: u32) -> Result<Vec<Frame>, AllocError>
    requires there { stack ≤ length nodes.now }
    requires earlier { AreOnEarlier nodes.now }
    ensures { IfOk result (λ f. f.items ≡ stack_at (stacks_of nodes.now) stack) }
{
    let mut frames = Vec::new(alloc);
    let mut number = stack;
    while number > 0 {
        let node = nodes[number as usize - 1];
        frames.push(node.frame)?;
        number = node.rest;
    }
    Ok(frames)
}

/// The first sample of the thread at this place, if it has one.
pub(crate) fn row_of(rows: &[Row], thread: usize) -> Option<Row>
    ensures row { result ≡ row_of rows.now thread }
    ensures there { (most : ℕ) → AreNumbered rows.now most → IfSome result (λ r. r.stack ≤ most) }
{
    for row in rows {
        if row.thread as usize == thread {
            return Some(*row);
        }
    }
    None
}

/// The text at a place of a list, if there is one.
pub(crate) fn text_at(texts: &[String], place: usize) -> Option<&str>
    ensures { option_map (λ t. t.now) result ≡ text_at texts.now place }
{
    if place < texts.len() {
        Some(texts[place].as_str())
    } else {
        None
    }
}

/// The text of a thread's state: that of its sample, or without a sample the one in which it was last seen.
pub(crate) fn state_of(states: &[String], row: Option<Row>, seen: Seen) -> Option<&str>
    ensures { option_map (λ t. t.now) result ≡ state_of states.now row seen }
{
    match row {
        Some(row) => text_at(states, row.state as usize),
        None => text_at(states, seen.state as usize),
    }
}

/// The frames of a sample, the newest first. Without a sample there are none. The error is lack of memory.
pub(crate) fn frames_in(
    alloc: Global,
    nodes: &[Node],
    row: Option<Row>,
) -> Result<Vec<Frame>, AllocError>
    requires there { IfSome row (λ r. r.stack ≤ length nodes.now) }
    requires earlier { AreOnEarlier nodes.now }
    ensures { IfOk result (λ f. f.items ≡ frames_in nodes.now row) }
{
    match row {
        Some(row) => frames_of(alloc, nodes, row.stack),
        None => Ok(Vec::new(alloc)),
    }
}

ghost use Rattle.std.specs.Prelude.{◌≡◌, ◌≤◌, ℕ, length, IfOk, IfSome};
ghost use Rattle.std.specs.Option.{option_map};
ghost use Rattle.ti_pprof.specs.Samples.{AreNumbered};
ghost use Rattle.ti_pprof.specs.Stacks.{AreOnEarlier, stack_at, stacks_of};
ghost use Rattle.ti_monitor.specs.Stacks.{frames_in, row_of, state_of, text_at};
