//! All threads as text, with threads of one stack and one state together.

use crate::frames_text::push_frames;
use crate::reading::{Details, Reading};
use crate::stacks::{frames_of, text_at};
use crate::texts::{push, push_escaped, push_number};
use crate::threads_text::UNKNOWN;
use indexmap::IndexSet;
use std::alloc::{AllocError, Global};
use ti_pprof::{Names, Node, Row};

/// What the threads of a group have in common: the stack, by its number, and the state.
#[derive(Clone, Copy, PartialEq, Eq, Hash)]
pub(crate) struct Group {
    pub(crate) stack: u32,
    pub(crate) state: u32,
}

/// The group of a sample.
fn group_of(row: Row) -> Group
    ensures { result ≡ group_of row }
{
    Group {
        stack: row.stack,
        state: row.state,
    }
}

/// The groups of these samples, in the order of their first samples. The error is lack of memory.
fn groups_of(alloc: Global, rows: &[Row]) -> Result<IndexSet<Group>, AllocError>
    ensures { IfOk result (λ g. g.keys ≡ groups_of rows.now) }
{
    let mut groups = IndexSet::new(alloc);
    for row in rows {
        groups.insert_full(group_of(*row))?;
    }
    Ok(groups)
}

/// Whether a sample is of a group.
fn is_in(group: Group, row: Row) -> bool
    ensures { result ≡ is_in group row }
{
    row.stack == group.stack && row.state == group.state
}

/// The threads of a group, in the order of the samples. The error is lack of memory.
fn members_of(alloc: Global, rows: &[Row], group: Group) -> Result<Vec<u32>, AllocError>
    ensures { IfOk result (λ m. m.items ≡ members_of group rows.now) }
{
    let mut members = Vec::new(alloc);
    for row in rows {
        if is_in(group, *row) {
            members.push(row.thread)?;
        }
    }
    Ok(members)
}

/// Appends the names of threads with commas between them. The error is lack of memory.
fn push_names(out: &mut Vec<u8>, names: &[String], members: &[u32]) -> Result<(), AllocError>
    ensures { OnOk result (out.new.items ≡ out.old.items ++ names_text names.now members.now) }
{
    for place in 0..members.len() {
        if place > 0 {
            push(out, b", ")?;
        }
        let thread = members[place] as usize;
        push_escaped(out, text_at(names, thread).unwrap_or(UNKNOWN))?;
    }
    Ok(())
}

/// Appends a group: how many threads it has, their state, their names and their frames. The error is lack of memory.
fn push_group(
    out: &mut Vec<u8>,
    names: &Names,
    details: &Details,
    nodes: &[Node],
    rows: &[Row],
    group: Group,
) -> Result<(), AllocError>
    requires there { group.stack ≤ length nodes.now }
    requires earlier { AreOnEarlier nodes.now }
    ensures { OnOk result (out.new.items ≡ out.old.items ++ text_of (group_lines names.now details.now nodes.now rows.now group)) }
{
    let alloc = *out.allocator();
    let members = members_of(alloc, rows, group)?;
    let frames = frames_of(alloc, nodes, group.stack)?;
    let state = text_at(&names.states, group.state as usize).unwrap_or(UNKNOWN);
    push_number(out, members.len() as u64)?;
    push(out, b" ")?;
    push_escaped(out, state)?;
    push(out, b": ")?;
    push_names(out, &details.threads, &members)?;
    push(out, b"\n")?;
    push_frames(out, &names.functions, &details.natives, &frames)?;
    push(out, b"\n")
}

/// Appends these groups. The error is lack of memory.
fn push_groups(
    out: &mut Vec<u8>,
    names: &Names,
    details: &Details,
    nodes: &[Node],
    rows: &[Row],
    groups: &[Group],
) -> Result<(), AllocError>
    requires there { All (λ (g : Group). g.stack ≤ length nodes.now) groups.now }
    requires earlier { AreOnEarlier nodes.now }
    ensures { OnOk result (out.new.items ≡ out.old.items ++ text_of (flat_map (group_lines names.now details.now nodes.now rows.now) groups.now)) }
{
    for group in groups {
        push_group(out, names, details, nodes, rows, *group)?;
    }
    Ok(())
}

/// Appends how many samples there are. The error is lack of memory.
fn push_total(out: &mut Vec<u8>, count: u64) -> Result<(), AllocError>
    ensures { OnOk result (out.new.items ≡ out.old.items ++ line (total_line count)) }
{
    push(out, b"threads profile: total ")?;
    push_number(out, count)?;
    push(out, b"\n")
}

/// Appends all threads of a reading, with threads of one stack and one state together. The error is lack of memory.
pub fn push_grouped(out: &mut Vec<u8>, reading: &Reading) -> Result<(), AllocError>
    ensures { OnOk result (out.new.items ≡ out.old.items ++ text_of (groups_lines reading.now)) }
{
    let nodes = reading.counts.trie().nodes();
    let rows = reading.counts.table().rows();
    let groups = groups_of(*out.allocator(), rows)?;
    push_total(out, rows.len() as u64)?;
    push_groups(
        out,
        &reading.names,
        &reading.details,
        nodes,
        rows,
        groups.as_slice(),
    )
}

ghost use Rattle.std.specs.Prelude.{◌≡◌, ◌≤◌, ◌++◌, All, IfOk, OnOk, length};
ghost use Rattle.std.specs.List.{flat_map};
ghost use Rattle.ti_pprof.specs.Stacks.{AreOnEarlier};
ghost use Rattle.ti_monitor.specs.declared.groups_text.Group.{Group};
ghost use Rattle.ti_monitor.specs.Texts.{line, text_of};
ghost use Rattle.ti_monitor.specs.Threads.{group_lines, group_of, groups_lines, groups_of, is_in, members_of, names_text, total_line};
