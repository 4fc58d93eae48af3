//! Folded stacks, as flame graph tools read them.
//!
//! There is a line for each stack, from its root on, with how often the stack was seen.
//!
//! The root is the worker, if the workers are kept apart, or `new threads`. Then comes what the thread did. The methods follow,
//! the oldest first.
use crate::fold::Folded;
use crate::method::name_of;
use crate::roots::{Doing, Owner, Part, Roots};
use std::alloc::{AllocError, Global};
use std::fmt::Write;

/// The root of the lines of an owner's stacks.
fn root_of(alloc: Global, owner: Owner, doing: Doing) -> Result<String, AllocError>
    ensures { IfOk result (λ s. string_bytes s ≡ root_of owner doing) }
{
    let mut root = String::new(alloc);
    if let Some(name) = owner.name(alloc)? {
        root.push_str(name.as_str())?;
        root.push_str(";")?;
    }
    root.push_str(doing.word())?;
    Ok(root)
}

/// The line of a stack.
fn line_of(alloc: Global, root: &str, folded: &Folded) -> Result<String, AllocError>
    ensures { IfOk result (λ l. string_bytes l ≡ line_of root.now folded.now) }
{
    let mut line = String::new(alloc);
    line.push_str(root)?;
    let methods = folded.methods();
    let mut left = methods.len();
    while left > 0 {
        left -= 1;
        line.push_str(";")?;
        line.push_str(name_of(methods[left]))?;
    }
    write!(line, " {}", folded.count())?;
    Ok(line)
}

/// Adds the lines of these stacks, in their order.
fn add_lines(
    alloc: Global,
    lines: &mut Vec<String>,
    root: &str,
    stacks: &[Folded],
) -> Result<(), AllocError>
    ensures { OnOk result (map string_bytes lines.new.items ≡ map string_bytes lines.old.items ++ lines_in root.now stacks.now) }
{
    for folded in stacks {
        lines.push(line_of(alloc, root, folded)?)?;
    }
    Ok(())
}

/// Adds the lines of an owner's stacks: first those of threads that ran.
fn add_part(
    alloc: Global,
    lines: &mut Vec<String>,
    owner: Owner,
    part: &Part,
) -> Result<(), AllocError>
    ensures { OnOk result (map string_bytes lines.new.items ≡ map string_bytes lines.old.items ++ lines_at owner part.now) }
{
    let ran = root_of(alloc, owner, Doing::Running)?;
    add_lines(
        alloc,
        lines,
        ran.as_str(),
        part.fold(Doing::Running).stacks(),
    )?;
    let away = root_of(alloc, owner, Doing::Away)?;
    add_lines(alloc, lines, away.as_str(), part.fold(Doing::Away).stacks())
}

/// The lines of all stacks, sorted by their bytes. The error is lack of memory.
pub fn lines_of(alloc: Global, roots: &Roots) -> Result<Vec<String>, AllocError>
    ensures lines { IfOk result (λ l. AreLinesOf roots.now.by_thread roots.now.workers roots.now.parts.items l.items) }
{
    let mut lines = Vec::new(alloc);
    let parts = roots.parts();
    for place in 0..parts.len() {
        add_part(alloc, &mut lines, roots.owner(place), &parts[place])?;
    }
    lines.sort()?;
    Ok(lines)
}

ghost use Rattle.std.specs.Prelude.{◌≡◌, ◌++◌, map, IfOk, OnOk};
ghost use Rattle.std.specs.String.{string_bytes};
ghost use Rattle.tiprof.specs.Lines.{AreLinesOf, line_of, lines_at, lines_in, root_of};
