//! What C says of a class: texts, lines and methods, as parts of lists that it gives.

use crate::class_values::{
    CqClassRanges, CqLineEntry, CqMethodRanges, CqRange, LINES_ABSENT, LINES_LOCATIONS,
    LINES_NATIVE, LINES_TABLE, line_in,
};
use std::alloc::Global;
use ti_service::{ClassInfo, LineEntry, Lines, MethodInfo};
use ti_types::TiError;

/// The items of a range. `None` if it does not lie within the list.
fn part_at<T>(list: &[T], range: CqRange) -> Option<&[T]>
    ensures some { IfSome result (λ p. IsPart list.now range p.now) }
    ensures none { IfNone result (IsWithin (length list.now) range → ⊥) }
{
    if range.start > list.len() {
        return None;
    }
    let rest = &list[range.start..];
    if range.length > rest.len() {
        return None;
    }
    Some(&rest[..range.length])
}

/// The text of a range. 103 if the range does not lie within the text or is not UTF-8, 110 if there is no memory.
fn text_at(alloc: Global, text: &[u8], range: CqRange) -> Result<String, TiError>
    ensures same { IfOk result (λ s. IsPart text.now range (string_bytes s)) }
    ensures refused { IfErr result (λ e. Lacks (HasText text.now range) e) }
{
    let Some(bytes) = part_at(text, range) else {
        return Err(TiError::IllegalArgument);
    };
    match str::from_utf8(bytes) {
        Ok(text) => Ok(String::from_str(alloc, text)?),
        Err(_) => Err(TiError::IllegalArgument),
    }
}

/// The name of a source file: none if it has no bytes.
fn file_at(alloc: Global, text: &[u8], range: CqRange) -> Result<Option<String>, TiError>
    ensures same { IfOk result (λ f. IsFile text.now range (option_map (λ s. string_bytes s) f)) }
    ensures refused { IfErr result (λ e. Lacks (HasFile text.now range) e) }
{
    if range.length == 0 {
        return Ok(None);
    }
    Ok(Some(text_at(alloc, text, range)?))
}

/// A table of lines.
fn table_at(alloc: Global, lines: &[CqLineEntry], range: CqRange) -> Result<Vec<LineEntry>, TiError>
    ensures same { IfOk result (λ t. IsTable lines.now range t.items) }
    ensures refused { IfErr result (λ e. Lacks (IsWithin (length lines.now) range) e) }
{
    let Some(given) = part_at(lines, range) else {
        return Err(TiError::IllegalArgument);
    };
    let mut table = Vec::with_capacity(alloc, given.len())?;
    for i in 0..given.len() {
        table.push_reserved(line_in(given[i]));
    }
    Ok(table)
}

/// The lines of a method. 103 if there is no such kind of lines, or the range of a table does not lie within the list.
fn lines_of(alloc: Global, lines: &[CqLineEntry], method: CqMethodRanges) -> Result<Lines, TiError>
    ensures same { IfOk result (λ l. AreLines lines.now method l) }
    ensures refused { IfErr result (λ e. Lacks (HasLines lines.now method) e) }
{
    match method.lines_kind {
        LINES_ABSENT | LINES_NATIVE => Ok(Lines::Absent),
        LINES_LOCATIONS => Ok(Lines::Locations),
        LINES_TABLE => Ok(Lines::Table(table_at(alloc, lines, method.lines)?)),
        _ => Err(TiError::IllegalArgument),
    }
}

/// A method.
fn method_of(
    alloc: Global,
    text: &[u8],
    lines: &[CqLineEntry],
    method: CqMethodRanges,
) -> Result<MethodInfo, TiError>
    ensures same { IfOk result (λ m. IsMethod text.now lines.now method m) }
    ensures refused { IfErr result (λ e. Lacks (HasMethod text.now lines.now method) e) }
{
    Ok(MethodInfo {
        name: text_at(alloc, text, method.name)?,
        signature: text_at(alloc, text, method.signature)?,
        first_line: method.first_line,
        lines: lines_of(alloc, lines, method)?,
        is_native: method.lines_kind == LINES_NATIVE,
    })
}

/// All methods of a class.
fn methods_of(
    alloc: Global,
    text: &[u8],
    lines: &[CqLineEntry],
    methods: &[CqMethodRanges],
) -> Result<Vec<MethodInfo>, TiError>
    ensures same { IfOk result (λ m. AreMethods text.now lines.now methods.now m.items) }
    ensures refused { IfErr result (λ e. Lacks (HaveMethods text.now lines.now methods.now) e) }
{
    let mut infos = Vec::with_capacity(alloc, methods.len())?;
    for i in 0..methods.len() {
        infos.push_reserved(method_of(alloc, text, lines, methods[i])?);
    }
    Ok(infos)
}

/// The class that these parts describe. 103 if they describe none, 110 if there is no memory.
pub(crate) fn class_of(
    alloc: Global,
    text: &[u8],
    lines: &[CqLineEntry],
    class: CqClassRanges,
    methods: &[CqMethodRanges],
) -> Result<ClassInfo, TiError>
    ensures same { IfOk result (λ c. IsClass (given text.now class methods.now lines.now) c) }
    ensures refused { IfErr result (λ e. Lacks (HasClass (given text.now class methods.now lines.now)) e) }
{
    Ok(ClassInfo {
        signature: text_at(alloc, text, class.signature)?,
        source_file: file_at(alloc, text, class.source_file)?,
        methods: methods_of(alloc, text, lines, methods)?,
    })
}

ghost use Rattle.std.specs.Prelude.{length, string_bytes, IfErr, IfNone, IfOk, IfSome};
ghost use Rattle.std.specs.Option.{option_map};
ghost use Rattle.ti_capi.specs.Defining.{given, AreLines, AreMethods, HasClass, HasFile, HasLines, HasMethod, HasText, HaveMethods, IsClass, IsFile, IsMethod, IsPart, IsTable, IsWithin, Lacks};
