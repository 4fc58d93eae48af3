//! The bodies of replies that list threads, classes, methods, lines or frames.
//!
//! Each function gives the bytes of one body. It fails with 110 OUT_OF_MEMORY alone: if there is no memory, or if a list or a
//! text has 2^31 items or bytes or more.

use crate::error::JdwpError;
use crate::ids::{frame_id, method_id, thread_id};
use crate::rows::{PutRow, put_rows, rows_body};
use crate::writing::{put_class, put_int, put_location, put_long, put_text};
use std::alloc::Global;

/// The status of a class: verified, prepared and initialized.
const CLASS_STATUS: u32 = 7;

/// The modifiers of a method: public and static.
const METHOD_FLAGS: u32 = 0x9;

/// The same of a native method.
const NATIVE_FLAGS: u32 = 0x109;

/// A class, by its number, with its signature, such as `Lscripts/nbody;`.
#[derive(Clone, Copy, Debug)]
pub struct ClassRow<'a> {
    pub class: u32,
    pub signature: &'a [u8],
}

/// A method, by its number, with its name and its signature, such as `()V`.
#[derive(Clone, Copy, Debug)]
pub struct MethodRow<'a> {
    pub method: u32,
    pub name: &'a [u8],
    pub signature: &'a [u8],
    pub native: bool,
}

/// Where a line's code begins: a location of the method, and the number of the line.
#[derive(Clone, Copy, Debug, PartialEq, Eq)]
pub struct LineRow {
    pub index: u64,
    pub line: u32,
}

/// A frame: its depth, 0 for the newest, and its method, with the class and the location.
#[derive(Clone, Copy, Debug, PartialEq, Eq)]
pub struct FrameRow {
    pub depth: u32,
    pub class: u32,
    pub method: u32,
    pub index: u64,
}

/// How threads are listed.
struct Threads;

impl PutRow<u32> for Threads {
    ghost bytes = { λ _ thread. long (id_from first_thread thread) };

    fn put(&self, out: &mut Vec<u8>, thread: &u32) -> Result<(), JdwpError> {
        put_long(out, thread_id(*thread))
    }
}

/// Threads by their numbers (1/4).
pub fn threads_body(alloc: Global, threads: &[u32]) -> Result<Vec<u8>, JdwpError>
    ensures ok { IfOk result (λ v. v.items ≡ thread_list threads.now) }
    ensures fits { IfOk result (λ _. length threads.now < 2 ^ 31) }
    ensures memory { IfErr result (λ e. e ≡ OutOfMemory) }
{
    rows_body(alloc, &Threads, threads)
}

/// The threads of the group by their numbers, and no groups in it (12/3).
pub fn group_children_body(alloc: Global, threads: &[u32]) -> Result<Vec<u8>, JdwpError>
    ensures ok { IfOk result (λ v. v.items ≡ thread_list threads.now ++ int 0) }
    ensures fits { IfOk result (λ _. length threads.now < 2 ^ 31) }
    ensures memory { IfErr result (λ e. e ≡ OutOfMemory) }
{
    let mut out = Vec::new(alloc);
    put_rows(&mut out, &Threads, threads)?;
    put_int(&mut out, 0)?;
    Ok(out)
}

/// How classes are listed, with their signatures.
struct Classes;

impl PutRow<ClassRow<'_>> for Classes {
    ghost bytes = { λ _ row. class_row row };

    ghost Fits = { λ row. length row.signature.now < 2 ^ 31 };

    fn put(&self, out: &mut Vec<u8>, row: &ClassRow<'_>) -> Result<(), JdwpError> {
        put_class(out, row.class)?;
        put_text(out, row.signature)?;
        put_text(out, &[])?;
        put_int(out, CLASS_STATUS)
    }
}

/// Classes with their signatures, and the empty text for each generic one (1/20).
pub fn classes_body(alloc: Global, classes: &[ClassRow<'_>]) -> Result<Vec<u8>, JdwpError>
    ensures ok { IfOk result (λ v. v.items ≡ class_list classes.now) }
    ensures fits { IfOk result (λ _. (length classes.now < 2 ^ 31) × All (λ r. length r.signature.now < 2 ^ 31) classes.now) }
    ensures memory { IfErr result (λ e. e ≡ OutOfMemory) }
{
    rows_body(alloc, &Classes, classes)
}

/// How classes are listed that have one signature.
struct FoundClasses;

impl PutRow<u32> for FoundClasses {
    ghost bytes = { λ _ class. found_class class };

    fn put(&self, out: &mut Vec<u8>, class: &u32) -> Result<(), JdwpError> {
        put_class(out, *class)?;
        put_int(out, CLASS_STATUS)
    }
}

/// Classes by their numbers, which have the signature that was asked for (1/2).
pub fn classes_found_body(alloc: Global, classes: &[u32]) -> Result<Vec<u8>, JdwpError>
    ensures ok { IfOk result (λ v. v.items ≡ found_list classes.now) }
    ensures fits { IfOk result (λ _. length classes.now < 2 ^ 31) }
    ensures memory { IfErr result (λ e. e ≡ OutOfMemory) }
{
    rows_body(alloc, &FoundClasses, classes)
}

fn method_flags(native: bool) -> u32
    ensures { result ≡ method_flags native }
{
    if native { NATIVE_FLAGS } else { METHOD_FLAGS }
}

/// How methods are listed.
struct Methods;

impl PutRow<MethodRow<'_>> for Methods {
    ghost bytes = { λ _ row. method_row row };

    ghost Fits = { λ row. (length row.name.now < 2 ^ 31) × (length row.signature.now < 2 ^ 31) };

    fn put(&self, out: &mut Vec<u8>, row: &MethodRow<'_>) -> Result<(), JdwpError> {
        put_long(out, method_id(row.method))?;
        put_text(out, row.name)?;
        put_text(out, row.signature)?;
        put_text(out, &[])?;
        put_int(out, method_flags(row.native))
    }
}

/// The methods of a class, with the empty text for each generic signature (2/15). All are public and static.
pub fn methods_body(alloc: Global, methods: &[MethodRow<'_>]) -> Result<Vec<u8>, JdwpError>
    ensures ok { IfOk result (λ v. v.items ≡ method_list methods.now) }
    ensures fits { IfOk result (λ _. (length methods.now < 2 ^ 31) × All (λ r. (length r.name.now < 2 ^ 31) × (length r.signature.now < 2 ^ 31)) methods.now) }
    ensures memory { IfErr result (λ e. e ≡ OutOfMemory) }
{
    rows_body(alloc, &Methods, methods)
}

/// How lines are listed.
struct Lines;

impl PutRow<LineRow> for Lines {
    ghost bytes = { λ _ row. line_row row };

    fn put(&self, out: &mut Vec<u8>, row: &LineRow) -> Result<(), JdwpError> {
        put_long(out, row.index)?;
        put_int(out, row.line)
    }
}

/// The lines of a method (6/1). Each location of the method is in the range from `start` to `end`.
pub fn line_table_body(
    alloc: Global,
    start: u64,
    end: u64,
    lines: &[LineRow],
) -> Result<Vec<u8>, JdwpError>
    ensures ok { IfOk result (λ v. v.items ≡ long start ++ long end ++ line_list lines.now) }
    ensures fits { IfOk result (λ _. length lines.now < 2 ^ 31) }
    ensures memory { IfErr result (λ e. e ≡ OutOfMemory) }
{
    let mut out = Vec::new(alloc);
    put_long(&mut out, start)?;
    put_long(&mut out, end)?;
    put_rows(&mut out, &Lines, lines)?;
    Ok(out)
}

/// The lines of a method whose locations are its lines (6/1): those that are known, each at the location of its number. Every
/// location from 0 to 2^32 - 1 is in the range of the table.
pub fn identity_lines_body(alloc: Global, lines: &[u32]) -> Result<Vec<u8>, JdwpError>
    ensures ok { IfOk result (λ v. v.items ≡ long 0 ++ long 4294967295 ++ identity_list lines.now) }
    ensures fits { IfOk result (λ _. length lines.now < 2 ^ 31) }
    ensures memory { IfErr result (λ e. e ≡ OutOfMemory) }
{
    let mut out = Vec::new(alloc);
    put_long(&mut out, 0)?;
    put_long(&mut out, u64::from(u32::MAX))?;
    put_rows(&mut out, &IdentityLines, lines)?;
    Ok(out)
}

/// How lines are listed whose locations are their numbers.
struct IdentityLines;

impl PutRow<u32> for IdentityLines {
    ghost bytes = { λ _ line. identity_line line };

    fn put(&self, out: &mut Vec<u8>, line: &u32) -> Result<(), JdwpError> {
        put_long(out, u64::from(*line))?;
        put_int(out, *line)
    }
}

/// How frames of a thread, by its number, are listed.
#[derive(Drop)]
struct FramesOf(u32);

impl PutRow<FrameRow> for FramesOf {
    ghost bytes = { λ frames row. frame_row frames.0 row };

    fn put(&self, out: &mut Vec<u8>, row: &FrameRow) -> Result<(), JdwpError> {
        put_long(out, frame_id(self.0, row.depth))?;
        put_location(out, row.class, row.method, row.index)
    }
}

/// Frames of a thread (11/6).
pub fn frames_body(alloc: Global, thread: u32, frames: &[FrameRow]) -> Result<Vec<u8>, JdwpError>
    ensures ok { IfOk result (λ v. v.items ≡ frame_list thread frames.now) }
    ensures fits { IfOk result (λ _. length frames.now < 2 ^ 31) }
    ensures memory { IfErr result (λ e. e ≡ OutOfMemory) }
{
    rows_body(alloc, &FramesOf(thread), frames)
}

ghost use Rattle.std.specs.Prelude.{◌≡◌, ◌<◌, ◌^◌, length, All, ◌++◌, IfOk, IfErr};
ghost use Rattle.ti_jdwp.specs.Fields.{int, long};
ghost use Rattle.ti_jdwp.specs.Ids.{id_from, first_thread};
ghost use Rattle.ti_jdwp.specs.Bodies.{thread_list, class_row, class_list, found_class, found_list, method_flags, method_row, method_list, line_row, line_list, identity_line, identity_list, frame_row, frame_list};
ghost use Rattle.ti_jdwp.specs.declared.error.JdwpError.TheVariants.{OutOfMemory};
