//! The values of classes and methods that cross to C and back.

use ti_service::LineEntry;

/// The lines of a method are not known.
pub const LINES_ABSENT: u32 = 0;
/// A location is its line.
pub const LINES_LOCATIONS: u32 = 1;
/// The lines are a table.
pub const LINES_TABLE: u32 = 2;
/// The method is native, and has no lines.
pub const LINES_NATIVE: u32 = 3;

/// A part of a text, in bytes, or of a list of line entries.
#[repr(C)]
#[derive(Clone, Copy)]
pub struct CqRange {
    pub start: usize,
    pub length: usize,
}

/// A class that is defined: where its signature and the name of its source file are in the text. A name of no bytes is none.
#[repr(C)]
#[derive(Clone, Copy)]
pub struct CqClassRanges {
    pub signature: CqRange,
    pub source_file: CqRange,
}

/// A method that is defined: where its name and signature are in the text, and its lines among the entries.
#[repr(C)]
#[derive(Clone, Copy)]
pub struct CqMethodRanges {
    pub name: CqRange,
    pub signature: CqRange,
    pub lines: CqRange,
    pub lines_kind: u32,
    pub first_line: u32,
}

/// From this location on, a method is at this line (JVM TI 11, jvmtiLineNumberEntry).
#[repr(C)]
#[derive(Clone, Copy)]
pub struct CqLineEntry {
    pub start_location: u32,
    pub line_number: u32,
}

/// What is told of a method's name: its length and that of its signature in bytes, and the line at which it is defined.
#[repr(C)]
#[derive(Clone, Copy)]
pub struct CqMethodName {
    pub name_length: u64,
    pub signature_length: u64,
    pub first_line: u32,
}

/// A line entry that C gives.
pub(crate) fn line_in(entry: CqLineEntry) -> LineEntry
    ensures { result ≡ line_read entry }
{
    LineEntry {
        start_location: entry.start_location,
        line: entry.line_number,
    }
}

/// A line entry as C has it.
pub(crate) fn line_out(entry: LineEntry) -> CqLineEntry
    ensures { result ≡ line_written entry }
{
    CqLineEntry {
        start_location: entry.start_location,
        line_number: entry.line,
    }
}

ghost use Rattle.std.specs.Prelude.{◌≡◌};
ghost use Rattle.ti_capi.specs.Defining.{line_read, line_written};
