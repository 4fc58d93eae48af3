//! What is written to memory of the caller's of classes and methods: as much as there is room for, and how much there is.

use crate::class_values::{CqLineEntry, CqMethodName, LINES_ABSENT, LINES_LOCATIONS, LINES_TABLE};
use crate::codes::code;
use crate::writes::{write_bytes, write_each};
use ti_service::{ClassError, Lines, MethodName};

/// Writes a text as far as there is room, and its length in bytes.
pub(crate) fn write_text(text: &str, room: &mut [u8], length: &mut u64)
    ensures { IsListWritten text.now room.old room.new length.new }
{
    let bytes = text.as_bytes();
    *length = bytes.len() as u64;
    write_bytes(bytes, room);
}

/// Writes what is told of a text, or gives the code that tells why nothing is.
pub(crate) fn tell_text(told: Result<String, ClassError>, room: &mut [u8], length: &mut u64) -> u32
    ensures written { IfOk told (λ s. (result ≡ 0) × IsListWritten (string_bytes s) room.old room.new length.new) }
    ensures refused { IfErr told (λ e. (result ≡ class_number_of e) × (room.new ≡ room.old) × (length.new ≡ length.old)) }
{
    code!(told, text => write_text(text.as_str(), room, length))
}

/// Writes the kind of lines, and the entries of a table.
pub(crate) fn write_lines(lines: &Lines, kind: &mut u32, room: &mut [CqLineEntry], count: &mut u64)
    ensures { AreWritten lines.now kind.new room.old room.new count.new }
{
    *count = 0;
    match lines {
        Lines::Absent => *kind = LINES_ABSENT,
        Lines::Locations => *kind = LINES_LOCATIONS,
        Lines::Table(table) => {
            *kind = LINES_TABLE;
            *count = table.len() as u64;
            write_each(table, room);
        }
    }
}

/// Writes a method's name and signature as far as there is room, their lengths, and its first line.
pub(crate) fn write_name(
    told: &MethodName,
    info: &mut CqMethodName,
    name: &mut [u8],
    signature: &mut [u8],
)
    ensures info { info.new ≡ name_written told.now }
    ensures name { name.new ≡ over (string_bytes told.now.name) name.old }
    ensures signature { signature.new ≡ over (string_bytes told.now.signature) signature.old }
{
    info.first_line = told.first_line;
    write_text(told.name.as_str(), name, &mut info.name_length);
    write_text(
        told.signature.as_str(),
        signature,
        &mut info.signature_length,
    );
}

ghost use Rattle.std.specs.Prelude.{◌≡◌, IfErr, IfOk, string_bytes};
ghost use Rattle.ti_methods.specs.Errors.{number_of as class_number_of};
ghost use Rattle.ti_capi.specs.Classes.{AreWritten, IsListWritten, name_written};
ghost use Rattle.ti_capi.specs.Defining.{line_written};
ghost use Rattle.ti_capi.specs.Values.{over};
