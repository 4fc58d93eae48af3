//! The line of a location in a table of lines.

use ti_service::LineEntry;

/// The entry that says the line of a location, once one more entry of its table was looked at.
fn nearer(found: Option<LineEntry>, entry: LineEntry, index: u32) -> Option<LineEntry>
    ensures { (before : List LineEntry) → IsEntryAt before index found → IsEntryAt (before ++ entry ∷ []) index result }
{
    if entry.start_location > index {
        return found;
    }
    match found {
        Some(best) => {
            if best.start_location > entry.start_location {
                Some(best)
            } else {
                Some(entry)
            }
        }
        None => Some(entry),
    }
}

/// The entry of a table that says the line of a location: the last that begins there or nearest before. `None` if there is none.
fn entry_at(entries: &[LineEntry], index: u32) -> Option<LineEntry>
    ensures { IsEntryAt entries.now index result }
{
    let mut found: Option<LineEntry> = None;
    for entry in entries {
        found = nearer(found, *entry, index);
    }
    found
}

/// The line of a location in a table. `None` if no entry begins there or before.
pub(crate) fn line_in(entries: &[LineEntry], index: u32) -> Option<u32>
    ensures { IsLineBy entries.now index result }
{
    match entry_at(entries, index) {
        Some(entry) => Some(entry.line),
        None => None,
    }
}

ghost use Rattle.std.specs.Prelude.{List, [], ◌∷◌, ◌++◌};
ghost use Rattle.ti_methods.specs.declared.info.LineEntry.{LineEntry};
ghost use Rattle.ti_debugger.specs.Placing.{IsEntryAt, IsLineBy};
