//! At which line a frame is.

use std::alloc::AllocError;
use ti_methods::{LineEntry, Lines};
use ti_types::Place;

/// The lines of a method. In a table the entries are in the order of their locations.
#[derive(Drop)]
pub(crate) struct Known {
    lines: Lines,
    ghost rising: { IsNonDecreasingBy start_of (entries_in lines) },
}

impl Known {
    ghost use Rattle.std.specs.Prelude.{IfOk};
    ghost use Rattle.ti_monitor.specs.Lines.{AreSame, line_at};

    /// No lines.
    pub(crate) fn absent() -> Known
        ensures { result.lines ≡ Absent }
    {
        Known {
            lines: Lines::Absent,
        }
    }

    /// These lines. The error is lack of memory.
    pub(crate) fn new(lines: Lines) -> Result<Known, AllocError>
        ensures { IfOk result (λ k. AreSame lines k.lines) }
    {
        match lines {
            Lines::Absent => Ok(Known::absent()),
            Lines::Locations => Ok(Known {
                lines: Lines::Locations,
            }),
            Lines::Table(entries) => Known::of_table(entries),
        }
    }

    /// The lines of a table. The error is lack of memory.
    fn of_table(mut entries: Vec<LineEntry>) -> Result<Known, AllocError>
        ensures { IfOk result (λ k. AreSame (Table entries) k.lines) }
    {
        entries.sort_by_key(|entry: &LineEntry| entry.start_location)?;
        Ok(Known {
            lines: Lines::Table(entries),
        })
    }

    /// The line of a place, or 0 if it is not known.
    pub(crate) fn line_at(&self, place: Place) -> u32
        ensures { result ≡ line_at self.now.lines place }
    {
        let Place::Java(location) = place else {
            return 0;
        };
        match &self.lines {
            Lines::Absent => 0,
            Lines::Locations => location,
            Lines::Table(entries) => line_in(entries, location),
        }
    }
}

/// The line of the last entry that does not begin behind the location, or 0 if there is none. The entries are in the order of
/// their locations.
fn line_in(entries: &[LineEntry], location: u32) -> u32
    requires rising { IsNonDecreasingBy start_of entries.now }
    ensures { result ≡ line_in entries.now location }
{
    let behind = entries.partition_point(
        |entry: &LineEntry| -> bool
            ensures { result ≡ nat_le entry.now.start_location location }
        { entry.start_location <= location },
    );
    if behind == 0 {
        0
    } else {
        entries[behind - 1].line
    }
}

ghost use Rattle.std.specs.Prelude.{◌≡◌, nat_le};
ghost use Rattle.std.specs.List.Sorted.{IsNonDecreasingBy};
ghost use Rattle.ti_methods.specs.declared.info.Lines.TheVariants.{Absent, Table};
ghost use Rattle.ti_monitor.specs.Lines.{entries_in, line_in, start_of};
