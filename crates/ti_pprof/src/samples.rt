//! The samples of a profile.

use crate::labels::Labels;
use crate::messages::{push_packed, push_values};
use crate::names::{Names, Unit};
use crate::places::Places;
use crate::table::Row;
use crate::texts::Texts;
use crate::wire::push_block;
use std::alloc::AllocError;

/// What the samples of a profile refer to.
#[derive(Clone, Copy)]
pub(crate) struct Tables<'a, 't, 'n> {
    pub(crate) texts: &'a Texts<'t>,
    pub(crate) names: &'a Names,
    pub(crate) threads: &'a Labels,
    pub(crate) states: &'a Labels,
    pub(crate) places: &'a Places<'n>,
    pub(crate) unit: Unit,
}

/// Room that each sample is put together in.
#[derive(Drop)]
struct Room {
    ids: Vec<u64>,
    /// A list of numbers, or a label.
    inner: Vec<u8>,
    sample: Vec<u8>,
}

/// Appends the labels of a sample. `inner` is room for a label. The error is lack of memory.
fn push_labels(
    out: &mut Vec<u8>,
    inner: &mut Vec<u8>,
    tables: &Tables<'_, '_, '_>,
    row: Row,
) -> Result<(), AllocError>
    requires numbered { AreNumbers tables.now }
    ensures { OnOk result (out.new.items ≡ out.old.items ++ labels (strings_in tables.now.texts.now) tables.now.names.now row.thread row.state) }
{
    tables.threads.push(out, inner, row.thread)?;
    tables.states.push(out, inner, row.state)?;
    Ok(())
}

/// Appends a sample. The error is lack of memory.
fn push_sample(
    out: &mut Vec<u8>,
    room: &mut Room,
    tables: &Tables<'_, '_, '_>,
    row: Row,
    count: u64,
) -> Result<(), AllocError>
    requires numbered { AreNumbers tables.now }
    requires there { row.stack ≤ length tables.now.places.now.nodes.now }
    ensures { OnOk result (out.new.items ≡ out.old.items ++ sample_field (strings_in tables.now.texts.now) tables.now.names.now tables.now.unit tables.now.places.now.frames.keys (sample_of (stacks_of tables.now.places.now.nodes.now) row count)) }
{
    let Room { ids, inner, sample } = room;
    tables.places.write_locations(ids, row.stack)?;
    sample.clear();
    push_packed(sample, inner, 1, ids)?;
    push_values(sample, inner, tables.unit, count)?;
    push_labels(sample, inner, tables, row)?;
    push_block(out, 2, sample)
}

/// Appends the samples of these rows and their counts. The error is lack of memory.
pub(crate) fn push_samples(
    out: &mut Vec<u8>,
    tables: &Tables<'_, '_, '_>,
    rows: &[Row],
    counts: &[u64],
) -> Result<(), AllocError>
    requires numbered { AreNumbers tables.now }
    requires there { AreNumbered rows.now (length tables.now.places.now.nodes.now) }
    requires counted { length counts.now ≡ length rows.now }
    ensures { OnOk result (out.new.items ≡ out.old.items ++ sample_fields (strings_in tables.now.texts.now) tables.now.names.now tables.now.unit tables.now.places.now.frames.keys (samples_in (stacks_of tables.now.places.now.nodes.now) rows.now counts.now)) }
{
    let alloc = *out.allocator();
    let mut room = Room {
        ids: Vec::new(alloc),
        inner: Vec::new(alloc),
        sample: Vec::new(alloc),
    };
    for place in 0..rows.len() {
        push_sample(out, &mut room, tables, rows[place], counts[place])?;
    }
    Ok(())
}

ghost use Rattle.std.specs.Prelude.{◌≡◌, ◌≤◌, ◌++◌, length, OnOk};
ghost use Rattle.ti_pprof.specs.LabelTables.{AreNumbers};
ghost use Rattle.ti_pprof.specs.Profile.{labels, sample_field, sample_fields};
ghost use Rattle.ti_pprof.specs.Samples.{AreNumbered, sample_of, samples_in};
ghost use Rattle.ti_pprof.specs.Stacks.{stacks_of};
ghost use Rattle.ti_pprof.specs.Strings.{strings_in};
