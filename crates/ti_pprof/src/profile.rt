//! The bytes of a profile.

use crate::counting::Counts;
use crate::labels::Labels;
use crate::messages::{push_mapping, push_no_room, push_packed, push_value_type_field};
use crate::named::{numbers_of, push_functions, push_strings, texts_of};
use crate::names::{About, Names, Unit};
use crate::places::{Places, push_locations};
use crate::samples::{Tables, push_samples};
use crate::stacks::Frame;
use crate::texts::Texts;
use crate::wire::push_number;
use indexmap::IndexSet;
use std::alloc::{AllocError, Global};

/// Appends the types of a sample's values. The error is lack of memory.
fn push_sample_types(out: &mut Vec<u8>, texts: &Texts<'_>, unit: Unit) -> Result<(), AllocError>
    ensures { OnOk result (out.new.items ≡ out.old.items ++ sample_types (strings_in texts.now) unit) }
{
    match unit {
        Unit::Wall { .. } => {
            push_value_type_field(out, 1, texts, "samples", "count")?;
            push_value_type_field(out, 1, texts, "wall", "nanoseconds")
        }
        Unit::Threads => push_value_type_field(out, 1, texts, "threads", "count"),
    }
}

/// Appends when and how the stacks were taken. The error is lack of memory.
fn push_about(out: &mut Vec<u8>, texts: &Texts<'_>, about: &About) -> Result<(), AllocError>
    ensures { OnOk result (out.new.items ≡ out.old.items ++ about_fields (strings_in texts.now) about.now) }
{
    push_number(out, 9, about.time)?;
    push_number(out, 10, about.duration)?;
    let unit = about.unit;
    push_value_type_field(out, 11, texts, unit.name(), unit.measure())?;
    push_number(out, 12, unit.period())?;
    let alloc = *out.allocator();
    let comments = numbers_of(alloc, texts, about.comments.as_slice())?;
    push_packed(out, &mut Vec::new(alloc), 13, &comments)?;
    push_number(out, 14, texts.number(unit.name()))
}

/// Appends what was counted, by these tables. The error is lack of memory.
fn push_counted(
    out: &mut Vec<u8>,
    tables: &Tables<'_, '_, '_>,
    counts: &Counts,
) -> Result<(), AllocError>
    requires numbered { AreNumbers tables.now }
    requires there { tables.now.places.now.nodes.now ≡ counts.now.trie.nodes.keys }
    ensures { OnOk result (out.new.items ≡ out.old.items ++ counted_fields (strings_in tables.now.texts.now) tables.now.names.now tables.now.unit tables.now.places.now.frames.keys (samples_of counts.now.trie counts.now.table) counts.now.no_room) }
{
    let table = counts.table();
    push_samples(out, tables, table.rows(), table.counts())?;
    push_no_room(out, tables.unit, counts.no_room())
}

/// Appends what was counted. The error is lack of memory.
fn push_counts(
    out: &mut Vec<u8>,
    texts: &Texts<'_>,
    places: &Places<'_>,
    unit: Unit,
    names: &Names,
    counts: &Counts,
) -> Result<(), AllocError>
    requires there { places.now.nodes.now ≡ counts.now.trie.nodes.keys }
    ensures { OnOk result (out.new.items ≡ out.old.items ++ counted_fields (strings_in texts.now) names.now unit places.now.frames.keys (samples_of counts.now.trie counts.now.table) counts.now.no_room) }
{
    let alloc = *out.allocator();
    let threads = Labels::new(alloc, texts, "thread", &names.threads)?;
    let states = Labels::new(alloc, texts, "state", &names.states)?;
    let tables = Tables {
        texts,
        names,
        threads: &threads,
        states: &states,
        places,
        unit,
    };
    push_counted(out, &tables, counts)
}

/// Appends the parts of a profile. The error is lack of memory.
fn push_parts(
    out: &mut Vec<u8>,
    texts: &Texts<'_>,
    places: &Places<'_>,
    about: &About,
    names: &Names,
    counts: &Counts,
) -> Result<(), AllocError>
    requires there { places.now.nodes.now ≡ counts.now.trie.nodes.keys }
    ensures { OnOk result (out.new.items ≡ out.old.items ++ profile_over (strings_in texts.now) places.now.frames.keys about.now names.now (samples_of counts.now.trie counts.now.table) counts.now.no_room) }
{
    push_sample_types(out, texts, about.unit)?;
    push_counts(out, texts, places, about.unit, names, counts)?;
    push_tables(out, texts, about, names, places.frames())?;
    push_about(out, texts, about)
}

/// The bytes of a profile, as `go tool pprof` reads them, without gzip. The samples are in the order in which they were first
/// seen. If stacks had no room, one more sample has these. A stack without frames has the frame `(no frames)`, one without
/// room the frame `(no room)`, and a frame whose function has no name is of the function `(unknown)`. The error is lack of
/// memory.
pub fn encode(
    alloc: Global,
    about: &About,
    names: &Names,
    counts: &Counts,
) -> Result<Vec<u8>, AllocError>
    ensures { IfOk result (λ b. b.items ≡ profile about.now names.now counts.now.trie.nodes.keys (samples_of counts.now.trie counts.now.table) counts.now.no_room) }
{
    let texts = texts_of(alloc, about, names)?;
    let places = Places::new(alloc, counts.trie().nodes())?;
    let mut out = Vec::new(alloc);
    push_parts(&mut out, &texts, &places, about, names, counts)?;
    Ok(out)
}

/// Appends the mapping, the locations, the functions and the texts. The error is lack of memory.
fn push_tables(
    out: &mut Vec<u8>,
    texts: &Texts<'_>,
    about: &About,
    names: &Names,
    frames: &IndexSet<Frame>,
) -> Result<(), AllocError>
    ensures { OnOk result (out.new.items ≡ out.old.items ++ table_fields (strings_in texts.now) frames.now.keys about.now names.now) }
{
    push_mapping(out, texts, about.program.as_str())?;
    push_locations(out, names.functions.len(), frames)?;
    push_functions(out, texts, &names.functions)?;
    push_strings(out, texts)
}

ghost use Rattle.std.specs.Prelude.{◌≡◌, ◌++◌, OnOk, IfOk};
ghost use Rattle.ti_pprof.specs.LabelTables.{AreNumbers};
ghost use Rattle.ti_pprof.specs.Profile.{about_fields, counted_fields, profile, profile_over, sample_types, table_fields};
ghost use Rattle.ti_pprof.specs.Samples.{samples_of};
ghost use Rattle.ti_pprof.specs.Strings.{strings_in};
