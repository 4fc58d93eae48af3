//! The messages of a profile that have no list of messages in them.

use crate::names::Unit;
use crate::texts::Texts;
use crate::wire::{push_block, push_message, push_numbers, push_varints};
use std::alloc::AllocError;

/// Appends a field that is a list of numbers. One that has none is left out. `inner` is room for the list. The error is lack of
/// memory.
pub(crate) fn push_packed(
    out: &mut Vec<u8>,
    inner: &mut Vec<u8>,
    field: u64,
    numbers: &[u64],
) -> Result<(), AllocError>
    requires { field < 2 ^ 29 }
    ensures { OnOk result (out.new.items ≡ out.old.items ++ packed_field field numbers.now) }
{
    if numbers.is_empty() {
        return Ok(());
    }
    inner.clear();
    push_varints(inner, numbers)?;
    push_block(out, field, inner)
}

/// Appends a field that is a ValueType. The error is lack of memory.
pub(crate) fn push_value_type_field(
    out: &mut Vec<u8>,
    field: u64,
    texts: &Texts<'_>,
    kind: &str,
    unit: &str,
) -> Result<(), AllocError>
    requires { field < 2 ^ 29 }
    ensures { OnOk result (out.new.items ≡ out.old.items ++ block_field field (value_type (strings_in texts.now) kind.now unit.now)) }
{
    push_message(
        out,
        field,
        &[(1, texts.number(kind)), (2, texts.number(unit))],
    )
}

/// Appends a label, by the numbers of its key and its text, if there is a text. `inner` is room for the label. The error is lack of
/// memory.
pub(crate) fn push_label(
    out: &mut Vec<u8>,
    inner: &mut Vec<u8>,
    key: u64,
    text: Option<u64>,
) -> Result<(), AllocError>
    ensures { OnOk result (out.new.items ≡ out.old.items ++ numbered_label key text) }
{
    let Some(text) = text else {
        return Ok(());
    };
    inner.clear();
    push_numbers(inner, &[(1, key), (2, text)])?;
    push_block(out, 3, inner)
}

/// The nanoseconds of so many samples, at most 2^63 - 1.
fn wall_of(period: u64, count: u64) -> u64
    ensures { result ≡ wall_of period count }
{
    count.saturating_mul(period).min(i64::MAX as u64)
}

/// Appends the values of a sample. `inner` is room for them. The error is lack of memory.
pub(crate) fn push_values(
    out: &mut Vec<u8>,
    inner: &mut Vec<u8>,
    unit: Unit,
    count: u64,
) -> Result<(), AllocError>
    ensures { OnOk result (out.new.items ≡ out.old.items ++ values unit count) }
{
    match unit {
        Unit::Wall { period } => push_packed(out, inner, 2, &[count, wall_of(period, count)]),
        Unit::Threads => push_packed(out, inner, 2, &[count]),
    }
}

/// Appends the sample of so many stacks that had no room, if there are any. The error is lack of memory.
pub(crate) fn push_no_room(out: &mut Vec<u8>, unit: Unit, count: u64) -> Result<(), AllocError>
    ensures { OnOk result (out.new.items ≡ out.old.items ++ no_room_field unit count) }
{
    if count == 0 {
        return Ok(());
    }
    let mut list = Vec::new(*out.allocator());
    let mut inner = Vec::new(*out.allocator());
    push_packed(&mut inner, &mut list, 1, &[2])?;
    push_values(&mut inner, &mut list, unit, count)?;
    push_block(out, 2, &inner)
}

/// Appends the mapping, which has all locations. The error is lack of memory.
pub(crate) fn push_mapping(
    out: &mut Vec<u8>,
    texts: &Texts<'_>,
    program: &str,
) -> Result<(), AllocError>
    ensures { OnOk result (out.new.items ≡ out.old.items ++ block_field 3 (mapping (strings_in texts.now) program.now)) }
{
    push_message(
        out,
        3,
        &[(1, 1), (5, texts.number(program)), (7, 1), (8, 1), (9, 1)],
    )
}

/// Appends a location with one line. The error is lack of memory.
pub(crate) fn push_location(
    out: &mut Vec<u8>,
    id: u64,
    function: u64,
    number: u64,
) -> Result<(), AllocError>
    ensures { OnOk result (out.new.items ≡ out.old.items ++ block_field 4 (location id function number)) }
{
    let mut inner = Vec::new(*out.allocator());
    push_numbers(&mut inner, &[(1, id), (2, 1)])?;
    push_message(&mut inner, 4, &[(1, function), (2, number)])?;
    push_block(out, 4, &inner)
}

/// Appends a function. The error is lack of memory.
pub(crate) fn push_function(
    out: &mut Vec<u8>,
    texts: &Texts<'_>,
    id: u64,
    name: &str,
    file: &str,
    start: u32,
) -> Result<(), AllocError>
    ensures { OnOk result (out.new.items ≡ out.old.items ++ block_field 5 (function (strings_in texts.now) id name.now file.now start)) }
{
    let (name, file) = (texts.number(name), texts.number(file));
    push_message(
        out,
        5,
        &[(1, id), (2, name), (4, file), (5, u64::from(start))],
    )
}

ghost use Rattle.std.specs.Prelude.{◌≡◌, ◌<◌, ◌^◌, ◌++◌, OnOk};
ghost use Rattle.ti_pprof.specs.Labels.{numbered_label};
ghost use Rattle.ti_pprof.specs.Profile.{function, location, mapping, no_room_field, value_type, values, wall_of};
ghost use Rattle.ti_pprof.specs.Strings.{strings_in};
ghost use Rattle.ti_pprof.specs.Wire.{block_field, packed_field};
