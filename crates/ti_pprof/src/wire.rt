//! The wire format of protobuf: fields that are numbers, and fields that are bytes.

use std::alloc::AllocError;

/// Appends a number as a varint in its shortest form, 1 to 10 bytes. The error is lack of memory.
pub(crate) fn push_varint(out: &mut Vec<u8>, number: u64) -> Result<(), AllocError>
    ensures { OnOk result (out.new.items ≡ out.old.items ++ varint number) }
{
    let mut more: u64 = 9;
    let mut rest = number;
    'next: while more != 0 && rest >= 128 {
        out.push((128 + rest % 128) as u8)?;
        rest /= 128;
        more -= 1;
    }
    out.push(rest as u8)?;
    Ok(())
}

/// Appends a field that is a number. A field that is 0 is left out. The error is lack of memory.
pub(crate) fn push_number(out: &mut Vec<u8>, field: u64, number: u64) -> Result<(), AllocError>
    requires { field < 2 ^ 32 }
    ensures { OnOk result (out.new.items ≡ out.old.items ++ number_field field number) }
{
    if number != 0 {
        push_varint(out, field * 8)?;
        push_varint(out, number)?;
    }
    Ok(())
}

/// Appends fields that are numbers, each by its own number. The error is lack of memory.
pub(crate) fn push_numbers(out: &mut Vec<u8>, fields: &[(u32, u64)]) -> Result<(), AllocError>
    ensures { OnOk result (out.new.items ≡ out.old.items ++ number_fields fields.now) }
{
    for (field, number) in fields {
        push_number(out, u64::from(*field), *number)?;
    }
    Ok(())
}

/// Appends a field that is a message of such fields. The error is lack of memory.
pub(crate) fn push_message(
    out: &mut Vec<u8>,
    field: u64,
    fields: &[(u32, u64)],
) -> Result<(), AllocError>
    requires { field < 2 ^ 29 }
    ensures { OnOk result (out.new.items ≡ out.old.items ++ block_field field (number_fields fields.now)) }
{
    let mut inner = Vec::new(*out.allocator());
    push_numbers(&mut inner, fields)?;
    push_block(out, field, &inner)
}

/// Appends a field that is bytes: a text or a message. The error is lack of memory.
pub(crate) fn push_block(out: &mut Vec<u8>, field: u64, bytes: &[u8]) -> Result<(), AllocError>
    requires { field < 2 ^ 29 }
    ensures { OnOk result (out.new.items ≡ out.old.items ++ block_field field bytes.now) }
{
    push_varint(out, field * 8 + 2)?;
    push_varint(out, bytes.len() as u64)?;
    out.extend_from_slice(bytes)?;
    Ok(())
}

/// Appends numbers one after another. The error is lack of memory.
pub(crate) fn push_varints(out: &mut Vec<u8>, numbers: &[u64]) -> Result<(), AllocError>
    ensures { OnOk result (out.new.items ≡ out.old.items ++ varints numbers.now) }
{
    for number in numbers {
        push_varint(out, *number)?;
    }
    Ok(())
}

ghost use Rattle.std.specs.Prelude.{◌≡◌, ◌++◌, ◌<◌, ◌^◌, OnOk};
ghost use Rattle.ti_pprof.specs.Wire.{block_field, number_field, number_fields, varint, varints};
