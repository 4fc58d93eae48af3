//! Numbers and texts at the end of what is written, big-endian.

use crate::error::JdwpError;
use crate::ids::{class_id, method_id};

/// The tag of a class beside its id: CLASS.
pub(crate) const CLASS_TAG: u8 = 1;

/// Writes a number of four bytes.
#[tactic(auto, unfolding(crate::specs::Fields::int))]
pub(crate) fn put_int(out: &mut Vec<u8>, n: u32) -> Result<(), JdwpError>
    ensures ok { OnOk result (out.new.items ≡ out.old.items ++ int n) }
    ensures memory { IfErr result (λ e. e ≡ OutOfMemory) }
{
    out.extend_from_slice(&n.to_be_bytes())?;
    Ok(())
}

/// Writes a number of eight bytes.
#[tactic(auto, unfolding(crate::specs::Fields::long))]
pub(crate) fn put_long(out: &mut Vec<u8>, n: u64) -> Result<(), JdwpError>
    ensures ok { OnOk result (out.new.items ≡ out.old.items ++ long n) }
    ensures memory { IfErr result (λ e. e ≡ OutOfMemory) }
{
    out.extend_from_slice(&n.to_be_bytes())?;
    Ok(())
}

/// Writes one byte.
pub(crate) fn put_byte(out: &mut Vec<u8>, n: u8) -> Result<(), JdwpError>
    ensures ok { OnOk result (out.new.items ≡ out.old.items ++ n ∷ []) }
    ensures memory { IfErr result (λ e. e ≡ OutOfMemory) }
{
    out.extend_from_slice(&[n])?;
    Ok(())
}

/// Writes a tag, and eight bytes.
pub(crate) fn put_tagged(out: &mut Vec<u8>, tag: u8, bits: u64) -> Result<(), JdwpError>
    ensures ok { OnOk result (out.new.items ≡ out.old.items ++ tag ∷ long bits) }
    ensures memory { IfErr result (λ e. e ≡ OutOfMemory) }
{
    put_byte(out, tag)?;
    put_long(out, bits)
}

/// Writes a class, with its tag.
pub(crate) fn put_class(out: &mut Vec<u8>, class: u32) -> Result<(), JdwpError>
    ensures ok { OnOk result (out.new.items ≡ out.old.items ++ 1 ∷ long (id_from first_class class)) }
    ensures memory { IfErr result (λ e. e ≡ OutOfMemory) }
{
    put_tagged(out, CLASS_TAG, class_id(class))
}

/// Writes a location: its class, its method and the index.
pub(crate) fn put_location(
    out: &mut Vec<u8>,
    class: u32,
    method: u32,
    index: u64,
) -> Result<(), JdwpError>
    ensures ok { OnOk result (out.new.items ≡ out.old.items ++ 1 ∷ long (id_from first_class class) ++ long (id_from first_method method) ++ long index) }
    ensures memory { IfErr result (λ e. e ≡ OutOfMemory) }
{
    put_class(out, class)?;
    put_long(out, method_id(method))?;
    put_long(out, index)
}

/// Writes how many items follow, at most 2^31 - 1. There is no room for more.
pub(crate) fn put_count(out: &mut Vec<u8>, count: usize) -> Result<(), JdwpError>
    ensures ok { OnOk result (out.new.items ≡ out.old.items ++ int count) }
    ensures fits { OnOk result (count < 2 ^ 31) }
    ensures memory { IfErr result (λ e. e ≡ OutOfMemory) }
{
    if count > i32::MAX as usize {
        return Err(JdwpError::OutOfMemory);
    }
    put_int(out, count as u32)
}

/// Writes a text with its length, at most 2^31 - 1 bytes. There is no room for more.
pub(crate) fn put_text(out: &mut Vec<u8>, content: &[u8]) -> Result<(), JdwpError>
    ensures ok { OnOk result (out.new.items ≡ out.old.items ++ text content.now) }
    ensures fits { OnOk result (length content.now < 2 ^ 31) }
    ensures memory { IfErr result (λ e. e ≡ OutOfMemory) }
{
    put_count(out, content.len())?;
    out.extend_from_slice(content)?;
    Ok(())
}

ghost use Rattle.std.specs.Prelude.{◌≡◌, ◌<◌, ◌^◌, ◌∷◌, [], ◌++◌, length, OnOk, IfErr};
ghost use Rattle.ti_jdwp.specs.Fields.{int, long, text};
ghost use Rattle.ti_jdwp.specs.Ids.{id_from, first_class, first_method};
ghost use Rattle.ti_jdwp.specs.declared.error.JdwpError.TheVariants.{OutOfMemory};
