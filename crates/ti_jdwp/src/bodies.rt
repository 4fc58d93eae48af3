//! The bodies of replies that have no list of rows.
//!
//! Each function gives the bytes of one body. It fails with 110 OUT_OF_MEMORY alone: if there is no memory, or if a text has
//! 2^31 bytes or more.

use crate::error::JdwpError;
use crate::ids::{TABLE_CLASS, THREAD_GROUP};
use crate::writing::{CLASS_TAG, put_byte, put_int, put_long, put_tagged, put_text};
use std::alloc::Global;

/// The tag of a class of arrays: ARRAY.
const ARRAY_TAG: u8 = 3;

/// One number of four bytes, such as an event request, a count of frames or suspensions, or a class's status or modifiers.
pub fn int_body(alloc: Global, n: i32) -> Result<Vec<u8>, JdwpError>
    ensures ok { IfOk result (λ v. v.items ≡ signed n) }
    ensures memory { IfErr result (λ e. e ≡ OutOfMemory) }
{
    let mut out = Vec::new(alloc);
    put_int(&mut out, n.cast_unsigned())?;
    Ok(out)
}

/// A thread's status, and whether it is suspended (11/4): 1 if it is, else 0.
pub fn status_body(alloc: Global, status: i32, suspended: bool) -> Result<Vec<u8>, JdwpError>
    ensures ok { IfOk result (λ v. v.items ≡ signed status ++ int (flag suspended)) }
    ensures memory { IfErr result (λ e. e ≡ OutOfMemory) }
{
    let mut out = Vec::new(alloc);
    put_int(&mut out, status.cast_unsigned())?;
    put_int(&mut out, u32::from(suspended))?;
    Ok(out)
}

/// One id, such as that of a thread group, or 0 for none.
pub fn id_body(alloc: Global, id: u64) -> Result<Vec<u8>, JdwpError>
    ensures ok { IfOk result (λ v. v.items ≡ long id) }
    ensures memory { IfErr result (λ e. e ≡ OutOfMemory) }
{
    let mut out = Vec::new(alloc);
    put_long(&mut out, id)?;
    Ok(out)
}

/// The class of an object, with its tag (9/1).
pub fn class_of_object_body(alloc: Global, class: u64) -> Result<Vec<u8>, JdwpError>
    ensures ok { IfOk result (λ v. v.items ≡ 1 ∷ long class) }
    ensures memory { IfErr result (λ e. e ≡ OutOfMemory) }
{
    tagged_body(alloc, CLASS_TAG, class)
}

/// The class of all tables, which is one of arrays, with its tag (9/1 of a table).
pub fn class_of_table_body(alloc: Global) -> Result<Vec<u8>, JdwpError>
    ensures ok { IfOk result (λ v. v.items ≡ 3 ∷ long table_class) }
    ensures memory { IfErr result (λ e. e ≡ OutOfMemory) }
{
    tagged_body(alloc, ARRAY_TAG, TABLE_CLASS)
}

/// The null object, with its tag (16/3): no frame has an object of its own.
pub fn no_object_body(alloc: Global) -> Result<Vec<u8>, JdwpError>
    ensures ok { IfOk result (λ v. v.items ≡ 76 ∷ long 0) }
    ensures memory { IfErr result (λ e. e ≡ OutOfMemory) }
{
    tagged_body(alloc, b'L', 0)
}

/// A tag, and eight bytes.
fn tagged_body(alloc: Global, tag: u8, bits: u64) -> Result<Vec<u8>, JdwpError>
    ensures ok { IfOk result (λ v. v.items ≡ tag ∷ long bits) }
    ensures memory { IfErr result (λ e. e ≡ OutOfMemory) }
{
    let mut out = Vec::new(alloc);
    put_tagged(&mut out, tag, bits)?;
    Ok(out)
}

/// Whether an object was collected (9/9): 1 if it was, else 0.
pub fn collected_body(alloc: Global, collected: bool) -> Result<Vec<u8>, JdwpError>
    ensures ok { IfOk result (λ v. v.items ≡ flag collected ∷ []) }
    ensures memory { IfErr result (λ e. e ≡ OutOfMemory) }
{
    let mut out = Vec::new(alloc);
    put_byte(&mut out, u8::from(collected))?;
    Ok(out)
}

/// A text: the name of a thread or a thread group, a signature or a source file.
pub fn text_body(alloc: Global, content: &[u8]) -> Result<Vec<u8>, JdwpError>
    ensures ok { IfOk result (λ v. v.items ≡ text content.now) }
    ensures fits { IfOk result (λ _. length content.now < 2 ^ 31) }
    ensures memory { IfErr result (λ e. e ≡ OutOfMemory) }
{
    let mut out = Vec::new(alloc);
    put_text(&mut out, content)?;
    Ok(out)
}

/// A signature, and the empty text for the generic one (2/13).
pub fn generic_signature_body(alloc: Global, signature: &[u8]) -> Result<Vec<u8>, JdwpError>
    ensures ok { IfOk result (λ v. v.items ≡ text signature.now ++ text []) }
    ensures fits { IfOk result (λ _. length signature.now < 2 ^ 31) }
    ensures memory { IfErr result (λ e. e ≡ OutOfMemory) }
{
    let mut out = Vec::new(alloc);
    put_text(&mut out, signature)?;
    put_text(&mut out, &[])?;
    Ok(out)
}

/// The sizes of ids (1/7), each 8 bytes: fields, methods, objects, classes, frames.
pub fn id_sizes_body(alloc: Global) -> Result<Vec<u8>, JdwpError>
    ensures ok { IfOk result (λ v. v.items ≡ int 8 ++ int 8 ++ int 8 ++ int 8 ++ int 8) }
    ensures memory { IfErr result (λ e. e ≡ OutOfMemory) }
{
    let mut out = Vec::new(alloc);
    put_int(&mut out, 8)?;
    put_int(&mut out, 8)?;
    put_int(&mut out, 8)?;
    put_int(&mut out, 8)?;
    put_int(&mut out, 8)?;
    Ok(out)
}

/// The version (1/1): a description, JDWP 1.5, and the version and the name of the runtime. From 1.6 on a client takes it that classes
/// are filtered by their source names, that methods' results are told and that classes have versions, with no capability for these.
pub fn version_body(
    alloc: Global,
    description: &[u8],
    version: &[u8],
    name: &[u8],
) -> Result<Vec<u8>, JdwpError>
    ensures ok { IfOk result (λ v. v.items ≡ text description.now ++ int 1 ++ int 5 ++ text version.now ++ text name.now) }
    ensures fits { IfOk result (λ _. (length description.now < 2 ^ 31) × (length version.now < 2 ^ 31) × (length name.now < 2 ^ 31)) }
    ensures memory { IfErr result (λ e. e ≡ OutOfMemory) }
{
    let mut out = Vec::new(alloc);
    put_text(&mut out, description)?;
    put_int(&mut out, 1)?;
    put_int(&mut out, 5)?;
    put_text(&mut out, version)?;
    put_text(&mut out, name)?;
    Ok(out)
}

/// The class path (1/13): the base directory, one entry, and no boot class path.
pub fn class_paths_body(alloc: Global, base: &[u8], path: &[u8]) -> Result<Vec<u8>, JdwpError>
    ensures ok { IfOk result (λ v. v.items ≡ text base.now ++ int 1 ++ text path.now ++ int 0) }
    ensures fits { IfOk result (λ _. (length base.now < 2 ^ 31) × (length path.now < 2 ^ 31)) }
    ensures memory { IfErr result (λ e. e ≡ OutOfMemory) }
{
    let mut out = Vec::new(alloc);
    put_text(&mut out, base)?;
    put_int(&mut out, 1)?;
    put_text(&mut out, path)?;
    put_int(&mut out, 0)?;
    Ok(out)
}

/// The capabilities (1/12): none of the seven.
pub fn capabilities_body(alloc: Global) -> Result<Vec<u8>, JdwpError>
    ensures ok { IfOk result (λ v. v.items ≡ replicate 7 0) }
    ensures memory { IfErr result (λ e. e ≡ OutOfMemory) }
{
    let mut out = Vec::new(alloc);
    out.extend_from_slice(&[0; 7])?;
    Ok(out)
}

/// The capabilities (1/17): 32 of them, and none but the 14th, canRequestVMDeathEvent, and maybe the 11th, canPopFrames.
pub fn new_capabilities_body(alloc: Global, can_pop_frames: bool) -> Result<Vec<u8>, JdwpError>
    ensures ok { IfOk result (λ v. v.items ≡ replicate 10 0 ++ flag can_pop_frames ∷ 0 ∷ 0 ∷ 1 ∷ replicate 18 0) }
    ensures memory { IfErr result (λ e. e ≡ OutOfMemory) }
{
    let mut out = Vec::new(alloc);
    out.extend_from_slice(&[0; 10])?;
    put_byte(&mut out, u8::from(can_pop_frames))?;
    out.extend_from_slice(&[0, 0, 1])?;
    out.extend_from_slice(&[0; 18])?;
    Ok(out)
}

/// No items: the interfaces or the fields of a class (2/10, 2/14).
pub fn empty_list_body(alloc: Global) -> Result<Vec<u8>, JdwpError>
    ensures ok { IfOk result (λ v. v.items ≡ int 0) }
    ensures memory { IfErr result (λ e. e ≡ OutOfMemory) }
{
    let mut out = Vec::new(alloc);
    put_int(&mut out, 0)?;
    Ok(out)
}

/// The one thread group (1/5).
pub fn groups_body(alloc: Global) -> Result<Vec<u8>, JdwpError>
    ensures ok { IfOk result (λ v. v.items ≡ int 1 ++ long thread_group) }
    ensures memory { IfErr result (λ e. e ≡ OutOfMemory) }
{
    let mut out = Vec::new(alloc);
    put_int(&mut out, 1)?;
    put_long(&mut out, THREAD_GROUP)?;
    Ok(out)
}

ghost use Rattle.std.specs.Prelude.{◌≡◌, ◌<◌, ◌^◌, length, ◌∷◌, [], ◌++◌, IfOk, IfErr, replicate};
ghost use Rattle.ti_jdwp.specs.Fields.{int, long, text};
ghost use Rattle.ti_jdwp.specs.Ids.{table_class, thread_group};
ghost use Rattle.ti_jdwp.specs.Bodies.{signed, flag};
ghost use Rattle.ti_jdwp.specs.declared.error.JdwpError.TheVariants.{OutOfMemory};
