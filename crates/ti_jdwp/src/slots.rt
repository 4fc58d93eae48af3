//! The slots of the variables whose values are asked for.

use crate::error::JdwpError;
use crate::fields::int;
use std::alloc::Global;

/// Bytes that a slot takes with its tag.
pub(crate) const SLOT_LEN: usize = 5;

/// Reads the slots of a request for values (16/1), one after the other. The bytes are those of its range. The tags, which say what a
/// debugger takes the variables for, are passed over.
///
/// - 103 ILLEGAL_ARGUMENT: the bytes are not those of slots with their tags.
/// - 110 OUT_OF_MEMORY: there is no memory for the slots.
pub fn read_slots(alloc: Global, bytes: &[u8]) -> Result<Vec<u32>, JdwpError>
    ensures found { IfOk result (λ v. AreSlots v.items bytes.now) }
    ensures only { (slots : List ℕ) → AreSlots slots bytes.now → IfOk result (λ v. v.items ≡ slots) }
    ensures err { IfErr result (λ e. (e ≡ OutOfMemory) ⊎ ((e ≡ IllegalArgument) × ((slots : List ℕ) → AreSlots slots bytes.now → ⊥))) }
{
    if bytes.len() % SLOT_LEN != 0 {
        return Err(JdwpError::IllegalArgument);
    }
    slots_in(alloc, bytes, bytes.len() / SLOT_LEN)
}

/// This many slots, one after the other.
fn slots_in(alloc: Global, bytes: &[u8], count: usize) -> Result<Vec<u32>, JdwpError>
    requires { 5 * count ≤ length bytes.now }
    ensures ok { IfOk result (λ v. v.items ≡ slots_from count 0 bytes.now) }
    ensures memory { IfErr result (λ e. e ≡ OutOfMemory) }
{
    let mut slots = Vec::new(alloc);
    for i in 0..count {
        slots.reserve(1)?;
        slots.push_reserved(int(bytes, SLOT_LEN * i));
    }
    Ok(slots)
}

ghost use Rattle.std.specs.Prelude.{◌≡◌, ◌≤◌, ◌*◌, ◌⊎◌, ℕ, List, length, IfOk, IfErr};
ghost use Rattle.ti_jdwp.specs.Slots.{AreSlots, slots_from};
ghost use Rattle.ti_jdwp.specs.declared.error.JdwpError.TheVariants.{IllegalArgument, OutOfMemory};
