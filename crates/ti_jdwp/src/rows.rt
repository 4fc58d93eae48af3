//! Lists in replies: how many rows, and each.

use crate::error::JdwpError;
use crate::writing::put_count;
use std::alloc::Global;

/// How a row of a list is written.
pub(crate) trait PutRow<T> {
    /// The bytes of a row.
    ghost bytes: { Self → T → List ℕ };

    /// What is true of a row that can be written: its texts have fewer than 2^31 bytes.
    ghost Fits: { T → Type 0 } = { λ _. Unit {0} };

    /// Writes a row.
    fn put(&self, out: &mut Vec<u8>, row: &T) -> Result<(), JdwpError>
        ensures ok { OnOk result (out.new.items ≡ out.old.items ++ bytes self.now row.now) }
        ensures fits { OnOk result (Fits row.now) }
        ensures memory { IfErr result (λ e. e ≡ OutOfMemory) };
}

/// Writes how many rows follow, at most 2^31 - 1, and each. There is no room for more.
pub(crate) fn put_rows<T, P: PutRow<T>>(
    out: &mut Vec<u8>,
    by: &P,
    rows: &[T],
) -> Result<(), JdwpError>
    ensures ok { OnOk result (out.new.items ≡ out.old.items ++ list (P.bytes by.now) rows.now) }
    ensures count { OnOk result (length rows.now < 2 ^ 31) }
    ensures fit { OnOk result (All P.Fits rows.now) }
    ensures memory { IfErr result (λ e. e ≡ OutOfMemory) }
{
    put_count(out, rows.len())?;
    for row in rows {
        by.put(out, row)?;
    }
    Ok(())
}

/// The body of a reply that has a list alone.
pub(crate) fn rows_body<T, P: PutRow<T>>(
    alloc: Global,
    by: &P,
    rows: &[T],
) -> Result<Vec<u8>, JdwpError>
    ensures ok { IfOk result (λ v. v.items ≡ list (P.bytes by.now) rows.now) }
    ensures count { IfOk result (λ _. length rows.now < 2 ^ 31) }
    ensures fit { IfOk result (λ _. All P.Fits rows.now) }
    ensures memory { IfErr result (λ e. e ≡ OutOfMemory) }
{
    let mut out = Vec::new(alloc);
    put_rows(&mut out, by, rows)?;
    Ok(out)
}

ghost use Rattle.std.specs.Prelude.{◌≡◌, ◌<◌, ◌^◌, ◌++◌, ℕ, List, length, All, OnOk, IfOk, IfErr};
ghost use Rattle.ti_jdwp.specs.Bodies.{list};
ghost use Rattle.ti_jdwp.specs.declared.error.JdwpError.TheVariants.{OutOfMemory};
