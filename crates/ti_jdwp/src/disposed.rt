//! The objects that a debugger does not need any more.

use crate::fields::{int, long};

/// Bytes that each object of 1/14 takes: its id, and how often the debugger was told it.
pub const DISPOSED_LEN: usize = 12;

/// The object at this place of those in the range of 1/14, the first being 0: its id, and how often the debugger was told it. `None`
/// if there are no more.
pub fn disposed_at(bytes: &[u8], place: usize) -> Option<(u64, u32)>
    ensures { result ≡ disposed_at bytes.now place }
{
    if place < bytes.len() / DISPOSED_LEN {
        let at = DISPOSED_LEN * place;
        Some((long(bytes, at), int(bytes, at + 8)))
    } else {
        None
    }
}

ghost use Rattle.std.specs.Prelude.{◌≡◌};
ghost use Rattle.ti_jdwp.specs.Disposed.{disposed_at};
