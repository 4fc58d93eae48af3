//! How many frames a thread has, and how many of them were popped.

use crate::codes::{CQ_OK, code};
use crate::handle::CqThread;
use crate::handle_lends::behind;

/// How many frames the thread has.
#[unsafe(no_mangle)]
pub extern "C" fn cq_frame_count(thread: &mut CqThread, count: &mut u64) -> u32
    ensures { CountBehind (thread_in thread.old) thread.old thread.new count.old count.new result }
{
    behind!(thread in thread.held_thread());
    code!(thread.frame_count(), frames => *count = frames as u64)
}

/// How many frames of the thread were popped since the runtime last took note. It takes note of these now.
#[unsafe(no_mangle)]
pub extern "C" fn cq_take_pops(thread: &mut CqThread, count: &mut u64) -> u32
    ensures { NotesBehind (thread_in thread.old) (thread_in thread.new) thread.old thread.new count.old count.new result }
{
    behind!(thread in thread.held_thread());
    *count = thread.take_pops() as u64;
    CQ_OK
}

ghost use Rattle.ti_capi.specs.Pops.{CountBehind, NotesBehind};
ghost use Rattle.ti_capi.specs.Handles.{thread_in};
