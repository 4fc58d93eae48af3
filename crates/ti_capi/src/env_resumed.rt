//! A call of an environment that takes its suspensions of a thread back.

use crate::codes::{CQ_OK, CQ_WAITING};
use crate::handle::CqEnv;
use crate::handle_lends::behind;
use std::alloc::Global;
use ti_types::ThreadNo;

/// Takes back what the environment's suspensions did to a thread, and what those that were cancelled would still do to it.
/// `CQ_WAITING` while such a call has not been reached by the thread.
#[unsafe(no_mangle)]
pub extern "C" fn cq_ensure_resumed(alloc: Global, env: &mut CqEnv, thread: u32) -> u32
    ensures { Calls (ResumesBy (thread_no thread)) ⊤ env.old env.new result }
{
    behind!(agent in env.held_env());
    match agent.ensure_resumed_now(alloc, ThreadNo(thread)) {
        Ok(true) => CQ_OK,
        Ok(false) => CQ_WAITING,
        Err(error) => error.number(),
    }
}

ghost use Rattle.std.specs.Prelude.{⊤};
ghost use Rattle.ti_capi.specs.Asking.{thread_no};
ghost use Rattle.ti_capi.specs.Calls.{Calls};
ghost use Rattle.ti_capi.specs.Resuming.{ResumesBy};
