//! An environment and the list of threads.

use crate::codes::code;
use crate::handle::CqEnv;
use crate::handle_lends::behind;
use crate::values::CqThreadInfo;
use crate::writes::{write_bytes, write_each};
use std::alloc::Global;
use ti_service::ServiceTries;
use ti_types::ThreadNo;

/// Meets the threads that were attached since the environment last did. If it has no room for one, it lets go of threads that were
/// given back.
#[unsafe(no_mangle)]
pub extern "C" fn cq_meet(alloc: Global, env: &mut CqEnv) -> u32
    ensures { Calls MeetsBy ⊤ env.old env.new result }
{
    behind!(agent in env.held_env());
    code!(agent.meet_now(alloc))
}

/// Whether threads or environments have come or gone since the environment last held the list, by one load, or its last meeting
/// failed. No of a handle without an environment.
#[unsafe(no_mangle)]
pub extern "C" fn cq_has_news(env: &mut CqEnv) -> bool
    ensures { HasNews env.old env.new result }
{
    let Some(held) = env.held_env() else {
        return false;
    };
    let Some(agent) = &mut held.agent else {
        return false;
    };
    agent.has_news()
}

/// Lets go of a thread that was given back.
#[unsafe(no_mangle)]
pub extern "C" fn cq_let_go(env: &mut CqEnv, thread: u32, gone: &mut bool) -> u32
    ensures { Calls (LetsGoBy (thread_no thread) gone.old gone.new) (gone.new ≡ gone.old) env.old env.new result }
{
    behind!(agent in env.held_env());
    code!(agent.let_go_now(ThreadNo(thread)), is_gone => *gone = is_gone)
}

/// Lets go of all threads that were given back.
#[unsafe(no_mangle)]
pub extern "C" fn cq_let_go_of_all(env: &mut CqEnv) -> u32
    ensures { Calls LetsGoOfAllBy ⊤ env.old env.new result }
{
    behind!(agent in env.held_env());
    code!(agent.let_go_of_all_now())
}

/// GetAllThreads (JVM TI 11).
#[unsafe(no_mangle)]
pub extern "C" fn cq_get_all_threads(
    alloc: Global,
    env: &mut CqEnv,
    threads: &mut [u32],
    count: &mut u64,
) -> u32
    ensures { Calls (ListsBy threads.old threads.new count.old count.new) ((threads.new ≡ threads.old) × (count.new ≡ count.old)) env.old env.new result }
{
    behind!(agent in env.held_env());
    code!(agent.get_all_threads_now(alloc), all => {
        *count = all.len() as u64;
        write_each(&all, threads);
    })
}

/// GetThreadInfo (JVM TI 11).
#[unsafe(no_mangle)]
pub extern "C" fn cq_get_thread_info(
    alloc: Global,
    env: &mut CqEnv,
    thread: u32,
    info: &mut CqThreadInfo,
    name: &mut [u8],
) -> u32
    ensures { Calls (TellsInfoBy (thread_no thread) info.old info.new name.old name.new) ((info.new ≡ info.old) × (name.new ≡ name.old)) env.old env.new result }
{
    behind!(agent in env.held_env());
    code!(agent.get_thread_info_now(alloc, ThreadNo(thread)), told => {
        let bytes = told.name.as_bytes();
        info.name_length = bytes.len() as u64;
        info.priority = told.priority;
        write_bytes(bytes, name);
    })
}

ghost use Rattle.std.specs.Prelude.{◌≡◌, ⊤};
ghost use Rattle.ti_capi.specs.Asking.{thread_no};
ghost use Rattle.ti_capi.specs.Calls.{Calls, HasNews, LetsGoBy, LetsGoOfAllBy, ListsBy, MeetsBy, TellsInfoBy};
