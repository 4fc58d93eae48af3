//! Steps of a thread, and its looks.

use crate::codes::{CQ_OK, code, told_code};
use crate::handle::CqThread;
use crate::handle_lends::behind;
use ti_thread::{AnyThread, HostThread};
use ti_types::{MethodNo, Step, TiError};

/// The number of the thread.
#[unsafe(no_mangle)]
pub extern "C" fn cq_thread_number(thread: &mut CqThread, number: &mut u32) -> u32
    ensures { NumberBehind (thread_in thread.old) thread.old thread.new number.old number.new result }
{
    behind!(thread in thread.held_thread());
    *number = thread.thread.thread().0;
    CQ_OK
}

/// Makes a step.
#[inline(always)]
fn step(thread: &mut CqThread, step: Step) -> u32
    ensures { Changes (Keeps (Steps step)) thread.old thread.new result }
{
    behind!(thread in thread.held_thread());
    told_code(thread.step(step))
}

/// Enters a method.
#[unsafe(no_mangle)]
pub extern "C" fn cq_enter(thread: &mut CqThread, method: u32) -> u32
    ensures { Changes (Keeps (Steps (step.Enter (method_no method)))) thread.old thread.new result }
{
    step(thread, Step::Enter(MethodNo(method)))
}

/// Enters a native method.
#[unsafe(no_mangle)]
pub extern "C" fn cq_enter_native(thread: &mut CqThread, method: u32) -> u32
    ensures { Changes (Keeps (Steps (step.EnterNative (method_no method)))) thread.old thread.new result }
{
    step(thread, Step::EnterNative(MethodNo(method)))
}

/// Moves the newest frame on.
#[unsafe(no_mangle)]
pub extern "C" fn cq_at(thread: &mut CqThread, location: u32) -> u32
    ensures { Changes (Keeps (Steps (step.At location))) thread.old thread.new result }
{
    step(thread, Step::At(location))
}

/// Leaves the newest frame.
#[unsafe(no_mangle)]
pub extern "C" fn cq_leave(thread: &mut CqThread) -> u32
    ensures { Changes (Keeps (Steps step.Leave)) thread.old thread.new result }
{
    step(thread, Step::Leave)
}

/// Whether nobody calls for the thread (JEP 312).
#[unsafe(no_mangle)]
pub extern "C" fn cq_poll_clear(thread: &mut CqThread) -> bool
    ensures { LooksBehind (thread_in thread.old) (thread_in thread.new) thread.old thread.new result }
{
    let Some(held) = thread.held_thread() else {
        return true;
    };
    let Some(thread) = &mut held.thread else {
        return true;
    };
    thread.poll_clear()
}

/// The address of the word at which compiled code of a thread looks. 204 if the thread does not run.
fn poll_word_of(thread: &HostThread) -> Result<*mut u64, TiError>
    ensures runs { OnOk result (is_running thread.now.thread ≡ true) }
    ensures refused { IfErr result (λ e. (e ≡ NotRunning) × (is_running thread.now.thread ≡ false)) }
{
    match &thread.thread {
        AnyThread::Running(running) => Ok(running.poll_word()),
        AnyThread::Fresh(_) | AnyThread::Safe(_) | AnyThread::Ended(_) => Err(TiError::NotRunning),
    }
}

/// The address of a word, and its bits that are set while somebody calls for the thread, for compiled code that looks there in place
/// of `cq_poll_clear`. No contract says what is found there.
#[unsafe(no_mangle)]
pub extern "C" fn cq_poll_word(thread: &mut CqThread, word: &mut *mut u64, mask: &mut u64) -> u32
    ensures { WordBehind (thread_in thread.old) mask.new ((word.new ≡ word.old) × (mask.new ≡ mask.old)) thread.old thread.new result }
{
    behind!(thread in thread.held_thread());
    code!(poll_word_of(thread), at => {
        *word = at;
        *mask = 1;
    })
}

ghost use Rattle.std.specs.Prelude.{◌≡◌, true, false, IfErr, OnOk};
ghost use Rattle.ti_types.specs.declared.error.TiError.TheVariants.{NotRunning};
ghost use Rattle.ti_types.specs.declared.step.Step.TheVariants as step;
ghost use Rattle.ti_thread.specs.AnyThread.{is_running};
ghost use Rattle.ti_thread.specs.Changes.{Steps};
ghost use Rattle.ti_thread.specs.Hosts.{Keeps};
ghost use Rattle.ti_capi.specs.Threads.{Changes, LooksBehind, NumberBehind, WordBehind, method_no};
ghost use Rattle.ti_capi.specs.Handles.{thread_in};
