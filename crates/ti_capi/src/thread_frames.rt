//! Frames that the runtime gives, and the end of a thread's handle.

use crate::codes::{CQ_MISUSED, CQ_OK, told_code};
use crate::handle::CqThread;
use crate::held::HeldThread;
use crate::values::{CqFrame, frame_in};
use crate::writes::smaller;
use std::alloc::Global;
use ti_thread::{AnyThread, HostThread};
use ti_types::{Frame, TiError};

/// Reads all frames into a list, which is cleared first. It gives whether each is one.
fn read_frames(frames: &[CqFrame], into: &mut Vec<Frame>) -> Result<bool, TiError>
    ensures all { IfOk result (λ all. all ≡ are_frames frames.now) }
    ensures read { IfOk result (λ all. all ≡ true → into.new.items ≡ map frame_of frames.now) }
    ensures memory { IfErr result (λ e. e ≡ OutOfMemory) }
{
    into.clear();
    into.reserve(frames.len())?;
    for i in 0..frames.len() {
        match frame_in(frames[i]) {
            Some(frame) => into.push_reserved(frame),
            None => return Ok(false),
        }
    }
    Ok(true)
}

/// Whether the thread runs.
fn runs(host: &HostThread) -> bool
    ensures { result ≡ is_running host.now.thread }
{
    host.thread.is_running()
}

/// Replaces all frames of the thread of a box.
fn set_frames(held: &mut HeldThread, frames: &[CqFrame]) -> u32
    ensures { SetsIn frames.now held.old held.new result }
{
    let Some(host) = &mut held.thread else {
        return CQ_MISUSED;
    };
    if !runs(host) {
        return TiError::NotRunning.number();
    }
    match read_frames(frames, &mut held.frames) {
        Ok(true) => told_code(host.set_frames(&held.frames)),
        Ok(false) => TiError::IllegalArgument.number(),
        Err(error) => error.number(),
    }
}

/// Replaces all frames of the thread, which are listed newest first.
#[unsafe(no_mangle)]
pub extern "C" fn cq_set_frames(thread: &mut CqThread, frames: &[CqFrame]) -> u32
    ensures { Sets frames.now thread.old thread.new result }
{
    match thread.held_thread() {
        Some(held) => set_frames(held, frames),
        None => CQ_MISUSED,
    }
}

/// Replaces all frames of the thread of a box by the newest of these, as many as its service lets it have.
fn set_newest(held: &mut HeldThread, frames: &[CqFrame], kept: &mut u64) -> u32
    ensures { SetsNewestIn frames.now held.old held.new kept.old kept.new result }
{
    let most = smaller(frames.len(), held.service.limits().depth as usize);
    let code = set_frames(held, &frames[..most]);
    if code == CQ_OK {
        *kept = most as u64;
    }
    code
}

/// Replaces all frames of the thread by the newest of these, which are listed newest first.
#[unsafe(no_mangle)]
pub extern "C" fn cq_set_newest_frames(
    thread: &mut CqThread,
    frames: &[CqFrame],
    kept: &mut u64,
) -> u32
    ensures { SetsNewest frames.now thread.old thread.new kept.old kept.new result }
{
    match thread.held_thread() {
        Some(held) => set_newest(held, frames, kept),
        None => CQ_MISUSED,
    }
}

/// Gives the thread of a box back, if it has ended or never started. It stays if it is not given back.
fn give_back(held: &mut HeldThread) -> u32
    ensures { GivesBack held.old held.new result }
{
    let Some(HostThread { thread, pops }) = held.thread.take() else {
        return CQ_MISUSED;
    };
    match thread {
        AnyThread::Ended(ended) => match held.service.detach_thread_now(ended) {
            Ok(()) => CQ_OK,
            Err((error, ended)) => {
                held.thread = Some(HostThread::of(AnyThread::Ended(ended), pops));
                error.number()
            }
        },
        AnyThread::Fresh(fresh) => match held.service.withdraw_thread_now(fresh) {
            Ok(()) => CQ_OK,
            Err((error, fresh)) => {
                held.thread = Some(HostThread::of(AnyThread::Fresh(fresh), pops));
                error.number()
            }
        },
        AnyThread::Running(running) => {
            held.thread = Some(HostThread::of(AnyThread::Running(running), pops));
            CQ_MISUSED
        }
        AnyThread::Safe(safe) => {
            held.thread = Some(HostThread::of(AnyThread::Safe(safe), pops));
            CQ_MISUSED
        }
    }
}

/// Gives a thread back that has ended or never started.
#[unsafe(no_mangle)]
pub extern "C" fn cq_detach_thread(alloc: Global, thread: &mut CqThread) -> u32
    ensures { Detaches (thread_in thread.old) thread.old thread.new result }
{
    let Some(held) = thread.held_thread() else {
        return CQ_MISUSED;
    };
    let code = give_back(held);
    if code == CQ_OK {
        thread.clear(alloc);
    }
    code
}

ghost use Rattle.std.specs.Prelude.{◌≡◌, true, map, IfOk, IfErr};
ghost use Rattle.ti_types.specs.declared.error.TiError.TheVariants.{OutOfMemory};
ghost use Rattle.ti_thread.specs.AnyThread.{is_running};
ghost use Rattle.ti_capi.specs.Frames.{Detaches, GivesBack, Sets, SetsIn, SetsNewest, SetsNewestIn};
ghost use Rattle.ti_capi.specs.Values.{are_frames, frame_of};
ghost use Rattle.ti_capi.specs.Handles.{thread_in};
