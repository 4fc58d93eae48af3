//! Calls of a thread that lead it to another state.

use crate::codes::{CQ_MISUSED, told_code};
use crate::handle::CqThread;
use crate::held::HeldThread;
use crate::values::reason_in;
use ti_thread::Turn;
use ti_types::{Kind, TiError};

/// The thread of a box does it.
#[inline(always)]
fn take_turn_in(held: &mut HeldThread, turn: Turn) -> u32
    ensures { ChangesIn (TakesTurn turn) held.old held.new result }
{
    match held.thread.take() {
        Some(thread) => {
            let (thread, told) = thread.take_turn(turn);
            held.thread = Some(thread);
            told_code(told)
        }
        None => CQ_MISUSED,
    }
}

/// The thread of a handle does it.
#[inline(always)]
fn take_turn_of(thread: &mut CqThread, turn: Turn) -> u32
    ensures { Changes (TakesTurn turn) thread.old thread.new result }
{
    match thread.held_thread() {
        Some(held) => take_turn_in(held, turn),
        None => CQ_MISUSED,
    }
}

/// Polls (JEP 312).
#[unsafe(no_mangle)]
pub extern "C" fn cq_poll(thread: &mut CqThread) -> u32
    ensures { Changes (TakesTurn turn.Poll) thread.old thread.new result }
{
    take_turn_of(thread, Turn::Poll)
}

/// Goes into native code.
#[unsafe(no_mangle)]
pub extern "C" fn cq_native(thread: &mut CqThread) -> u32
    ensures { Changes (TakesTurn turn.Native) thread.old thread.new result }
{
    take_turn_of(thread, Turn::Native)
}

/// Blocks for a reason.
#[unsafe(no_mangle)]
pub extern "C" fn cq_block(thread: &mut CqThread, reason: u32) -> u32
    ensures { Blocks (reason_read reason) thread.old thread.new result }
{
    let Some(kind) = reason_in(reason) else {
        return unknown_reason(thread);
    };
    take_turn_of(thread, Turn::Block(kind))
}

/// The code of a block for no reason.
fn unknown_reason(thread: &mut CqThread) -> u32
    ensures { UnknownBehind (thread_in thread.old) thread.old thread.new result }
{
    let Some(held) = thread.held_thread() else {
        return CQ_MISUSED;
    };
    let Some(_) = &mut held.thread else {
        return CQ_MISUSED;
    };
    TiError::IllegalArgument.number()
}

/// Returns, and runs.
#[unsafe(no_mangle)]
pub extern "C" fn cq_back(thread: &mut CqThread) -> u32
    ensures { Changes (TakesTurn turn.Back) thread.old thread.new result }
{
    take_turn_of(thread, Turn::Back)
}

ghost use Rattle.ti_thread.specs.Hosts.{TakesTurn};
ghost use Rattle.ti_thread.specs.declared.turn.Turn.TheVariants as turn;
ghost use Rattle.ti_capi.specs.Threads.{Changes, ChangesIn};
ghost use Rattle.ti_capi.specs.Turns.{Blocks, UnknownBehind};
ghost use Rattle.ti_capi.specs.Values.{reason_read};
ghost use Rattle.ti_capi.specs.Handles.{thread_in};
