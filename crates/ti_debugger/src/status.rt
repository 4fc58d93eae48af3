//! A thread's state as the protocol has it.

use crate::watched::Life;

/// The bits of a thread that has ended, in JVM TI's GetThreadState.
const TERMINATED: u32 = 0x2;

/// The bit of one that has started, and has not ended.
const ALIVE: u32 = 0x1;

/// The bits of one that is suspended, sleeps, is blocked at a monitor, or waits.
const SUSPENDED: u32 = 0x10_0000;

const SLEEPING: u32 = 0x40;

const BLOCKED: u32 = 0x400;

const WAITING: u32 = 0x80;

/// The status of a thread with these bits: 0 ended, 1 running, 2 sleeping, 3 blocked at a monitor, 4 waiting. One that has not started
/// counts as running.
pub(crate) fn status_of(bits: u32) -> i32
    ensures { result ≡ status_of bits }
{
    if bits & TERMINATED != 0 {
        0
    } else if bits & SLEEPING != 0 {
        2
    } else if bits & BLOCKED != 0 {
        3
    } else if bits & WAITING != 0 {
        4
    } else {
        1
    }
}

/// How far the life of a thread with these bits is.
pub(crate) fn life_of(bits: u32) -> Life {
    if bits & TERMINATED != 0 {
        Life::Ended
    } else if bits & ALIVE != 0 {
        Life::Alive
    } else {
        Life::New
    }
}

/// Whether the thread has ended.
pub(crate) fn is_terminated(bits: u32) -> bool
    ensures { result ≡ is_terminated bits }
{
    bits & TERMINATED != 0
}

/// Whether the thread is suspended, by whomever.
pub(crate) fn is_suspended(bits: u32) -> bool
    ensures { result ≡ is_suspended bits }
{
    bits & SUSPENDED != 0
}

ghost use Rattle.std.specs.Prelude.{◌≡◌};
ghost use Rattle.ti_debugger.specs.Status.{status_of, is_terminated, is_suspended};
