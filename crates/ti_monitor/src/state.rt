//! States of threads, by number.

/// How many states are told apart.
pub const STATES: usize = 9;

/// The names of the states, by their places. Those of suspended threads follow, in the same order.
pub(crate) const STATE_NAMES: [&str; 18] = [
    "new",
    "runnable",
    "native",
    "blocked",
    "waiting",
    "timed_waiting",
    "sleeping",
    "parked",
    "terminated",
    "new, suspended",
    "runnable, suspended",
    "native, suspended",
    "blocked, suspended",
    "waiting, suspended",
    "timed_waiting, suspended",
    "sleeping, suspended",
    "parked, suspended",
    "terminated, suspended",
];

/// The place of a state among the names that profiles, texts and metrics have: 0 new, 1 runnable, 2 native, 3 blocked,
/// 4 waiting, 5 timed_waiting, 6 sleeping, 7 parked, 8 terminated. It takes the bits of JVM TI's GetThreadState; that the thread
/// is suspended does not matter.
pub fn state_place(bits: u32) -> usize
    ensures place { result ≡ place_of bits }
    ensures within { result < 9 }
{
    if bits & 0x2 != 0 {
        8
    } else if bits & 0x400000 != 0 {
        2
    } else if bits & 0x400 != 0 {
        3
    } else if bits & 0x200 != 0 {
        7
    } else if bits & 0x40 != 0 {
        6
    } else if bits & 0x20 != 0 {
        5
    } else if bits & 0x10 != 0 {
        4
    } else if bits & 0x4 != 0 {
        1
    } else {
        0
    }
}

/// Whether the bits of JVM TI's GetThreadState say that the thread is suspended.
pub(crate) fn is_suspended(bits: u32) -> bool
    ensures { result ≡ is_suspended bits }
{
    bits & 0x100000 != 0
}

ghost use Rattle.std.specs.Prelude.{◌≡◌, ◌<◌};
ghost use Rattle.ti_monitor.specs.States.{place_of, is_suspended};
