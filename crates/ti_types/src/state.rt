//! The modes of a thread, and its state in JVM TI's bits.

/// Why a thread is blocked (JVM TI 11, the waiting and sleeping bits of GetThreadState).
#[derive(Clone, Copy, Debug, PartialEq, Eq)]
pub enum Kind {
    MonitorEnter,
    ObjectWait,
    TimedWait,
    Sleep,
    Park,
    TimedPark,
}

/// How a thread is safe, so that its frames do not change (JEP 312; HotSpot Runtime Overview).
#[derive(Clone, Copy, Debug, PartialEq, Eq)]
pub enum Safe {
    /// In native code.
    Native,
    /// Blocked.
    Blocked(Kind),
    /// At a poll, where it stays.
    AtPoll,
}

/// The mode of a thread (HotSpot Runtime Overview, its main states).
#[derive(Clone, Copy, Debug, PartialEq, Eq)]
pub enum Mode {
    New,
    Running,
    AtSafe(Safe),
    Ended,
}

/// The state of a thread as Java names it (java.lang.Thread.State).
#[derive(Clone, Copy, Debug, PartialEq, Eq)]
pub enum JavaState {
    New,
    Terminated,
    Runnable,
    Blocked,
    Waiting,
    TimedWaiting,
}

/// The state bits of a thread in this mode (JVM TI 11, GetThreadState). A thread that is alive has ALIVE with RUNNABLE,
/// IN_NATIVE or the bits of the kind of blocking. One that has ended has TERMINATED, and a new one has 0. SUSPENDED,
/// 0x100000, is added if the thread is suspended.
pub fn state_bits(mode: Mode, suspended: bool) -> u32
    ensures { result ≡ bits_of mode suspended }
{
    let bits = match mode {
        Mode::New => 0,
        Mode::Ended => 0x2,
        Mode::Running | Mode::AtSafe(Safe::AtPoll) => 0x5,
        Mode::AtSafe(Safe::Native) => 0x400005,
        Mode::AtSafe(Safe::Blocked(Kind::MonitorEnter)) => 0x401,
        Mode::AtSafe(Safe::Blocked(Kind::ObjectWait)) => 0x191,
        Mode::AtSafe(Safe::Blocked(Kind::TimedWait)) => 0x1A1,
        Mode::AtSafe(Safe::Blocked(Kind::Sleep)) => 0xE1,
        Mode::AtSafe(Safe::Blocked(Kind::Park)) => 0x291,
        Mode::AtSafe(Safe::Blocked(Kind::TimedPark)) => 0x2A1,
    };
    if suspended { bits + 0x100000 } else { bits }
}

/// The Java state that the bits say, under the mask 0x4B7 (JVM TI 11, JVMTI_JAVA_LANG_THREAD_STATE_MASK). `None` if they say
/// none.
pub fn java_state(bits: u32) -> Option<JavaState>
    ensures { result ≡ java_state_of bits }
{
    match bits & 0x4B7 {
        0 => Some(JavaState::New),
        0x2 => Some(JavaState::Terminated),
        0x5 => Some(JavaState::Runnable),
        0x401 => Some(JavaState::Blocked),
        0x91 => Some(JavaState::Waiting),
        0xA1 => Some(JavaState::TimedWaiting),
        _ => None,
    }
}

ghost use Rattle.std.specs.Prelude.{◌≡◌};
ghost use Rattle.ti_types.specs.State.{bits_of, java_state_of};
