//! A thread's state after a history.
use crate::lists::{FrameList, WordList};
use crate::numbers::EnvNo;
use crate::state::Mode;

/// What a replay shows of a thread: all that the answers to its calls depend on.
#[derive(Drop, Debug)]
pub struct ThreadView {
    /// Whether it is new, runs, is safe or has ended.
    pub mode: Mode,
    /// Its frames, the newest first.
    pub frames: FrameList,
    /// Whether it is suspended (JVM TI 11, SuspendThread).
    pub suspended: bool,
    /// The environment whose stop is in force.
    pub stopper: Option<EnvNo>,
    /// One word for each environment (JVM TI 11, GetThreadLocalStorage).
    pub words: WordList,
}
