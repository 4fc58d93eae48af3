//! A stop of a thread.

use ti_types::{Frame, ThreadNo};

/// A stop of a thread for one environment, and why it stops. At least one of the three is true if it waits.
#[derive(Clone, Copy, Debug, PartialEq, Eq)]
pub struct Stop {
    pub thread: ThreadNo,
    /// Where the thread is.
    pub at: Frame,
    /// The environment has a breakpoint here, and hears of breakpoints at this thread.
    pub breakpoint: bool,
    /// The environment hears of single steps at this thread.
    pub single_step: bool,
    /// The thread is about to leave a frame of which the environment asked to be told, and the environment hears of pops of
    /// frames at this thread.
    pub frame_pop: bool,
}
