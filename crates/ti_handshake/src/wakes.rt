//! How others are woken after calls that never wait, and how whoever was refused waits.
//!
//! A call that never waits makes no call of the system, so it wakes nobody. A program in which others sleep at the same thread
//! calls one of these after it. No contract says who wakes up, or when.

use crate::desk::Desk;
use crate::fresh::Fresh;
use crate::polled::Polled;
use crate::running::Running;
use crate::safe::{AtSafe, Ended};
use std::sync::Wait;
use ti_cell::Pace;

impl Fresh {
    /// Wakes whoever sleeps at this thread and may go on. It is one load if nobody sleeps.
    pub fn wake_sleepers(&self) {
        self.cell.wake_sleepers();
    }

    /// Sleeps until the thread is not barred: it is not suspended, and no stop is in force. It may return sooner, and does at once if
    /// the thread is not barred. It takes no hold.
    pub fn sleep_while_barred<R: Wait>(&self, rt: &R) {
        self.cell.sleep_while_barred(rt);
    }
}

impl Running {
    /// Wakes whoever sleeps at this thread and may go on. It is one load if nobody sleeps.
    pub fn wake_sleepers(&self) {
        self.cell.wake_sleepers();
    }
}

impl Polled {
    /// Wakes whoever sleeps at this thread and may go on. It is one load if nobody sleeps.
    pub(crate) fn wake_sleepers(&self) {
        match self {
            Polled::Go(running) => running.wake_sleepers(),
            Polled::Held(safe) => safe.wake_sleepers(),
        }
    }
}

impl AtSafe {
    /// Wakes whoever sleeps at this thread and may go on. It is one load if nobody sleeps.
    pub fn wake_sleepers(&self) {
        self.cell.wake_sleepers();
    }
}

impl Ended {
    /// Wakes whoever sleeps at this thread and may go on. It is one load if nobody sleeps.
    pub fn wake_sleepers(&self) {
        self.cell.wake_sleepers();
    }
}

impl Desk {
    /// Wakes whoever sleeps at this thread and may go on: the thread itself, or another environment. It is one load if nobody
    /// sleeps.
    pub fn wake_sleepers(&self) {
        self.cell.wake_sleepers();
    }

    /// Waits a little, after a try that found the cell in use, as the call's pace has it. It may sleep until the cell is free,
    /// and may return while it is in use.
    pub fn await_free<R: Wait>(&self, rt: &R, pace: &Pace) {
        self.cell.await_free(rt, pace);
    }
}
