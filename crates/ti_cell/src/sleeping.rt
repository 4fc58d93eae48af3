//! How users of a cell sleep until its word shows what they wait for, and who wakes them.

use crate::cell::ThreadCell;
use crate::pace::Pace;
use crate::role::Role;
use crate::seat::CellSeat;
use crate::sleepers::WakeCondition;
use crate::word::Word;
use std::sync::Wait;
use std::time::Duration;

impl ThreadCell {
    /// Waits a little, after a try that found the cell in use, as the call's pace has it. It may sleep until the cell is free,
    /// and may return while it is in use.
    pub fn await_free<R: Wait>(&self, rt: &R, pace: &Pace) {
        if pace.has_had_enough() {
            self.sleep(rt, WakeCondition::Free, None);
        }
    }

    /// Sleeps until somebody stores, if the thread's history has no more entries than the seat has seen. It may return
    /// sooner.
    pub fn sleep_without_news<K: Role, R: Wait>(&self, rt: &R, seat: &CellSeat<K>) {
        self.sleep(rt, WakeCondition::More(seat.count as u64), None);
    }

    /// The same as `sleep_without_news`, but for at most this time.
    pub fn sleep_without_news_for<K: Role, R: Wait>(
        &self,
        rt: &R,
        seat: &CellSeat<K>,
        time: Duration,
    ) {
        self.sleep(rt, WakeCondition::More(seat.count as u64), Some(time));
    }

    /// Sleeps until a store leaves the thread not barred, if it is barred. Other stores do not wake it. It may return
    /// sooner.
    pub fn sleep_while_barred<R: Wait>(&self, rt: &R) {
        self.sleep(rt, WakeCondition::Unbarred, None);
    }

    /// Sleeps on the word until a store calls for it (`Sleepers`), or the time is over. If the word shows what is waited
    /// for, it does not sleep.
    #[inline(never)]
    fn sleep<R: Wait>(&self, rt: &R, condition: WakeCondition, time: Option<Duration>) {
        self.sleepers.add(condition);
        let word = Word {
            bits: self.table.shared.peek(0),
        };
        if !condition.is_met(word) {
            match time {
                Some(time) => self.table.shared.park_timeout(rt, 0, word.low_half(), time),
                None => self.table.shared.park(rt, 0, word.low_half()),
            }
        }
        self.sleepers.remove(condition);
    }

    /// Wakes whoever sleeps on the cell and may go on, after stores that woke nobody (`Hold::store_quietly`). It is one load
    /// if nobody sleeps.
    #[inline(always)]
    pub fn wake_sleepers(&self) {
        if self.sleepers.are_there() {
            self.wake_called();
        }
    }

    /// Wakes all who sleep on the word, if it matters to one of them.
    #[inline(never)]
    fn wake_called(&self) {
        let word = Word {
            bits: self.table.shared.peek(0),
        };
        if self.sleepers.are_called(word) {
            self.table.shared.wake_all(0);
        }
    }
}
