//! When a reading ticks.

/// The ticks of a reading, on a grid of times. Each is taken, or missed if it came too late.
#[derive(Clone, Copy)]
pub(crate) struct Schedule {
    /// When the next one is due, in nanoseconds.
    pub(crate) next: u64,
    /// The nanoseconds from one to the next.
    pub(crate) period: u64,
    /// How many are still to come.
    pub(crate) left: u32,
    /// How many were taken.
    pub(crate) ticks: u32,
    /// How many came too late.
    pub(crate) missed: u32,
}

impl Schedule {
    /// So many ticks, the first one now. There is at least a nanosecond from one to the next.
    pub(crate) fn new(now: u64, period: u64, count: u32) -> Schedule
        ensures { result ≡ schedule_of now (max period 1) count }
    {
        Schedule {
            next: now,
            period: period.max(1),
            left: count,
            ticks: 0,
            missed: 0,
        }
    }

    /// Whether a tick is due. Then it is taken, those that were due after it and before now are missed, and the next one is the
    /// next on the grid.
    pub(crate) fn take(&mut self, now: u64) -> bool
        requires period { 0 < self.old.period }
        requires bounded { self.old.ticks + (self.old.missed + self.old.left) < 2 ^ 32 }
        ensures due { result ≡ is_due self.old now }
        ensures taken { OnTrue result (self.new ≡ taken_at self.old now) }
        ensures kept { OnFalse result (self.new ≡ self.old) }
        ensures period { self.new.period ≡ self.old.period }
        ensures all { self.new.ticks + (self.new.missed + self.new.left) ≡ self.old.ticks + (self.old.missed + self.old.left) }
    {
        if self.left == 0 || now < self.next {
            return false;
        }
        let behind = ((now - self.next) / self.period).min(u64::from(self.left - 1)) as u32;
        let more = (u64::from(behind) + 1).saturating_mul(self.period);
        self.ticks += 1;
        self.missed += behind;
        self.left -= behind + 1;
        self.next = self.next.saturating_add(more);
        true
    }

    /// Misses all ticks that are left.
    pub(crate) fn close(&mut self)
        requires bounded { self.old.ticks + (self.old.missed + self.old.left) < 2 ^ 32 }
        ensures { self.new ≡ closed self.old }
    {
        self.missed += self.left;
        self.left = 0;
    }
}

ghost use Rattle.std.specs.Prelude.{◌≡◌, ◌<◌, ◌+◌, ◌^◌, max};
ghost use Rattle.std.specs.Bool.{OnTrue, OnFalse};
ghost use Rattle.ti_monitor.specs.Schedules.{closed, is_due, schedule_of, taken_at};
