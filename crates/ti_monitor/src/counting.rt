//! How the stacks that are owed are counted.

use crate::label::Label;
use crate::stack::Stack;
use ti_pprof::{Counts, Frame};

/// Counts a stack that is owed so many times: once as it is, and else with the frame `(late)` on it.
pub(crate) fn put_stack(counts: &mut Counts, stack: &Stack, label: Label, owed: u64)
    requires { counts.old.total + owed < 2 ^ 63 }
    ensures put { PutsStack counts.old counts.new (drop 1 stack.now.frames.items) stack.now.frames.items label owed }
    ensures total { counts.new.total ≡ counts.old.total + owed }
{
    if owed == 0 {
        return;
    }
    put(counts, stack.frames(), label, 1);
    if owed > 1 {
        put(counts, stack.late(), label, owed - 1);
    }
}

/// Counts a stack of this frame alone, as often as it is owed.
pub(crate) fn put_frame(counts: &mut Counts, frame: Frame, label: Label, owed: u64)
    requires { counts.old.total + owed < 2 ^ 63 }
    ensures put { PutsFrame counts.old counts.new frame label owed }
    ensures total { counts.new.total ≡ counts.old.total + owed }
{
    if owed > 0 {
        put(counts, &[frame], label, owed);
    }
}

/// Counts a stack so many times.
fn put(counts: &mut Counts, frames: &[Frame], label: Label, times: u64)
    requires { counts.old.total + times < 2 ^ 63 }
    ensures put { Puts counts.old counts.new frames.now label times }
    ensures total { counts.new.total ≡ counts.old.total + times }
{
    counts.put(frames, label.thread, label.state, times);
}

ghost use Rattle.std.specs.Prelude.{◌≡◌, ◌<◌, ◌+◌, ◌^◌, drop};
ghost use Rattle.ti_monitor.specs.Counting.{Puts, PutsFrame, PutsStack};
