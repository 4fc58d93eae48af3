//! Frames that are to be popped.

/// Frames of a thread that are popped for a request, one after the other: the one at this depth and all newer ones.
#[derive(Clone, Copy)]
pub(crate) struct Popping {
    pub(crate) thread: u32,
    pub(crate) depth: u32,
    /// How many are yet to be popped.
    pub(crate) left: u32,
    ghost within: { left ≤ depth + 1 },
    // The others are gone.
    ghost gone: { ∥ AreGone (record { 0 = thread }) (depth + 1 - left) ∥₁ },
}

ghost use Rattle.std.specs.Prelude.{◌≤◌, ◌+◌, ◌-◌};
ghost use Rattle.ti_debugger.specs.Gone.{AreGone};
