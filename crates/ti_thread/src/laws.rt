//! Laws that hold of all threads. Each function is a law, and does nothing.

/// A thread never gets back more frames than it handed over. So how many a `HostThread` counts as popped is exactly how many
/// are missing. It is enough that each running thread on the way is one (`Running::facts`).
pub fn turns_are_counted()
    ensures new { NewIsCounted }
    ensures turns { TurnsAreCounted }
{}

ghost use Rattle.ti_thread.specs.Laws.{NewIsCounted, TurnsAreCounted};
