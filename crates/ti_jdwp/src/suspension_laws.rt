//! What holds of whole runs of calls of the suspensions.

/// Whatever calls come, in whatever order: the count of each thread is its suspensions less its resumptions, never below 0. The
/// service resumes each thread as often as it suspended it for the debugger, but for a suspension that is in force. After all
/// threads were let go, none is.
pub fn suspensions_are_balanced()
    ensures { AreBalanced }
{}

ghost use Rattle.ti_jdwp.specs.HoldRuns.{AreBalanced};
