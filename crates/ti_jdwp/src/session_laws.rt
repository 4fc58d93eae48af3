//! What holds of whole runs of a session.

/// Whatever calls come, in whatever order: each request that leaves the input gets one reply, with its id, in the order of the
/// requests. What came is these requests, the handshake, the replies that were passed over, and what is still to be worked on. What
/// was sent is the handshake, these replies, and events.
pub fn requests_are_answered()
    ensures { RequestsAreAnswered }
{}

/// Whatever calls come, in whatever order: for each thread, the driver is told to resume it as often as it said that it suspended
/// it, but for a suspension that the session still owes. After the close none is owed: nothing that the session suspended is still
/// suspended by it.
pub fn nothing_stays_suspended()
    ensures { NothingStaysSuspended }
{}

/// Whatever calls come, in whatever order: between an event that stopped all threads and a resumption of all no other event goes
/// out, but for the end of the runtime. All are resumed where a request to resume all is answered, or the debugger suspends no thread any more.
pub fn no_event_while_stopped()
    ensures { NoEventWhileStopped }
{}

/// Whatever calls come, in whatever order: each stop whose verdict is that it is told lets its thread go once, in the order of the
/// stops, but for those that still wait.
pub fn stops_are_let_go()
    ensures { StopsAreLetGo }
{}

/// Whatever calls come after the end of the runtime was told, in whatever order: nothing is sent behind it.
pub fn nothing_follows_the_end()
    ensures { NothingFollowsTheEnd }
{}

ghost use Rattle.ti_jdwp.specs.SessionEnds.{NothingFollowsTheEnd};
ghost use Rattle.ti_jdwp.specs.SessionRuns.{RequestsAreAnswered};
ghost use Rattle.ti_jdwp.specs.SessionHolds.{NothingStaysSuspended};
ghost use Rattle.ti_jdwp.specs.SessionStops.{NoEventWhileStopped};
ghost use Rattle.ti_jdwp.specs.SessionLets.{StopsAreLetGo};
