//! What holds of all stops.

/// No call of another environment changes what an environment asked for, and neither does a thread that reaches a place, or
/// whoever asks whether a thread has to wait.
pub fn others_change_nothing()
    ensures { OthersChangeNothing }
{}

/// What waits for an environment goes on waiting for it, in the same order, whatever others call: other environments let no
/// thread go on that waits for this one, and neither does a runtime.
pub fn nobody_else_lets_go()
    ensures { NobodyElseLetsGo }
{}

/// What an environment asked for, and what waits for it, depend on its own calls, on the places that threads reach, and on the
/// frames that they leave. Others' calls change none of its replies.
pub fn shares_are_own()
    ensures shares { SharesAreOwn }
    ensures answers { SharesAnswer }
    ensures agree { StopsAgree }
{}

/// A thread that waits for an environment waits until that environment lets it go or is disposed of, or the thread is given back.
pub fn threads_wait_until_ended()
    ensures { WaitsUntilEnded }
{}

/// A thread stops in a method only if it may stop there, as a runtime asks (`StopCall::MayStopIn`).
pub fn stops_where_it_may()
    ensures { StopsWhereItMay }
{}

ghost use Rattle.ti_stops.specs.Own.{NobodyElseLetsGo, OthersChangeNothing};
ghost use Rattle.ti_stops.specs.Shares.{SharesAnswer, SharesAreOwn, StopsAgree, StopsWhereItMay, WaitsUntilEnded};
