//! Laws of stops, over the list of what happened.

/// What an environment asked for of stops, and what waits for it, is what its own items leave (`share`): its calls, the arrivals
/// of threads that stop for it, threads that are given back, and its end. So two services in whose lists these are the same
/// answer each of its calls about stops the same, whatever other environments do (`replies`).
pub fn stops_are_own()
    ensures share { StopsFollowItems }
    ensures replies { StopRepliesAgree }
{}

/// What an environment asked of stops was asked from its own seat: whoever holds the list by that seat finds the environment's calls
/// that the seat has seen, and no other.
pub fn own_calls_are_seen()
    ensures { OwnCallsAreSeen }
{}

ghost use Rattle.ti_laws.specs.OwnCalls.{OwnCallsAreSeen};
ghost use Rattle.ti_laws.specs.StopShares.{StopRepliesAgree, StopsFollowItems};
