//! What holds of whole runs of calls of the events that wait.

/// Whatever calls come, in whatever order: events are told in the order in which they came, each once, without those that were
/// lost. None is told between a stop of all threads by an event and their resumption, nor while the debugger holds events.
pub fn events_are_told_well()
    ensures { AllToldWell }
{}

ghost use Rattle.ti_jdwp.specs.QueueRuns.{AllToldWell};
