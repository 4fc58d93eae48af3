//! What holds of whole runs of calls.

/// Whatever calls come to the account of a reading, in whatever order: the samples that were counted, the stacks that are owed and the
/// ticks that were taken back, since their threads are not alive, are as many as the ticks at threads. Once nothing is owed, the samples
/// are as many as the ticks at threads that were not taken back.
pub fn samples_are_ticks_at_threads()
    ensures { SamplesAreTicks }
{}

ghost use Rattle.ti_monitor.specs.Runs.{SamplesAreTicks};
