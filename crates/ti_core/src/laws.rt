//! Laws of what `Core::run` gives.
//!
//! The contract of each function is a law, which is defined in `specs/`. The body does nothing. What the laws take of a run
//! is what its clause `outcomes` says.

/// Two runs under the same limits agree on an environment and a thread. Then they give equal outcomes at the thread's own
/// events, and at the admitted calls of others there. They also do so at the environment's calls there and about its
/// capabilities.
///
/// What agrees is the list of these events, with the marks of calls of the environment that were really refused for lack of
/// memory. Other threads, other environments' refused calls and calls elsewhere are in neither list.
pub fn runs_agree()
    ensures { RunsAgree }
{}

/// The outcome of a `GetWord` in a run is the refusal before the thread, if there is one. Otherwise it is 15 if the thread
/// has not started or has ended. Otherwise it is the word that the environment set last there.
pub fn words_are_told()
    ensures { WordsAreTold }
{}

/// From when a thread is standing for an environment until that environment lets it go, each event of the thread's own is
/// refused. Each admitted read of the environment shows the one mode and the frames, but for those that admitted pops took
/// since, the newest first. The suspended flag may change.
pub fn runs_tell_one_state()
    ensures { RunsTellOneState }
{}

/// An event of a run that is answered with a refusal when it comes changes nothing but what `ti_replay`'s law
/// `refusals_keep` names. That is the entry of an admitted call, and what an admitted call, stop or read costs. A call that
/// waited, and is refused at its thread's hand-over, was not answered when it came.
pub fn refusals_keep()
    ensures { RefusalsKeepInRuns }
{}

ghost use Rattle.ti_core.specs.OfRuns.{RunsAgree, WordsAreTold, RunsTellOneState, RefusalsKeepInRuns};
