//! Laws of two runs of an environment.
//!
//! The contract of each function is a law, which is defined in `specs/`. The body does nothing.

/// A call at a thread, in two runs in which the environment keeps the same of the thread, and the thread's histories have the same
/// entries that concern the environment. It is refused the same or answered the same, and what is kept is the same again.
pub fn calls_agree()
    ensures refused { RefusalsAgree }
    ensures calls { CallsAgree }
{}

/// The same of calls that are posted, of answers that are looked for, of calls that are cancelled, and of answers that are
/// discarded. What an environment does at another thread changes nothing of what it keeps of this one.
pub fn posts_agree()
    ensures refused { PostRefusalsAgree }
    ensures posts { PostsAgree }
    ensures looks { LooksAgree }
    ensures cancels { CancelsAgree }
    ensures discards { DiscardsAgree }
    ensures discarded { DiscardsTellAlike }
    ensures elsewhere { ElsewhereStays }
{}

/// Two runs in which an environment does the same, at whatever threads. If a thread's histories have the same entries that concern
/// the environment, it is told the same of the thread, however often others hold the thread's cell, look at it, or set their words.
pub fn runs_agree()
    ensures { RunsAgree }
{}

/// A call that is tried at each thread of a list is a post at each, one after another: [`runs_agree`] speaks of it, too.
pub fn lists_are_deeds()
    ensures { ListsAreDeeds }
{}

ghost use Rattle.ti_laws.specs.Agreement.{CallsAgree, CancelsAgree, DiscardsAgree, DiscardsTellAlike, ElsewhereStays, LooksAgree, PostRefusalsAgree, PostsAgree, RefusalsAgree};
ghost use Rattle.ti_laws.specs.Lists.{ListsAreDeeds};
ghost use Rattle.ti_laws.specs.Runs.{RunsAgree};
