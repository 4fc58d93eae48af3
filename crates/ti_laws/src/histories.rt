//! Laws of two histories of a thread.
//!
//! The contract of each function is a law, which is defined in `specs/Concerns`. The body does nothing.

/// What a thread tells an environment depends on those entries of its history alone that concern the environment: the thread's
/// own, the environment's own, and suspensions, resumptions, pops, stops and gos of others. Others' looks and words change
/// nothing of it.
pub fn others_looks_tell_nothing()
    ensures told { OnlyWhatConcernsTells }
    ensures replies { OnlyWhatConcernsReplies }
    ensures shows { OnlyWhatConcernsShows }
{}

/// Two histories in which the same concerns an environment tell it the same.
pub fn histories_tell_alike()
    ensures alike { HistoriesTellAlike }
    ensures places { CallsTellAlike }
{}

/// Two runs at one thread, in whose histories the same concerns an environment, give equal answers to its calls of one number,
/// however far each user had seen the history. These calls find alike threads, and are told the same at once. So are its stops,
/// reads and gos, at the histories that they find.
pub fn answers_agree()
    ensures answers { AnswersAgree }
    ensures tickets { TicketsAgree }
    ensures found { CallsFindAlike }
    ensures at_once { CallsToldAlike }
    ensures stops { StopsAnswerAlike }
{}

ghost use Rattle.ti_laws.specs.Concerns.{AnswersAgree, CallsFindAlike, CallsTellAlike, CallsToldAlike, HistoriesTellAlike, OnlyWhatConcernsReplies, OnlyWhatConcernsShows, OnlyWhatConcernsTells, StopsAnswerAlike, TicketsAgree};
