//! Laws of histories and of lists of events.
//!
//! The contract of each function is a law, which is defined in `specs/`. The body does nothing.

/// What has taken place in a history stays, and so does each reply that is given.
#[tactic(auto, using(crate::proofs::ReplyLaws::settled_stays))]
pub fn replies_stay()
    ensures settled { SettledStays }
    ensures replies { ReplyStays }
{}

/// What an environment learns of a thread depends only on the events that are kept for the two.
pub fn runs_agree()
    ensures { TellsTheKept }
{}

/// A thread's own step directly before a call, a stop or a go may come directly after it instead.
pub fn steps_may_be_late()
    ensures { StepsMayBeLate }
{}

/// The history that any list of events leaves of a thread is legal.
#[tactic(auto, using(crate::proofs::EventLaws::history_is_legal))]
pub fn histories_are_legal()
    ensures { HistoryIsLegal }
{}

/// A legal history is no longer than its budgets allow.
#[tactic(auto, using(crate::proofs::BoundLaws::length_bounded))]
pub fn histories_are_bounded()
    ensures { HistoryIsBounded }
{}

/// In a legal history the word in the view is the last one that the environment set while the thread was alive.
#[tactic(auto, using(crate::proofs::StorageLaws::view_word))]
pub fn words_are_last_set()
    ensures { WordIsLast }
{}

/// A thread that is standing for an environment makes no entry of its own until that environment lets it go.
#[tactic(auto, using(crate::proofs::StandingLaws::stands_still))]
pub fn stopped_threads_stand_still()
    ensures { StandsStill }
{}

/// A suspended thread that does not run makes no entry of its own until somebody asks for its resumption. It stays
/// suspended, and stays in its mode. It loses only the frames that are popped.
pub fn suspended_threads_stand_still()
    ensures { SuspensionsStay }
{}

/// Two equal calls for a trace of a thread that rests suspended have equal answers, if nobody asked for its resumption. As
/// many frames must be popped before the one as before the other.
pub fn traces_agree()
    ensures { TracesAgree }
{}

/// A suspension that is answered `Done` takes effect: at its answer the thread is suspended and does not run. It rests there
/// until somebody asks for its resumption, and two traces of it are equal.
pub fn suspensions_take_hold()
    ensures hold { SuspensionsTakeHold }
    ensures rest { SuspendedRest }
    ensures traces { SuspendedTracesAgree }
{}

/// A call, a stop or a go at a running thread may come before all steps that the thread has logged.
#[tactic(auto, using(crate::proofs::LateTicketLaws::steps_late))]
pub fn steps_come_late()
    ensures { StepsComeLate }
{}

/// The steps that a thread has logged may still come after a call, a stop or a go.
#[tactic(auto, using(crate::proofs::StepsStay::steps_stay))]
pub fn logged_steps_stay_legal()
    ensures { StepsStayLegal }
{}

/// In a legal history the reply at the place of a call is the reply to its ticket.
#[tactic(auto, using(crate::proofs::PlaceTickets::reply_by_ticket))]
pub fn tickets_are_places()
    ensures { TicketIsPlace }
{}

/// A call changes what is known of a thread only if the thread answers that it is done.
#[tactic(auto, using(crate::proofs::DoneLaws::change_where_done))]
pub fn calls_change_where_done()
    ensures { CallsChangeWhereDone }
{}

/// An event that is refused when it comes changes no thread's mode, frames, suspended flag, stop, words or waiting calls. It
/// changes no environment's capabilities or word. A history gets no more than the entry of an admitted call. An admitted
/// call, stop or read has cost its environment 1 at its thread. Nothing else is spent.
pub fn refusals_keep()
    ensures { RefusalsKeep }
{}

/// Take two legal histories with the same starts and ends, and the same calls of an environment about its word. They reply
/// equally to these calls, whatever else is in them.
#[tactic(auto, using(crate::proofs::StorageReplies::words_reply_alike))]
pub fn words_reply_alike()
    ensures { WordsReplyAlike }
{}

/// An admitted call for an environment's word at a thread is answered with the word that was stored. If the thread has not
/// started or has ended, the answer is 15.
#[tactic(auto, using(crate::proofs::WordAnswers::word_is_given))]
pub fn words_are_given()
    ensures { WordIsGiven }
{}

/// What an environment learns of its own word depends only on its own calls about it.
#[tactic(auto, using(crate::proofs::WordAnswers::env_words_follow))]
pub fn env_words_follow_their_calls()
    ensures { EnvWordsFollowTheirCalls }
{}

/// From when a thread is standing for an environment until that environment lets it go, it stays as it is. No event of the
/// thread's own is accepted, and its mode stays. Its frames stay too, but for one frame for each pop that is done, the
/// newest first. All reads of the environment show the one mode and these frames.
pub fn one_state_under_a_stop()
    ensures { OneStateUnderAStop }
{}

/// A thread's own entries alone say what mode it is in, and what it has spent.
pub fn own_entries_say_the_mode()
    ensures mode { ModeIsOwn }
    ensures costs { OwnCostsAreOwn }
{}

/// An environment's own entries alone say what it has spent at a thread, and the number of its next call there.
pub fn environments_count_apart()
    ensures costs { CallCostsAreItsOwn }
    ensures numbers { NumbersAreItsOwn }
{}

/// What others do at a thread changes neither its mode, nor what it has spent, nor whether its logged steps may come. While
/// it runs, it does not change its frames either.
pub fn threads_are_left_alone()
    ensures { LeftAlone }
{}

/// An environment's own entries alone say whether its stop is in force at a thread.
#[tactic(auto, using(crate::proofs::FrontLaws::stops_are_own))]
pub fn stops_are_own()
    ensures { StopsAreOwn }
{}

/// A prefix of a history leaves the thread standing for an environment. Until that environment lets it go, the thread makes
/// no entry of its own, and stays in its mode. Its frames are those of the prefix, after the pops since. The environment's
/// own entries alone say that it has not let the thread go.
pub fn fronts_stay()
    ensures fronts { FrontsStay }
    ensures own { FrontsStayByOwn }
{}

/// What a read shows of a later prefix, it shows of the first that left the thread standing. That is its mode, and its
/// frames after all pops since. So all reads of an environment between its stop and its go show one prefix.
pub fn fronts_tell()
    ensures { FrontsTell }
{}

ghost use Rattle.ti_replay.specs.Laws.{WordIsLast, HistoryIsBounded, HistoryIsLegal, SettledStays, ReplyStays, CallsChangeWhereDone};
ghost use Rattle.ti_replay.specs.Agreement.{TellsTheKept};
ghost use Rattle.ti_replay.specs.Alone.{LeftAlone};
ghost use Rattle.ti_replay.specs.Fronts.{StopsAreOwn, FrontsStay, FrontsStayByOwn, FrontsTell};
ghost use Rattle.ti_replay.specs.LateSteps.{StepsMayBeLate};
ghost use Rattle.ti_replay.specs.LateTickets.{StepsComeLate, StepsStayLegal, TicketIsPlace};
ghost use Rattle.ti_replay.specs.Makers.{ModeIsOwn, OwnCostsAreOwn, CallCostsAreItsOwn, NumbersAreItsOwn};
ghost use Rattle.ti_replay.specs.Refused.{RefusalsKeep};
ghost use Rattle.ti_replay.specs.Standing.{StandsStill, OneStateUnderAStop};
ghost use Rattle.ti_replay.specs.Suspensions.{SuspensionsStay, TracesAgree, SuspensionsTakeHold, SuspendedRest, SuspendedTracesAgree};
ghost use Rattle.ti_replay.specs.Storage.{WordsReplyAlike, WordIsGiven, EnvWordsFollowTheirCalls};
