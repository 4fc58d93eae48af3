//! Whose suspension is at a thread.

use ti_types::{Answer, TiError, Ticket};

/// What came of the debugger's suspension of a thread. A suspension that is not wanted any more is undone.
#[derive(Clone, Copy)]
pub(crate) enum Hold {
    /// The debugger does not suspend the thread.
    Free,
    /// A suspension was posted, and the thread has not answered it.
    Out {
        ticket: Ticket,
        /// Until when a debugger waits for it, in nanoseconds.
        until: u64,
        /// The debugger has not resumed the thread since.
        wanted: bool,
    },
    /// The agent's own suspension stands.
    Own,
    /// Another environment had suspended the thread before.
    Another,
    /// The agent's own suspension stands, and is to be resumed.
    Owed,
}

/// What a suspension that was out is once the thread has answered.
pub(crate) fn answered_by(answer: &Answer, wanted: bool) -> Hold
    ensures { result ≡ answered_by (said answer.now) wanted }
{
    match answer {
        Answer::Done => { if wanted { Hold::Own } else { Hold::Owed } }
        Answer::Refused(TiError::ThreadSuspended) => {
            if wanted { Hold::Another } else { Hold::Free }
        }
        _ => Hold::Free,
    }
}

impl Hold {
    /// The debugger does not suspend the thread any more. What stands, or will, is to be undone.
    pub(crate) fn let_go(self) -> Hold
        ensures { result ≡ let_go self }
    {
        match self {
            Hold::Free | Hold::Another => Hold::Free,
            Hold::Out { ticket, until, .. } => Hold::Out {
                ticket,
                until,
                wanted: false,
            },
            Hold::Own | Hold::Owed => Hold::Owed,
        }
    }

    /// The debugger suspends the thread again, before its suspension was undone. `None` if there is nothing to go on from, so that a
    /// suspension has to be posted.
    pub(crate) fn again(self, until: u64) -> Option<Hold>
        ensures { result ≡ again self until }
    {
        match self {
            Hold::Free | Hold::Another => None,
            Hold::Out { ticket, .. } => Some(Hold::Out {
                ticket,
                until,
                wanted: true,
            }),
            Hold::Own | Hold::Owed => Some(Hold::Own),
        }
    }

    /// Whether a debugger still waits for the suspension at this time.
    pub(crate) fn is_awaited(self, now: u64) -> bool
        ensures { result ≡ is_awaited self now }
    {
        match self {
            Hold::Out { until, wanted, .. } => wanted && now < until,
            _ => false,
        }
    }

    /// Whether the agent has something to do at the thread: an answer to collect, or a suspension to undo.
    pub(crate) fn is_open(self) -> bool
        ensures { result ≡ is_open self }
    {
        matches!(self, Hold::Out { .. } | Hold::Owed)
    }
}

ghost use Rattle.std.specs.Prelude.{◌≡◌};
ghost use Rattle.ti_types.specs.Answer.{said};
ghost use Rattle.ti_debugger.specs.Holding.{answered_by, let_go, again, is_awaited, is_open};
