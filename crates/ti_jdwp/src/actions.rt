//! What a session asks its driver to do, and what the driver says of it.

use crate::error::JdwpError;
use crate::plan::Wish;
use crate::request::Request;
use crate::stops::Standing;

/// What the driver does next. Threads have their numbers.
#[derive(Clone, Copy, Debug, PartialEq, Eq)]
pub enum Action {
    /// Call `next` again.
    Again,
    /// Answer this request, by `reply` with the body of the reply or by `refuse`, now or later. Ranges are those of `data`.
    Ask(Request),
    /// List the threads that are alive, each once, by `threads`.
    ListThreads,
    /// Post a suspension of this thread, and say by `suspended` what came of it.
    Suspend(u32),
    /// Wait until all suspensions that were posted stand, for one second at most, and then call `settled`.
    Settle,
    /// Resume this thread. There is nothing to say of it.
    Resume(u32),
    /// Set a breakpoint at this location of a method of a class, and say by `placed` what came of it.
    SetBreakpoint { class: u32, method: u32, index: u32 },
    /// Say by `located` where this thread stands.
    Locate(u32),
    /// A stop of this thread was told: let it go on, where nothing suspends it. There is nothing to say of it.
    LetGo(u32),
    /// Write `output` to the socket, and tell how much it took by `written`.
    Write,
    /// Close the socket. Nothing more comes.
    Close,
    /// Nothing, until the socket gives more, an event comes, or the answer that is due is there.
    Wait,
}

/// What came of a suspension that the driver posted.
#[derive(Clone, Copy, Debug, PartialEq, Eq)]
pub enum Posted {
    /// The thread is suspended, or will be at its next safe point.
    Suspended,
    /// 14 THREAD_SUSPENDED (JVM TI 11): another environment suspended it before.
    ByAnother,
    /// 15 THREAD_NOT_ALIVE (JVM TI 11): it has ended, or did not begin.
    NotAlive,
    /// 10 INVALID_THREAD (JVM TI 11): there is no such thread.
    Unknown,
}

/// What is suspended for which reason.
#[derive(Clone, Copy)]
pub(crate) enum Purpose {
    /// The request for one thread.
    One,
    /// The request for all threads.
    All,
    /// An event.
    Event,
    /// Nothing: the session ends.
    End,
}

/// Where a session is.
#[derive(Clone, Copy)]
pub(crate) enum Phase {
    /// The handshake did not come yet.
    Greeting,
    /// No request is worked on.
    Ready,
    /// The driver answers the request that stands first in the input.
    Asking,
    /// The driver lists the threads, which are to be suspended.
    Listing(Purpose),
    /// The threads in the list are suspended, one after the other.
    Stopping(Purpose),
    /// The driver suspends this thread.
    Suspending { purpose: Purpose, thread: u32 },
    /// There was no memory to count the suspension of this thread, so it is resumed.
    Undoing { purpose: Purpose, thread: u32 },
    /// The driver waits until the suspensions stand.
    Settling(Purpose),
    /// All is done, but for the reply or the event.
    Finishing(Purpose),
    /// The suspended thread is unknown, which is to be the reply.
    Refusing,
    /// A request for events is in force, and its number is to be the reply.
    Numbered(u32),
    /// The driver sets the breakpoint of a request for events.
    Placing(Wish),
    /// The driver says where the thread stands that is to step.
    Locating(Wish),
    /// A request for events is to be put in force, for a thread that stands there.
    Putting { wish: Wish, standing: Standing },
    /// The request that is worked on is refused by this error.
    Denied(JdwpError),
    /// The threads in the list are resumed, one after the other.
    Resuming,
    /// What the debugger suspended is resumed, and then the connection closes.
    Ending,
    Closed,
}
