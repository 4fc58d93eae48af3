//! The words of documents, what each takes, and the words that users write for them.

/// The words of calls at one thread, and these after them.
macro_rules! calls_and {
    ($($more:literal),*) => {
        &["state", "count", "trace", "location", "suspend", "resume", "get", "set", "pop", $($more),*]
    };
}

/// These words, and the kinds of blocks after them.
macro_rules! and_kinds {
    ($($word:literal),*) => {
        &[$($word,)* "monitor", "wait", "timed_wait", "sleep", "park", "timed_park"]
    };
}

/// What an element of an item is to be.
#[derive(Clone, Copy, Debug, PartialEq, Eq)]
pub(crate) enum Takes {
    Thread,
    Threads,
    Method,
    Place,
    Block,
    Start,
    Count,
    Depth,
    Word,
    Caps,
    Agent,
    CallNumber,
    MethodNumber,
    Hand,
    Asked,
}

impl Takes {
    /// What the element is called.
    pub(crate) fn text(self) -> &'static str {
        match self {
            Takes::Thread => "a thread",
            Takes::Threads => "an array of threads",
            Takes::Method => "a method",
            Takes::Place => "a place",
            Takes::Block => "a kind of block",
            Takes::Start => "a start",
            Takes::Count => "a count",
            Takes::Depth => "a depth",
            Takes::Word => "a word of 64 bits",
            Takes::Caps => "an array of capabilities",
            Takes::Agent => "an agent's number",
            Takes::CallNumber => "the number of its call",
            Takes::MethodNumber => "a method's number",
            Takes::Hand => "'native', 'poll' or a kind of block",
            Takes::Asked => "the call that is asked",
        }
    }

    /// The range of a number, or `None` if the element is no number.
    pub(crate) fn range(self) -> Option<&'static str> {
        match self {
            Takes::Place | Takes::Agent | Takes::CallNumber | Takes::MethodNumber => {
                Some("0 to 4,294,967,295")
            }
            Takes::Start | Takes::Count | Takes::Depth => {
                Some("-2,147,483,648 to 2,147,483,647")
            }
            Takes::Word => Some("0 to 18,446,744,073,709,551,615"),
            _ => None,
        }
    }
}

/// Whose words they are.
#[derive(Clone, Copy, Debug, PartialEq, Eq)]
pub(crate) enum Speaker {
    /// A thread, in a walk and in a live script.
    Thread,
    /// An agent of a walk.
    Agent,
    /// An agent of a live script.
    Caller,
    /// A history.
    History,
    /// A call behind `asked` in a history.
    Asked,
}

impl Speaker {
    /// Whose words they are, as a possessive.
    pub(crate) fn text(self) -> &'static str {
        match self {
            Speaker::Thread => "a thread",
            Speaker::Agent => "an agent",
            Speaker::Caller => "an agent of a live script",
            Speaker::History => "a history",
            Speaker::Asked => "a call that is asked",
        }
    }

    /// All its words.
    pub(crate) fn words(self) -> &'static [&'static str] {
        match self {
            Speaker::Thread => &[
                "start",
                "enter",
                "enter_native",
                "at",
                "leave",
                "poll",
                "native",
                "block",
                "back",
                "end",
            ],
            Speaker::Agent => {
                calls_and!(
                    "stop",
                    "read",
                    "go",
                    "add",
                    "relinquish",
                    "caps",
                    "setenv",
                    "getenv"
                )
            }
            Speaker::Caller => {
                calls_and!(
                    "add",
                    "relinquish",
                    "caps",
                    "setenv",
                    "getenv",
                    "suspend_list",
                    "resume_list",
                    "all",
                    "list"
                )
            }
            Speaker::History => &[
                "start",
                "enter",
                "enter_native",
                "at",
                "leave",
                "hand",
                "back",
                "end",
                "asked",
                "stop",
                "read",
                "go",
            ],
            Speaker::Asked => calls_and!(),
        }
    }

    /// What comes after this word. `None` if the word is not the speaker's.
    pub(crate) fn takes(self, word: &str) -> Option<&'static [Takes]> {
        match self {
            Speaker::Thread => thread_takes(word),
            Speaker::Agent => agent_takes(word),
            Speaker::Caller => caller_takes(word),
            Speaker::History => history_takes(word),
            Speaker::Asked => asked_takes(word),
        }
    }
}

fn thread_takes(word: &str) -> Option<&'static [Takes]> {
    match word {
        "start" | "leave" | "poll" | "native" | "back" | "end" => Some(&[]),
        "enter" | "enter_native" => Some(&[Takes::Method]),
        "at" => Some(&[Takes::Place]),
        "block" => Some(&[Takes::Block]),
        _ => None,
    }
}

/// What comes after the words that an agent has in walks and in live scripts.
fn call_takes(word: &str) -> Option<&'static [Takes]> {
    match word {
        "state" | "count" | "suspend" | "resume" | "get" | "pop" => Some(&[Takes::Thread]),
        "trace" => Some(&[Takes::Thread, Takes::Start, Takes::Count]),
        "location" => Some(&[Takes::Thread, Takes::Depth]),
        "set" => Some(&[Takes::Thread, Takes::Word]),
        "add" | "relinquish" => Some(&[Takes::Caps]),
        "caps" | "getenv" => Some(&[]),
        "setenv" => Some(&[Takes::Word]),
        _ => None,
    }
}

fn agent_takes(word: &str) -> Option<&'static [Takes]> {
    match word {
        "stop" | "go" => Some(&[Takes::Thread]),
        "read" => Some(&[Takes::Thread, Takes::Count]),
        _ => call_takes(word),
    }
}

fn caller_takes(word: &str) -> Option<&'static [Takes]> {
    match word {
        "suspend_list" | "resume_list" => Some(&[Takes::Threads]),
        "all" => Some(&[Takes::Count]),
        "list" => Some(&[Takes::Threads, Takes::Count]),
        _ => call_takes(word),
    }
}

fn history_takes(word: &str) -> Option<&'static [Takes]> {
    match word {
        "start" | "leave" | "back" | "end" => Some(&[]),
        "enter" | "enter_native" => Some(&[Takes::MethodNumber]),
        "at" => Some(&[Takes::Place]),
        "hand" => Some(&[Takes::Hand]),
        "asked" => Some(&[Takes::Agent, Takes::CallNumber, Takes::Asked]),
        "stop" | "go" => Some(&[Takes::Agent]),
        "read" => Some(&[Takes::Agent, Takes::Count]),
        _ => None,
    }
}

fn asked_takes(word: &str) -> Option<&'static [Takes]> {
    match word {
        "state" | "count" | "suspend" | "resume" | "get" | "pop" => Some(&[]),
        "trace" => Some(&[Takes::Start, Takes::Count]),
        "location" => Some(&[Takes::Depth]),
        "set" => Some(&[Takes::Word]),
        _ => None,
    }
}

/// The kinds of blocks.
pub(crate) fn kinds() -> &'static [&'static str] {
    and_kinds!()
}

/// What may come after `hand`.
pub(crate) fn hands() -> &'static [&'static str] {
    and_kinds!("native", "poll")
}

/// The capabilities.
pub(crate) fn capabilities() -> &'static [&'static str] {
    &["can_suspend", "can_pop_frame", "can_tag_objects"]
}

/// The word of documents for a word of JVM TI, or for another that comes to mind.
pub(crate) fn meant_by(word: &str) -> Option<&'static str> {
    match word {
        "environments" | "envs" => Some("agents"),
        "GetThreadState" => Some("state"),
        "GetFrameCount" => Some("count"),
        "GetStackTrace" => Some("trace"),
        "GetFrameLocation" => Some("location"),
        "SuspendThread" => Some("suspend"),
        "ResumeThread" => Some("resume"),
        "SuspendThreadList" => Some("suspend_list"),
        "ResumeThreadList" => Some("resume_list"),
        "GetAllStackTraces" => Some("all"),
        "GetThreadListStackTraces" => Some("list"),
        "GetThreadLocalStorage" => Some("get"),
        "SetThreadLocalStorage" => Some("set"),
        "GetEnvironmentLocalStorage" => Some("getenv"),
        "SetEnvironmentLocalStorage" => Some("setenv"),
        "AddCapabilities" => Some("add"),
        "RelinquishCapabilities" => Some("relinquish"),
        "GetCapabilities" => Some("caps"),
        "PopFrame" => Some("pop"),
        "canSuspend" => Some("can_suspend"),
        "canPopFrame" => Some("can_pop_frame"),
        "canTagObjects" => Some("can_tag_objects"),
        _ => None,
    }
}
