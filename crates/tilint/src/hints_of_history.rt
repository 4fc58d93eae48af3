//! The warning about a history: its first illegal entry.

use crate::explanation::Explanation;
use crate::place::Place;
use std::alloc::{AllocError, Global};
use ti_script::MemberName;
use ti_types::{Entry, Safe, Step};

/// What an entry needs.
fn needs_of(entry: &Entry) -> &'static str {
    match entry {
        Entry::Start => "a start needs a new thread and no stop in force",
        Entry::Own(Step::Enter(_)) | Entry::Own(Step::EnterNative(_)) => {
            "it needs a thread that runs, fewer frames than limits.depth, and 1 left of limits.own"
        }
        Entry::Own(Step::At(_)) => {
            "it needs a thread that runs, a newest frame that is not native, and 1 left of limits.own"
        }
        Entry::Own(Step::Leave) => {
            "it needs a thread that runs, a frame, and 1 left of limits.own"
        }
        Entry::Hand(Safe::Native) => {
            "it needs a thread that runs, a newest frame that is native, and 2 left of limits.own"
        }
        Entry::Hand(Safe::AtPoll) => { "it needs a thread that runs, and a waiting call or a stop" }
        Entry::Hand(Safe::Blocked(_)) => "it needs a thread that runs, and 2 left of limits.own",
        Entry::Back => "a return needs a thread that is safe, not suspended and not stopped",
        Entry::End => "an end needs a thread that runs",
        Entry::Asked(_, _, _) => {
            "it needs an agent that is there, the number of its calls so far, no negative count or depth, and 1 left of limits.calls"
        }
        Entry::Stop(_) => {
            "a stop needs an agent that is there, no stop in force, and 1 left of limits.calls"
        }
        Entry::Read(_, _) => {
            "a read needs the agent's own stop, a thread that does not run, no negative count, and 1 left of limits.calls"
        }
        Entry::Go(_) => "a go needs the agent's own stop",
    }
}

/// The warning about the entry of this number, which is the first illegal one.
pub(crate) fn illegal_hint(
    alloc: Global,
    entries: &[Entry],
    at: usize,
) -> Result<Explanation, AllocError> {
    let needs = match entries.get(at) {
        Some(entry) => needs_of(entry),
        None => "",
    };
    let words = format!(in alloc; "the first illegal entry: {needs}")?;
    Ok(Explanation::at(Place::of_element(MemberName::Entries, at), words))
}
