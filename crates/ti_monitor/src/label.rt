//! What a sample is counted under beside its stack.

use crate::watched::Watched;
use ti_http::Labels;

/// The number of no thread, no state and no function: a sample or a frame that has it has no name for it.
pub(crate) const NONE: u32 = u32::MAX;

/// A thread and a state, by their places among the names. `NONE` leaves one out.
#[derive(Clone, Copy)]
pub(crate) struct Label {
    pub(crate) thread: u32,
    pub(crate) state: u32,
}

impl Label {
    /// What these labels keep of it.
    pub(crate) fn only(self, labels: Labels) -> Label
        ensures { result ≡ label_only labels self }
    {
        let Label { thread, state } = self;
        match labels {
            Labels::None => Label {
                thread: NONE,
                state: NONE,
            },
            Labels::Thread => Label {
                thread,
                state: NONE,
            },
            Labels::State => Label {
                thread: NONE,
                state,
            },
            Labels::ThreadAndState => Label { thread, state },
        }
    }
}

/// What the samples of the thread at a place are counted under. That is nothing if there is no such thread.
pub(crate) fn label_at(watched: &[Watched], place: usize, kept: Labels) -> Label
    ensures { result ≡ label_at watched.now kept place }
{
    match watched.get(place) {
        None => Label {
            thread: NONE,
            state: NONE,
        },
        Some(thread) => Label {
            thread: place.min(NONE as usize) as u32,
            state: thread.named_state(),
        }
        .only(kept),
    }
}

ghost use Rattle.std.specs.Prelude.{◌≡◌};
ghost use Rattle.ti_monitor.specs.Labels.{label_only};
ghost use Rattle.ti_monitor.specs.Watching.{label_at};
