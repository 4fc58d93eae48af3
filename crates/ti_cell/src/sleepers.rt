//! How many sleep on a cell's word, and what for.
use crate::word::Word;
use std::sync::atomic::{AtomicU64, Ordering};

/// What a sleeper waits for.
#[derive(Clone, Copy)]
pub enum WakeCondition {
    /// That nobody holds the cell.
    Free,
    /// That the history has more entries than this.
    More(u64),
    /// That the thread is not barred.
    Unbarred,
}

impl WakeCondition {
    /// Whether the word shows what is waited for. If it does not, one may sleep.
    pub fn is_met(self, word: Word) -> bool {
        match self {
            WakeCondition::Free => word.is_free(),
            WakeCondition::More(count) => word.look().count > count,
            WakeCondition::Unbarred => !word.look().barred,
        }
    }

    /// What a sleeper with this condition adds to the count.
    fn weight(self) -> u64 {
        match self {
            WakeCondition::Free | WakeCondition::More(_) => 1,
            WakeCondition::Unbarred => UNBARRED,
        }
    }
}

/// What a sleeper adds to the count if it waits until the thread is not barred. Each other one adds 1, and there are fewer
/// of them than this.
const UNBARRED: u64 = 1 << 32;

/// How many sleep on a cell's word, or are about to. Contracts do not see it.
///
/// A thread that is about to sleep first counts itself, and then looks at the word. A thread that stores first changes the word,
/// and then loads the count. All four steps have one order, so one of the two sees what the other did. Either the sleeper finds
/// another word than it would sleep on, or the storer finds the sleeper and wakes it.
#[derive(Drop)]
pub struct Sleepers {
    count: AtomicU64,
}

impl Sleepers {
    /// Nobody sleeps.
    pub fn nobody() -> Sleepers {
        Sleepers {
            count: AtomicU64::new(0),
        }
    }

    /// Whether somebody sleeps, or is about to, by one load.
    #[inline(always)]
    pub fn are_there(&self) -> bool {
        self.count.load(Ordering::SeqCst) != 0
    }

    /// Whether somebody has to be woken after this word was stored, by one load. If the thread is still barred, the store
    /// does not matter to a sleeper that waits until it is not.
    pub fn are_called(&self, word: Word) -> bool {
        let count = self.count.load(Ordering::SeqCst);
        count != 0 && (count % UNBARRED != 0 || WakeCondition::Unbarred.is_met(word))
    }

    /// Counts a thread that is about to sleep.
    pub fn add(&self, condition: WakeCondition) {
        self.count.fetch_add(condition.weight(), Ordering::SeqCst);
    }

    /// No longer counts a thread that has woken.
    pub fn remove(&self, condition: WakeCondition) {
        self.count.fetch_sub(condition.weight(), Ordering::SeqCst);
    }
}
