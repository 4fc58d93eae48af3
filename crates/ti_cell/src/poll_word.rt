//! The word at which compiled code of a runtime may look before it polls.

use std::sync::atomic::{AtomicU64, Ordering};

/// A word that is 1 while somebody calls for the thread, and otherwise 0. Contracts do not see it.
///
/// It is written only in a hold of the cell, before the cell's own word is. So a call that the cell shows shows here too, and
/// one that was answered no longer does once the thread's hand-over is stored.
#[derive(Drop)]
pub struct PollWord {
    word: AtomicU64,
}

impl PollWord {
    /// The word of a thread for which nobody calls.
    pub fn clear() -> PollWord {
        PollWord {
            word: AtomicU64::new(0),
        }
    }

    /// Shows whether somebody calls for the thread. It writes only what changes. Returns whether somebody calls now, and nobody
    /// did before.
    #[inline(always)]
    pub fn show(&self, called: bool) -> bool {
        let bits = u64::from(called);
        if self.word.load(Ordering::SeqCst) == bits {
            return false;
        }
        self.word.store(bits, Ordering::SeqCst);
        called
    }

    /// Its address.
    pub fn address(&self) -> *mut u64 {
        self.word.as_ptr()
    }
}
