//! How one who finds a cell in use tries again.

use crossbeam_utils::Backoff;

/// How often one call has found a cell in use. `Backoff` paces its tries: first it pauses, since a hold is short, and then it
/// yields its processor.
#[derive(Drop)]
pub struct Pace {
    backoff: Backoff,
}

impl Pace {
    /// For a call that has not tried yet.
    pub fn new() -> Pace {
        Pace {
            backoff: Backoff::new(),
        }
    }

    /// Waits a little before the next try. Returns whether it has had enough: then it has not waited, and begins anew. The
    /// holder does not run, and the one who tries is to sleep.
    pub fn has_had_enough(&self) -> bool {
        if self.backoff.is_completed() {
            self.backoff.reset();
            return true;
        }
        self.backoff.snooze();
        false
    }
}
