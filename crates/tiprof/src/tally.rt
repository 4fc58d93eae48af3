//! What was done.

/// What the workers did, and how many new threads came and went.
#[derive(Clone, Copy, Drop)]
pub struct Tally {
    /// How many jobs the workers did.
    pub jobs: u64,
    /// The processor time of the workers, in nanoseconds.
    pub cpu: u64,
    /// How many new threads came and went.
    pub churned: u64,
}

impl Tally {
    /// Nothing yet.
    pub fn nothing() -> Tally {
        Tally {
            jobs: 0,
            cpu: 0,
            churned: 0,
        }
    }

    /// The sums of both.
    pub fn and(self, other: Tally) -> Tally {
        Tally {
            jobs: self.jobs.saturating_add(other.jobs),
            cpu: self.cpu.saturating_add(other.cpu),
            churned: self.churned.saturating_add(other.churned),
        }
    }
}
